//! The law that each bought station is paid its threshold price.

ghost use Rattle.std.specs.Prelude.{◌≡◌, [], Contains, None};
ghost use Rattle.pack_defs.specs.Scenario.{StationsAscend};
ghost use Rattle.pack_defs.specs.ClockRule.{FrozenAt, clock_rule};
ghost use Rattle.pack_defs.specs.Threshold.{IsThresholdPrice};

use pack_defs::book::Book;
use pack_defs::order::Order;
use pack_defs::scenario::Scenario;

/// The price of a frozen station is the greatest admissible value with which the station would have been bought. This holds in an
/// auction by values with every test decided and the tests of a round in this order. For clock auctions it is a theorem of Milgrom and
/// Segal (2020).
pub fn paid_is_greatest(sc: &Scenario, book: &Book, station: u32, order: Order)
    requires ascend { StationsAscend sc.now }
    requires by_value { sc.now.owners ≡ None }
    ensures { (f : FrozenAt) → Contains (clock_rule sc.now book.now order []).frozen f → f.station ≡ station →
        IsThresholdPrice sc.now book.now order station f.price }
{}
