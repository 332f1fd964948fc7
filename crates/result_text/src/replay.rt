//! Replays the steps of a finished auction on a clock, to find the outcome of each station. `rows` and `counts` call
//! it.

ghost use Rattle.std.specs.Prelude.{◌≡◌, ◌<◌, IfOk};
ghost use Rattle.pack_defs.specs.Scenario.{IsWithinLimits, facilities};
ghost use Rattle.auction_core.specs.Backed.{IsBacked, is_undecided, undecided_of};
ghost use Rattle.auction_core.specs.Clock.{IsClockOf};
ghost use Rattle.result_text.specs.ResultText.{each_frozen_by, final_state};

use auction_core::clock::Clock;
use auction_core::record::{Ending, Record, Shown};
use auction_core::station_list::place_of;
use offer_sched::offers::schedule;
use pack_defs::book::Book;
use std::alloc::{AllocError as NoMemory, Global};

/// The outcome of each station, in the scenario's order.
#[derive(Debug, Drop)]
pub(crate) struct Outcomes {
    pub(crate) clock: Clock,
    /// Whether an undecided test froze the station.
    pub(crate) undecided: Vec<bool>,
}

// Whether every worker spent its budget on the test.
fn is_undecided(shown: &Shown) -> bool
    ensures { result ≡ is_undecided shown.now }
{
    matches!(shown, Shown::Undecided(_))
}

/// Returns the outcome of each station of a finished auction. The steps move the clock in order, and the last step of
/// a station says whether the station is undecided. The book is for the contract only. Fails only if memory runs out.
pub(crate) fn final_outcomes(alloc: Global, rec: &Record, book: &Book) -> Result<Outcomes, NoMemory>
    requires backed { IsBacked rec.now.scenario book.now rec.now.order rec.now }
    requires done { rec.now.ending ≡ Ending.Done }
    requires limits { IsWithinLimits rec.now.scenario }
    ensures clock { IfOk result (λ o. IsClockOf rec.now.scenario (final_state rec.now book.now) o.clock) }
    ensures undecided { IfOk result
        (λ o. o.undecided.items ≡ each_frozen_by (undecided_of rec.now.steps) (facilities rec.now.scenario) o.clock.station_statuses) }
{
    book.keeps_order();
    let sc = &rec.scenario;
    let prices = schedule(alloc, sc)?;
    let mut clock = Clock::open(alloc, sc)?;
    let mut undecided = vec![in alloc; false; sc.stations.as_slice().len()]?;
    for step in rec.steps.as_slice() {
        match place_of(sc.stations.as_slice(), step.station) {
            Some(i) => {
                clock.settle(sc, &prices, i, step.round, step.shown.shows_room());
                undecided[i] = is_undecided(&step.shown);
            }
            None => unreachable!(),
        }
    }
    Ok(Outcomes { clock, undecided })
}
