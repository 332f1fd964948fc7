//! The rule in the plain case: prices that fall by a list, tests by facility, and an auction by values.

ghost use Rattle.std.specs.Prelude.{◌≡◌, ◌+◌, ℕ, List, None, length};
ghost use Rattle.pack_defs.specs.declared.fall.Fall.{Fall};
ghost use Rattle.pack_defs.specs.declared.order.Order.TheVariants.{ByFacility};
ghost use Rattle.pack_defs.specs.declared.scenario.Scenario.{Scenario};
ghost use Rattle.pack_defs.specs.Prices.{bidders, declines, declines_by_value, prices, prices_from};
ghost use Rattle.pack_defs.specs.ClockRule.{clock_tests, tests_of};

/// With a list of decrements, the prices are the opening one and then each less by its decrement. By facility, each round from the
/// first to the one after the last decrement tests the bidders in the order of their numbers. In an auction by values, a station
/// declines by its value.
pub fn prove_rule_by_list()
    ensures prices { (sc : Scenario) (decrements : List ℕ) → sc.fall ≡ Fall.Listed decrements → prices sc ≡ prices_from sc.opening decrements }
    ensures tests { (sc : Scenario) (decrements : List ℕ) → sc.fall ≡ Fall.Listed decrements → clock_tests sc ByFacility ≡ tests_of (bidders sc) 1 (length decrements + 1) }
    ensures declines { (sc : Scenario) (s r : ℕ) → sc.owners ≡ None → declines sc s r ≡ declines_by_value sc s r }
{}
