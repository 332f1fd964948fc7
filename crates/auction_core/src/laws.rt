//! Laws of the auction's definitions, and the worked example, posting by posting. Each function is empty; its clauses are the law.

ghost use Rattle.std.specs.Prelude.{false, Option, ◌≡◌, List, [], ◌∷◌, ◌++◌, Some, None, true, map};
ghost use Rattle.std.specs.List.{list_any};
ghost use Rattle.pack_defs.specs.Examples.{three_stations, lone_station, lone_bid, row, test};
ghost use Rattle.pack_defs.specs.ResultRows.{Outcome};
ghost use Rattle.pack_defs.specs.declared.order.Order.TheVariants.{ByFacility};
ghost use Rattle.pack_defs.specs.Book.{BookView};
ghost use Rattle.pack_defs.specs.Packing.{IsClean};
ghost use Rattle.pack_defs.specs.declared.order.Order.{Order};
ghost use Rattle.pack_defs.specs.declared.scenario.Scenario.{Scenario};
ghost use Rattle.pack_defs.specs.ClockRule.{clock_rule, on_air_set};
ghost use Rattle.cert_types.specs.Examples.{learner};
ghost use Rattle.auction_core.specs.State.{CoreState, test_of, before_start, opening, has_ended};
ghost use Rattle.auction_core.specs.Take.{PostingView, after_postings, fault_of, is_noted, take, unjudged_reply};
ghost use Rattle.auction_core.specs.Backed.{IsBacked, is_outside, record_of, undecided_of};
ghost use Rattle.auction_core.specs.Postings.{Continues, HoldsAfter, HoldsFrom, state_of};
ghost use Rattle.auction_core.specs.Prefix.{IsPrefix, resumed};
ghost use Rattle.auction_core.specs.Replay.{EntryView, replay, replay_from};
ghost use Rattle.auction_core.specs.Said.{JudgesAnswer, taken, with_answer};
ghost use Rattle.auction_core.specs.Rule.{IsAuction, KeepsTheRule};
ghost use Rattle.auction_core.specs.Examples.{auction_of_three, posting, fit, refuted, one_line, three_fits, four_fits, state_after, all_on_air, start_after, no_station, lone_start, other_fits, rows_after, replies_to, of_each_kind, one_of_five, five_bids, five_after, fits_beside_second, second_after, steps_beside_second};

use crate::posting::{Posting, Reply};
use crate::record::{Ending, Record, Shown, Step};
use cert_types::answer::{Answer, Place, Receipt};

/// At the fourth query, an answer to the third gets the reply `WrongQuery`. After the fifth query the auction has ended.
pub fn prove_old_answer_is_wrong_query()
    ensures fourth { (state_after (learner 1000 ∷ []) three_fits).number ≡ 4 }
    ensures wrong_query { let state = state_after (learner 1000 ∷ []) three_fits in (take (auction_of_three (learner 1000 ∷ [])) three_stations state (posting 0 3 (fit 3 15))).0 ≡ Reply.WrongQuery 4 }
    ensures last { let state = state_after (learner 1000 ∷ []) four_fits in (take (auction_of_three (learner 1000 ∷ [])) three_stations state (posting 0 5 refuted)).0 ≡ Reply.Advanced None }
    ensures ended { let state = state_after (learner 1000 ∷ []) (four_fits ++ posting 0 5 refuted ∷ []) in (take (auction_of_three (learner 1000 ∷ [])) three_stations state (posting 0 6 refuted)).0 ≡ Reply.Ended }
    ensures number { (state_after (learner 1000 ∷ []) (four_fits ++ posting 0 5 refuted ∷ [])).number ≡ 6 }
{}

/// Two workers post receipts at the fifth query: the first receipt becomes pending, a second of the same worker gets
/// `AlreadySpent`, and the other worker's settles the test.
pub fn prove_two_receipts()
    ensures noted { let state = state_after (learner 1 ∷ learner 1 ∷ []) four_fits in (take (auction_of_three (learner 1 ∷ learner 1 ∷ [])) three_stations state (posting 0 5 one_line)).0 ≡ Reply.Noted }
    ensures again { let state = state_after (learner 1 ∷ learner 1 ∷ []) (four_fits ++ posting 0 5 one_line ∷ []) in (take (auction_of_three (learner 1 ∷ learner 1 ∷ [])) three_stations state (posting 0 5 one_line)).0 ≡ Reply.AlreadySpent }
    ensures settled { let state = state_after (learner 1 ∷ learner 1 ∷ []) (four_fits ++ posting 0 5 one_line ∷ []) in (take (auction_of_three (learner 1 ∷ learner 1 ∷ [])) three_stations state (posting 1 5 one_line)).0 ≡ Reply.Advanced None }
    ensures stranger { let state = state_after (learner 1 ∷ learner 1 ∷ []) four_fits in (take (auction_of_three (learner 1 ∷ learner 1 ∷ [])) three_stations state (posting 2 5 (fit 3 15))).0 ≡ Reply.Stranger }
{}

/// A posting leaves the state unchanged if it is turned away, its answer is invalid, or a receipt of its worker is pending already.
pub fn prove_rejected_posting_changes_nothing()
    ensures turned { (sc : Scenario) (book : BookView) (state : CoreState) (p : PostingView) (reply : Reply) → unjudged_reply sc state p.worker p.number ≡ Some reply → take sc book state p ≡ (reply, state) }
    ensures rejected { (sc : Scenario) (book : BookView) (state : CoreState) (p : PostingView) (place : Place) → unjudged_reply sc state p.worker p.number ≡ None → fault_of sc book state p ≡ Some place → take sc book state p ≡ (Reply.Rejected place, state) }
    ensures again { (sc : Scenario) (book : BookView) (state : CoreState) (p : PostingView) (receipt : Receipt) → unjudged_reply sc state p.worker p.number ≡ None → fault_of sc book state p ≡ None → p.answer ≡ Answer.Spent receipt → is_noted state.noted p.worker ≡ true → take sc book state p ≡ (Reply.AlreadySpent, state) }
{}

/// A posting whose answer was checked before does what a posting with that answer does.
pub fn prove_judged_before()
    ensures { (sc : Scenario) (book : BookView) (state : CoreState) (posting : Posting) (answer : Answer) → JudgesAnswer sc book state posting answer → taken sc book state posting ≡ take sc book state (with_answer posting answer) }
{}

/// The law of all postings, by any workers, in any order, stale, doubled or lying. Their history replays to the state, the state
/// keeps the clock rule, and once the auction has ended its record is backed.
///
/// Every beginning of a list of postings is a list of postings too, so the law holds at each point of an auction. Memory plays no
/// part in it.
pub fn prove_any_postings_replay()
    ensures { (sc : Scenario) (book : BookView) (order : Order) (postings : List PostingView) → IsAuction sc book → HoldsAfter sc book order postings }
{}

/// The state to which a history replays keeps the clock rule, and its record is backed once the auction has ended. A history is any
/// list of entries that replays, whoever kept it.
pub fn prove_replay_keeps_rule()
    ensures rule { (sc : Scenario) (book : BookView) (order : Order) (history : List EntryView) (state : CoreState) → IsAuction sc book → replay sc book order history ≡ Some state → KeepsTheRule sc book state }
    ensures order { (sc : Scenario) (book : BookView) (order : Order) (history : List EntryView) (state : CoreState) → replay sc book order history ≡ Some state → state.order ≡ order }
    ensures backed { (sc : Scenario) (book : BookView) (order : Order) (history : List EntryView) (state : CoreState) → IsAuction sc book → replay sc book order history ≡ Some state → has_ended state ≡ true → IsBacked sc book order (record_of sc state) }
{}

/// The same law from any state that keeps the clock rule, such as one from which an auction continues. Whatever is posted, the
/// history replays from that state to the later one. The later state has the same start, begins with the same steps, and adds none
/// settled by a proof from outside. It keeps the clock rule, and once the auction has ended its record is backed.
pub fn prove_any_postings_replay_from()
    ensures { (sc : Scenario) (book : BookView) (first : CoreState) (postings : List PostingView) → IsAuction sc book → KeepsTheRule sc book first → HoldsFrom sc book first postings }
{}

/// The state to which a history replays continues the state from which it was replayed, and keeps the clock rule if that state
/// does.
pub fn prove_replay_continues_state()
    ensures continues { (sc : Scenario) (book : BookView) (first : CoreState) (history : List EntryView) (state : CoreState) → replay_from sc book history first ≡ Some state → Continues first state }
    ensures rule { (sc : Scenario) (book : BookView) (first : CoreState) (history : List EntryView) (state : CoreState) → IsAuction sc book → KeepsTheRule sc book first → replay_from sc book history first ≡ Some state → KeepsTheRule sc book state }
{}

/// An auction that continues after a start and some first steps keeps the clock rule, if the start and each step are properly
/// settled. Its state has that start and begins with those steps, and so does every state after further postings.
pub fn prove_continued_auction()
    ensures rule { (sc : Scenario) (book : BookView) (order : Order) (start : Option Shown) (steps : List Step) → IsAuction sc book → IsPrefix sc book order start steps → KeepsTheRule sc book (resumed sc book order start steps) }
    ensures continues { (sc : Scenario) (book : BookView) (order : Order) (start : Option Shown) (steps : List Step) (postings : List PostingView) → IsAuction sc book → IsPrefix sc book order start steps → Continues (record (before_start sc order) { start = start; steps = steps }) (after_postings sc book postings (resumed sc book order start steps)) }
{}

/// No posting makes a proof from outside: after any postings, no step is settled by one.
pub fn prove_no_posting_is_from_outside()
    ensures { (sc : Scenario) (book : BookView) (order : Order) (postings : List PostingView) → list_any (λ x. is_outside x.shown) (state_of sc book order postings).steps ≡ false }
{}

/// The state with which an auction opens keeps the clock rule, and so does the state after any one posting.
pub fn prove_posting_keeps_rule()
    ensures opening { (sc : Scenario) (book : BookView) (order : Order) → IsAuction sc book → KeepsTheRule sc book (opening sc book order) }
    ensures posting { (sc : Scenario) (book : BookView) (state : CoreState) (p : PostingView) → IsAuction sc book → KeepsTheRule sc book state → KeepsTheRule sc book (take sc book state p).1 }
    ensures order { (sc : Scenario) (book : BookView) (state : CoreState) (p : PostingView) → (take sc book state p).1.order ≡ state.order }
{}

/// The record of an auction that keeps the clock rule and has ended is backed.
pub fn prove_ended_record_is_backed()
    ensures { (sc : Scenario) (book : BookView) (state : CoreState) → KeepsTheRule sc book state → has_ended state ≡ true → IsBacked sc book state.order (record_of sc state) }
{}

/// If a backed record is of an auction that was carried through, its map is clean. Its stations are exactly those on air under the
/// clock rule, where the record's undecided tests count as undecided.
pub fn prove_done_record_is_clean()
    ensures { (sc : Scenario) (book : BookView) (order : Order) (rec : Record) → IsAuction sc book → IsBacked sc book order rec → rec.ending ≡ Ending.Done → IsClean book rec.map × (map (λ x. x.0) rec.map ≡ on_air_set sc (clock_rule sc book order (undecided_of rec.steps))) }
{}

/// The records of the example. Its total is 60 cents. With two budgets of one line, its last test is undecided.
pub fn prove_records_of_three_stations()
    ensures decided { let state = state_after (learner 1000 ∷ []) (four_fits ++ posting 0 5 refuted ∷ []) in (record_of (auction_of_three (learner 1000 ∷ [])) state).total ≡ 60 }
    ensures none_undecided { let state = state_after (learner 1000 ∷ []) (four_fits ++ posting 0 5 refuted ∷ []) in undecided_of state.steps ≡ [] }
    ensures undecided { let state = state_after (learner 1 ∷ learner 1 ∷ []) (four_fits ++ posting 0 5 one_line ∷ posting 1 5 one_line ∷ []) in undecided_of state.steps ≡ record { round = 2; station = 3 } ∷ [] }
    ensures map { let state = state_after (learner 1000 ∷ []) (four_fits ++ posting 0 5 refuted ∷ []) in state.map ≡ (1, 15) ∷ (2, 14) ∷ [] }
{}

/// The example is an auction, so the laws above apply to it.
pub fn prove_three_stations_are_an_auction()
    ensures { IsAuction (auction_of_three (learner 1000 ∷ [])) three_stations }
{}

/// Each kind of reply, in one list of postings.
pub fn prove_each_reply()
    ensures { replies_to (learner 1 ∷ learner 1 ∷ []) of_each_kind ≡ Reply.WrongQuery 1 ∷ Reply.Stranger ∷ Reply.Rejected (Place.Station 1) ∷ Reply.Advanced (Some 2) ∷ Reply.Advanced (Some 3) ∷ Reply.Advanced (Some 4) ∷ Reply.Advanced (Some 5) ∷ Reply.Noted ∷ Reply.AlreadySpent ∷ Reply.Advanced None ∷ Reply.Ended ∷ [] }
{}

/// The rows of the result do not depend on the channels by which the fits put the stations on air; the map does.
pub fn prove_rows_of_either_fit()
    ensures one { rows_after (learner 1000 ∷ []) (four_fits ++ posting 0 5 refuted ∷ []) ≡ row 1 Outcome.Exit 2 0 ∷ row 2 Outcome.Exit 1 0 ∷ row 3 Outcome.Frozen 2 60 ∷ [] }
    ensures other { rows_after (learner 1000 ∷ []) (other_fits ++ posting 0 5 refuted ∷ []) ≡ row 1 Outcome.Exit 2 0 ∷ row 2 Outcome.Exit 1 0 ∷ row 3 Outcome.Frozen 2 60 ∷ [] }
    ensures map { (state_after (learner 1000 ∷ []) (other_fits ++ posting 0 5 refuted ∷ [])).map ≡ (1, 14) ∷ (2, 15) ∷ [] }
{}

/// The auction ends at once if its start set is refuted, contains a station without a channel, or exhausts every worker's budget.
pub fn prove_starts_that_end()
    ensures refuted { has_ended (start_after (learner 1000 ∷ []) (posting 0 1 refuted ∷ [])) ≡ true }
    ensures refuted_so { (record_of (all_on_air (learner 1000 ∷ [])) (start_after (learner 1000 ∷ []) (posting 0 1 refuted ∷ []))).ending ≡ Ending.StartRefuted }
    ensures undecided { has_ended (start_after (learner 1 ∷ []) (posting 0 1 one_line ∷ [])) ≡ true }
    ensures undecided_so { (record_of (all_on_air (learner 1 ∷ [])) (start_after (learner 1 ∷ []) (posting 0 1 one_line ∷ []))).ending ≡ Ending.StartUndecided }
    ensures bare { has_ended (opening lone_start lone_station ByFacility) ≡ true }
    ensures bare_so { (opening lone_start lone_station ByFacility).start ≡ Some (Shown.NoChannel 1) }
{}

/// An auction without stations, and one whose only station has no channel, end without a query.
pub fn prove_auctions_without_a_query()
    ensures none { has_ended (opening no_station three_stations ByFacility) ≡ true }
    ensures none_total { (record_of no_station (opening no_station three_stations ByFacility)).total ≡ 0 }
    ensures bare { has_ended (opening lone_bid lone_station ByFacility) ≡ true }
    ensures bare_steps { (opening lone_bid lone_station ByFacility).steps ≡ record { round = 1; station = 1; shown = Shown.NoChannel 1 } ∷ [] }
    ensures bare_total { (record_of lone_bid (opening lone_bid lone_station ByFacility)).total ≡ 100 }
{}

/// Stations without a channel are settled in a row. Those before the one query are settled when the auction opens. Those after it
/// are settled by its answer, whose reply says that no query is left.
pub fn prove_settled_in_sequence()
    ensures before { map test_of (five_after []).steps ≡ test 1 1 ∷ test 1 2 ∷ [] }
    ensures query { (five_after []).number ≡ 1 }
    ensures last { (take five_bids one_of_five (five_after []) (posting 0 1 (fit 3 14))).0 ≡ Reply.Advanced None }
    ensures after { map test_of (five_after (posting 0 1 (fit 3 14) ∷ [])).steps ≡ test 1 1 ∷ test 1 2 ∷ test 1 3 ∷ test 1 4 ∷ test 1 5 ∷ [] }
    ensures map { (five_after (posting 0 1 (fit 3 14) ∷ [])).map ≡ (3, 14) ∷ [] }
    ensures total { (record_of five_bids (five_after (posting 0 1 (fit 3 14) ∷ []))).total ≡ 400 }
{}

/// With station 2 on air from the start, the second test of station 1 asks about the same two stations as its first. It needs no
/// query, and station 1 goes on air by its first fit.
pub fn prove_same_test_needs_no_query()
    ensures number { (second_after fits_beside_second).number ≡ 4 }
    ensures steps { (second_after fits_beside_second).steps ≡ steps_beside_second }
    ensures map { (second_after fits_beside_second).map ≡ (1, 15) ∷ (2, 14) ∷ [] }
    ensures standing { (second_after fits_beside_second).left ≡ test 2 3 ∷ test 3 1 ∷ test 3 3 ∷ [] }
{}
