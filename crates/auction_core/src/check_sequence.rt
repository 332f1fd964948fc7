//! Checks a transcript by carrying out the auction again: each query is settled as the transcript says, if its certificate is
//! accepted. `transcript_check` calls `check_whole_sequence`; `auction` calls `check_kept_sequence`.
//!
//! One step is checked by `step_check` (with `certificates`, `receipts`, `log_numbers` and `step_err`). This file checks the start,
//! then all steps, then the end.

ghost use Rattle.std.specs.Prelude.{◌≡◌, ◌<◌, ◌^◌, ◌&&◌, [], IfErr, IfOk, List, None, OnOk, Option, Some, length, not, option_map, true};
ghost use Rattle.auction_core.specs.Setup.{IsOfAuction};
ghost use Rattle.auction_core.specs.State.{answered, has_ended, opening, start_task};
ghost use Rattle.auction_core.specs.declared.record.Shown.{Shown};
ghost use Rattle.auction_core.specs.declared.record.Shown.TheVariants as Shown;
ghost use Rattle.auction_core.specs.Backed.{after_start};
ghost use Rattle.cert_types.specs.Valid.{fit_fault};
ghost use Rattle.pack_defs.specs.ClockRule.{clock_tests};
ghost use Rattle.pack_defs.specs.declared.order.Order.{Order};
ghost use Rattle.auction_core.specs.declared.transcript.TranscriptStep.{TranscriptStep};
ghost use Rattle.auction_core.specs.Checked.{FinishFault, IsAllShown, IsAt, IsEarly, IsStepFault, found_in, is_empty_shown};
ghost use Rattle.auction_core.specs.LogNumbers.{steps_in};
ghost use Rattle.auction_core.specs.NotShown.{NotShown, Explains, not_kept, not_shown, order_kept, start_fault, started_fault, steps_fault};
ghost use Rattle.auction_core.specs.Prefix.{resumed};
ghost use Rattle.pack_defs.specs.Lists.{is_empty};
ghost use Rattle.auction_core.specs.declared.prefix.ShownWhy.TheVariants.{NotValid};

use crate::certificates::fit;
use crate::prefix::{Prefix, ResumeErr, ShownWhy};
use crate::query_session::QuerySession;
use crate::record::Shown;
use crate::step_check::check_step;
use crate::step_err::{StepErr, not_valid};
use crate::transcript::{Transcript, TranscriptStep};
use cert_types::answer::Place;
use pack_defs::book::Book;
use pack_defs::channel_map::ChannelMap;
use pack_defs::order::Order;
use pack_defs::scenario::Scenario;
use std::alloc::Global;

// Returns the error of the transcript for an error in this step.
fn at(step: u64, e: StepErr) -> ResumeErr
    ensures why { (found : Option ShownWhy) → IsStepFault e found → Explains result (option_map (λ why. record { step = step; why = why }) found) }
    ensures early { IsEarly result step }
{
    match e {
        StepErr::Fault(why) => ResumeErr::NotShown { step, why },
        StepErr::NoMemory => ResumeErr::NoMemory,
    }
}

// Whether the start test was settled by an empty start set.
fn is_empty_shown(start: &Option<Shown>) -> bool
    ensures { result ≡ is_empty_shown start.now }
{
    matches!(start, Some(Shown::Empty))
}

// Settles the start test by a fit, if the fit is valid.
fn start_fit(
    alloc: Global,
    query_session: &mut QuerySession,
    delta: ChannelMap,
) -> Result<(), StepErr>
    requires auction { IsOfAuction query_session.old.scenario query_session.old.book }
    requires standing { query_session.old.state.start ≡ None }
    ensures fault { OnOk result (fit_fault query_session.old.book (start_task query_session.old.scenario query_session.old.state.number) delta ≡ None) }
    ensures state { OnOk result (query_session.new.state ≡ answered query_session.old.scenario query_session.old.book query_session.old.state (Shown.Fits delta)) }
    ensures why { IfErr result (λ e. IsStepFault e (option_map NotValid (fit_fault query_session.old.book (start_task query_session.old.scenario query_session.old.state.number) delta))) }
    ensures scenario { OnOk result (query_session.new.scenario ≡ query_session.old.scenario) }
    ensures book { OnOk result (query_session.new.book ≡ query_session.old.book) }
{
    let Some(task) = query_session.task(alloc)? else {
        unreachable!()
    };
    match fit(alloc, query_session.book(), &task, delta) {
        Ok(delta) => {
            query_session.reserve()?;
            query_session.settle(Shown::Fits(delta));
            Ok(())
        }
        Err(e) => Err(e),
    }
}

// Checks how the start test was settled, and settles it if it needs a query.
fn check_start(alloc: Global, query_session: &mut QuerySession, start: Shown) -> Result<(), StepErr>
    requires auction { IsOfAuction query_session.old.scenario query_session.old.book }
    requires opening { query_session.old.state ≡ opening query_session.old.scenario query_session.old.book query_session.old.state.order }
    ensures fault { OnOk result (start_fault query_session.old.scenario query_session.old.book start ≡ None) }
    ensures at { OnOk result ((xs : List TranscriptStep) (found : Option NotShown) → steps_fault query_session.old.scenario query_session.old.book 1 (after_start query_session.old.scenario query_session.old.state.order start) (clock_tests query_session.old.scenario query_session.old.state.order) xs ≡ found → IsAt query_session.old.scenario query_session.old.book query_session.old.state.order start [] xs found query_session.new.state) }
    ensures why { IfErr result (λ e. IsStepFault e (option_map NotValid (start_fault query_session.old.scenario query_session.old.book start))) }
    ensures scenario { OnOk result (query_session.new.scenario ≡ query_session.old.scenario) }
    ensures book { OnOk result (query_session.new.book ≡ query_session.old.book) }
{
    match start {
        Shown::Empty => {
            if is_empty_shown(query_session.start()) {
                return Ok(());
            }
            Err(not_valid(Place::Kind))
        }
        Shown::Fits(delta) => {
            if query_session.start().is_some() {
                return Err(not_valid(Place::Kind));
            }
            match start_fit(alloc, query_session, delta) {
                Ok(()) => Ok(()),
                Err(e) => Err(e),
            }
        }
        Shown::Same => Err(not_valid(Place::Kind)),
        Shown::NoChannel(_) => Err(not_valid(Place::Kind)),
        Shown::Refuted { .. } => Err(not_valid(Place::Kind)),
        Shown::Outside(_) => Err(not_valid(Place::Kind)),
        Shown::Undecided(_) => Err(not_valid(Place::Kind)),
    }
}

// Checks the steps, in order.
fn check_steps(
    alloc: Global,
    query_session: &mut QuerySession,
    steps: Vec<TranscriptStep>,
) -> Result<(), ResumeErr>
    requires { IsOfAuction query_session.old.scenario query_session.old.book }
    ensures at { OnOk result ((order : Order) (start : Shown) (found : Option NotShown) → IsAt query_session.old.scenario query_session.old.book order start [] steps.items found query_session.old.state → IsAt query_session.old.scenario query_session.old.book order start (steps_in steps.items) [] found query_session.new.state) }
    ensures why { IfErr result (λ e. (order : Order) (start : Shown) (found : Option NotShown) → IsAt query_session.old.scenario query_session.old.book order start [] steps.items found query_session.old.state → Explains e found) }
    ensures early { IfErr result (λ e. IsEarly e (length steps.items)) }
    ensures scenario { OnOk result (query_session.new.scenario ≡ query_session.old.scenario) }
    ensures book { OnOk result (query_session.new.book ≡ query_session.old.book) }
{
    let mut place: usize = 0;
    'steps: for x in steps {
        match check_step(alloc, query_session, place, x) {
            Ok(()) => {}
            Err(e) => return Err(at(place as u64 + 1, e)),
        }
        place += 1;
    }
    Ok(())
}

// Returns the auction once the start and every step of the transcript are checked.
fn check_sequence(
    alloc: Global,
    book: &Book,
    sc: &Scenario,
    transcript: Transcript,
) -> Result<QuerySession, ResumeErr>
    requires { IsOfAuction sc.now book.now }
    ensures start { IfOk result (λ query_session. start_fault sc.now book.now transcript.start ≡ None) }
    ensures at { IfOk result (λ query_session. IsAt sc.now book.now transcript.order transcript.start (steps_in transcript.steps) [] (found_in sc.now book.now transcript) query_session.state) }
    ensures state { IfOk result (λ query_session. query_session.state ≡ resumed sc.now book.now transcript.order (Some transcript.start) (steps_in transcript.steps)) }
    ensures why { IfErr result (λ e. Explains e (not_shown sc.now book.now transcript)) }
    ensures early { IfErr result (λ e. IsEarly e (length transcript.steps)) }
    ensures scenario { IfOk result (λ query_session. query_session.scenario ≡ sc.now) }
    ensures book { IfOk result (λ query_session. query_session.book ≡ book.now) }
{
    let Transcript {
        order,
        start,
        steps,
    } = transcript;
    let mut query_session = QuerySession::open(alloc, sc, book, order)?;
    match check_start(alloc, &mut query_session, start) {
        Ok(()) => {}
        Err(e) => return Err(at(0, e)),
    }
    match check_steps(alloc, &mut query_session, steps.into_vec()) {
        Ok(()) => Ok(query_session),
        Err(e) => Err(e),
    }
}

// Checks that `steps` steps led the auction to its end. A step is missing if the auction has not ended, or if it settled further
// tests without a query.
fn check_end(query_session: &QuerySession, steps: usize) -> Result<(), ResumeErr>
    requires small { steps < 2 ^ 63 }
    ensures ended { OnOk result (has_ended query_session.now.state ≡ true) }
    ensures all { OnOk result (length query_session.now.state.steps ≡ steps) }
    ensures why { IfErr result (λ e. FinishFault e query_session.now.state steps) }
{
    if !query_session.has_ended() || query_session.steps().len() != steps {
        return Err(ResumeErr::NotShown {
            step: steps as u64 + 1,
            why: ShownWhy::Order,
        });
    }
    Ok(())
}

/// Carries out the auction of this scenario and book again as a complete transcript says, and returns it at its end. Runs no
/// solver. Moves the certificates. Cost: what the certificates cost to check, and what building each query costs.
///
/// # Errors
///
/// Fails with the first step that is not proved and the reason, or if memory runs out.
pub fn check_whole_sequence(
    alloc: Global,
    book: &Book,
    sc: &Scenario,
    transcript: Transcript,
) -> Result<QuerySession, ResumeErr>
    requires { IsOfAuction sc.now book.now }
    ensures all { IfOk result (λ query_session. IsAllShown sc.now book.now transcript query_session.state) }
    ensures state { IfOk result (λ query_session. query_session.state ≡ resumed sc.now book.now transcript.order (Some transcript.start) (steps_in transcript.steps)) }
    ensures why { IfErr result (λ e. Explains e (not_shown sc.now book.now transcript)) }
    ensures scenario { IfOk result (λ query_session. query_session.scenario ≡ sc.now) }
    ensures book { IfOk result (λ query_session. query_session.book ≡ book.now) }
{
    let count = transcript.steps.as_slice().len();
    let query_session = match check_sequence(alloc, book, sc, transcript) {
        Ok(query_session) => query_session,
        Err(e) => return Err(e),
    };
    match check_end(&query_session, count) {
        Ok(()) => Ok(query_session),
        Err(e) => Err(e),
    }
}

// Returns the auction after these steps, or at its end if the transcript has one (`ended`). The transcript has a start.
fn check_started_sequence(
    alloc: Global,
    book: &Book,
    sc: &Scenario,
    ended: bool,
    transcript: Transcript,
) -> Result<QuerySession, ResumeErr>
    requires { IsOfAuction sc.now book.now }
    ensures none { IfOk result (λ query_session. started_fault sc.now book.now ended transcript ≡ None) }
    ensures state { IfOk result (λ query_session. query_session.state ≡ resumed sc.now book.now transcript.order (Some transcript.start) (steps_in transcript.steps)) }
    ensures why { IfErr result (λ e. Explains e (started_fault sc.now book.now ended transcript)) }
    ensures scenario { IfOk result (λ query_session. query_session.scenario ≡ sc.now) }
    ensures book { IfOk result (λ query_session. query_session.book ≡ book.now) }
{
    if ended {
        return match check_whole_sequence(alloc, book, sc, transcript) {
            Ok(query_session) => Ok(query_session),
            Err(e) => Err(e),
        };
    }
    match check_sequence(alloc, book, sc, transcript) {
        Ok(query_session) => Ok(query_session),
        Err(e) => Err(e),
    }
}

// Whether a transcript without a start is allowed: it has neither steps nor an end.
fn is_unstarted(steps: &[TranscriptStep], ended: bool) -> bool
    ensures { result ≡ (is_empty steps.now && not ended) }
{
    steps.is_empty() && !ended
}

/// Returns the auction of this scenario and book at the place where the beginning of a transcript leaves it: at its next query or
/// at its end.
///
/// # Errors
///
/// Fails with the first step that is not proved and the reason, or if memory runs out.
pub(crate) fn check_kept_sequence(
    alloc: Global,
    book: &Book,
    sc: &Scenario,
    prefix: Prefix,
) -> Result<QuerySession, ResumeErr>
    requires { IsOfAuction sc.now book.now }
    ensures none { IfOk result (λ query_session. not_kept sc.now book.now prefix ≡ None) }
    ensures state { IfOk result (λ query_session. query_session.state ≡ resumed sc.now book.now (order_kept prefix) prefix.start (steps_in prefix.steps)) }
    ensures why { IfErr result (λ e. Explains e (not_kept sc.now book.now prefix)) }
    ensures scenario { IfOk result (λ query_session. query_session.scenario ≡ sc.now) }
    ensures book { IfOk result (λ query_session. query_session.book ≡ book.now) }
{
    let Prefix {
        order,
        start,
        steps,
        ended,
    } = prefix;
    let order = order.unwrap_or(Order::ByVolume);
    let Some(start) = start else {
        if is_unstarted(steps.as_slice(), ended) {
            return Ok(QuerySession::open(alloc, sc, book, order)?);
        }
        return Err(ResumeErr::NotShown {
            step: 1,
            why: ShownWhy::Order,
        });
    };
    let transcript = Transcript {
        order,
        start,
        steps,
    };
    match check_started_sequence(alloc, book, sc, ended, transcript) {
        Ok(query_session) => Ok(query_session),
        Err(e) => Err(e),
    }
}
