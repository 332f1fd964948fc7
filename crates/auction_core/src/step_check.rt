//! Checks one step of a transcript against the auction that is carried out again. `check_sequence` calls `check_step` for each step in
//! order.

ghost use Rattle.std.specs.Prelude.{◌≡◌, ◌==◌, ◌&&◌, IfErr, IfOk, OnOk, None, option_map};
ghost use Rattle.auction_core.specs.Setup.{IsOfAuction};
ghost use Rattle.auction_core.specs.State.{answered};
ghost use Rattle.cert_types.specs.Query.{IsQuery};
ghost use Rattle.pack_defs.specs.declared.scenario.Scenario.{Scenario};
ghost use Rattle.auction_core.specs.Checked.{IsStepFault, is_about, line_result, query_result, is_shown_as_kept, step_leaves, step_result};
ghost use Rattle.auction_core.specs.NotShown.{is_channelless, is_same_set, query_fault};
ghost use Rattle.auction_core.specs.declared.prefix.ShownWhy.TheVariants.{NotValid};

use crate::certificates::{fit, outside, refuted};
use crate::prefix::ShownWhy;
use crate::query_session::QuerySession;
use crate::receipts::undecided;
use crate::record::{Shown, Step};
use crate::step_err::{StepErr, not_valid, told};
use crate::step_list::{StepKind, StepLine};
use crate::transcript::TranscriptStep;
use cert_types::answer::Place;
use cert_types::task::Task;
use pack_defs::book::Book;
use pack_defs::worker::Worker;
use std::alloc::Global;

// Whether the step says that its own station has no channel.
fn is_channelless(station: u32, shown: &Shown) -> bool
    ensures { result ≡ is_channelless station shown.now }
{
    match shown {
        Shown::NoChannel(other) => *other == station,
        _ => false,
    }
}

// Whether the step refers to the test of the same station one round before.
fn is_same_set(shown: &Shown) -> bool
    ensures { result ≡ is_same_set shown.now }
{
    matches!(shown, Shown::Same)
}

// Whether the transcript settles the step in the way of this line, which needed no query.
fn is_shown_as_kept(own: StepLine, shown: &Shown) -> bool
    ensures { result ≡ is_shown_as_kept own.step_kind own.station shown.now }
{
    match own.step_kind {
        StepKind::Verdict => false,
        StepKind::SameSet => is_same_set(shown),
        StepKind::Channelless => is_channelless(own.station, shown),
    }
}

// Compares a step with the auction's own step, which was settled without a query. Returns the fault, if any.
fn unasked_step(own: StepLine, x: &TranscriptStep) -> Option<ShownWhy>
    ensures { result ≡ line_result own x.now }
{
    if own.round != x.step.round || own.station != x.step.station {
        return Some(ShownWhy::Order);
    }
    if is_shown_as_kept(own, &x.step.shown) && x.firsts.as_slice().is_empty() {
        return None;
    }
    Some(ShownWhy::NotValid(Place::Kind))
}

// Checks the certificate that settles a query, and returns it if it is valid.
fn settling(
    alloc: Global,
    book: &Book,
    task: &Task,
    workers: &[Worker],
    shown: Shown,
    firsts: &[u64],
) -> Result<Shown, StepErr>
    requires { IsQuery book.now task.now }
    ensures same { IfOk result (λ x. x ≡ shown) }
    ensures valid { IfOk result (λ x. (sc : Scenario) → sc.workers ≡ workers.now → query_fault sc book.now task.now shown firsts.now ≡ None) }
    ensures why { IfErr result (λ e. (sc : Scenario) → sc.workers ≡ workers.now → IsStepFault e (option_map NotValid (query_fault sc book.now task.now shown firsts.now))) }
{
    match shown {
        Shown::Fits(delta) => {
            if !firsts.is_empty() {
                return Err(not_valid(Place::Kind));
            }
            let delta = fit(alloc, book, task, delta)?;
            Ok(Shown::Fits(delta))
        }
        Shown::Refuted { worker, how } => {
            if !firsts.is_empty() {
                return Err(not_valid(Place::Kind));
            }
            let how = refuted(alloc, book, task, workers, worker, how)?;
            Ok(Shown::Refuted { worker, how })
        }
        Shown::Outside(proof) => {
            let proof = outside(alloc, book, task, proof, firsts)?;
            Ok(Shown::Outside(proof))
        }
        Shown::Undecided(all) => {
            let all = undecided(alloc, book, task, workers, all, firsts)?;
            Ok(Shown::Undecided(all))
        }
        Shown::Empty => Err(not_valid(Place::Kind)),
        Shown::Same => Err(not_valid(Place::Kind)),
        Shown::NoChannel(_) => Err(not_valid(Place::Kind)),
    }
}

// Whether the query is about this step's test.
fn is_about(task: &Task, step: &Step) -> bool
    ensures { result ≡ (task.now.round == step.now.round && is_about task.now.station step.now.station) }
{
    match task.station {
        Some(station) => task.round == step.round && station == step.station,
        None => false,
    }
}

/// Settles the current query as the step says. After an error the auction must not be used again.
pub(crate) fn query_step(
    alloc: Global,
    query_session: &mut QuerySession,
    x: TranscriptStep,
) -> Result<(), StepErr>
    requires { IsOfAuction query_session.old.scenario query_session.old.book }
    ensures told { OnOk result (query_result query_session.old.scenario query_session.old.book query_session.old.state x ≡ None) }
    ensures state { OnOk result (query_session.new.state ≡ answered query_session.old.scenario query_session.old.book query_session.old.state x.step.shown) }
    ensures why { IfErr result (λ e. IsStepFault e (query_result query_session.old.scenario query_session.old.book query_session.old.state x)) }
    ensures scenario { OnOk result (query_session.new.scenario ≡ query_session.old.scenario) }
    ensures book { OnOk result (query_session.new.book ≡ query_session.old.book) }
{
    let Some(task) = query_session.task(alloc)? else {
        return Err(StepErr::Fault(ShownWhy::Order));
    };
    if !is_about(&task, &x.step) {
        return Err(StepErr::Fault(ShownWhy::Order));
    }
    let TranscriptStep { step, firsts } = x;
    let settled = settling(
        alloc,
        query_session.book(),
        &task,
        query_session.workers(),
        step.shown,
        firsts.as_slice(),
    );
    match settled {
        Ok(shown) => {
            query_session.reserve()?;
            query_session.settle(shown);
            Ok(())
        }
        Err(e) => Err(e),
    }
}

/// Checks the step at this place, from 0. If the auction settled that step without a query, the two must agree; otherwise the step
/// settles the current query. After an error the auction must not be used again.
pub(crate) fn check_step(
    alloc: Global,
    query_session: &mut QuerySession,
    place: usize,
    x: TranscriptStep,
) -> Result<(), StepErr>
    requires { IsOfAuction query_session.old.scenario query_session.old.book }
    ensures told { OnOk result (step_result query_session.old.scenario query_session.old.book query_session.old.state place x ≡ None) }
    ensures state { OnOk result (query_session.new.state ≡ step_leaves query_session.old.scenario query_session.old.book query_session.old.state place x) }
    ensures why { IfErr result (λ e. IsStepFault e (step_result query_session.old.scenario query_session.old.book query_session.old.state place x)) }
    ensures scenario { OnOk result (query_session.new.scenario ≡ query_session.old.scenario) }
    ensures book { OnOk result (query_session.new.book ≡ query_session.old.book) }
{
    if let Some(own) = query_session.steps().line(place) {
        return told(unasked_step(own, &x));
    }
    query_step(alloc, query_session, x)
}
