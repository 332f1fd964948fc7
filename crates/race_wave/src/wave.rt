//! A wave: the workers of an auction race for its queries on a board, each on its own thread if one can be started.

ghost use Rattle.std.specs.Prelude.{◌≡◌, ◌≢◌, [], All, IfErr, IfOk, Some, false, true, slice_get};
ghost use Rattle.std.specs.List.{AllZip, list_all};
ghost use Rattle.std.specs.Thread.{IsSync};
ghost use Rattle.cert_types.specs.Query.{IsQuery};
ghost use Rattle.turn_lock.specs.Passes.{IsLegal, IsPassIdle, mine_of, pass_number, seen_of};
ghost use Rattle.answer_board.specs.Boards.{IsPassOn, raised};
ghost use Rattle.answer_board.specs.Posts.{WasCurrent};
ghost use Rattle.cert_types.specs.Valid.{IsValid};
ghost use Rattle.pack_defs.specs.declared.worker.Worker.{Worker};
ghost use Rattle.race_wave.specs.Watches.{IsNumberAfter};
ghost use Rattle.race_wave.specs.Wave.{HasRaced, SeesNothingLeft, IsRunner, IsSamePass, SaysValid, ends_turn};

use crate::board_poll::BoardPoll;
use crate::runner::Runner;
use answer_board::board::{Board, Pass};
use answer_board::look::Look;
use auction_core::posting::Reply;
use cert_types::answer::Answer;
use cert_types::certified::Certified;
use cert_types::poll::Attempt;
use cert_types::task::Task;
use pack_defs::book::Book;
use pack_defs::worker::Worker;
use solver_gate::gate::{Gate, Spot};
use solver_gate::racer::Racer;
use std::alloc::{AllocError as NoMemory, Global};
use std::sync::Wait;
use std::thread;
use std::thread::Threads;

/// Lets the workers try the queries of the auction on the board, each on a thread of its own if one can be started. A
/// worker looks at the current query, tries it and posts its answer. It stops when the auction has ended, its receipt
/// is pending on the current query, or memory runs out for it. An answer is not checked again, since the racer's
/// contract says that it is valid. No worker holds the turn while it tries a query or waits at the gate.
///
/// # Errors
///
/// Fails only if there are workers and memory ran out for each. The postings so far stay.
pub fn wave<R: Racer + Send, G: Gate + Sync, W: Threads + Wait + Sync>(
    rt: &W,
    alloc: Global,
    board: &Board,
    book: &Book,
    runners: &mut [Runner<R>],
    gate: &G,
) -> Result<(), NoMemory>
    requires book { book.now ≡ (raised board.now).book }
    requires runners { All (λ r. IsRunner board.now r.pass (R.worker r.racer)) runners.old }
    ensures raced { AllZip (HasRaced R.worker board.now) runners.old runners.new }
    ensures refused { IfErr result (λ _. list_all (λ r. r.refused) runners.new ≡ true) }
    ensures some { IfOk result (λ _. runners.new ≢ [] → list_all (λ r. r.refused) runners.new ≡ false) }
{
    let threads = runners.len();
    if threads == 0 {
        return Ok(());
    }
    let part = |_: usize, runner: &mut Runner<R>|
        requires { IsSync W.row × IsSync G.row × (book.now ≡ (raised board.now).book) × IsRunner board.now runner.now.pass (R.worker runner.now.racer) }
        ensures { HasRaced R.worker board.entry.now runner.entry.now runner.exit.now }
    { run_runner(rt, alloc, board, book, runner, gate) };
    thread::for_each_mut(rt, runners, threads, &part);
    if are_refused(runners) {
        return Err(NoMemory);
    }
    Ok(())
}

// Whether each worker stopped because memory ran out.
fn are_refused<R>(runners: &[Runner<R>]) -> bool
    ensures { result ≡ list_all (λ r. r.refused) runners.now }
{
    runners.iter().all(|runner| runner.refused)
}

// A worker's part of a wave.
fn run_runner<R: Racer, G: Gate, W: Wait>(
    rt: &W,
    alloc: Global,
    board: &Board,
    book: &Book,
    runner: &mut Runner<R>,
    gate: &G,
)
    requires book { book.now ≡ (raised board.now).book }
    requires runner { IsRunner board.now runner.old.pass (R.worker runner.old.racer) }
    ensures { HasRaced R.worker board.now runner.old runner.new }
{
    let done = race(
        rt,
        alloc,
        board,
        book,
        &mut runner.pass,
        &mut runner.racer,
        gate,
    );
    runner.refused = done.is_err();
}

// How a worker continues.
#[derive(Clone, Copy, Debug, PartialEq, Eq)]
enum NextMove {
    // It looks at the current query.
    LookAgain,
    // It has nothing left to do.
    LeaveWave,
}

// Runs a worker's part of a wave to its end.
fn race<R: Racer, G: Gate, W: Wait>(
    rt: &W,
    alloc: Global,
    board: &Board,
    book: &Book,
    pass: &mut Pass,
    racer: &mut R,
    gate: &G,
) -> Result<(), NoMemory>
    requires book { book.now ≡ (raised board.now).book }
    requires runner { IsRunner board.now pass.old (R.worker racer.old) }
    ensures runner { IsRunner board.now pass.new (R.worker racer.new) }
    ensures same { IsSamePass pass.old pass.new }
    ensures legal { IsLegal pass.new }
    ensures worker { R.worker racer.new ≡ R.worker racer.old }
    ensures done { IfOk result (λ _. SeesNothingLeft board.now pass.new) }
{
    for _ in rt.forever() {
        match look_and_try(rt, alloc, board, book, pass, racer, gate)? {
            NextMove::LookAgain => {}
            NextMove::LeaveWave => return Ok(()),
        }
    }
    unreachable!()
}

// Lets the worker look at the current query, try it, and post its answer.
fn look_and_try<R: Racer, G: Gate, W: Wait>(
    rt: &W,
    alloc: Global,
    board: &Board,
    book: &Book,
    pass: &mut Pass,
    racer: &mut R,
    gate: &G,
) -> Result<NextMove, NoMemory>
    requires book { book.now ≡ (raised board.now).book }
    requires runner { IsRunner board.now pass.old (R.worker racer.old) }
    ensures runner { IsRunner board.now pass.new (R.worker racer.new) }
    ensures same { IsSamePass pass.old pass.new }
    ensures legal { IsLegal pass.new }
    ensures worker { R.worker racer.new ≡ R.worker racer.old }
    ensures done { IfOk result (λ onward. onward ≡ NextMove.LeaveWave → SeesNothingLeft board.now pass.new) }
{
    match board.look(rt, alloc, pass) {
        Ok(Look::Task(task)) => try_and_post(rt, alloc, board, book, pass, racer, gate, &task),
        Ok(Look::Ended) => Ok(NextMove::LeaveWave),
        Err(fault) => Err(fault),
    }
}

// Lets the worker try a query, and posts its answer.
fn try_and_post<R: Racer, G: Gate, W: Wait>(
    rt: &W,
    alloc: Global,
    board: &Board,
    book: &Book,
    pass: &mut Pass,
    racer: &mut R,
    gate: &G,
    task: &Task,
) -> Result<NextMove, NoMemory>
    requires book { book.now ≡ (raised board.now).book }
    requires query { IsQuery book.now task.now }
    requires was_current { WasCurrent (raised board.now) (seen_of pass.old) task.now }
    requires number { IsNumberAfter board.now (seen_of pass.old) task.now.number }
    requires legal { IsLegal pass.old }
    requires runner { IsRunner board.now pass.old (R.worker racer.old) }
    ensures runner { IsRunner board.now pass.new (R.worker racer.new) }
    ensures same { IsSamePass pass.old pass.new }
    ensures legal { IsLegal pass.new }
    ensures worker { R.worker racer.new ≡ R.worker racer.old }
    ensures done { IfOk result (λ onward. onward ≡ NextMove.LeaveWave → SeesNothingLeft board.now pass.new) }
{
    match attempt_with_poll(rt, alloc, board, book, pass, racer, task) {
        Ok(Attempt::Said(answer)) => {
            let certified = certify_for_worker(board, book, pass, task, answer);
            post_through_gate(rt, board, pass, gate, task.number, certified)
        }
        Ok(Attempt::Moved { now: _ }) => Ok(NextMove::LookAgain),
        Err(fault) => Err(fault),
    }
}

// Returns the answer of the pass's worker as accepted without a check: its racer's contract says that it is valid.
fn certify_for_worker(
    board: &Board,
    book: &Book,
    pass: &Pass,
    task: &Task,
    answer: Answer,
) -> Certified
    requires valid { (worker : Worker) × (slice_get (raised board.now).scenario.workers (pass_number pass.now) ≡ Some worker) × IsValid book.now task.now worker answer }
    ensures book { result.book ≡ book.now }
    ensures task { result.task ≡ task.now }
    ensures worker { slice_get (raised board.now).scenario.workers (pass_number pass.now) ≡ Some result.worker }
{
    let worker = &board.workers()[pass.number() as usize];
    Certified::from_valid(book, task, worker, answer)
}

// Lets the racer try a query, while the pass polls whether the query is still current.
fn attempt_with_poll<R: Racer, W: Wait>(
    rt: &W,
    alloc: Global,
    board: &Board,
    book: &Book,
    pass: &mut Pass,
    racer: &mut R,
    task: &Task,
) -> Result<Attempt, NoMemory>
    requires query { IsQuery book.now task.now }
    requires number { IsNumberAfter board.now (seen_of pass.old) task.now.number }
    requires legal { IsLegal pass.old }
    requires own { IsPassOn board.now pass.old }
    requires idle { IsPassIdle pass.old }
    ensures own { IsPassOn board.now pass.new }
    ensures idle { IsPassIdle pass.new }
    ensures same { IsSamePass pass.old pass.new }
    ensures legal { IsLegal pass.new }
    ensures mine { mine_of pass.new ≡ mine_of pass.old }
    ensures worker { R.worker racer.new ≡ R.worker racer.old }
    ensures said { IfOk result (SaysValid book.now task.now (R.worker racer.old)) }
{
    let mut watch = BoardPoll {
        rt,
        board,
        pass,
        last: task.number,
    };
    racer.attempt(alloc, book, task, &mut watch)
}

// Posts an accepted answer, and calls the gate before and after.
fn post_through_gate<G: Gate, W: Wait>(
    rt: &W,
    board: &Board,
    pass: &mut Pass,
    gate: &G,
    number: u64,
    certified: Certified,
) -> Result<NextMove, NoMemory>
    requires own { IsPassOn board.now pass.old }
    requires idle { IsPassIdle pass.old }
    requires book { certified.book ≡ (raised board.now).book }
    requires worker { slice_get (raised board.now).scenario.workers (pass_number pass.old) ≡ Some certified.worker }
    requires was_current { WasCurrent (raised board.now) (seen_of pass.old) certified.task }
    requires number { number ≡ certified.task.number }
    ensures own { IsPassOn board.now pass.new }
    ensures idle { IsPassIdle pass.new }
    ensures same { IsSamePass pass.old pass.new }
    ensures legal { IsLegal pass.new }
    ensures done { IfOk result (λ onward. onward ≡ NextMove.LeaveWave → SeesNothingLeft board.now pass.new) }
{
    let worker = pass.number();
    gate.at(Spot::BeforePost, worker, number);
    let Ok(reply) = board.post_certified(rt, pass, number, certified) else {
        return Err(NoMemory);
    };
    gate.at(Spot::AfterPost, worker, number);
    if ends_turn(reply) {
        return Ok(NextMove::LeaveWave);
    }
    Ok(NextMove::LookAgain)
}

// Whether a worker has nothing left to do after this reply.
fn ends_turn(reply: Reply) -> bool
    ensures { result ≡ ends_turn reply }
{
    match reply {
        Reply::Ended | Reply::AlreadySpent | Reply::Noted => true,
        _ => false,
    }
}
