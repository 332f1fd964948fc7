//! Runs a complete auction. Waves and serial turns alternate until the auction has ended. In a wave the racers race
//! on a board, each on a thread of its own if one can be started. A worker whose memory ran out leaves the wave
//! early. So a serial turn after the wave settles the current query, which is why the loop ends.

ghost use Rattle.std.specs.Prelude.{◌≡◌, ◌<◌, ◌≤◌, IfOk, Some, false, length, map, true};
ghost use Rattle.solver_gate.specs.Racer.{worker_of};
ghost use Rattle.pack_defs.specs.Scenario.{with_owners};
ghost use Rattle.auction_core.specs.Backed.{IsBacked};
ghost use Rattle.auction_core.specs.Postings.{ContinuesIn};
ghost use Rattle.auction_core.specs.Setup.{IsOfAuction};
ghost use Rattle.auction_core.specs.State.{has_ended, opening, queries_left};
ghost use Rattle.turn_lock.specs.Passes.{IsPassIdle, known_of, pass_identity};
ghost use Rattle.turn_lock.specs.Turns.{AllOf, StartsWith, each_new};
ghost use Rattle.answer_board.specs.Boards.{AreAllOn, beginning_of, raised};
ghost use Rattle.answer_board.specs.Entries.{numbered};
ghost use Rattle.race_wave.specs.Run.{KeepsReceipts};
ghost use Rattle.race_wave.specs.RunnerBuffers.{AreBuffersFor};
ghost use Rattle.race_wave.specs.Serial.{ComesCloserToEnd};

use crate::serial::serial_turn;
use crate::unzip_runners::{RunnerBuffers, buffers_for, unzip_runners};
use crate::wave::wave;
use crate::zip_runners::zip_runners;
use answer_board::board::{Board, Pass};
use auction_core::auction::Auction;
use auction_core::record::Record;
use pack_defs::book::Book;
use pack_defs::order::Order;
use pack_defs::owners::Owners;
use pack_defs::scenario::Scenario;
use pack_defs::worker::Worker;
use search_base::grid::Grid;
use solver_gate::gate::Gate;
use solver_gate::racer::{Racer, RacerKind};
use std::alloc::{AllocError as NoMemory, Global};
use std::sync::{Arc, Wait};
use std::thread::Threads;

/// Returns a racer for each worker, in order: a solver of its kind, with its budget and its seed. The solvers share the
/// numbers of the book. Fails only if memory runs out.
pub fn racers_of(alloc: Global, workers: &[Worker], book: &Book) -> Result<Vec<RacerKind>, NoMemory>
    ensures { IfOk result (λ racers. map worker_of racers.items ≡ workers.now) }
{
    let grid = Arc::new(alloc, Grid::of(alloc, book)?)?;
    let mut racers = Vec::new(alloc);
    for worker in workers {
        let shared = Arc::try_clone(&grid)?;
        racers.push(RacerKind::of_grid(alloc, worker, Some(shared))?)?;
    }
    Ok(racers)
}

// Returns how many workers there are.
fn count_of(auction: &Auction) -> u32
    ensures count { result ≡ length auction.now.scenario.workers }
    ensures some { 1 ≤ result }
{
    auction.workers().len() as u32
}

// The result of a wave: whether memory ran out for each worker, and the passes and racers in order.
#[derive(Drop)]
struct AfterWave<R> {
    done: Result<(), NoMemory>,
    passes: Vec<Pass>,
    racers: Vec<R>,
}

// Runs a wave of the workers of a new board.
fn run_wave<R: Racer + Send + Drop, G: Gate + Sync, W: Threads + Wait + Sync>(
    rt: &W,
    alloc: Global,
    board: &Board,
    book: &Book,
    passes: Vec<Pass>,
    racers: Vec<R>,
    room: RunnerBuffers<R>,
    gate: &G,
) -> AfterWave<R>
    requires book { book.now ≡ (raised board.now).book }
    requires all { AreAllOn board.now (map pass_identity passes.items) }
    requires idle { AllOf IsPassIdle passes.items }
    requires new { map known_of passes.items ≡ each_new (numbered (raised board.now).history) (length racers.items) }
    requires racers { map R.worker racers.items ≡ (raised board.now).scenario.workers }
    requires room { AreBuffersFor (length racers.items) room }
    ensures all { AreAllOn board.now (map pass_identity result.passes.items) }
    ensures idle { AllOf IsPassIdle result.passes.items }
    ensures racers { map R.worker result.racers.items ≡ map R.worker racers.items }
{
    let RunnerBuffers {
        runners,
        passes: passes_left,
        racers: racers_left,
    } = room;
    let mut runners = zip_runners(board, passes, racers, runners);
    let done = wave(rt, alloc, board, book, &mut runners, gate);
    let (passes, racers) = unzip_runners(runners, passes_left, racers_left);
    AfterWave {
        done,
        passes,
        racers,
    }
}

// The result of a race: whether memory ran out for each worker, the auction, which is off the board, and the racers
// in order.
#[derive(Drop)]
struct AfterRace<R> {
    done: Result<(), NoMemory>,
    auction: Auction,
    racers: Vec<R>,
}

// Runs a wave of the workers of a new board, and closes the board. Has no early return, because a board cannot be
// dropped.
fn race_on_board<R: Racer + Send + Drop, G: Gate + Sync, W: Threads + Wait + Sync>(
    rt: &W,
    alloc: Global,
    board: Board,
    book: &Book,
    passes: Vec<Pass>,
    racers: Vec<R>,
    room: RunnerBuffers<R>,
    gate: &G,
) -> AfterRace<R>
    requires book { book.now ≡ (raised board).book }
    requires all { AreAllOn board (map pass_identity passes.items) }
    requires idle { AllOf IsPassIdle passes.items }
    requires new { map known_of passes.items ≡ each_new (numbered (raised board).history) (length racers.items) }
    requires racers { map R.worker racers.items ≡ (raised board).scenario.workers }
    requires room { AreBuffersFor (length racers.items) room }
    ensures beginning { beginning_of result.auction ≡ beginning_of (raised board) }
    ensures history { StartsWith result.auction.history (raised board).history }
    ensures racers { map R.worker result.racers.items ≡ map R.worker racers.items }
{
    let AfterWave {
        done,
        passes,
        racers,
    } = run_wave(rt, alloc, &board, book, passes, racers, room, gate);
    let auction = board.close(passes);
    AfterRace {
        done,
        auction,
        racers,
    }
}

// Returns the auction and the racers, unless memory ran out for each worker.
fn unless_out_of_memory<R: Drop>(
    done: Result<(), NoMemory>,
    auction: Auction,
    racers: Vec<R>,
) -> Result<(Auction, Vec<R>), NoMemory>
    ensures { IfOk result (λ r. r ≡ (auction, racers)) }
{
    match done {
        Ok(()) => Ok((auction, racers)),
        Err(error) => Err(error),
    }
}

// Does what `run_race` does, with the buffers given.
fn race_with_buffers<R: Racer + Send + Drop, G: Gate + Sync, W: Threads + Wait + Sync>(
    rt: &W,
    alloc: Global,
    book: &Book,
    auction: Auction,
    racers: Vec<R>,
    room: RunnerBuffers<R>,
    gate: &G,
) -> Result<(Auction, Vec<R>), NoMemory>
    requires book { auction.book ≡ book.now }
    requires racers { map R.worker racers.items ≡ auction.scenario.workers }
    requires room { AreBuffersFor (length racers.items) room }
    ensures beginning { IfOk result (λ r. beginning_of r.0 ≡ beginning_of auction) }
    ensures history { IfOk result (λ r. StartsWith r.0.history auction.history) }
    ensures comes_closer_to_end { IfOk result (λ r. ComesCloserToEnd auction.scenario auction.state r.0.state) }
    ensures racers { IfOk result (λ r. map R.worker r.1.items ≡ map R.worker racers.items) }
{
    // For its clauses alone: what the history replays to.
    auction.keeps_the_rule();
    let count = count_of(&auction);
    let Ok((board, passes)) = Board::raise(alloc, auction, count) else {
        return Err(NoMemory);
    };
    let AfterRace {
        done,
        auction,
        racers,
    } = race_on_board(rt, alloc, board, book, passes, racers, room, gate);
    auction.keeps_the_rule();
    unless_out_of_memory(done, auction, racers)
}

// Returns the auction after a wave of its workers, and their racers.
fn run_race<R: Racer + Send + Drop, G: Gate + Sync, W: Threads + Wait + Sync>(
    rt: &W,
    alloc: Global,
    book: &Book,
    auction: Auction,
    racers: Vec<R>,
    gate: &G,
) -> Result<(Auction, Vec<R>), NoMemory>
    requires book { auction.book ≡ book.now }
    requires racers { map R.worker racers.items ≡ auction.scenario.workers }
    ensures beginning { IfOk result (λ r. beginning_of r.0 ≡ beginning_of auction) }
    ensures history { IfOk result (λ r. StartsWith r.0.history auction.history) }
    ensures comes_closer_to_end { IfOk result (λ r. ComesCloserToEnd auction.scenario auction.state r.0.state) }
    ensures racers { IfOk result (λ r. map R.worker r.1.items ≡ map R.worker racers.items) }
{
    let room = buffers_for(alloc, count_of(&auction))?;
    race_with_buffers(rt, alloc, book, auction, racers, room, gate)
}

// Returns the auction after a wave of its workers and a serial turn, and the racers. Unless the auction had ended,
// fewer queries are left.
fn wave_then_serial<R: Racer + Send + Drop, G: Gate + Sync, W: Threads + Wait + Sync>(
    rt: &W,
    alloc: Global,
    book: &Book,
    auction: Auction,
    racers: Vec<R>,
    gate: &G,
) -> Result<(Auction, Vec<R>), NoMemory>
    requires book { auction.book ≡ book.now }
    requires racers { map R.worker racers.items ≡ auction.scenario.workers }
    ensures beginning { IfOk result (λ r. beginning_of r.0 ≡ beginning_of auction) }
    ensures history { IfOk result (λ r. StartsWith r.0.history auction.history) }
    ensures racers { IfOk result (λ r. map R.worker r.1.items ≡ map R.worker racers.items) }
    ensures fewer { IfOk result (λ r. has_ended auction.state ≡ false → queries_left auction.scenario r.0.state < queries_left auction.scenario auction.state) }
{
    let (mut auction, mut racers) = run_race(rt, alloc, book, auction, racers, gate)?;
    serial_turn(alloc, &mut auction, &mut racers)?;
    Ok((auction, racers))
}

// Runs waves and serial turns until the auction has ended.
fn run_to_end<R: Racer + Send + Drop, G: Gate + Sync, W: Threads + Wait + Sync>(
    rt: &W,
    alloc: Global,
    mut auction: Auction,
    book: &Book,
    mut racers: Vec<R>,
    gate: &G,
) -> Result<Auction, NoMemory>
    requires book { book.now ≡ auction.book }
    requires racers { map R.worker racers.items ≡ auction.scenario.workers }
    ensures beginning { IfOk result (λ r. beginning_of r ≡ beginning_of auction) }
    ensures history { IfOk result (λ r. StartsWith r.history auction.history) }
    ensures ended { IfOk result (λ r. has_ended r.state ≡ true) }
{
    'waves: while !auction.ended() {
        (auction, racers) = wave_then_serial(rt, alloc, book, auction, racers, gate)?;
    }
    Ok(auction)
}

// Runs an auction to its end, and returns its record. `racers` has one for each worker, in order. They race on a
// board, each on a thread of its own if one can be started. After each race they try the current query one after
// another on this thread, until the auction has ended.
fn finish_with<R: Racer + Send + Drop, G: Gate + Sync, W: Threads + Wait + Sync>(
    rt: &W,
    alloc: Global,
    auction: Auction,
    scenario: Scenario,
    book: &Book,
    racers: Vec<R>,
    gate: &G,
) -> Result<Record, NoMemory>
    requires scenario { scenario ≡ auction.scenario }
    requires book { book.now ≡ auction.book }
    requires racers { map R.worker racers.items ≡ auction.scenario.workers }
    ensures backed { IfOk result (IsBacked scenario book.now auction.state.order) }
    ensures continues { IfOk result (ContinuesIn auction.state) }
    ensures receipts { IfOk result (KeepsReceipts auction.state) }
{
    // For its clauses alone: what the history replays to.
    auction.keeps_the_rule();
    let auction = run_to_end(rt, alloc, auction, book, racers, gate)?;
    auction.keeps_the_rule();
    let record = auction.into_result(alloc, scenario)?;
    Ok(record)
}

/// Runs the auction of this scenario and book, in which a round tests the stations by volume, and returns its record.
/// `racers` has one for each worker, in order. They race on a board, each on a thread of its own if one can be
/// started. After each race they try the current query one after another on this thread, until the auction has ended.
/// No step is settled by a proof from outside. Fails only if memory runs out.
pub fn run_with<R: Racer + Send + Drop, G: Gate + Sync, W: Threads + Wait + Sync>(
    rt: &W,
    alloc: Global,
    sc: &Scenario,
    book: &Book,
    racers: Vec<R>,
    gate: &G,
) -> Result<Record, NoMemory>
    requires auction { IsOfAuction sc.now book.now }
    requires racers { map R.worker racers.items ≡ sc.now.workers }
    ensures backed { IfOk result (IsBacked sc.now book.now Order.ByVolume) }
    ensures continues { IfOk result (ContinuesIn (opening sc.now book.now Order.ByVolume)) }
{
    let auction = Auction::start(alloc, sc, book, Order::ByVolume)?;
    let scenario = sc.copy(alloc)?;
    finish_with(rt, alloc, auction, scenario, book, racers, gate)
}

/// Continues this auction from its current state, between two postings, and returns its record. The racers are the
/// solvers of the scenario's workers, as in `run_auction`. The auction keeps its order, its start if that was
/// settled, its steps so far, and the pending receipts: if the current query ends undecided, they are among its
/// receipts. No further step is settled by a proof from outside. If the auction has ended, no query is tried.
/// `scenario` and `book` must be the auction's. Fails only if memory runs out.
pub fn go_on<G: Gate + Sync, W: Threads + Wait + Sync>(
    rt: &W,
    alloc: Global,
    auction: Auction,
    scenario: Scenario,
    book: &Book,
    gate: &G,
) -> Result<Record, NoMemory>
    requires scenario { scenario ≡ auction.scenario }
    requires book { book.now ≡ auction.book }
    ensures backed { IfOk result (IsBacked scenario book.now auction.state.order) }
    ensures continues { IfOk result (ContinuesIn auction.state) }
    ensures receipts { IfOk result (KeepsReceipts auction.state) }
{
    let racers = racers_of(alloc, auction.workers(), book)?;
    finish_with(rt, alloc, auction, scenario, book, racers, gate)
}

/// Runs the auction of this scenario and book, in which a round tests the stations by volume, and returns its record.
/// The racers of `run_with` are the solvers of the scenario's workers. Fails only if memory runs out.
pub fn run_auction<G: Gate + Sync, W: Threads + Wait + Sync>(
    rt: &W,
    alloc: Global,
    sc: &Scenario,
    book: &Book,
    gate: &G,
) -> Result<Record, NoMemory>
    requires { IsOfAuction sc.now book.now }
    ensures backed { IfOk result (IsBacked sc.now book.now Order.ByVolume) }
    ensures continues { IfOk result (ContinuesIn (opening sc.now book.now Order.ByVolume)) }
{
    let racers = racers_of(alloc, sc.workers.as_slice(), book)?;
    run_with(rt, alloc, sc, book, racers, gate)
}

/// Runs the live auction of this scenario and book, whose owners answer with these lines; the stations' values are
/// ignored. Does what `run_auction` does with the scenario of these owners, so the record has the owners. Fails only
/// if memory runs out.
pub fn run_live<G: Gate + Sync, W: Threads + Wait + Sync>(
    rt: &W,
    alloc: Global,
    sc: &Scenario,
    book: &Book,
    owners: &Owners,
    gate: &G,
) -> Result<Record, NoMemory>
    requires { IsOfAuction sc.now book.now }
    ensures backed { IfOk result (IsBacked (with_owners sc.now (Some owners.now)) book.now Order.ByVolume) }
    ensures continues { IfOk result (ContinuesIn (opening (with_owners sc.now (Some owners.now)) book.now Order.ByVolume)) }
{
    let live = sc.with_owners(alloc, owners)?;
    run_auction(rt, alloc, &live, book, gate)
}
