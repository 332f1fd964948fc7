//! Opens a board, looks at it and closes it.

ghost use Rattle.std.specs.Prelude.{◌≡◌, ◌≤◌, IfErr, IfOk, length, map};
ghost use Rattle.turn_lock.specs.Passes.{IsPassIdle, known_of, mine_of, seen_of, pass_identity};
ghost use Rattle.turn_lock.specs.Turns.{AllOf, IsClosedHistory, each_new};
ghost use Rattle.answer_board.specs.Boards.{AreAllOn, StaysIdle, IsIdleOn, beginning_of, raised};
ghost use Rattle.answer_board.specs.Entries.{numbered};
ghost use Rattle.answer_board.specs.Posts.{LookIs, SeesState};

use crate::board::{Board, Pass};
use crate::kept::Kept;
use crate::look::{Look, current_look};
use auction_core::auction::Auction;
use pack_defs::worker::Worker;
use std::alloc::{AllocError as NoMemory, Global};
use std::sync::Wait;
use turn_lock::lock::TurnLock;

impl Board {
    /// Puts an auction on a board. Returns the board and `passes` passes to it; the pass at place `i` has number `i`.
    ///
    /// # Errors
    ///
    /// Fails if memory runs out, or if the reference count of the book would overflow. The auction is returned then.
    pub fn raise(
        alloc: Global,
        auction: Auction,
        passes: u32,
    ) -> Result<(Board, Vec<Pass>), (NoMemory, Auction)>
        requires some { 1 ≤ passes }
        ensures raised { IfOk result (λ r. raised r.0 ≡ auction) }
        ensures all { IfOk result (λ r. AreAllOn r.0 (map pass_identity r.1.items)) }
        ensures idle { IfOk result (λ r. AllOf IsPassIdle r.1.items) }
        ensures new { IfOk result (λ r. map known_of r.1.items ≡ each_new (numbered auction.history) passes) }
        ensures back { IfErr result (λ e. e.1 ≡ auction) }
    {
        // Its contract says that the order is the one in which the auction was opened.
        auction.keeps_the_rule();
        let Ok(book) = auction.shared_book() else {
            return Err((NoMemory, auction));
        };
        let Ok(workers) = Vec::from_slice(alloc, auction.workers()) else {
            return Err((NoMemory, auction));
        };
        match TurnLock::make(alloc, Kept { auction }, passes) {
            Ok((lock, passes)) => {
                let board = Board {
                    lock,
                    book,
                    workers,
                };
                Ok((board, passes))
            }
            Err((fault, kept)) => Err((fault, kept.auction)),
        }
    }

    /// Returns the workers of the auction's scenario. Pass `i` posts as worker `i`.
    pub fn workers(&self) -> &[Worker]
        ensures { result.now ≡ (raised self.now).scenario.workers }
    {
        &self.workers
    }

    /// Returns the current query, or that the auction has ended. Waits for its turn. Fails only if memory runs out.
    pub fn look<R: Wait>(&self, rt: &R, alloc: Global, pass: &mut Pass) -> Result<Look, NoMemory>
        requires idle { IsIdleOn self.now pass.old }
        ensures idle { StaysIdle self.now pass.old pass.new }
        ensures mine { mine_of pass.new ≡ mine_of pass.old }
        ensures look { IfOk result (λ look. SeesState (raised self.now) (seen_of pass.new) (λ state. LookIs (raised self.now).scenario (raised self.now).book state look)) }
    {
        let turn = self.lock.enter(rt, pass);
        // Its contract says which state the history replays to.
        turn.value.auction.keeps_the_rule();
        let looked = current_look(alloc, &turn.value.auction);
        self.lock.leave(pass, turn);
        looked
    }

    /// Returns the number of the current query, or the number after the last query once the auction has ended. Waits
    /// for its turn.
    pub fn current<R: Wait>(&self, rt: &R, pass: &mut Pass) -> u64
        requires idle { IsIdleOn self.now pass.old }
        ensures idle { StaysIdle self.now pass.old pass.new }
        ensures mine { mine_of pass.new ≡ mine_of pass.old }
        ensures number { SeesState (raised self.now) (seen_of pass.new) (λ state. result ≡ state.number) }
    {
        let turn = self.lock.enter(rt, pass);
        // Its contract says which state the history replays to.
        turn.value.auction.keeps_the_rule();
        let number = turn.value.auction.number();
        self.lock.leave(pass, turn);
        number
    }

    /// Takes the auction off the board. `passes` are all of its passes, the first one in front and the others in any
    /// order. Does not wait.
    ///
    /// The auction has the scenario, book and order that it was put on the board with, and the same opening state.
    /// Its history begins with what each pass has seen. It consists of the history at the start and every pass's own
    /// entries, each once.
    pub fn close(self, passes: Vec<Pass>) -> Auction
        requires all { AreAllOn self (map pass_identity passes.items) }
        requires idle { AllOf IsPassIdle passes.items }
        ensures beginning { beginning_of result ≡ beginning_of (raised self) }
        ensures order { result.state.order ≡ (raised self).state.order }
        ensures history { IsClosedHistory (length passes.items) (numbered (raised self).history) (numbered result.history) (map known_of passes.items) }
    {
        let Board {
            lock,
            book,
            workers,
        } = self;
        drop(book);
        drop(workers);
        let Kept { auction } = lock.close(passes);
        // Its contract says that the order is the one in which the auction was opened.
        auction.keeps_the_rule();
        auction
    }
}
