//! Posts answers on a board. An answer is checked between two turns, so that no worker waits for a check.

ghost use Rattle.std.specs.Prelude.{◌≡◌, IfErr, IfOk, Some, slice_get, true};
ghost use Rattle.cert_types.specs.Query.{IsQuery};
ghost use Rattle.turn_lock.specs.Passes.{IsLegal, known_of, mine_of, pass_number, seen_of};
ghost use Rattle.answer_board.specs.Boards.{StaysIdle, IsIdleOn, raised};
ghost use Rattle.answer_board.specs.Posts.{IsEarlyPostOn, WasCurrent, IsPosted, StaysJudged, is_faultless};

use crate::board::{Board, Pass};
use crate::post::{EarlyPost, Unposted, post_judged, post_unjudged};
use auction_core::posting::{Reply, Said};
use cert_types::answer::{Answer, CertifyWhy, Place};
use cert_types::certified::Certified;
use cert_types::certify::certify_query;
use cert_types::task::Task;
use pack_defs::worker::Worker;
use std::alloc::{AllocError as NoMemory, Global};
use std::snapshot::Snapshot;
use std::sync::Wait;

impl Board {
    /// Posts an answer to the query with this number, and returns the reply. Unless the posting is turned away,
    /// `certify_query` checks the answer against the current query outside of any turn, and a second turn posts the
    /// verdict. Waits for its turns.
    ///
    /// # Errors
    ///
    /// Fails only if memory runs out. The answer is returned, the pass's own entries stay, and the answer may be
    /// posted again.
    pub fn post<R: Wait>(
        &self,
        rt: &R,
        alloc: Global,
        pass: &mut Pass,
        number: u64,
        answer: Answer,
    ) -> Result<Reply, Unposted>
        requires idle { IsIdleOn self.now pass.old }
        ensures idle { StaysIdle self.now pass.old pass.new }
        ensures posted { IfOk result (IsPosted (raised self.now) (record { worker = pass_number pass.old; number = number; answer = answer }) (known_of pass.old) (known_of pass.new)) }
        ensures back { IfErr result (λ unposted. unposted.answer ≡ answer) }
        ensures mine { IfErr result (λ unposted. mine_of pass.new ≡ mine_of pass.old) }
    {
        match self.post_unjudged(rt, alloc, pass, number) {
            Ok(EarlyPost::Replied(reply)) => Ok(reply),
            Ok(EarlyPost::MustJudge { task, worker }) => {
                self.judge_and_post(rt, alloc, pass, &task, &worker, answer)
            }
            Err(_) => Err(Unposted { answer }),
        }
    }

    /// Posts an answer that was accepted, by a check or by its solver's contract, and returns the reply. The answer
    /// is not checked again. The pass must have seen the query current for which the answer was accepted, and the
    /// answer must be its worker's. So the answer may be late, but it is never rejected. Waits for its turn.
    ///
    /// # Errors
    ///
    /// Fails only if memory runs out. The answer is returned, the pass's own entries stay, and the answer may be
    /// posted again.
    pub fn post_certified<R: Wait>(
        &self,
        rt: &R,
        pass: &mut Pass,
        number: u64,
        certified: Certified,
    ) -> Result<Reply, Unposted>
        requires idle { IsIdleOn self.now pass.old }
        requires book { certified.book ≡ (raised self.now).book }
        requires worker { slice_get (raised self.now).scenario.workers (pass_number pass.old) ≡ Some certified.worker }
        requires was_current { WasCurrent (raised self.now) (seen_of pass.old) certified.task }
        requires number { number ≡ certified.task.number }
        ensures idle { StaysIdle self.now pass.old pass.new }
        ensures posted { IfOk result (IsPosted (raised self.now) (record { worker = pass_number pass.old; number = number; answer = certified.answer }) (known_of pass.old) (known_of pass.new)) }
        ensures faultless { IfOk result (λ reply. is_faultless reply ≡ true) }
        ensures back { IfErr result (λ unposted. unposted.answer ≡ certified.answer) }
        ensures mine { IfErr result (λ unposted. mine_of pass.new ≡ mine_of pass.old) }
    {
        let answer = Snapshot::of(certified.answer());
        match self.post_judged(rt, pass, number, Said::Good(certified), &answer) {
            Ok(reply) => Ok(reply),
            Err(Said::Good(certified)) => Err(Unposted {
                answer: certified.into_answer(),
            }),
            Err(Said::Bad(_)) => unreachable!(),
        }
    }

    // Posts an answer that is invalid at this place.
    fn post_rejected<R: Wait>(
        &self,
        rt: &R,
        pass: &mut Pass,
        number: u64,
        place: Place,
        answer: Answer,
    ) -> Result<Reply, Unposted>
        requires idle { IsIdleOn self.now pass.old }
        requires stands { StaysJudged (raised self.now) (seen_of pass.old) (record { worker = pass_number pass.old; number = number; said = Said.Bad place }) answer }
        ensures idle { StaysIdle self.now pass.old pass.new }
        ensures posted { IfOk result (IsPosted (raised self.now) (record { worker = pass_number pass.old; number = number; answer = answer }) (known_of pass.old) (known_of pass.new)) }
        ensures back { IfErr result (λ unposted. unposted.answer ≡ answer) }
        ensures mine { IfErr result (λ unposted. mine_of pass.new ≡ mine_of pass.old) }
    {
        let kept = Snapshot::of(&answer);
        match self.post_judged(rt, pass, number, Said::Bad(place), &kept) {
            Ok(reply) => Ok(reply),
            Err(_) => Err(Unposted { answer }),
        }
    }

    // Checks an answer, and posts it.
    fn judge_and_post<R: Wait>(
        &self,
        rt: &R,
        alloc: Global,
        pass: &mut Pass,
        task: &Task,
        worker: &Worker,
        answer: Answer,
    ) -> Result<Reply, Unposted>
        requires idle { IsIdleOn self.now pass.old }
        requires legal { IsLegal pass.old }
        requires query { IsQuery (raised self.now).book task.now }
        requires worker { slice_get (raised self.now).scenario.workers (pass_number pass.old) ≡ Some worker.now }
        requires was_current { WasCurrent (raised self.now) (seen_of pass.old) task.now }
        ensures idle { StaysIdle self.now pass.old pass.new }
        ensures posted { IfOk result (IsPosted (raised self.now) (record { worker = pass_number pass.old; number = task.now.number; answer = answer }) (known_of pass.old) (known_of pass.new)) }
        ensures back { IfErr result (λ unposted. unposted.answer ≡ answer) }
        ensures mine { IfErr result (λ unposted. mine_of pass.new ≡ mine_of pass.old) }
    {
        match certify_query(alloc, &self.book, task, worker, answer) {
            Ok(certified) => self.post_certified(rt, pass, task.number, certified),
            Err(fault) => match fault.why {
                CertifyWhy::Rejected(place) => {
                    self.post_rejected(rt, pass, task.number, place, fault.answer)
                }
                CertifyWhy::NoMemory => Err(Unposted {
                    answer: fault.answer,
                }),
            },
        }
    }

    // The first turn of a posting whose answer is not checked yet.
    fn post_unjudged<R: Wait>(
        &self,
        rt: &R,
        alloc: Global,
        pass: &mut Pass,
        number: u64,
    ) -> Result<EarlyPost, NoMemory>
        requires idle { IsIdleOn self.now pass.old }
        ensures idle { StaysIdle self.now pass.old pass.new }
        ensures met { IfOk result (IsEarlyPostOn (raised self.now) (pass_number pass.old) number (known_of pass.old) (known_of pass.new)) }
        ensures mine { IfErr result (λ fault. mine_of pass.new ≡ mine_of pass.old) }
    {
        let worker = pass.number();
        let mut turn = self.lock.enter(rt, pass);
        // Its contract says which state the history replays to.
        turn.value.auction.keeps_the_rule();
        match post_unjudged(alloc, &mut turn.value.auction, worker, number) {
            Ok(EarlyPost::Replied(reply)) => {
                turn.value.auction.keeps_the_rule();
                self.lock.commit(pass, &mut turn);
                self.lock.leave(pass, turn);
                Ok(EarlyPost::Replied(reply))
            }
            Ok(EarlyPost::MustJudge { task, worker }) => {
                self.lock.leave(pass, turn);
                Ok(EarlyPost::MustJudge { task, worker })
            }
            Err(fault) => {
                self.lock.leave(pass, turn);
                Err(fault)
            }
        }
    }

    // Posts the verdict on an answer, within a turn.
    fn post_judged<R: Wait>(
        &self,
        rt: &R,
        pass: &mut Pass,
        number: u64,
        said: Said,
        answer: &Snapshot<Answer>,
    ) -> Result<Reply, Said>
        requires idle { IsIdleOn self.now pass.old }
        requires stands { StaysJudged (raised self.now) (seen_of pass.old) (record { worker = pass_number pass.old; number = number; said = said }) answer.now.value }
        ensures idle { StaysIdle self.now pass.old pass.new }
        ensures posted { IfOk result (IsPosted (raised self.now) (record { worker = pass_number pass.old; number = number; answer = answer.now.value }) (known_of pass.old) (known_of pass.new)) }
        ensures back { IfErr result (λ back. back ≡ said) }
        ensures mine { IfErr result (λ back. mine_of pass.new ≡ mine_of pass.old) }
    {
        // The answer is in the contract only: `said` or the caller has its value.
        let _ = answer;
        let worker = pass.number();
        let mut turn = self.lock.enter(rt, pass);
        // Its contract says which state the history replays to.
        turn.value.auction.keeps_the_rule();
        match post_judged(&mut turn.value.auction, worker, number, said) {
            Ok(reply) => {
                turn.value.auction.keeps_the_rule();
                self.lock.commit(pass, &mut turn);
                self.lock.leave(pass, turn);
                Ok(reply)
            }
            Err(said) => {
                self.lock.leave(pass, turn);
                Err(said)
            }
        }
    }
}
