//! An auction between two postings: what each posting of a worker does, whoever posts it and when. This is the interface that
//! boards and races use; `query_session` and `taking` do the work.

ghost use Rattle.std.specs.Arc.{arc_value};
ghost use Rattle.std.specs.Prelude.{◌≡◌, ◌≤◌, ◌+◌, ◌++◌, ◌∷◌, [], IfErr, IfOk, MatchOption, None, OnOk, Some, ⊤, length, option_and_then, option_map, true};
ghost use Rattle.cert_types.specs.Certificate.{IsTaskOf};
ghost use Rattle.cert_types.specs.Query.{IsQuery};
ghost use Rattle.cert_types.specs.declared.answer.Answer.{Answer};
ghost use Rattle.pack_defs.specs.Scenario.{with_owners};
ghost use Rattle.auction_core.specs.Auction.{entry_with_reply, accepted_answer};
ghost use Rattle.auction_core.specs.Backed.{IsBacked, record_of};
ghost use Rattle.auction_core.specs.LogNumbers.{steps_in};
ghost use Rattle.auction_core.specs.NotShown.{Explains, not_kept, order_kept};
ghost use Rattle.auction_core.specs.Postings.{Continues};
ghost use Rattle.auction_core.specs.Prefix.{IsPrefix, resumed};
ghost use Rattle.auction_core.specs.Replay.{kept_answer, replay_from};
ghost use Rattle.auction_core.specs.Rule.{KeepsTheRule};
ghost use Rattle.auction_core.specs.Said.{MayBeTaken, JudgesAnswer, taken, with_answer};
ghost use Rattle.auction_core.specs.Setup.{IsOfAuction};
ghost use Rattle.auction_core.specs.State.{has_ended, opening, task_of};
ghost use Rattle.auction_core.specs.Take.{is_noted, take};

use crate::check_sequence::check_kept_sequence;
use crate::pending_receipts::PendingReceipts;
use crate::posting::{Entry, Posting, Reply, Said};
use crate::prefix::{Prefix, ResumeErr};
use crate::query_session::QuerySession;
use crate::record::Record;
use crate::taking::reply_to;
use cert_types::answer::Answer;
use cert_types::task::Task;
use pack_defs::book::Book;
use pack_defs::order::Order;
use pack_defs::owners::Owners;
use pack_defs::scenario::Scenario;
use pack_defs::worker::Worker;
use std::alloc::{AllocError as NoMemory, Global};
use std::marker::Model;
use std::snapshot::Snapshot;
use std::sync::Arc;

/// An auction between two postings. It keeps the reply to each posting since it was opened, and keeps the clock rule whatever is
/// posted. The state in which it was opened exists in proofs only and takes no memory.
///
/// # Example
///
/// Here the first worker answers by `solve`, any function from a task to an answer. An invalid answer leaves the query open:
///
/// ```
/// let mut auction = Auction::start(alloc, &scenario, &book, Order::ByVolume)?;
/// while let Some(task) = auction.task(alloc)? {
///     auction.reserve()?;
///     let answer = solve(alloc, &task)?;
///     let said = match certify_query(alloc, auction.book(), &task, &auction.workers()[0], answer) {
///         Ok(certified) => Said::Good(certified),
///         Err(fault) => match fault.why {
///             CertifyWhy::Rejected(place) => Said::Bad(place),
///             CertifyWhy::NoMemory => return Err(NoMemory),
///         },
///     };
///     auction.take(Posting { worker: 0, number: task.number, said });
/// }
/// let record = auction.into_result(alloc, scenario)?;
/// ```
#[derive(Drop)]
pub struct Auction {
    opened: Snapshot<QuerySession>,
    query_session: QuerySession,
    pending_receipts: PendingReceipts,
    history: Vec<Entry>,
}

impl Model for Auction {
    ghost use Rattle.std.specs.Prelude.{vec_capacity, vec_len, ◌-◌};
    ghost use Rattle.auction_core.specs.Auction.{AuctionView, IsBetween, spare_of, state_at};

    ghost Value = { AuctionView };

    ghost view = { λ a. record {
      scenario = a.query_session.scenario;
      book = a.query_session.book;
      opened = a.opened.value.state;
      state = state_at a.query_session a.pending_receipts;
      history = a.history.items;
      spare = spare_of a.query_session a.pending_receipts (vec_capacity a.history - vec_len a.history);
    } };

    ghost invariant = { λ a. IsBetween a.query_session a.pending_receipts a.opened.value.state a.history.items };
}

impl Auction {
    /// Returns the auction of this scenario and book, with this test order in each round. It is at its first query or, if it needs
    /// none, at its end. Copies the scenario and the book.
    ///
    /// # Errors
    ///
    /// Fails only if memory runs out.
    pub fn start(
        alloc: Global,
        sc: &Scenario,
        book: &Book,
        order: Order,
    ) -> Result<Auction, NoMemory>
        requires { IsOfAuction sc.now book.now }
        ensures scenario { IfOk result (λ auction. auction.scenario ≡ sc.now) }
        ensures book { IfOk result (λ auction. auction.book ≡ book.now) }
        ensures opened { IfOk result (λ auction. auction.opened ≡ opening sc.now book.now order) }
        ensures state { IfOk result (λ auction. auction.state ≡ opening sc.now book.now order) }
        ensures history { IfOk result (λ auction. auction.history ≡ []) }
    {
        let query_session = QuerySession::open(alloc, sc, book, order)?;
        Auction::of(alloc, query_session)
    }

    /// Returns the auction that continues this query session, at its current query or at its end. The history begins empty.
    ///
    /// # Errors
    ///
    /// Fails only if memory runs out.
    pub(crate) fn of(alloc: Global, query_session: QuerySession) -> Result<Auction, NoMemory>
        ensures scenario { IfOk result (λ auction. auction.scenario ≡ query_session.scenario) }
        ensures book { IfOk result (λ auction. auction.book ≡ query_session.book) }
        ensures opened { IfOk result (λ auction. auction.opened ≡ query_session.state) }
        ensures state { IfOk result (λ auction. auction.state ≡ query_session.state) }
        ensures history { IfOk result (λ auction. auction.history ≡ []) }
    {
        let pending_receipts = PendingReceipts::none_pending(alloc, query_session.workers().len())?;
        Ok(Auction::with_none_pending(alloc, query_session, pending_receipts))
    }

    // Returns the auction that continues this query session, with these slots for the workers' receipts, all empty.
    fn with_none_pending(
        alloc: Global,
        query_session: QuerySession,
        pending_receipts: PendingReceipts,
    ) -> Auction
        requires places { pending_receipts.workers ≡ length query_session.scenario.workers }
        requires none { pending_receipts.noted ≡ [] }
        ensures scenario { result.scenario ≡ query_session.scenario }
        ensures book { result.book ≡ query_session.book }
        ensures opened { result.opened ≡ query_session.state }
        ensures state { result.state ≡ query_session.state }
        ensures history { result.history ≡ [] }
    {
        // Proof only: no receipt is pending, and the state keeps the clock rule.
        query_session.keeps_the_rule();
        let opened = Snapshot::of(&query_session);
        Auction {
            opened,
            query_session,
            pending_receipts,
            history: Vec::new(alloc),
        }
    }

    /// Returns the auction of this scenario and book that continues after the beginning of a transcript. The start and the complete
    /// steps stay as they were settled; the next query is the clock rule's next.
    ///
    /// The test order is that of the transcript's first line, by volume if that line is missing. Copies the scenario and the book,
    /// and moves the certificates. Runs no solver. Cost: what the certificates cost to check, and what building each query costs.
    ///
    /// # Errors
    ///
    /// Fails with the first step that is not the clock rule's next test, or whose certificate is invalid, and the reason. An end
    /// that comes too soon counts as a step out of order behind the last one. Fails also if memory runs out.
    pub fn resume(
        alloc: Global,
        sc: &Scenario,
        book: &Book,
        prefix: Prefix,
    ) -> Result<Auction, ResumeErr>
        requires { IsOfAuction sc.now book.now }
        ensures none { IfOk result (λ auction. not_kept sc.now book.now prefix ≡ None) }
        ensures kept { IfOk result (λ auction. IsPrefix sc.now book.now (order_kept prefix) prefix.start (steps_in prefix.steps)) }
        ensures scenario { IfOk result (λ auction. auction.scenario ≡ sc.now) }
        ensures book { IfOk result (λ auction. auction.book ≡ book.now) }
        ensures opened { IfOk result (λ auction. auction.opened ≡ resumed sc.now book.now (order_kept prefix) prefix.start (steps_in prefix.steps)) }
        ensures state { IfOk result (λ auction. auction.state ≡ resumed sc.now book.now (order_kept prefix) prefix.start (steps_in prefix.steps)) }
        ensures history { IfOk result (λ auction. auction.history ≡ []) }
        ensures why { IfErr result (λ e. Explains e (not_kept sc.now book.now prefix)) }
    {
        // Proof only: the book is in order, as the laws require.
        book.keeps_order();
        let query_session = check_kept_sequence(alloc, book, sc, prefix)?;
        Ok(Auction::of(alloc, query_session)?)
    }

    /// Returns the live auction of this scenario: these answers of the owners decide, and the stations' values are ignored. Starts
    /// as `start` does.
    ///
    /// # Errors
    ///
    /// Fails only if memory runs out.
    pub fn start_live(
        alloc: Global,
        sc: &Scenario,
        book: &Book,
        owners: &Owners,
        order: Order,
    ) -> Result<Auction, NoMemory>
        requires { IsOfAuction sc.now book.now }
        ensures scenario { IfOk result (λ auction. auction.scenario ≡ with_owners sc.now (Some owners.now)) }
        ensures book { IfOk result (λ auction. auction.book ≡ book.now) }
        ensures opened { IfOk result (λ auction. auction.opened ≡ opening (with_owners sc.now (Some owners.now)) book.now order) }
        ensures state { IfOk result (λ auction. auction.state ≡ opening (with_owners sc.now (Some owners.now)) book.now order) }
        ensures history { IfOk result (λ auction. auction.history ≡ []) }
    {
        let live = sc.with_owners(alloc, owners)?;
        Auction::start(alloc, &live, book, order)
    }

    /// Returns the book.
    pub fn book(&self) -> &Book
        ensures { result.now ≡ self.now.book }
    {
        self.query_session.book()
    }

    /// Clones the shared book; no copy is made. Fails if the reference count would overflow.
    pub fn shared_book(&self) -> Result<Arc<Book>, NoMemory>
        ensures { IfOk result (λ book. arc_value book ≡ self.now.book) }
    {
        self.query_session.shared_book()
    }

    /// Returns the workers of the scenario: one to sixteen.
    pub fn workers(&self) -> &[Worker]
        ensures workers { result.now ≡ self.now.scenario.workers }
        ensures some { 1 ≤ length result.now }
        ensures few { length result.now ≤ 16 }
    {
        self.query_session.workers()
    }

    /// Returns the number of the current query, from 1; once the auction has ended, one more than the last.
    pub fn number(&self) -> u64
        ensures { result ≡ self.now.state.number }
    {
        self.query_session.number()
    }

    /// Returns whether the auction has ended: no query is left.
    pub fn ended(&self) -> bool
        ensures { result ≡ has_ended self.now.state }
    {
        self.query_session.has_ended()
    }

    /// Returns whether this worker's receipt for the current query is pending; `false` for a worker that the scenario does not
    /// have.
    pub fn noted(&self, worker: u32) -> bool
        ensures { result ≡ is_noted self.now.state.noted worker }
    {
        self.pending_receipts.has(worker)
    }

    /// Returns how many postings there were since the auction was opened.
    pub fn posted(&self) -> u64
        ensures count { result ≡ length self.now.history }
    {
        self.history.len() as u64
    }

    /// Does nothing at run time. Its clauses are for proofs: the history replays from the opened state to the current state, which
    /// keeps the clock rule. The current state has the order of the opened one and begins with its steps. None of the later steps
    /// is settled by a proof from outside.
    pub fn keeps_the_rule(&self)
        ensures replays { replay_from self.now.scenario self.now.book self.now.history self.now.opened ≡ Some self.now.state }
        ensures rule { KeepsTheRule self.now.scenario self.now.book self.now.state }
        ensures order { self.now.state.order ≡ self.now.opened.order }
        ensures continues { Continues self.now.opened self.now.state }
    {
        let _history = &self.history;
    }

    /// Returns the current query, or `None` if the auction has ended. Solvers may be run on it, and answers to it may be checked.
    /// Cost: a binary search for each neighbour of the tested station and a pass over all stations.
    ///
    /// # Errors
    ///
    /// Fails only if memory runs out.
    pub fn task(&self, alloc: Global) -> Result<Option<Task>, NoMemory>
        ensures task { IfOk result (λ task. task ≡ task_of self.now.scenario self.now.book self.now.state) }
        ensures checked { IfOk result (λ task. MatchOption task ⊤ (IsTaskOf self.now.book)) }
        ensures query { IfOk result (λ task. MatchOption task ⊤ (IsQuery self.now.book)) }
    {
        self.query_session.task(alloc)
    }

    /// Reserves room for all that one posting can add. Success or failure, no room is lost and nothing else changes.
    ///
    /// # Errors
    ///
    /// Fails only if memory runs out.
    pub fn reserve(&mut self) -> Result<(), NoMemory>
        ensures spare { OnOk result (1 ≤ self.new.spare) }
        ensures kept { self.old.spare ≤ self.new.spare }
        ensures scenario { self.new.scenario ≡ self.old.scenario }
        ensures book { self.new.book ≡ self.old.book }
        ensures opened { self.new.opened ≡ self.old.opened }
        ensures state { self.new.state ≡ self.old.state }
        ensures history { self.new.history ≡ self.old.history }
    {
        self.history.reserve(1)?;
        self.pending_receipts.reserve()?;
        self.query_session.reserve()
    }

    /// Applies a posting and returns the reply. The posting is turned away, or its answer settles the query, becomes a pending
    /// receipt, or changes nothing.
    ///
    /// Unless the posting is turned away, an answer that was accepted (`Said::Good`) must be valid for the current query and
    /// its worker. If the posting's verdict is true of an answer, `take` does what posting that answer itself would do. The history
    /// keeps the reply, and the state keeps the clock rule.
    ///
    /// Allocates nothing. Cost: that of the stations skipped up to the next query; and if a station goes on air, a pass over all
    /// stations for each component that it joins.
    pub fn take(&mut self, posting: Posting) -> Reply
        requires spare { 1 ≤ self.old.spare }
        requires said { MayBeTaken self.old.scenario self.old.book self.old.state posting }
        ensures told { (result, self.new.state) ≡ taken self.old.scenario self.old.book self.old.state posting }
        ensures seen { (answer : Answer) → JudgesAnswer self.old.scenario self.old.book self.old.state posting answer →
            (result, self.new.state) ≡ take self.old.scenario self.old.book self.old.state (with_answer posting answer) }
        ensures history { self.new.history ≡ self.old.history ++ entry_with_reply posting result ∷ [] }
        ensures rule { KeepsTheRule self.new.scenario self.new.book self.new.state }
        ensures order { self.new.state.order ≡ self.old.state.order }
        ensures room { self.old.spare ≤ self.new.spare + 1 }
        ensures scenario { self.new.scenario ≡ self.old.scenario }
        ensures book { self.new.book ≡ self.old.book }
        ensures opened { self.new.opened ≡ self.old.opened }
    {
        let worker = posting.worker;
        let number = posting.number;
        let answer = accepted_answer(&posting.said);
        let reply = reply_to(&mut self.query_session, &mut self.pending_receipts, posting);
        self.history.push_reserved(Entry {
            worker,
            number,
            reply,
            answer: answer_if_taken(reply, answer),
        });
        reply
    }

    /// Returns the record of the auction, which must have ended.
    ///
    /// # Errors
    ///
    /// Fails only if memory runs out.
    pub fn into_result(self, alloc: Global, scenario: Scenario) -> Result<Record, NoMemory>
        requires ended { has_ended self.state ≡ true }
        requires scenario { scenario ≡ self.scenario }
        ensures record_is { IfOk result (λ rec. rec ≡ record_of scenario self.state) }
        ensures backed { IfOk result (IsBacked scenario self.book self.state.order) }
    {
        self.query_session.into_record(alloc, scenario)
    }
}

// Returns the accepted answer, as contracts see it.
fn accepted_answer(said: &Said) -> Option<Snapshot<Answer>>
    ensures { option_map (λ s. s.value) result ≡ accepted_answer said.now }
{
    match said {
        Said::Good(certified) => Some(Snapshot::of(certified.answer())),
        Said::Bad(_) => None,
    }
}

// Returns the answer if the reply says that it took effect.
fn answer_if_taken(reply: Reply, answer: Option<Snapshot<Answer>>) -> Option<Snapshot<Answer>>
    ensures { option_map (λ s. s.value) result ≡ option_and_then (kept_answer reply) (option_map (λ s. s.value) answer) }
{
    match reply {
        Reply::Advanced { .. } | Reply::Noted => answer,
        _ => None,
    }
}
