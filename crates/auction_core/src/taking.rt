//! What a posting does to the auction and to the pending receipts of its current query. `auction` calls `reply_to`.

ghost use Rattle.std.specs.Prelude.{◌≡◌, ◌<◌, None, Some, false, if◌then◌else◌, length, true};
ghost use Rattle.auction_core.specs.Auction.{IsReady, state_at};
ghost use Rattle.auction_core.specs.Rule.{Answers, SettlesQuery};
ghost use Rattle.auction_core.specs.Said.{MayBeTaken, taken};
ghost use Rattle.auction_core.specs.State.{has_ended};
ghost use Rattle.auction_core.specs.Take.{accepted, advanced, spent, unjudged_reply};

use crate::pending_receipts::PendingReceipts;
use crate::posting::{Posting, Reply, Said};
use crate::query_session::QuerySession;
use crate::record::Shown;
use cert_types::answer::{Answer, Receipt};

/// Returns the reply to a posting: the posting is turned away, or its answer takes effect. Allocates nothing.
pub fn reply_to(
    query_session: &mut QuerySession,
    pending_receipts: &mut PendingReceipts,
    posting: Posting,
) -> Reply
    requires ready { IsReady query_session.old pending_receipts.old }
    requires said { MayBeTaken query_session.old.scenario query_session.old.book (state_at query_session.old pending_receipts.old) posting }
    ensures told { (result, state_at query_session.new pending_receipts.new) ≡ taken query_session.old.scenario query_session.old.book (state_at query_session.old pending_receipts.old) posting }
    ensures scenario { query_session.new.scenario ≡ query_session.old.scenario }
    ensures book { query_session.new.book ≡ query_session.old.book }
    ensures places { pending_receipts.new.workers ≡ pending_receipts.old.workers }
{
    let Posting {
        worker,
        number,
        said,
    } = posting;
    if let Some(reply) = unjudged_reply(query_session, worker, number) {
        return reply;
    }
    match said {
        Said::Good(certified) => accept(
            query_session,
            pending_receipts,
            worker,
            certified.into_answer(),
        ),
        Said::Bad(place) => Reply::Rejected { place },
    }
}

// Returns why a posting is not read, or `None` if it is.
fn unjudged_reply(query_session: &QuerySession, worker: u32, number: u64) -> Option<Reply>
    ensures { result ≡ unjudged_reply query_session.now.scenario query_session.now.state worker number }
{
    let now = query_session.number();
    if query_session.has_ended() {
        return Some(Reply::Ended);
    }
    if number != now {
        return Some(Reply::WrongQuery { now });
    }
    if query_session.workers().len() <= worker as usize {
        return Some(Reply::Stranger);
    }
    None
}

// Applies a valid answer.
fn accept(
    query_session: &mut QuerySession,
    pending_receipts: &mut PendingReceipts,
    worker: u32,
    answer: Answer,
) -> Reply
    requires ready { IsReady query_session.old pending_receipts.old }
    requires standing { has_ended query_session.old.state ≡ false }
    requires worker { worker < length query_session.old.scenario.workers }
    requires valid { Answers query_session.old.scenario query_session.old.book (state_at query_session.old pending_receipts.old) worker answer }
    ensures told { (result, state_at query_session.new pending_receipts.new) ≡ accepted query_session.old.scenario query_session.old.book (state_at query_session.old pending_receipts.old) worker answer }
    ensures scenario { query_session.new.scenario ≡ query_session.old.scenario }
    ensures book { query_session.new.book ≡ query_session.old.book }
    ensures places { pending_receipts.new.workers ≡ pending_receipts.old.workers }
{
    match answer {
        Answer::Fit(delta) => advance(query_session, pending_receipts, Shown::Fits(delta)),
        Answer::Refuted(how) => advance(
            query_session,
            pending_receipts,
            Shown::Refuted { worker, how },
        ),
        Answer::Spent(receipt) => note_receipt(query_session, pending_receipts, worker, receipt),
    }
}

// Settles the current query and drops its pending receipts.
fn advance(
    query_session: &mut QuerySession,
    pending_receipts: &mut PendingReceipts,
    shown: Shown,
) -> Reply
    requires ready { query_session.old.ready ≡ true }
    requires standing { has_ended query_session.old.state ≡ false }
    requires settles { SettlesQuery query_session.old.scenario query_session.old.book (state_at query_session.old pending_receipts.old) shown }
    ensures told { (result, state_at query_session.new pending_receipts.new) ≡ advanced query_session.old.scenario query_session.old.book (state_at query_session.old pending_receipts.old) shown }
    ensures scenario { query_session.new.scenario ≡ query_session.old.scenario }
    ensures book { query_session.new.book ≡ query_session.old.book }
    ensures places { pending_receipts.new.workers ≡ pending_receipts.old.workers }
{
    query_session.settle(shown);
    pending_receipts.clear();
    Reply::Advanced {
        next: next_number(query_session),
    }
}

// Returns the number of the current query, if one is left.
fn next_number(query_session: &QuerySession) -> Option<u64>
    ensures { result ≡ (if has_ended query_session.now.state then None else Some query_session.now.state.number) }
{
    if query_session.has_ended() {
        return None;
    }
    Some(query_session.number())
}

// Applies a valid receipt. The worker may have one pending already; the last worker's receipt settles the query; any other receipt
// becomes pending.
fn note_receipt(
    query_session: &mut QuerySession,
    pending_receipts: &mut PendingReceipts,
    worker: u32,
    receipt: Receipt,
) -> Reply
    requires ready { IsReady query_session.old pending_receipts.old }
    requires standing { has_ended query_session.old.state ≡ false }
    requires worker { worker < length query_session.old.scenario.workers }
    requires valid { Answers query_session.old.scenario query_session.old.book (state_at query_session.old pending_receipts.old) worker (Answer.Spent receipt) }
    ensures told { (result, state_at query_session.new pending_receipts.new) ≡ spent query_session.old.scenario query_session.old.book (state_at query_session.old pending_receipts.old) (record { worker = worker; receipt = receipt }) }
    ensures scenario { query_session.new.scenario ≡ query_session.old.scenario }
    ensures book { query_session.new.book ≡ query_session.old.book }
    ensures places { pending_receipts.new.workers ≡ pending_receipts.old.workers }
{
    if pending_receipts.has(worker) {
        return Reply::AlreadySpent;
    }
    let workers = query_session.workers().len();
    if pending_receipts.count() + 1 == workers {
        let receipts = pending_receipts.take_all_with(worker, receipt);
        return advance(query_session, pending_receipts, Shown::Undecided(receipts));
    }
    pending_receipts.note(worker, receipt);
    Reply::Noted
}
