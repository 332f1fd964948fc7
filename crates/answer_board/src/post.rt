//! The part of a posting that runs within a turn. `postings` takes the turn and calls these functions.

ghost use Rattle.std.specs.Prelude.{◌≡◌, IfErr, IfOk, None, Some, is_some, length, slice_get, true, ◌<◌};
ghost use Rattle.cert_types.specs.declared.answer.Answer.{Answer};
ghost use Rattle.auction_core.specs.Said.{MayBeTaken, JudgesAnswer};
ghost use Rattle.auction_core.specs.Take.{unjudged_reply};
ghost use Rattle.answer_board.specs.Posts.{IsEarlyPost, IsPostingTaken, IsUnchangedBoard};

use auction_core::auction::Auction;
use auction_core::posting::{Posting, Reply, Said};
use cert_types::answer::{Answer, Place};
use cert_types::task::Task;
use pack_defs::worker::Worker;
use std::alloc::{AllocError as NoMemory, Global};

/// An answer that was not posted because memory ran out.
#[derive(Debug, Drop)]
pub struct Unposted {
    pub answer: Answer,
}

/// The result of a posting before its answer is checked.
#[derive(Drop)]
pub(crate) enum EarlyPost {
    /// The posting was turned away with this reply.
    Replied(Reply),
    /// The posting is for the current query, and is this worker's.
    MustJudge { task: Task, worker: Worker },
}

/// Posts if the posting is turned away whatever its answer; otherwise changes nothing and returns what the answer is
/// to be checked against. Fails only if memory runs out, and then nothing has changed.
pub(crate) fn post_unjudged(
    alloc: Global,
    auction: &mut Auction,
    worker: u32,
    number: u64,
) -> Result<EarlyPost, NoMemory>
    ensures met { IfOk result (IsEarlyPost auction.old auction.new worker number) }
    ensures stays { IfErr result (λ fault. IsUnchangedBoard auction.old auction.new) }
{
    if is_turned_away(auction, worker, number) {
        return post_turned_away(auction, worker, number);
    }
    worker_to_judge(alloc, auction, worker, number)
}

// Posts a posting that is turned away.
fn post_turned_away(auction: &mut Auction, worker: u32, number: u64) -> Result<EarlyPost, NoMemory>
    requires { is_some (unjudged_reply auction.old.scenario auction.old.state worker number) ≡ true }
    ensures met { IfOk result (IsEarlyPost auction.old auction.new worker number) }
    ensures stays { IfErr result (λ fault. IsUnchangedBoard auction.old auction.new) }
{
    // The answer is not checked, so any place will do.
    let Ok(reply) = post_judged(auction, worker, number, Said::Bad(Place::Kind)) else {
        return Err(NoMemory);
    };
    Ok(EarlyPost::Replied(reply))
}

// Returns what the answer of a posting is to be checked against.
fn worker_to_judge(
    alloc: Global,
    auction: &Auction,
    worker: u32,
    number: u64,
) -> Result<EarlyPost, NoMemory>
    requires { unjudged_reply auction.now.scenario auction.now.state worker number ≡ None }
    ensures { IfOk result (IsEarlyPost auction.now auction.now worker number) }
{
    let task = match auction.task(alloc) {
        Ok(Some(task)) => task,
        Ok(None) => unreachable!(),
        Err(_) => return Err(NoMemory),
    };
    Ok(EarlyPost::MustJudge {
        task,
        worker: *worker_at(auction, worker),
    })
}

// Returns the worker with this number.
fn worker_at(auction: &Auction, worker: u32) -> &Worker
    requires { worker < length auction.now.scenario.workers }
    ensures { slice_get auction.now.scenario.workers worker ≡ Some result.now }
{
    &auction.workers()[worker as usize]
}

// Whether the posting is turned away whatever its answer: the auction has ended, another query is current, or the
// worker does not exist.
fn is_turned_away(auction: &Auction, worker: u32, number: u64) -> bool
    ensures { result ≡ is_some (unjudged_reply auction.now.scenario auction.now.state worker number) }
{
    if auction.ended() {
        return true;
    }
    if number != auction.number() {
        return true;
    }
    auction.workers().len() <= worker as usize
}

/// Posts the verdict on a worker's answer to the query with this number, and returns the reply. If memory runs out,
/// returns the verdict, and nothing else has changed.
pub(crate) fn post_judged(
    auction: &mut Auction,
    worker: u32,
    number: u64,
    said: Said,
) -> Result<Reply, Said>
    requires said { MayBeTaken auction.old.scenario auction.old.book auction.old.state (record { worker = worker; number = number; said = said }) }
    ensures taken { IfOk result (λ reply. (answer : Answer) → JudgesAnswer auction.old.scenario auction.old.book auction.old.state (record { worker = worker; number = number; said = said }) answer →
        IsPostingTaken auction.old auction.new (record { worker = worker; number = number; answer = answer }) reply) }
    ensures back { IfErr result (λ back. back ≡ said) }
    ensures stays { IfErr result (λ back. IsUnchangedBoard auction.old auction.new) }
{
    if auction.reserve().is_err() {
        return Err(said);
    }
    let told = auction.take(Posting {
        worker,
        number,
        said,
    });
    Ok(told)
}
