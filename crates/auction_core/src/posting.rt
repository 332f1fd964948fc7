//! What workers post, and the replies. The caller checks an answer first (`cert_types::certified`), so that `auction` need not.

use cert_types::answer::{Answer, Place};
use cert_types::certified::Certified;
use std::marker::Model;
use std::snapshot::Snapshot;

/// A posting of a worker for a query, with the verdict of the check of its answer.
#[derive(Drop)]
pub struct Posting {
    /// The worker, from 0.
    pub worker: u32,
    /// The number of the query that the posting answers.
    pub number: u64,
    pub said: Said,
}

/// The verdict of the check of an answer.
#[derive(Drop)]
pub enum Said {
    /// The answer is valid.
    Good(Certified),
    /// The answer is invalid; this is the first error.
    Bad(Place),
}

/// The reply to a posting: the first of these that applies.
#[derive(Clone, Copy, Debug, PartialEq, Eq)]
pub enum Reply {
    /// The auction has ended.
    Ended,
    /// The posting answers another query than the current one, whose number is `now`.
    WrongQuery { now: u64 },
    /// The scenario has no worker of this number.
    Stranger,
    /// The answer is invalid; `place` is the first error.
    Rejected { place: Place },
    /// The current query is settled. `next` is the number of the next query, if there is one.
    Advanced { next: Option<u64> },
    /// A receipt of this worker for this query is pending already.
    AlreadySpent,
    /// The worker's receipt is now pending for the current query.
    Noted,
}

/// One posting of a history, and the reply. The answer takes no memory: only contracts see it.
#[derive(Drop)]
pub struct Entry {
    /// The worker, from 0.
    pub worker: u32,
    /// The number of the query that the posting answers.
    pub number: u64,
    pub reply: Reply,
    /// The answer, if it settled the query or became a pending receipt.
    pub answer: Option<Snapshot<Answer>>,
}

impl Model for Entry {
    ghost use Rattle.std.specs.Prelude.{option_map};
    ghost use Rattle.auction_core.specs.Replay.{EntryView};

    ghost Value = { EntryView };

    ghost view = { λ e. record {
      worker = e.worker;
      number = e.number;
      reply = e.reply;
      answer = option_map (λ (s : _). s.value) e.answer;
    } };
}
