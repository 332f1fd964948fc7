//! The value that a board keeps behind its lock.

ghost use Rattle.std.specs.Prelude.{true};
ghost use Rattle.answer_board.specs.Entries.{numbered};

use auction_core::auction::Auction;
use auction_core::posting::Entry;
use auction_core::query_session::QuerySession;
use turn_lock::chronicle::Chronicle;

/// An auction on a board. Its history is the list of its postings, each with the number of its worker.
#[derive(Drop)]
pub struct Kept {
    pub(crate) auction: Auction,
}

impl Chronicle for Kept {
    type Base = QuerySession;

    type Entry = Entry;

    ghost base = { λ kept. record { scenario = kept.auction.scenario; book = kept.auction.book; state = kept.auction.opened; ready = true } };

    ghost entries = { λ kept. numbered kept.auction.history };

    fn count(&self) -> u64 {
        self.auction.posted()
    }
}
