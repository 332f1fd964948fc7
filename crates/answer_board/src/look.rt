//! What a worker sees of an auction.

ghost use Rattle.std.specs.Prelude.{IfOk};
ghost use Rattle.answer_board.specs.Posts.{LookIs};

use auction_core::auction::Auction;
use cert_types::task::Task;
use std::alloc::{AllocError as NoMemory, Global};

/// The current query of an auction, or its end.
#[derive(Debug, Drop)]
pub enum Look {
    /// The current query.
    Task(Task),
    /// The auction has ended.
    Ended,
}

/// Returns the current query, or that the auction has ended. Fails only if memory runs out.
pub(crate) fn current_look(alloc: Global, auction: &Auction) -> Result<Look, NoMemory>
    ensures { IfOk result (LookIs auction.now.scenario auction.now.book auction.now.state) }
{
    match auction.task(alloc) {
        Ok(Some(task)) => Ok(Look::Task(task)),
        Ok(None) => Ok(Look::Ended),
        Err(_) => Err(NoMemory),
    }
}
