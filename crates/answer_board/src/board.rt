//! The board's type, and the passes to it.

ghost use Rattle.std.specs.Arc.{arc_value};
ghost use Rattle.std.specs.Prelude.{◌≡◌};
ghost use Rattle.turn_lock.specs.Passes.{value_under};

use crate::kept::Kept;
use pack_defs::book::Book;
use pack_defs::worker::Worker;
use std::sync::Arc;
use turn_lock::lock::TurnLock;

/// The right to look at a board and to post on it. Pass `i` posts as worker `i`.
pub type Pass = turn_lock::lock::Pass<Kept>;

/// An auction behind a lock that serves its passes in the order of their requests. Outside the lock the board keeps
/// the book and the workers that answers are checked against, so that no turn is held during a check.
///
/// A board cannot be dropped: `close` takes the auction off it.
pub struct Board {
    pub(crate) lock: TurnLock<Kept>,
    // A further owner of the auction's book.
    pub(crate) book: Arc<Book>,
    pub(crate) workers: Vec<Worker>,
    ghost book_is: { arc_value book ≡ (value_under lock).auction.book },
    ghost workers_are: { workers.items ≡ (value_under lock).auction.scenario.workers },
    ghost order_is: { (value_under lock).auction.state.order ≡ (value_under lock).auction.opened.order },
}
