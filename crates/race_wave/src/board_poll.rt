//! The poll of a worker on a board.

ghost use Rattle.std.specs.Prelude.{◌≡◌, Some, option_map};
ghost use Rattle.turn_lock.specs.Passes.{IsPassIdle, seen_of};
ghost use Rattle.answer_board.specs.Boards.{IsPassOn, raised};
ghost use Rattle.answer_board.specs.Posts.{left_by};

use answer_board::board::{Board, Pass};
use std::sync::Wait;

/// A pass that asks its board for the number of the current query. It waits for its turn. The latest answer is the
/// number that belongs to the history which the pass has seen.
#[derive(Drop)]
pub struct BoardPoll<'a, R: Wait> {
    pub(crate) rt: &'a R,
    pub(crate) board: &'a Board,
    pub(crate) pass: &'a mut Pass,
    /// The latest answer.
    pub(crate) last: u64,
    ghost own: { IsPassOn board.now pass.now },
    ghost idle: { IsPassIdle pass.now },
    ghost told: { option_map (λ state. state.number) (left_by (raised board.now) (seen_of pass.now)) ≡ Some last },
}
