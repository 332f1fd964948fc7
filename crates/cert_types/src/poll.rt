//! How a solver learns that its query is no longer current, and how an attempt at a query ends.

ghost use Rattle.std.specs.Prelude.{ℕ, ◌≡◌, ◌≢◌, ◌≤◌, IfSome};

use crate::answer::Answer;

/// Reports to a solver which query is current, so that the solver can stop working on another one.
pub trait Poll {
    /// The latest answer.
    ghost last: { Self → ℕ };

    /// The states that a poll may be in after any number of calls.
    ghost goes: { Self → Self → Type 0 };

    /// Returns the number of the current query.
    fn current(&mut self) -> u64
        ensures answer { last self.new ≡ result }
        ensures goes { goes self.old self.new };

    /// A poll that is not called stays as it is.
    ghost goes_nowhere: { (poll : Self) → goes poll poll };

    /// Some calls, followed by further calls, are some calls.
    ghost goes_on: { (one two three : Self) → goes one two → goes two three → goes one three };
}

/// How an attempt at a query ended.
#[derive(Debug, Drop)]
pub enum Attempt {
    /// With an answer to the query.
    Said(Answer),
    /// With a report of the poll that another query, of this number, is current.
    Moved { now: u64 },
}

/// Polls once. Returns the number of the current query if it is not `number`.
pub fn poll_moved<P: Poll>(poll: &mut P, number: u64) -> Option<u64>
    ensures moved { IfSome result (λ now. (P.last poll.new ≡ now) × (now ≢ number)) }
    ensures goes { P.goes poll.old poll.new }
{
    let now = poll.current();
    if now == number {
        return None;
    }
    Some(now)
}

/// Polls before the first step of a search and then after every `between` steps, as `poll_moved` does. `steps` counts the steps made so
/// far.
pub fn moved<P: Poll>(poll: &mut P, number: u64, steps: usize, between: usize) -> Option<u64>
    requires { 1 ≤ between }
    ensures moved { IfSome result (λ now. (P.last poll.new ≡ now) × (now ≢ number)) }
    ensures goes { P.goes poll.old poll.new }
{
    if steps % between != 0 {
        return None;
    }
    poll_moved(poll, number)
}
