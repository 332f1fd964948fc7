//! Cuts a log after its first empty line, as checkers of LRAT do.

ghost use Rattle.std.specs.Prelude.{◌≡◌, take};
ghost use Rattle.undecided_tests.specs.Cut.{up_to_empty};

use rup_check::line::Log;
use rup_check::lines::Lines;

/// Returns the log up to its first empty line, which ends a refutation, or the complete log if no line is empty.
/// Drops the lines after it; allocates and copies nothing.
pub fn up_to_empty(log: Log) -> Log
    ensures { result.lines ≡ up_to_empty log.lines }
{
    let Log { mut lines } = log;
    let kept = kept_count(&lines);
    while lines.len() > kept {
        lines.pop();
    }
    Log { lines }
}

// Returns how many lines the log has up to its first empty one, or all of them if none is empty.
fn kept_count(lines: &Lines) -> usize
    ensures { take result lines.now ≡ up_to_empty lines.now }
{
    let count = lines.len();
    for place in 0..count {
        if lines.is_empty_at(place) {
            return place + 1;
        }
    }
    count
}
