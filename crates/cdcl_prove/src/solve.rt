//! The complete search: step after step, until the formula is decided, the budget is spent or another query is current.

ghost use Rattle.std.specs.Prelude.{◌≡◌, ◌≤◌, IfOk, length};
ghost use Rattle.cdcl_prove.specs.Search.{SearchEndIs};

use crate::policy::LINES_BETWEEN_POLLS;
use crate::search::{Search, SearchStep};
use cert_types::poll::{Poll, moved};
use rup_check::line::Line;
use std::alloc::{AllocError as NoMemory, Global};

/// How a search ended.
#[derive(Debug, Drop)]
pub(crate) enum SearchEnd {
    /// Every variable has a value, and no clause is false.
    Model,
    /// The last line of a refutation, which is empty.
    Refuted(Line),
    /// The budget of lines is spent.
    Spent,
    /// The poll reported that another query, of this number, is current.
    Moved { now: u64 },
}

/// Searches until there is a model or a refutation, `budget` lines are learnt, or the poll reports another number than this one.
/// The poll is called before the first line and then at intervals (`LINES_BETWEEN_POLLS` of `policy`). Fails only if memory runs
/// out.
pub(crate) fn solve<P: Poll>(
    alloc: Global,
    search: &mut Search,
    budget: u32,
    number: u64,
    poll: &mut P,
) -> Result<SearchEnd, NoMemory>
    requires { length search.old.derivation.lines ≤ budget }
    ensures formula { search.new.derivation.formula ≡ search.old.derivation.formula }
    ensures outcome { IfOk result (λ outcome. SearchEndIs search.new.derivation budget number (P.last poll.new) outcome) }
    ensures goes { P.goes poll.old poll.new }
{
    'lines: while search.derivation.len() < budget as usize {
        if let Some(now) = moved(
            poll,
            number,
            search.derivation.len(),
            LINES_BETWEEN_POLLS as usize,
        ) {
            return Ok(SearchEnd::Moved { now });
        }
        match search.step(alloc)? {
            SearchStep::Learnt => {}
            SearchStep::Model => return Ok(SearchEnd::Model),
            SearchStep::Refuted(line) => return Ok(SearchEnd::Refuted(line)),
        }
    }
    Ok(SearchEnd::Spent)
}
