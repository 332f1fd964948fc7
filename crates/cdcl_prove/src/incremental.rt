//! The search that keeps what it learns from query to query. Its suggestions are checked before they become answers.

ghost use Rattle.std.specs.Prelude.{ℕ, ◌≡◌, IfOk, IfSome};
ghost use Rattle.cert_types.specs.Query.{AttemptIs, IsQuery};

use crate::policy::LINES_BETWEEN_POLLS;
use cert_types::answer::{Answer, CertifyWhy, Receipt, Refutation};
use cert_types::certify::certify_query;
use cert_types::poll::{Attempt, Poll, poll_moved};
use cert_types::task::Task;
use incremental_search::searcher::{Progress, Searcher};
use incremental_search::suggestion::Suggestion;
use pack_defs::book::Book;
use pack_defs::channel_map::ChannelMap;
use pack_defs::items::Items;
use pack_defs::worker::Worker;
use search_base::grid::SharedGrid;
use std::alloc::{AllocError as NoMemory, Global};

/// The search that a worker keeps over an auction. It is asked before `ProvingSearch`.
#[derive(Drop)]
pub(crate) struct IncrementalSearch {
    pub(crate) worker: Worker,
    searcher: Searcher,
    searched: SearchCounts,
}

/// Counts of queries that no quick fit answered, by what the incremental search returned. A count saturates at the greatest number.
#[derive(Clone, Copy, Debug, PartialEq, Eq)]
pub struct SearchCounts {
    /// Queries for which the search found a fit.
    pub fits: u64,
    /// Queries that the search refuted.
    pub refuted: u64,
    /// Queries for which the search spent its budget and made a receipt.
    pub spent: u64,
    /// Queries that the search did not answer, or whose answer was rejected, so that a search from nothing began.
    pub left: u64,
}

impl IncrementalSearch {
    /// Returns the search of a worker, which has learnt nothing. `grid` has the numbers of the book that the queries will be about, if
    /// they are known.
    pub(crate) fn new(worker: &Worker, grid: Option<SharedGrid>) -> IncrementalSearch
        ensures { result.worker ≡ worker.now }
    {
        IncrementalSearch {
            worker: *worker,
            searcher: Searcher::of_grid(grid, worker.seed),
            searched: SearchCounts {
                fits: 0,
                refuted: 0,
                spent: 0,
                left: 0,
            },
        }
    }

    /// Returns how many queries the search has answered so far, and how many it has not.
    pub(crate) fn counts(&self) -> SearchCounts {
        self.searched
    }

    /// Tries to answer a query. `from` is what a known fit of the tested station changes, if there is one. Returns `None` if the search
    /// suggests nothing, or its suggestion was rejected. Fails only if memory runs out.
    pub(crate) fn attempt<P: Poll>(
        &mut self,
        alloc: Global,
        book: &Book,
        task: &Task,
        from: Option<&ChannelMap>,
        poll: &mut P,
    ) -> Result<Option<Attempt>, NoMemory>
        requires { IsQuery book.now task.now }
        ensures said { IfOk result (λ r. IfSome r (λ attempt. AttemptIs book.now task.now self.new.worker (P.last poll.new) attempt)) }
        ensures worker { self.new.worker ≡ self.old.worker }
        ensures goes { P.goes poll.old poll.new }
    {
        let searcher = &mut self.searcher;
        let asked = ask_searcher(alloc, book, task, self.worker, from, searcher, poll)?;
        self.searched = with_one_more(self.searched, &asked);
        Ok(asked)
    }
}

// Returns the counts after one more query.
fn with_one_more(searched: SearchCounts, asked: &Option<Attempt>) -> SearchCounts {
    let mut searched = searched;
    match asked {
        Some(Attempt::Said(Answer::Fit(_))) => searched.fits = searched.fits.saturating_add(1),
        Some(Attempt::Said(Answer::Refuted(_))) => {
            searched.refuted = searched.refuted.saturating_add(1);
        }
        Some(Attempt::Said(Answer::Spent(_))) => searched.spent = searched.spent.saturating_add(1),
        Some(Attempt::Moved { now: _ }) => {}
        None => searched.left = searched.left.saturating_add(1),
    }
    searched
}

// Asks the incremental searcher and checks what it suggests. Returns an accepted answer, or the report that another query is current.
// `None` if the searcher suggests nothing, or its suggestion was rejected. The searcher may use as many conflicts for each tested
// station as the worker's budget has lines. Fails only if memory runs out.
fn ask_searcher<P: Poll>(
    alloc: Global,
    book: &Book,
    task: &Task,
    worker: Worker,
    from: Option<&ChannelMap>,
    searcher: &mut Searcher,
    poll: &mut P,
) -> Result<Option<Attempt>, NoMemory>
    requires { IsQuery book.now task.now }
    ensures said { IfOk result (λ r. IfSome r (λ attempt. AttemptIs book.now task.now worker (P.last poll.new) attempt)) }
    ensures goes { P.goes poll.old poll.new }
{
    let set = task.set.as_slice();
    searcher.begin(alloc, book, set, &task.last, from, worker.budget)?;
    for _ in 0..u64::MAX {
        if let Some(now) = poll_moved(poll, task.number) {
            return Ok(Some(Attempt::Moved { now }));
        }
        match searcher.continue_search(alloc, set, &task.last, LINES_BETWEEN_POLLS)? {
            Progress::Open => {}
            Progress::Ended(suggestion) => {
                return check_suggestion(alloc, book, task, worker, suggestion, searcher);
            }
            Progress::Spent | Progress::Lost => break,
        }
    }
    Ok(None)
}

// Checks a suggestion. If it is invalid, the searcher forgets all that it has learnt.
fn check_suggestion(
    alloc: Global,
    book: &Book,
    task: &Task,
    worker: Worker,
    suggestion: Suggestion,
    searcher: &mut Searcher,
) -> Result<Option<Attempt>, NoMemory>
    requires { IsQuery book.now task.now }
    ensures { IfOk result (λ r. IfSome r (λ attempt. (last : ℕ) → AttemptIs book.now task.now worker last attempt)) }
{
    let answer = answer_of(suggestion);
    match certify_query(alloc, book, task, &worker, answer) {
        Ok(certified) => Ok(Some(Attempt::Said(certified.into_answer()))),
        Err(fault) => {
            if fault.why == CertifyWhy::NoMemory {
                return Err(NoMemory);
            }
            searcher.forget();
            Ok(None)
        }
    }
}

// Returns the suggestion as an answer.
fn answer_of(suggestion: Suggestion) -> Answer {
    match suggestion {
        Suggestion::Fit(fit) => Answer::Fit(fit),
        Suggestion::Unfit(disproof) => Answer::Refuted(Refutation::Proof {
            subset: Items::from_vec(disproof.stations),
            log: disproof.log,
        }),
        Suggestion::Spent(log) => Answer::Spent(Receipt::Lines(log)),
    }
}
