//! The quick fits of a query, in order: the station's last fit, a free channel, one repair.
//!
//! A query session asks here before it starts a solver.

ghost use Rattle.std.specs.Prelude.{ℕ, ◌≡◌, ◌∷◌, [], IfOk, IfSome, None, Some, true};
ghost use Rattle.std.specs.Option.{is_some};
ghost use Rattle.pack_defs.specs.Lists.{is_in};
ghost use Rattle.quick_fits.specs.Obstacles.{IsFreeChannel};
ghost use Rattle.cert_types.specs.Query.{IsQuery};
ghost use Rattle.cert_types.specs.Valid.{fit_fault};

use crate::local_repair::{Proposal, propose};
use cert_types::answer::Answer;
use cert_types::changes::fits_by_changes;
use cert_types::poll::Attempt;
use cert_types::task::Task;
use pack_defs::book::Book;
use pack_defs::channel_map::ChannelMap;
use std::alloc::{AllocError as NoMemory, Global};
use std::collections::BTreeMap;

/// How many queries each kind of quick fit answered. The counters saturate.
#[derive(Clone, Copy, Debug, PartialEq, Eq)]
pub struct QuickFitCounts {
    /// By the changes of the station's last fit, which still fitted.
    pub last: u64,
    /// By a free channel.
    pub free: u64,
    /// By a repair: a channel that one station could leave.
    pub repaired: u64,
}

/// Quick fits for the queries of an auction. It stores for each station the changes of its last fit, and counts its answers. Contracts
/// see none of this state: the proposals are policy, and each answer was checked.
#[derive(Debug, Drop)]
pub struct QuickFits {
    fits: BTreeMap<u32, ChannelMap>,
    looked: QuickFitCounts,
}

impl QuickFits {
    /// Returns the state without a stored fit and without an answer.
    pub fn new(alloc: Global) -> QuickFits {
        QuickFits {
            fits: BTreeMap::new(alloc),
            looked: QuickFitCounts {
                last: 0,
                free: 0,
                repaired: 0,
            },
        }
    }

    /// Returns how many queries each kind answered so far.
    pub fn quick_fit_counts(&self) -> QuickFitCounts {
        self.looked
    }

    /// Returns a fit of the query, if a quick fit exists; none for a query that tests no station.
    ///
    /// The candidates are, in order:
    ///
    /// - the changes of the tested station's last fit;
    /// - a free channel of the station, the one that its neighbours want least;
    /// - a channel that only one station blocks, if that station can move.
    ///
    /// A fit by a free channel or a repair is stored. If some channel of the tested station makes a fit while the others stay, a fit is
    /// returned.
    ///
    /// No clause is built. The cost is a pass over the pairs of the tested station, with a binary search for each, and one for each
    /// single blocker until one can move.
    ///
    /// # Errors
    /// Fails only if memory runs out.
    pub fn quick_fit(
        &mut self,
        alloc: Global,
        book: &Book,
        task: &Task,
    ) -> Result<Option<ChannelMap>, NoMemory>
        requires { IsQuery book.now task.now }
        ensures fits { IfOk result (λ r. IfSome r (λ delta. fit_fault book.now task.now delta ≡ None)) }
        ensures free { (s c : ℕ) → task.now.station ≡ Some s → fit_fault book.now task.now ((s, c) ∷ []) ≡ None → IfOk result (λ r. is_some r ≡ true) }
    {
        let Some(s) = task.station else {
            return Ok(None);
        };
        book.keeps_order();
        task.last.keeps_order();
        if let Some(fit) = self.last_fit(alloc, book, task, s)? {
            self.looked.last = self.looked.last.saturating_add(1);
            return Ok(Some(fit));
        }
        let Some(proposal) = propose(alloc, book, &task.last, s)? else {
            return Ok(None);
        };
        let Some(fit) = checked_fit(alloc, book, task, proposal)? else {
            return Ok(None);
        };
        self.count(proposal);
        self.keep(alloc, s, &fit);
        Ok(Some(fit))
    }

    /// Stores the changes of a fit for the tested station, if an attempt at its query returned a fit, in place of the stored ones. They
    /// are the first candidate at the station's next test. If memory runs out, the stored changes may stay or be lost.
    pub fn keep_attempted_fit(&mut self, alloc: Global, task: &Task, attempt: &Attempt) {
        let Some(s) = task.station else {
            return;
        };
        if let Attempt::Said(Answer::Fit(fit)) = attempt {
            self.keep(alloc, s, fit);
        }
    }

    // Stores a copy of the changes of a station's fit, in place of the stored ones.
    fn keep(&mut self, alloc: Global, station: u32, fit: &ChannelMap) {
        if let Ok(copy) = ChannelMap::of(alloc, fit.entries()) {
            let _kept = self.fits.insert(station, copy).is_ok();
        }
    }

    /// Returns the changes of a station's last fit, if any are stored. They may no longer fit.
    pub fn kept(&self, station: u32) -> Option<&ChannelMap> {
        self.fits.get(&station)
    }

    // Returns the changes of the station's last fit, if they still fit.
    fn last_fit(
        &self,
        alloc: Global,
        book: &Book,
        task: &Task,
        station: u32,
    ) -> Result<Option<ChannelMap>, NoMemory>
        requires { IsQuery book.now task.now }
        ensures { IfOk result (λ r. IfSome r (λ delta. fit_fault book.now task.now delta ≡ None)) }
    {
        let Some(fit) = self.fits.get(&station) else {
            return Ok(None);
        };
        if !fits_by_changes(book, task, fit) {
            return Ok(None);
        }
        let copy = ChannelMap::of(alloc, fit.entries())?;
        Ok(Some(copy))
    }

    // Counts a proposal that answered a query.
    fn count(&mut self, proposal: Proposal) {
        match proposal.moved {
            None => self.looked.free = self.looked.free.saturating_add(1),
            Some(_) => self.looked.repaired = self.looked.repaired.saturating_add(1),
        }
    }
}

// Returns the fit of a proposal, if the proposal is one.
fn checked_fit(
    alloc: Global,
    book: &Book,
    task: &Task,
    proposal: Proposal,
) -> Result<Option<ChannelMap>, NoMemory>
    requires { IsQuery book.now task.now }
    ensures fits { IfOk result (λ r. IfSome r (λ delta. fit_fault book.now task.now delta ≡ None)) }
    ensures free { (s : ℕ) → task.now.station ≡ Some s → is_in task.now.set s ≡ true → IsFreeChannel book.now task.now.last s proposal → IfOk result (λ r. is_some r ≡ true) }
{
    book.keeps_order();
    task.last.keeps_order();
    let delta = proposal.changes(alloc)?;
    if !fits_by_changes(book, task, &delta) {
        return Ok(None);
    }
    Ok(Some(delta))
}
