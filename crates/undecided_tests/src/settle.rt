//! Settles an undecided step by the text of an LRAT log (Cruz-Filipe et al. 2017) that a prover outside wrote.

ghost use Rattle.std.specs.Prelude.{◌≡◌, IfErr, IfOk, Ok};
ghost use Rattle.pack_defs.specs.Scenario.{IsWithinLimits};
ghost use Rattle.auction_core.specs.Backed.{IsBacked};
ghost use Rattle.undecided_tests.specs.Settled.{IsLeftOpen, RefutesStep, settled_by};
ghost use Rattle.undecided_tests.specs.Settling.{SettleFails, rejected_error, settled_text, unread_error};

use crate::cut::up_to_empty;
use crate::replace::replace_undecided;
use crate::task::task_at;
use auction_core::record::Record;
use cert_types::answer::CertifyWhy;
use cert_types::outside::{OutsideProof, certify_outside};
use cnf_encode::count::clause_count;
use lrat_text::LratErr;
use lrat_text::read::read_log;
use pack_defs::book::Book;
use std::alloc::{AllocError, Global};

/// Why a log does not settle a step.
#[derive(Clone, Copy, Debug, PartialEq, Eq)]
pub enum SettleErr {
    /// The text is not a log.
    Unread(LratErr),
    /// The log, up to its first empty line, does not refute the step's set in at most 1,000,000 lines.
    NoRefutation,
    /// Memory ran out.
    NoMemory,
}

impl From<AllocError> for SettleErr {
    ghost use Rattle.undecided_tests.specs.declared.settle.SettleErr.TheVariants.{NoMemory};

    ghost from_gives = { λ _ e. e ≡ NoMemory };

    fn from(_e: AllocError) -> SettleErr {
        SettleErr::NoMemory
    }
}

// The error for a text that could not be read as a log.
fn unread_error(why: LratErr) -> SettleErr
    ensures { result ≡ unread_error why }
{
    match why {
        LratErr::NoMemory => SettleErr::NoMemory,
        LratErr::Truncated => SettleErr::Unread(LratErr::Truncated),
        LratErr::BadLine { n } => SettleErr::Unread(LratErr::BadLine { n }),
        LratErr::RatStep { n } => SettleErr::Unread(LratErr::RatStep { n }),
    }
}

// The error for a log that was rejected.
fn rejected_error(why: CertifyWhy) -> SettleErr
    ensures { result ≡ rejected_error why }
{
    match why {
        CertifyWhy::Rejected(_) => SettleErr::NoRefutation,
        CertifyWhy::NoMemory => SettleErr::NoMemory,
    }
}

/// Settles the undecided step `step`, counted from 1, by the log that the text spells over the clauses of the step's
/// set. Returns the record with the proof. Lines after the log's first empty line are read and dropped. Moves the
/// record and copies no line. Costs `task_at`, the reading of the text, and the check of the log.
///
/// # Errors
///
/// `Unread` with the first invalid line if the text is not a log. `NoRefutation` if the log does not refute the
/// step's set in at most 1,000,000 lines. `NoMemory` if memory runs out. The record is dropped then.
#[tactic(auto, unfolding(crate::specs::Settling::settled_text))]
pub fn settle_from_text(
    alloc: Global,
    rec: Record,
    book: &Book,
    step: u32,
    text: &[u8],
) -> Result<Record, SettleErr>
    requires backed { IsBacked rec.scenario book.now rec.order rec }
    requires limits { IsWithinLimits rec.scenario }
    requires undecided { IsLeftOpen rec step }
    ensures settled { IfOk result (λ new. settled_text book.now rec step text.now ≡ Ok new) }
    ensures backed { IfOk result (IsBacked rec.scenario book.now rec.order) }
    ensures why { IfErr result (λ e. SettleFails e (settled_text book.now rec step text.now)) }
{
    let proof = proof_from_text(alloc, &rec, book, step, text)?;
    Ok(replace_undecided(rec, book, step, proof))
}

// Reads a log from the text, and checks that its lines up to the first empty one refute the set of the undecided step
// `step`. Returns these lines as a proof.
#[tactic(auto, unfolding(crate::specs::Settling::settled_text))]
fn proof_from_text(
    alloc: Global,
    rec: &Record,
    book: &Book,
    step: u32,
    text: &[u8],
) -> Result<OutsideProof, SettleErr>
    requires backed { IsBacked rec.now.scenario book.now rec.now.order rec.now }
    requires limits { IsWithinLimits rec.now.scenario }
    requires undecided { IsLeftOpen rec.now step }
    ensures settles { IfOk result (λ proof. settled_text book.now rec.now step text.now ≡ Ok (settled_by rec.now step proof)) }
    ensures refutes { IfOk result (RefutesStep book.now rec.now step) }
    ensures why { IfErr result (λ e. SettleFails e (settled_text book.now rec.now step text.now)) }
{
    let task = task_at(alloc, rec, book, step)?;
    let clauses = clause_count(book, task.set.as_slice());
    let log = match read_log(alloc, text, clauses) {
        Ok(log) => up_to_empty(log),
        Err(why) => return Err(unread_error(why)),
    };
    match certify_outside(alloc, book, &task, log) {
        Ok(proof) => Ok(proof),
        Err(fault) => Err(rejected_error(fault.why)),
    }
}
