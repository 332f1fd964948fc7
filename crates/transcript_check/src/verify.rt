//! The check of a complete transcript. The auction is run again, but each query is settled by the transcript's step
//! once its certificate is accepted, so no solver is run. `check_whole_sequence` of `auction_core` does this; the calls here
//! add the contract and the record.

ghost use Rattle.std.specs.Prelude.{◌≡◌, IfErr, IfOk, None, Some};
ghost use Rattle.auction_core.specs.Setup.{IsOfAuction};
ghost use Rattle.auction_core.specs.NotShown.{Explains, not_shown};
ghost use Rattle.pack_defs.specs.Scenario.{with_owners};
ghost use Rattle.transcript_check.specs.Sound.{IsSound, transcript_record};

use crate::VerifyErr;
use auction_core::check_sequence::check_whole_sequence;
use auction_core::record::Record;
use auction_core::transcript::Transcript;
use pack_defs::book::Book;
use pack_defs::owners::Owners;
use pack_defs::scenario::Scenario;
use std::alloc::Global;

/// Verifies a transcript of an auction of this scenario and book, and returns its record. Costs the check of each
/// certificate and the set-up of each query. The certificates are moved into the record.
///
/// # Errors
///
/// The first step that is not shown, and why; or out of memory.
///
/// # Example
///
/// The total that the frozen stations of an auction are paid, or the first step that is not shown:
///
/// ```
/// let transcript = read_transcript(alloc, text, &scenario, &book)?;
/// let total = match verify(alloc, &book, &scenario, transcript) {
///     Ok(record) => Ok(record.total),
///     // Step 0 is the test of the stations that start on air.
///     Err(VerifyErr::NotShown { step, .. }) => Err(step),
///     Err(VerifyErr::NoMemory) => return Err(TextErr::NoMemory),
/// };
/// ```
pub fn verify(
    alloc: Global,
    book: &Book,
    sc: &Scenario,
    transcript: Transcript,
) -> Result<Record, VerifyErr>
    requires { IsOfAuction sc.now book.now }
    ensures sound { IfOk result (λ rec. IsSound sc.now book.now transcript) }
    ensures shown { IfOk result (λ rec. not_shown sc.now book.now transcript ≡ None) }
    ensures same { IfOk result (λ rec. rec ≡ transcript_record sc.now book.now transcript) }
    ensures why { IfErr result (λ e. Explains e (not_shown sc.now book.now transcript)) }
{
    // Its contract has the book's order, which the laws need.
    book.keeps_order();
    let query_session = check_whole_sequence(alloc, book, sc, transcript)?;
    let scenario = sc.copy(alloc)?;
    let record = query_session.into_record(alloc, scenario)?;
    Ok(record)
}

/// Verifies a transcript of the live auction of this scenario and book, whose owners answer with these lines; the
/// stations' values are ignored. Does what `verify` does with the scenario of these owners, so the record has the
/// owners. Costs a copy of the scenario and of the lines more.
///
/// # Errors
///
/// The first step that is not shown, and why; or out of memory.
pub fn verify_live(
    alloc: Global,
    book: &Book,
    sc: &Scenario,
    owners: &Owners,
    transcript: Transcript,
) -> Result<Record, VerifyErr>
    requires { IsOfAuction sc.now book.now }
    ensures sound { IfOk result (λ rec. IsSound (with_owners sc.now (Some owners.now)) book.now transcript) }
    ensures shown { IfOk result (λ rec. not_shown (with_owners sc.now (Some owners.now)) book.now transcript ≡ None) }
    ensures same { IfOk result (λ rec. rec ≡ transcript_record (with_owners sc.now (Some owners.now)) book.now transcript) }
    ensures why { IfErr result (λ e. Explains e (not_shown (with_owners sc.now (Some owners.now)) book.now transcript)) }
{
    let live = sc.with_owners(alloc, owners)?;
    verify(alloc, book, &live, transcript)
}
