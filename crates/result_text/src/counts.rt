//! Writes the summary of an auction: a line for each count.

ghost use Rattle.std.specs.Prelude.{◌≡◌, ◌≤◌, ◌+◌, ◌++◌, IfOk, OnErr, OnOk, count_by, length, vec_capacity, vec_len};
ghost use Rattle.pack_defs.specs.Scenario.{IsWithinLimits};
ghost use Rattle.auction_core.specs.Backed.{IsBacked, undecided_of};
ghost use Rattle.auction_core.specs.Clock.{is_status_frozen, is_status_on_air};
ghost use Rattle.result_text.specs.ResultText.{count_line, final_state, summary_text};

use crate::replay::final_outcomes;
use auction_core::clock::StationStatus;
use auction_core::record::{Ending, Record};
use itoa::Buffer;
use pack_defs::book::Book;
use std::alloc::{AllocError as NoMemory, Global};

/// Appends a line of a name, a space and a number. Fails only if memory runs out, and then the text is unchanged.
pub fn push_count(text: &mut Vec<u8>, name: &str, n: u64) -> Result<(), NoMemory>
    ensures added { OnOk result (text.new.items ≡ text.old.items ++ count_line name.now n) }
    ensures kept { OnErr result (text.new.items ≡ text.old.items) }
{
    let mut buffer = Buffer::new();
    let number = buffer.format(n);
    text.reserve(name.len() + number.len() + 2)?;
    extend_reserved(text, name.as_bytes());
    extend_reserved(text, b" ");
    extend_reserved(text, number.as_bytes());
    extend_reserved(text, b"\n");
    Ok(())
}

// Appends these bytes to a text whose capacity suffices.
fn extend_reserved(text: &mut Vec<u8>, bytes: &[u8])
    requires { vec_len text.old + length bytes.now ≤ vec_capacity text.old }
    ensures items { text.new.items ≡ text.old.items ++ bytes.now }
    ensures len { vec_len text.new ≡ vec_len text.old + length bytes.now }
    ensures capacity { vec_capacity text.old ≤ vec_capacity text.new }
{
    let Ok(()) = text.extend_from_slice(bytes) else {
        unreachable!();
    };
}

// Returns how many of the stations are on air.
fn on_air_count(station_statuses: &[StationStatus]) -> usize
    ensures { result ≡ count_by is_status_on_air station_statuses.now }
{
    station_statuses
        .iter()
        .filter(|standing| matches!(standing, StationStatus::OnAir { .. }))
        .count()
}

// Returns how many of the stations are frozen.
fn frozen_count(station_statuses: &[StationStatus]) -> usize
    ensures { result ≡ count_by is_status_frozen station_statuses.now }
{
    station_statuses
        .iter()
        .filter(|standing| matches!(standing, StationStatus::Frozen { .. }))
        .count()
}

// Returns how many of the stations are undecided.
fn undecided_count(undecided: &[bool]) -> usize
    ensures { result ≡ count_by (λ u. u) undecided.now }
{
    undecided.iter().filter(|undecided| **undecided).count()
}

/// Returns the summary of a finished auction, whose record is backed by this book. Its lines count the stations,
/// those on air, those frozen (the undecided ones included) and those undecided. The last line is the total that the
/// frozen stations are paid, in cents. Makes one pass over the steps, with a binary search for each, and three over
/// the stations. Fails only if memory runs out.
pub fn summary(alloc: Global, rec: &Record, book: &Book) -> Result<Vec<u8>, NoMemory>
    requires backed { IsBacked rec.now.scenario book.now rec.now.order rec.now }
    requires done { rec.now.ending ≡ Ending.Done }
    requires limits { IsWithinLimits rec.now.scenario }
    ensures { IfOk result (λ v. v.items ≡ summary_text rec.now.scenario (final_state rec.now book.now) (undecided_of rec.now.steps)) }
{
    let outcomes = final_outcomes(alloc, rec, book)?;
    let station_statuses = outcomes.clock.station_statuses();
    let mut text = Vec::new(alloc);
    push_count(&mut text, "stations", station_statuses.len() as u64)?;
    push_count(&mut text, "on-air", on_air_count(station_statuses) as u64)?;
    push_count(&mut text, "frozen", frozen_count(station_statuses) as u64)?;
    push_count(
        &mut text,
        "undecided",
        undecided_count(&outcomes.undecided) as u64,
    )?;
    push_count(&mut text, "total", rec.total)?;
    Ok(text)
}
