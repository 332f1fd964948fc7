//! Writes the result of an auction as CSV: a row for each station.

ghost use Rattle.std.specs.Prelude.{◌≡◌, ◌++◌, IfOk, IsFalse, OnOk, length, map};
ghost use Rattle.csv.specs.Writing.{default_writer, needs_quotes};
ghost use Rattle.pack_defs.specs.Scenario.{IsWithinLimits};
ghost use Rattle.auction_core.specs.Backed.{IsBacked, undecided_of};
ghost use Rattle.result_text.specs.ResultText.{IsBetweenRows, final_state, header_line, price_in, result_text, row_fields, station_line, station_lines, text_held};

use crate::replay::final_outcomes;
use auction_core::clock::{Clock, StationStatus};
use auction_core::record::{Ending, Record};
use csv::{Writer, WriterBuilder};
use itoa::Buffer;
use pack_defs::book::Book;
use pack_defs::station::Station;
use std::alloc::{AllocError as NoMemory, Global};

// Writes a row of four fields; `word` needs no quotes. The writer is between two rows.
fn write_row(
    writer: &mut Writer<Vec<u8>>,
    facility: u32,
    word: &str,
    round: u32,
    price: u64,
) -> Result<(), NoMemory>
    requires idle { IsBetweenRows writer.old }
    requires plain { IsFalse (needs_quotes default_writer word.now) }
    ensures idle { OnOk result (IsBetweenRows writer.new) }
    ensures text { OnOk result
        (text_held writer.new ≡ text_held writer.old ++ row_fields facility word.now round price) }
{
    let mut first = Buffer::new();
    let mut third = Buffer::new();
    let mut fourth = Buffer::new();
    let fields = [
        first.format(facility).as_bytes(),
        word.as_bytes(),
        third.format(round).as_bytes(),
        fourth.format(price).as_bytes(),
    ];
    if writer.write_fields(&fields).is_err() {
        return Err(NoMemory);
    }
    Ok(())
}

// Returns what a station is paid, in cents, or 0 if it is not frozen.
fn price_in(clock: &Clock, facility: u32) -> u64
    ensures { result ≡ price_in clock.now.paid facility }
{
    clock.paid(facility).unwrap_or(0)
}

// Writes the row of a station, by its standing, whether it is undecided, and its price in cents if it is frozen. An
// active station has no row. The writer is between two rows.
fn write_station_row(
    writer: &mut Writer<Vec<u8>>,
    facility: u32,
    standing: StationStatus,
    undecided: bool,
    price: u64,
) -> Result<(), NoMemory>
    requires { IsBetweenRows writer.old }
    ensures idle { OnOk result (IsBetweenRows writer.new) }
    ensures text { OnOk result
        (text_held writer.new ≡ text_held writer.old ++ station_line facility standing undecided price) }
{
    match standing {
        StationStatus::Active => Ok(()),
        StationStatus::OnAir { round: 0 } => write_row(writer, facility, "start", 0, 0),
        StationStatus::OnAir { round } => write_row(writer, facility, "exit", round, 0),
        StationStatus::Frozen { round } if undecided => {
            write_row(writer, facility, "undecided", round, price)
        }
        StationStatus::Frozen { round } => write_row(writer, facility, "frozen", round, price),
    }
}

// Writes the header. The writer is between two rows.
fn write_header(writer: &mut Writer<Vec<u8>>) -> Result<(), NoMemory>
    requires { IsBetweenRows writer.old }
    ensures idle { OnOk result (IsBetweenRows writer.new) }
    ensures text { OnOk result (text_held writer.new ≡ text_held writer.old ++ header_line) }
{
    let names: [&[u8]; 4] = [b"facility", b"outcome", b"round", b"price"];
    if writer.write_fields(&names).is_err() {
        return Err(NoMemory);
    }
    Ok(())
}

// Returns a header, and a row for each of these stations, by the clock and the undecided tests.
fn stations_csv(
    alloc: Global,
    stations: &[Station],
    clock: &Clock,
    undecided: &[bool],
) -> Result<Vec<u8>, NoMemory>
    requires station_statuses { length clock.now.station_statuses ≡ length stations.now }
    requires undecided { length undecided.now ≡ length stations.now }
    ensures { IfOk result (λ v. v.items ≡
        header_line ++ station_lines clock.now.paid (map (λ x. x.id) stations.now) clock.now.station_statuses undecided.now) }
{
    let mut writer = WriterBuilder::new().from_writer(Vec::new(alloc));
    write_header(&mut writer)?;
    'rows: for i in 0..stations.len() {
        let facility = stations[i].id;
        let price = price_in(clock, facility);
        write_station_row(
            &mut writer,
            facility,
            clock.station_statuses()[i],
            undecided[i],
            price,
        )?;
    }
    match writer.into_inner() {
        Ok(text) => Ok(text),
        Err(_) => Err(NoMemory),
    }
}

/// Returns the result of a finished auction, whose record is backed by this book: a header, and a row for each
/// station, ascending. A row has the station's facility, its outcome (`start`, `exit`, `frozen` or `undecided`), the
/// round of the outcome, and the price in cents.
///
/// Makes one pass over the steps, with a binary search for each, and one over the stations. Fails only if memory runs
/// out.
pub fn result_csv(alloc: Global, rec: &Record, book: &Book) -> Result<Vec<u8>, NoMemory>
    requires backed { IsBacked rec.now.scenario book.now rec.now.order rec.now }
    requires done { rec.now.ending ≡ Ending.Done }
    requires limits { IsWithinLimits rec.now.scenario }
    ensures { IfOk result (λ v. v.items ≡ result_text rec.now.scenario (final_state rec.now book.now) (undecided_of rec.now.steps)) }
{
    let outcomes = final_outcomes(alloc, rec, book)?;
    stations_csv(
        alloc,
        rec.scenario.stations.as_slice(),
        &outcomes.clock,
        &outcomes.undecided,
    )
}
