//! The preconditions of the round-trip law, which says that a record's transcript is read back as itself. Every
//! record, scenario and book that a program holds satisfies them; the calls here prove it and do nothing else.

ghost use Rattle.std.specs.Prelude.{◌≤◌, ◌<◌, ◌^◌, All, length};
ghost use Rattle.pack_defs.specs.Book.{IsInOrder};
ghost use Rattle.transcript_text.specs.Fields.{greatest_u32};
ghost use Rattle.transcript_text.specs.RoundTrip.{HasFileChannels, IsFitAscending, IsHeld, IsNamed};

use auction_core::record::{Record, Shown};
use pack_defs::book::Book;
use pack_defs::scenario::Scenario;
use pack_defs::station::Station;

// Proves that a station's number has 32 bits. Does nothing.
fn keeps_short_number(id: u32)
    ensures { id ≤ greatest_u32 }
{}

// Proves that the number of each station has 32 bits. Does nothing.
fn keeps_short_numbers(stations: &[Station])
    ensures { All (λ x. x.id ≤ greatest_u32) stations.now }
{
    for station in stations {
        keeps_short_number(station.id);
    }
}

// Proves that the entries of a fit ascend. Does nothing.
fn keeps_ascending_fit(shown: &Shown)
    ensures { IsFitAscending shown.now }
{
    match shown {
        Shown::Fits(delta) => {
            delta.keeps_order();
            return;
        }
        Shown::Empty | Shown::Same | Shown::NoChannel(_) => return,
        Shown::Refuted { .. } | Shown::Outside(_) | Shown::Undecided(_) => return,
    }
}

/// Proves that the entries of each fit of this record ascend. Has no effect; passes over the steps once and allocates
/// nothing.
pub fn keeps_ascending_fits(rec: &Record)
    ensures { IsHeld rec.now }
{
    keeps_ascending_fit(&rec.start);
    for step in rec.steps.as_slice() {
        keeps_ascending_fit(&step.shown);
    }
}

// Proves that the book is in order and that a list can hold its pairs. Does nothing.
fn keeps_order_and_memory(book: &Book)
    ensures order { IsInOrder book.now }
    ensures pairs { length book.now.pairs < 2 ^ 62 }
{
    book.keeps_order();
    book.keeps_to_memory();
}

/// Proves that a transcript can spell the numbers of this scenario and this book, if the channels are those of a
/// file. Has no effect; passes over the stations once and allocates nothing.
pub fn keeps_named_numbers(sc: &Scenario, book: &Book)
    ensures { HasFileChannels book.now → IsNamed sc.now book.now }
{
    keeps_short_numbers(sc.stations.as_slice());
    keeps_order_and_memory(book);
}
