//! Writes the channels of an auction as CSV. The map in the record is all that this needs.

ghost use Rattle.std.specs.Prelude.{◌≡◌, ◌++◌, IfOk, OnOk};
ghost use Rattle.result_text.specs.ChannelsText.{channel_line, channels_header, channels_text};
ghost use Rattle.result_text.specs.ResultText.{IsBetweenRows, text_held};

use auction_core::record::Record;
use csv::{Writer, WriterBuilder};
use itoa::Buffer;
use std::alloc::{AllocError as NoMemory, Global};

// Writes the row of a station and its channel. The writer is between two rows.
fn write_entry(writer: &mut Writer<Vec<u8>>, facility: u32, channel: u8) -> Result<(), NoMemory>
    requires { IsBetweenRows writer.old }
    ensures idle { OnOk result (IsBetweenRows writer.new) }
    ensures text { OnOk result (text_held writer.new ≡ text_held writer.old ++ channel_line (facility, channel)) }
{
    let mut first = Buffer::new();
    let mut second = Buffer::new();
    let fields = [
        first.format(facility).as_bytes(),
        second.format(channel).as_bytes(),
    ];
    if writer.write_fields(&fields).is_err() {
        return Err(NoMemory);
    }
    Ok(())
}

// Writes the header. The writer is between two rows.
fn write_header(writer: &mut Writer<Vec<u8>>) -> Result<(), NoMemory>
    requires { IsBetweenRows writer.old }
    ensures idle { OnOk result (IsBetweenRows writer.new) }
    ensures text { OnOk result (text_held writer.new ≡ text_held writer.old ++ channels_header) }
{
    let names: [&[u8]; 2] = [b"facility", b"channel"];
    if writer.write_fields(&names).is_err() {
        return Err(NoMemory);
    }
    Ok(())
}

/// Returns the channels of an auction's record: a header, and a row for each station on air with its facility and its
/// channel, ascending. Makes one pass over the map. Fails only if memory runs out.
#[tactic(auto, unfolding(crate::specs::ChannelsText::channels_text))]
pub fn channels_csv(alloc: Global, rec: &Record) -> Result<Vec<u8>, NoMemory>
    ensures { IfOk result (λ v. v.items ≡ channels_text rec.now.map) }
{
    let mut writer = WriterBuilder::new().from_writer(Vec::new(alloc));
    write_header(&mut writer)?;
    for entry in rec.map.entries() {
        write_entry(&mut writer, entry.0, entry.1)?;
    }
    match writer.into_inner() {
        Ok(text) => Ok(text),
        Err(_) => Err(NoMemory),
    }
}
