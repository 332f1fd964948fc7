//! The command `seek`: finds the least top channel at which the stations that start on air fit, and a channel for each of them.
//!
//! `sources` reads the files, and `top_channel_runs` tests the top channels. Only `auction_cmd` calls it.

ghost use Rattle.std.specs.Prelude.{◌≡◌, ◌≤◌, [], List, Some, IfOk};
ghost use Rattle.outside_io.specs.Files.{StoredFile};
ghost use Rattle.result_text.specs.ChannelsText.{channels_text};
ghost use Rattle.commands.specs.Ends.{SeekEnds};
ghost use Rattle.commands.specs.Faults.{AreFaultsCounted};
ghost use Rattle.commands.specs.Inputs.{Agrees, CountsFault};
ghost use Rattle.commands.specs.Outside.{outside};
ghost use Rattle.commands.specs.Seek.{IsSeekable, base_of, seekable_of, top_status, top_text};
ghost use Rattle.command_words.specs.Words.{inputs_view, seek_view};

use crate::delivery::deliver;
use crate::finish::Finish;
use crate::inputs::input_file::Stop;
use crate::inputs::sources::{Sources, book_of, read_sources};
use crate::messages::explain::{end_out_of_memory, explain};
use crate::messages::print_line;
use crate::status::{DONE, LEFT_OPEN, START_OPEN, START_UNFIT};
use crate::top_channel_runs::{FoundTop, LeastTop, least_top};
use auction_core::record::Record;
use command_words::run_words::InputArgs;
use command_words::seek_words::SeekArgs;
use outside_io::folder::{Folder, NewFile};
use outside_io::sink::Sink;
use result_text::channels::channels_csv;
use result_text::counts::push_count;
use solver_gate::gate::Gate;
use std::alloc::{AllocError as NoMemory, Global};
use std::sync::Wait;
use std::thread::Threads;

// The texts about a top channel that was found.
#[derive(Drop)]
struct Texts {
    channels: Vec<u8>,
    top: Vec<u8>,
}

// Returns what the three files hold. Fails also if a station of the scenario has no domain row; the book is made only to check
// this.
fn read_seekable<F: Folder>(
    alloc: Global,
    folder: &mut F,
    names: &InputArgs<'_>,
) -> Result<Sources, Stop>
    ensures modelled { (files : List StoredFile) → (F.modelled folder.old).files ≡ Some files →
        Agrees (λ s. s) (F.modelled folder.old).steady (seekable_of files (inputs_view names.now)) result }
    ensures seekable { IfOk result (λ s. IsSeekable (base_of s)) }
    ensures files { (F.modelled folder.new).files ≡ (F.modelled folder.old).files }
    ensures steady { (F.modelled folder.new).steady ≡ (F.modelled folder.old).steady }
    ensures counted { CountsFault (F.modelled folder.old).faults (F.modelled folder.new).faults result }
{
    let sources = read_sources(alloc, folder, names)?;
    let _ = book_of(alloc, &sources)?;
    Ok(sources)
}

// Returns what is printed about a top channel that was found: the channel and, if the test of one channel less is undecided, that
// channel.
fn top_text(alloc: Global, top: u8, is_open: bool) -> Result<Vec<u8>, NoMemory>
    requires { 1 ≤ top }
    ensures { IfOk result (λ text. text.items ≡ top_text top is_open) }
{
    let mut text = Vec::new(alloc);
    push_count(&mut text, "top", u64::from(top))?;
    if !is_open {
        return Ok(text);
    }
    push_count(&mut text, "undecided", u64::from(top - 1))?;
    Ok(text)
}

// Returns the texts about what was found. Uses neither folder nor sink.
fn texts_of(alloc: Global, rec: &Record, top: u8, is_open: bool) -> Result<Texts, NoMemory>
    requires { 1 ≤ top }
    ensures channels { IfOk result (λ texts. texts.channels.items ≡ channels_text rec.now.map) }
    ensures top { IfOk result (λ texts. texts.top.items ≡ top_text top is_open) }
{
    let channels = channels_csv(alloc, rec)?;
    let top = top_text(alloc, top, is_open)?;
    Ok(Texts { channels, top })
}

// Returns the status for a top channel that was found: `LEFT_OPEN` if the test of one channel less is undecided, else `DONE`.
fn top_status(is_open: bool) -> u8
    ensures { result ≡ top_status is_open }
{
    if is_open {
        return LEFT_OPEN;
    }
    DONE
}

/// Reads the inputs and seeks the least top channel, from 14 to the scenario's own, at which the stations that start on air fit.
///
/// If one is found, a channel for each of these stations is stored and the top channel is printed. If the test of one channel
/// less is undecided, that channel is printed too. For each top channel that is tested, the solvers of the scenario's workers
/// race as in any auction.
///
/// If the stations do not fit at the scenario's own top channel, or their test is undecided, a line reports this and nothing is
/// stored.
pub fn seek<F: Folder, K: Sink, G: Gate + Sync, W: Threads + Wait + Sync>(
    rt: &W,
    alloc: Global,
    files: &SeekArgs<'_>,
    folder: &mut F,
    out: &mut K,
    gate: &G,
) -> Finish
    ensures ends { SeekEnds (seek_view files.now) (outside (F.modelled folder.old) (K.modelled out.old))
        (outside (F.modelled folder.new) (K.modelled out.new)) result.status result.result result.below }
    ensures no_batch { result.batch ≡ [] }
    ensures counted { AreFaultsCounted
        (outside (F.modelled folder.old) (K.modelled out.old)) (outside (F.modelled folder.new) (K.modelled out.new)) result.status }
{
    let names = files.inputs();
    let sources = match read_seekable(alloc, folder, &names) {
        Ok(sources) => sources,
        Err(stop) => return Finish::without_record(explain(out, &names, stop)),
    };
    let Ok(found) = least_top(rt, alloc, sources, gate) else {
        return end_out_of_memory(out);
    };
    let LeastTop {
        top,
        rec,
        below,
        is_open,
    } = match found {
        FoundTop::NoneFits(rec) => {
            print_line(out, &["the start set does not fit\n"]);
            return Finish::with_record(START_UNFIT, rec);
        }
        FoundTop::LastOpen(rec) => {
            print_line(out, &["the start set is undecided\n"]);
            return Finish::with_record(START_OPEN, rec);
        }
        FoundTop::Found(found) => found,
    };
    let Ok(texts) = texts_of(alloc, &rec, top, is_open) else {
        return end_out_of_memory(out);
    };
    let stored = [NewFile {
        name: files.channels,
        bytes: &texts.channels,
    }];
    let status = deliver(folder, out, &stored, &texts.top, top_status(is_open));
    Finish::with_both(status, rec, below)
}
