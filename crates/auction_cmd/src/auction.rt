//! The program: from the words of the command line to what is stored in files and written to the sink.

ghost use Rattle.std.specs.Prelude.{◌≡◌, ℕ, List, Some, map};
ghost use Rattle.std.specs.String.{string_bytes};
ghost use Rattle.command_words.specs.Words.{command_of, command_view};
ghost use Rattle.commands.specs.Faults.{AreFaultsCounted};
ghost use Rattle.commands.specs.Messages.{twice_line};
ghost use Rattle.commands.specs.Outside.{IsLinePrintedTo, outside};
ghost use Rattle.commands.specs.Plan.{plan_of};
ghost use Rattle.commands.specs.Statuses.{NO_COMMAND, REFUSED};
ghost use Rattle.auction_cmd.specs.DiaryPromises.{CommandDiary, ProgramDiary};
ghost use Rattle.auction_cmd.specs.Program.{CommandEnds, HasNoRecord, ProgramEnds, ProgramPromises};

use command_words::words::{CommandArgs, WordsFault, read_words};
use commands::batch::batch;
use commands::check::check;
use commands::finish::Finish;
use commands::import::import;
use commands::make::make;
use commands::messages::explain::end_out_of_memory;
use commands::messages::print_line;
use commands::resume::resume;
use commands::run::run;
use commands::seek::seek;
use commands::status::{NO_COMMAND, REFUSED};
use commands::verify::verify;
use commands::view::run_view;
use outside_io::folder::Folder;
use outside_io::sink::Sink;
use solver_gate::gate::Gate;
use std::alloc::Global;
use std::sync::Wait;
use std::thread::Threads;

// Prints that this name of a file to store is given twice.
fn refuse_twice<K: Sink>(out: &mut K, name: &str) -> Finish
    ensures status { result.status ≡ REFUSED }
    ensures none { HasNoRecord result }
    ensures says { IsLinePrintedTo (K.modelled out.old) (K.modelled out.new) (twice_line name.now) }
{
    print_line(out, &[name, ": given twice\n"]);
    Finish::without_record(REFUSED)
}

// Prints this text, which says why the words are no command.
fn explain_usage<K: Sink>(out: &mut K, text: &str) -> Finish
    ensures status { result.status ≡ NO_COMMAND }
    ensures none { HasNoRecord result }
    ensures says { IsLinePrintedTo (K.modelled out.old) (K.modelled out.new) text.now }
{
    print_line(out, &[text]);
    Finish::without_record(NO_COMMAND)
}

// Carries out this command, which some words are.
fn carry_out<F: Folder, K: Sink, G: Gate + Sync, W: Threads + Wait + Sync>(
    rt: &W,
    alloc: Global,
    command: &CommandArgs<'_>,
    folder: &mut F,
    out: &mut K,
    gate: &G,
) -> Finish
    requires { (words : List (List ℕ)) × (command_of words ≡ Some (command_view command.now)) }
    ensures ends { CommandEnds (command_view command.now) (outside (F.modelled folder.old) (K.modelled out.old))
        (outside (F.modelled folder.new) (K.modelled out.new)) result }
    ensures counted { AreFaultsCounted
        (outside (F.modelled folder.old) (K.modelled out.old)) (outside (F.modelled folder.new) (K.modelled out.new)) result.status }
    ensures called { CommandDiary (command_view command.now)
        (outside (F.modelled folder.old) (K.modelled out.old)) (outside (F.modelled folder.new) (K.modelled out.new))
        (F.modelled folder.old).calls (F.modelled folder.new).calls result }
{
    match command {
        CommandArgs::Run(files) => run(rt, alloc, files, folder, out, gate),
        CommandArgs::Check(files) => check(alloc, files, folder, out),
        CommandArgs::Verify(files) => verify(alloc, files, folder, out),
        CommandArgs::Show(files) => run_view(alloc, files, folder, out),
        CommandArgs::Resume(files) => resume(rt, alloc, files, folder, out, gate),
        CommandArgs::Seek(files) => seek(rt, alloc, files, folder, out, gate),
        CommandArgs::Batch(files) => batch(rt, alloc, files, folder, out, gate),
        CommandArgs::Make(files) => make(rt, alloc, files, folder, out, gate),
        CommandArgs::Export(files) => run_view(alloc, files, folder, out),
        CommandArgs::Import(files) => import(alloc, files, folder, out),
    }
}

// Carries out the command that the words are, or prints why there is none.
fn answer<F: Folder, K: Sink, G: Gate + Sync, W: Threads + Wait + Sync>(
    rt: &W,
    alloc: Global,
    words: &[String],
    folder: &mut F,
    out: &mut K,
    gate: &G,
) -> Finish
    ensures ends { ProgramEnds (plan_of (map string_bytes words.now)) (outside (F.modelled folder.old) (K.modelled out.old))
        (outside (F.modelled folder.new) (K.modelled out.new)) result }
    ensures counted { AreFaultsCounted
        (outside (F.modelled folder.old) (K.modelled out.old)) (outside (F.modelled folder.new) (K.modelled out.new)) result.status }
    ensures called { ProgramDiary (plan_of (map string_bytes words.now))
        (outside (F.modelled folder.old) (K.modelled out.old)) (outside (F.modelled folder.new) (K.modelled out.new))
        (F.modelled folder.old).calls (F.modelled folder.new).calls result }
{
    match read_words(alloc, words) {
        Ok(command) => match command.given_twice() {
            Some(name) => refuse_twice(out, name),
            None => carry_out(rt, alloc, &command, folder, out, gate),
        },
        Err(WordsFault::Refused(text)) => explain_usage(out, &text),
        Err(WordsFault::NoMemory) => end_out_of_memory(out),
    }
}

/// Runs the program on these words, the first of which is its name. Writes the files of the folder and to the sink, and returns the
/// status and the records of the auctions.
///
/// - `run DOMAINS ROWS SCENARIO RESULT CHANNELS TRANSCRIPT` reads the three inputs and carries the auction out by the clock rule.
///   It stores the result, the channels of the stations on air and the transcript, in this order, and writes the summary. The
///   solvers of all the scenario's workers try each query at once, each in its own thread if one can be made. After each such race
///   they try the current query one after another in this thread. Each solver calls the gate before and after it posts an answer; a
///   gate never changes the result.
/// - `check DOMAINS ROWS SCENARIO` reads the three inputs and writes their numbers of stations and pairs.
/// - `verify DOMAINS ROWS SCENARIO TRANSCRIPT` reads the three inputs and a transcript, checks each of its steps and writes the
///   result that the transcript certifies.
/// - `live DOMAINS ROWS SCENARIO OWNERS RESULT CHANNELS TRANSCRIPT` does what `run` does, except that the file OWNERS says for each
///   round which stations stay. The stations' values are read and checked, but not used.
/// - `verify-live DOMAINS ROWS SCENARIO OWNERS TRANSCRIPT` does what `verify` does, with the transcript of a live auction.
/// - `show DOMAINS ROWS SCENARIO TRANSCRIPT RESULT CHANNELS` checks a transcript as `verify` does. It stores the result and the
///   channels that the transcript certifies, in this order, and writes the summary.
/// - `show-live DOMAINS ROWS SCENARIO OWNERS TRANSCRIPT RESULT CHANNELS` does what `show` does, with the transcript of a live
///   auction.
/// - `resume DOMAINS ROWS SCENARIO PREFIX RESULT CHANNELS TRANSCRIPT` reads the three inputs and the beginning of a transcript, cut
///   anywhere. It checks each complete step, continues the auction after these, and stores and writes what `run` does. The steps
///   that were read are kept.
/// - `seek DOMAINS ROWS SCENARIO CHANNELS` finds the least top channel, from 14 to the scenario's own, up to which the stations fit
///   that start on air. It carries out auctions of these stations alone, stores a channel for each of them and writes the top
///   channel.
/// - `batch DOMAINS ROWS LIST` reads the constraint files, a list of at most 256 lines, each a scenario and a file for its result,
///   and the scenarios. It carries out all their auctions as `run` does, as many at a time as the machine has processors, by
///   solvers that share their answers. It stores the results and writes a line for each scenario, with its auction's own status:
///   `DONE`, `LEFT_OPEN`, `START_UNFIT` or `START_OPEN` of `status`.
/// - `make SEED SIZE DOMAINS ROWS SCENARIO` makes the three files of an auction of SIZE stations from the number SEED and stores
///   them in this order. It carries the auction out as `run` does and writes the summary. The same SEED and SIZE give the same
///   files.
/// - `export DOMAINS ROWS SCENARIO TRANSCRIPT STEP CNF` checks a transcript as `verify` does. It stores the packing formula of the
///   stations that the step STEP asked about, as DIMACS CNF.
/// - `import DOMAINS ROWS SCENARIO TRANSCRIPT STEP LRAT RESULT NEWTRANSCRIPT` checks a transcript as `verify` does. It decides the
///   undecided step STEP by a log in the format of LRAT that refutes this formula. It stores the new result and transcript, in this
///   order, and writes the summary.
///
/// The status is one of these, named in `status`:
///
/// - 0: all is done, and every test is decided.
/// - 1: all is done, and some test is undecided; for `seek`, the test with one channel less is undecided.
/// - 2: the words are not a command, or ask for help or the version.
/// - 3: a file cannot be read.
/// - 4: a file cannot be stored, or the summary, the counts, the result, the top channel or the lines of a batch cannot be written.
/// - 5: an output name is given twice, a file is too long, or an input is rejected.
/// - 6: the start set does not fit.
/// - 7: no worker decides whether the start set fits.
/// - 8: memory ran out.
/// - 9: the transcript's text is rejected, or one of its steps does not verify.
/// - 10: there is no step STEP; for `import` also: the step is not undecided, the log's text is rejected, or the log refutes
///   nothing.
/// - 11: all of a batch is done, and some auction of it ended at its start, as at 6 or 7.
///
/// At each status except 0, 1 and 11 a line says why. There is no such line if the sink fails at the summary, the counts, the
/// result, the top channel or the lines of a batch.
///
/// # Example
///
/// Over files in memory: `files` has the three inputs, and `words` are those of `repack run domains.csv rows.csv scenario.json
/// result.csv channels.csv transcript.txt`.
///
/// ```
/// let mut folder = MemoryFolder::new(files, Vec::new(alloc));
/// // The sink takes 9,999 bytes, and no write fails before.
/// let mut printed = MemorySink::new(alloc, 9_999, Vec::new(alloc))?;
/// let finish = auction_main(&rt, alloc, &words, &mut folder, &mut printed, &EmptyGate);
/// assert_eq!(finish.status, status::DONE);
/// // The outcome of each station, and the record of the auction, which has the answer to each test.
/// let (result, record) = (folder.bytes("result.csv"), finish.result);
/// ```
pub fn auction_main<F: Folder, K: Sink, G: Gate + Sync, W: Threads + Wait + Sync>(
    rt: &W,
    alloc: Global,
    words: &[String],
    folder: &mut F,
    out: &mut K,
    gate: &G,
) -> Finish
    // How the program ends, case by case.
    ensures ends { ProgramEnds (plan_of (map string_bytes words.now)) (outside (F.modelled folder.old) (K.modelled out.old))
        (outside (F.modelled folder.new) (K.modelled out.new)) result }

    // What the reader may rely on: one clause for each promise.
    ensures promises { ProgramPromises (plan_of (map string_bytes words.now)) (outside (F.modelled folder.old) (K.modelled out.old))
        (outside (F.modelled folder.new) (K.modelled out.new)) result }

    // At which statuses the fault counts of the outside stay.
    ensures counted { AreFaultsCounted
        (outside (F.modelled folder.old) (K.modelled out.old)) (outside (F.modelled folder.new) (K.modelled out.new)) result.status }

    // Which calls are made of a folder that keeps a diary: what is read and stored, and in which order.
    ensures called { ProgramDiary (plan_of (map string_bytes words.now))
        (outside (F.modelled folder.old) (K.modelled out.old)) (outside (F.modelled folder.new) (K.modelled out.new))
        (F.modelled folder.old).calls (F.modelled folder.new).calls result }
{
    answer(rt, alloc, words, folder, out, gate)
}
