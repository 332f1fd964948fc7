//! Parses the command line with `clap`: which command it is, with its arguments. `auction_cmd` calls `read_words`.

ghost use Rattle.std.specs.Prelude.{◌≡◌, ◌≢◌, IfErr, IfOk, IsOkAnd, None, Some, codes, false, if◌then◌else◌, map, option_and_then, option_map, string_bytes};
ghost use Rattle.std.specs.Str.{bytes_eq};
ghost use Rattle.clap.specs.Words.{app_of, found_of, kind_of, rows_of, subcommand_rows_of, with_subcommand};
ghost use Rattle.clap.specs.declared.builder.command.Command.TheViews.{out-Command};
ghost use Rattle.command_words.specs.Words.{IsRefused, app_without_commands, app_with_batch, command_of, command_view, app_with_live_reading, named_command, program_app, app_with_reading, app_with_resume, app_with_seek, app_with_show};
ghost use Rattle.command_words.specs.Words.{batch, batch_names, export, export_names, import, import_names, make, make_names, resume, resume_names, seek, seek_names, show, show_names, verify_live_names, verify_names};

use crate::batch_words::{BatchArgs, batch_args, batch_command};
use crate::make_words::{MakeArgs, make_args, make_command};
use crate::proof_words::{
    ExportArgs, ImportArgs, export_args, export_command, import_args, import_command,
};
use crate::resume_words::{ResumeArgs, resume_args, resume_command};
use crate::run_words::{
    InputArgs, RunArgs, VerifyArgs, check_command, input_args, live_command, live_run_args,
    plain_run_args, run_command, verify_args, verify_command, verify_live_args,
    verify_live_command,
};
use crate::seek_words::{SeekArgs, seek_args, seek_command};
use crate::show_words::{ShowArgs, show_args, show_command, show_live_args, show_live_command};
use clap::error::ErrorKind;
use clap::{ArgMatches, Command, Error};
use std::alloc::{AllocError, Global};

/// A command with its arguments.
#[derive(Clone, Copy, Debug, PartialEq, Eq)]
pub enum CommandArgs<'a> {
    /// Run the auction, by the stations' values or live.
    Run(RunArgs<'a>),
    /// Check the input files.
    Check(InputArgs<'a>),
    /// Verify a transcript, of an auction by the stations' values or of a live one.
    Verify(VerifyArgs<'a>),
    /// Store what a transcript shows, of an auction by the stations' values or of a live one.
    Show(ShowArgs<'a>),
    /// Continue an auction from the beginning of its transcript.
    Resume(ResumeArgs<'a>),
    /// Find the least top channel.
    Seek(SeekArgs<'a>),
    /// Run the auctions of many scenarios.
    Batch(BatchArgs<'a>),
    /// Generate an auction and run it.
    Make(MakeArgs<'a>),
    /// Store the formula of a step's test.
    Export(ExportArgs<'a>),
    /// Settle a step by a proof from outside.
    Import(ImportArgs<'a>),
}

/// Why a command line is not a command. `Refused`: it is none; the text is the message of `clap` for the user, or the help or
/// version text that the user asked for. No contract describes the text. `NoMemory`: memory ran out.
#[derive(Debug, Drop)]
pub enum WordsFault {
    Refused(String),
    NoMemory,
}

// Returns the program without its commands. Its name in messages does not depend on how it was called.
fn program_without_commands<'a>(alloc: Global) -> Result<Command<'a>, AllocError>
    ensures app { IfOk result (λ c. app_of c ≡ app_without_commands) }
    ensures local { IfOk result (λ c. (out-Command c).has_globals ≡ false) }
{
    let command = Command::new(alloc, "repack")
        .version("1.0.0")
        .about("Runs the reverse clock auction that buys television stations off the air")
        .after_help("The files and the lines printed are described in docs/FORMATS.md.")
        .subcommand_required(true);
    command.bin_name("repack")
}

// Returns the program with one more command, if there was memory for that command. The command comes as a `Result`, so that callers
// hold no program when they return early.
fn with_command<'a>(
    program: Command<'a>,
    command: Result<Command<'a>, AllocError>,
) -> Result<Command<'a>, AllocError>
    requires local { (out-Command program).has_globals ≡ false }
    requires command_local { IfOk command (λ c. (out-Command c).has_globals ≡ false) }
    ensures app { IfOk result (λ c. IsOkAnd command.entry (λ added. app_of c ≡ with_subcommand (app_of program.entry) (app_of added).top)) }
    ensures local { IfOk result (λ c. (out-Command c).has_globals ≡ false) }
{
    program.subcommand(command?)
}

// Returns the program with the commands that read an auction's files and take no step.
fn with_reading_commands<'a>(alloc: Global) -> Result<Command<'a>, AllocError>
    ensures app { IfOk result (λ c. app_of c ≡ app_with_reading) }
    ensures local { IfOk result (λ c. (out-Command c).has_globals ≡ false) }
{
    let running = with_command(program_without_commands(alloc)?, run_command(alloc))?;
    let checking = with_command(running, check_command(alloc))?;
    with_command(checking, verify_command(alloc))
}

// Returns the same with the commands of a live auction.
fn with_live_reading_commands<'a>(alloc: Global) -> Result<Command<'a>, AllocError>
    ensures app { IfOk result (λ c. app_of c ≡ app_with_live_reading) }
    ensures local { IfOk result (λ c. (out-Command c).has_globals ≡ false) }
{
    let live = with_command(with_reading_commands(alloc)?, live_command(alloc))?;
    with_command(live, verify_live_command(alloc))
}

// Returns the same with the commands that store what a transcript shows.
fn with_show_commands<'a>(alloc: Global) -> Result<Command<'a>, AllocError>
    ensures app { IfOk result (λ c. app_of c ≡ app_with_show) }
    ensures local { IfOk result (λ c. (out-Command c).has_globals ≡ false) }
{
    let shown = with_command(with_live_reading_commands(alloc)?, show_command(alloc))?;
    with_command(shown, show_live_command(alloc))
}

// Returns the same with the command that continues an auction.
fn with_resume_command<'a>(alloc: Global) -> Result<Command<'a>, AllocError>
    ensures app { IfOk result (λ c. app_of c ≡ app_with_resume) }
    ensures local { IfOk result (λ c. (out-Command c).has_globals ≡ false) }
{
    let program = with_show_commands(alloc)?;
    with_command(program, resume_command(alloc))
}

// Returns the same with the command that finds the least top channel.
fn with_seek_command<'a>(alloc: Global) -> Result<Command<'a>, AllocError>
    ensures app { IfOk result (λ c. app_of c ≡ app_with_seek) }
    ensures local { IfOk result (λ c. (out-Command c).has_globals ≡ false) }
{
    let program = with_resume_command(alloc)?;
    with_command(program, seek_command(alloc))
}

// Returns the same with the command that runs many auctions.
fn with_batch_command<'a>(alloc: Global) -> Result<Command<'a>, AllocError>
    ensures app { IfOk result (λ c. app_of c ≡ app_with_batch) }
    ensures local { IfOk result (λ c. (out-Command c).has_globals ≡ false) }
{
    let program = with_seek_command(alloc)?;
    with_command(program, batch_command(alloc))
}

// Returns the program with all its commands.
fn program<'a>(alloc: Global) -> Result<Command<'a>, AllocError>
    ensures { IfOk result (λ c. app_of c ≡ program_app) }
{
    let making = with_command(with_batch_command(alloc)?, make_command(alloc))?;
    let exporting = with_command(making, export_command(alloc))?;
    with_command(exporting, import_command(alloc))
}

// Returns the command that `clap` found, with its arguments.
fn command_args<'a>(matches: &ArgMatches<'a>) -> Option<CommandArgs<'a>>
    ensures { option_map command_view result ≡ option_and_then named_command (subcommand_rows_of matches.now) }
{
    let (name, inner) = matches.subcommand()?;
    named_args(name, inner)
}

// Returns the command of this name, with its arguments.
fn named_args<'a>(name: &str, inner: &ArgMatches<'a>) -> Option<CommandArgs<'a>>
    ensures { option_map command_view result ≡ named_command (name.now, rows_of (found_of inner.now)) }
{
    if name == "run" {
        plain_run_args(inner).map(CommandArgs::Run)
    } else if name == "check" {
        input_args(inner).map(CommandArgs::Check)
    } else if name == "verify" {
        verify_args(inner).map(CommandArgs::Verify)
    } else if name == "live" {
        live_run_args(inner).map(CommandArgs::Run)
    } else if name == "verify-live" {
        verify_live_args(inner).map(CommandArgs::Verify)
    } else {
        remaining_args(name, inner)
    }
}

// Returns the command of this name, with its arguments, for the names that `named_args` leaves.
fn remaining_args<'a>(name: &str, inner: &ArgMatches<'a>) -> Option<CommandArgs<'a>>
    ensures { let rows = rows_of (found_of inner.now) in
        option_map command_view result ≡ (if bytes_eq name.now (codes "show") then option_map show (option_and_then (show_names rows) (verify_names rows))
        else (if bytes_eq name.now (codes "show-live") then option_map show (option_and_then (show_names rows) (verify_live_names rows))
        else (if bytes_eq name.now (codes "resume") then option_map resume (resume_names rows)
        else (if bytes_eq name.now (codes "seek") then option_map seek (seek_names rows)
        else (if bytes_eq name.now (codes "batch") then option_map batch (batch_names rows)
        else (if bytes_eq name.now (codes "make") then option_map make (make_names rows)
        else (if bytes_eq name.now (codes "export") then option_map export (export_names rows)
        else (if bytes_eq name.now (codes "import") then option_map import (import_names rows) else None)))))))) }
{
    if name == "show" {
        show_args(inner).map(CommandArgs::Show)
    } else if name == "show-live" {
        show_live_args(inner).map(CommandArgs::Show)
    } else if name == "resume" {
        resume_args(inner).map(CommandArgs::Resume)
    } else if name == "seek" {
        seek_args(inner).map(CommandArgs::Seek)
    } else if name == "batch" {
        batch_args(inner).map(CommandArgs::Batch)
    } else {
        make_or_step_args(name, inner)
    }
}

// Returns the command of this name, with its arguments: `make`, or a command that takes a step of a transcript.
fn make_or_step_args<'a>(name: &str, inner: &ArgMatches<'a>) -> Option<CommandArgs<'a>>
    ensures { let rows = rows_of (found_of inner.now) in
        option_map command_view result ≡ (if bytes_eq name.now (codes "make") then option_map make (make_names rows)
        else (if bytes_eq name.now (codes "export") then option_map export (export_names rows)
        else (if bytes_eq name.now (codes "import") then option_map import (import_names rows) else None))) }
{
    if name == "make" {
        make_args(inner).map(CommandArgs::Make)
    } else if name == "export" {
        export_args(inner).map(CommandArgs::Export)
    } else if name == "import" {
        import_args(inner).map(CommandArgs::Import)
    } else {
        None
    }
}

// Returns the fault with this text, if there was memory for the text.
fn refused(text: Result<String, AllocError>) -> WordsFault {
    match text {
        Ok(text) => WordsFault::Refused(text),
        Err(_) => WordsFault::NoMemory,
    }
}

// Returns the fault that `clap` reports, unless memory ran out.
fn fault_from(alloc: Global, error: &Error) -> WordsFault
    ensures { IsRefused result → kind_of error.now ≢ ErrorKind.OutOfMemory }
{
    if let ErrorKind::OutOfMemory = error.kind() {
        return WordsFault::NoMemory;
    }
    refused(error.to_string(alloc))
}

/// Returns the command of a command line. The first word is the program's name; then follows one of:
///
/// - `run DOMAINS ROWS SCENARIO RESULT CHANNELS TRANSCRIPT`
/// - `check DOMAINS ROWS SCENARIO`
/// - `verify DOMAINS ROWS SCENARIO TRANSCRIPT`
/// - `live DOMAINS ROWS SCENARIO OWNERS RESULT CHANNELS TRANSCRIPT`
/// - `verify-live DOMAINS ROWS SCENARIO OWNERS TRANSCRIPT`
/// - `show DOMAINS ROWS SCENARIO TRANSCRIPT RESULT CHANNELS`
/// - `show-live DOMAINS ROWS SCENARIO OWNERS TRANSCRIPT RESULT CHANNELS`
/// - `resume DOMAINS ROWS SCENARIO PREFIX RESULT CHANNELS TRANSCRIPT`
/// - `seek DOMAINS ROWS SCENARIO CHANNELS`
/// - `batch DOMAINS ROWS LIST`
/// - `make SEED SIZE DOMAINS ROWS SCENARIO`
/// - `export DOMAINS ROWS SCENARIO TRANSCRIPT STEP CNF`
/// - `import DOMAINS ROWS SCENARIO TRANSCRIPT STEP LRAT RESULT NEWTRANSCRIPT`
///
/// A name that begins with `-` must come after `--`, except a lone `-`. SEED is a number up to 2^64 - 1, SIZE is 1 to 4,096, and
/// STEP is 1 to 4,294,967,295. Each number may have a plus sign and leading zeros.
///
/// # Errors
///
/// Fails with `Refused` and the text for the user if the words are no command; this includes requests for the help or the version.
/// Fails with `NoMemory` if memory runs out.
#[tactic(auto, unfolding(crate::specs::Words::command_of))]
pub fn read_words<'a>(alloc: Global, words: &'a [String]) -> Result<CommandArgs<'a>, WordsFault>
    ensures command { IfOk result (λ c. command_of (map string_bytes words.entry.now) ≡ Some (command_view c)) }
    ensures refused { IfErr result (λ e. IsRefused e → command_of (map string_bytes words.entry.now) ≡ None) }
{
    let Ok(program) = program(alloc) else {
        return Err(WordsFault::NoMemory);
    };
    let matches = match program.try_get_matches_from(words) {
        Ok(matches) => matches,
        Err(error) => return Err(fault_from(alloc, &error)),
    };
    match command_args(&matches) {
        Some(command) => Ok(command),
        // `clap` reports a missing argument itself, so this case does not occur.
        None => Err(refused(String::from_str(alloc, "error: an argument is missing\n"))),
    }
}
