//! Arguments that name files, and commands that take them. The other modules build their commands from these.

ghost use Rattle.std.specs.Prelude.{◌≡◌, IfOk, false, map};
ghost use Rattle.clap.specs.Words.{app_of, new_app, rule_of};
ghost use Rattle.clap.specs.declared.builder.command.Command.TheViews.{out-Command};
ghost use Rattle.command_words.specs.Words.{required_rule, with_required};

use clap::{Arg, Command};
use std::alloc::{AllocError, Global};

/// An argument that names a file: its identifier, and its line of help.
#[derive(Clone, Copy)]
pub(crate) struct FileArg<'a> {
    pub(crate) id: &'a str,
    pub(crate) help: &'a str,
}

// The files of each auction.
pub(crate) const DOMAINS: FileArg<'static> = FileArg {
    id: "DOMAINS",
    help: "The channels of each station, as in the FCC's Domain.csv",
};

pub(crate) const ROWS: FileArg<'static> = FileArg {
    id: "ROWS",
    help: "What interferes, as in the FCC's Interference_Paired.csv",
};

pub(crate) const SCENARIO: FileArg<'static> = FileArg {
    id: "SCENARIO",
    help: "The auction, as JSON: top channel, prices, stations, workers",
};

pub(crate) const OWNERS: FileArg<'static> = FileArg {
    id: "OWNERS",
    help: "What the owners say: lines of round, facility, stay or leave",
};

// The files that a run stores.
pub(crate) const RESULT: FileArg<'static> = FileArg {
    id: "RESULT",
    help: "Where to store what became of each station and what it is paid",
};

pub(crate) const CHANNELS: FileArg<'static> = FileArg {
    id: "CHANNELS",
    help: "Where to store the channel of each station on air",
};

pub(crate) const TRANSCRIPT: FileArg<'static> = FileArg {
    id: "TRANSCRIPT",
    help: "Where to store the transcript, which shows the result",
};

// The transcript of an auction that was carried out.
pub(crate) const VERIFIED_TRANSCRIPT: FileArg<'static> = FileArg {
    id: "TRANSCRIPT",
    help: "The transcript of an auction of these inputs",
};

// The transcript of a live auction that was carried out.
pub(crate) const VERIFIED_LIVE_TRANSCRIPT: FileArg<'static> = FileArg {
    id: "TRANSCRIPT",
    help: "The transcript of a live auction of these inputs",
};

// Returns a required argument with its line of help.
pub(crate) fn required<'a>(alloc: Global, name: &'a str, help: &'a str) -> Arg<'a>
    ensures rule { rule_of result ≡ required_rule name.entry.now }
    ensures local { result.global ≡ false }
{
    Arg::new(alloc, name).required(true).help(help)
}

// Returns the command with these required arguments after its own.
pub(crate) fn with_files<'a>(
    alloc: Global,
    command: Command<'a>,
    files: &[FileArg<'a>],
) -> Result<Command<'a>, AllocError>
    requires local { (out-Command command).has_globals ≡ false }
    ensures app { IfOk result (λ c. app_of c ≡ with_required (app_of command.entry) (map (λ f. f.id.now) files.now)) }
    ensures local { IfOk result (λ c. (out-Command c).has_globals ≡ false) }
{
    let mut command = command;
    for file in files {
        command = command.arg(required(alloc, file.id, file.help))?;
    }
    Ok(command)
}

// Returns a command of this name that takes these files.
pub(crate) fn file_command<'a>(
    alloc: Global,
    name: &'a str,
    about: &'a str,
    files: &[FileArg<'a>],
) -> Result<Command<'a>, AllocError>
    ensures app { IfOk result (λ c. app_of c ≡ with_required (new_app name.entry.now) (map (λ f. f.id.now) files.now)) }
    ensures local { IfOk result (λ c. (out-Command c).has_globals ≡ false) }
{
    with_files(alloc, Command::new(alloc, name).about(about), files)
}
