//! The arguments of `resume`: the files of a run, and the beginning of a transcript from which the auction continues.

ghost use Rattle.std.specs.Prelude.{◌≡◌, IfOk, false, option_map};
ghost use Rattle.clap.specs.Words.{app_of, found_of, rows_of};
ghost use Rattle.clap.specs.declared.builder.command.Command.TheViews.{out-Command};
ghost use Rattle.command_words.specs.Words.{resume_app, resume_names, resume_view};

use crate::file_args::{
    CHANNELS, DOMAINS, FileArg, RESULT, ROWS, SCENARIO, TRANSCRIPT, file_command,
};
use crate::run_words::{RunArgs, plain_run_args, value_of};
use clap::{ArgMatches, Command};
use std::alloc::{AllocError, Global};

/// The arguments of `resume`, as given on the command line.
#[derive(Clone, Copy, Debug, PartialEq, Eq)]
pub struct ResumeArgs<'a> {
    /// The input files, and the files for the three outputs.
    pub run_files: RunArgs<'a>,
    /// The file with the beginning of a transcript.
    pub prefix: &'a str,
}

pub(crate) fn resume_command<'a>(alloc: Global) -> Result<Command<'a>, AllocError>
    ensures app { IfOk result (λ c. app_of c ≡ resume_app) }
    ensures local { IfOk result (λ c. (out-Command c).has_globals ≡ false) }
{
    let about = "Goes on with an auction from the beginning of its transcript";
    let prefix = FileArg {
        id: "PREFIX",
        help: "The beginning of a transcript of these inputs, cut anywhere",
    };
    let files = [
        DOMAINS, ROWS, SCENARIO, prefix, RESULT, CHANNELS, TRANSCRIPT,
    ];
    file_command(alloc, "resume", about, &files)
}

pub(crate) fn resume_args<'a>(matches: &ArgMatches<'a>) -> Option<ResumeArgs<'a>>
    ensures { option_map resume_view result ≡ resume_names (rows_of (found_of matches.now)) }
{
    let run_files = plain_run_args(matches)?;
    let prefix = value_of(matches, "PREFIX")?;
    Some(ResumeArgs { run_files, prefix })
}
