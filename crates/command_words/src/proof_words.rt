//! The arguments of `export` and `import`: the files of an auction, one of its steps, and the files of a proof from outside.

ghost use Rattle.std.specs.Prelude.{◌≡◌, IfOk, false, option_map};
ghost use Rattle.clap.specs.Words.{app_of, found_of, rows_of};
ghost use Rattle.clap.specs.declared.builder.command.Command.TheViews.{out-Command};
ghost use Rattle.command_words.specs.Words.{export_app, export_names, export_view, import_app, import_names, import_view, step_app, step_named};

use crate::file_args::{
    DOMAINS, FileArg, ROWS, SCENARIO, VERIFIED_TRANSCRIPT, file_command, with_files,
};
use crate::make_words::{count_in, number};
use crate::run_words::{VerifyArgs, value_of, verify_args};
use clap::{ArgMatches, Command};
use std::alloc::{AllocError, Global};

/// The arguments of `export`, as given on the command line.
#[derive(Clone, Copy, Debug, PartialEq, Eq)]
pub struct ExportArgs<'a> {
    /// The files of the auction.
    pub shown: VerifyArgs<'a>,
    /// The number of the step, from 1.
    pub step: u32,
    /// The file for the formula.
    pub formula: &'a str,
}

/// The arguments of `import`, as given on the command line.
#[derive(Clone, Copy, Debug, PartialEq, Eq)]
pub struct ImportArgs<'a> {
    /// The files of the auction.
    pub shown: VerifyArgs<'a>,
    /// The number of the step, from 1.
    pub step: u32,
    /// The file of the proof.
    pub proof: &'a str,
    /// The file for the result.
    pub result: &'a str,
    /// The file for the transcript with the step settled.
    pub transcript: &'a str,
}

// Returns a command of this name that takes the files of an auction and the number of one of its steps.
fn step_command<'a>(alloc: Global, name: &'a str, about: &'a str) -> Result<Command<'a>, AllocError>
    ensures app { IfOk result (λ c. app_of c ≡ step_app name.entry.now) }
    ensures local { IfOk result (λ c. (out-Command c).has_globals ≡ false) }
{
    let shown = file_command(
        alloc,
        name,
        about,
        &[DOMAINS, ROWS, SCENARIO, VERIFIED_TRANSCRIPT],
    )?;
    shown.arg(number(
        alloc,
        "STEP",
        1,
        u64::from(u32::MAX),
        "The number of the transcript's step, from 1",
    ))
}

pub(crate) fn export_command<'a>(alloc: Global) -> Result<Command<'a>, AllocError>
    ensures app { IfOk result (λ c. app_of c ≡ export_app) }
    ensures local { IfOk result (λ c. (out-Command c).has_globals ≡ false) }
{
    let about = "Writes the packing formula of a step's test as DIMACS CNF";
    let formula = FileArg {
        id: "CNF",
        help: "Where to store the formula",
    };
    with_files(alloc, step_command(alloc, "export", about)?, &[formula])
}

pub(crate) fn import_command<'a>(alloc: Global) -> Result<Command<'a>, AllocError>
    ensures app { IfOk result (λ c. app_of c ≡ import_app) }
    ensures local { IfOk result (λ c. (out-Command c).has_globals ≡ false) }
{
    let about = "Settles an undecided step by a proof from outside, an LRAT log";
    let proof = FileArg {
        id: "LRAT",
        help: "The LRAT log, which refutes the formula that export stores",
    };
    let result = FileArg {
        id: "RESULT",
        help: "Where to store the result that is then shown",
    };
    let transcript = FileArg {
        id: "NEWTRANSCRIPT",
        help: "Where to store the transcript with the step settled",
    };
    let files = [proof, result, transcript];
    with_files(alloc, step_command(alloc, "import", about)?, &files)
}

// Returns the number of the step.
fn step_of<'a>(matches: &ArgMatches<'a>) -> Option<u32>
    ensures { result ≡ step_named (rows_of (found_of matches.now)) }
{
    count_in(value_of(matches, "STEP")?, u32::MAX)
}

pub(crate) fn export_args<'a>(matches: &ArgMatches<'a>) -> Option<ExportArgs<'a>>
    ensures { option_map export_view result ≡ export_names (rows_of (found_of matches.now)) }
{
    let shown = verify_args(matches)?;
    let step = step_of(matches)?;
    let formula = value_of(matches, "CNF")?;
    Some(ExportArgs {
        shown,
        step,
        formula,
    })
}

pub(crate) fn import_args<'a>(matches: &ArgMatches<'a>) -> Option<ImportArgs<'a>>
    ensures { option_map import_view result ≡ import_names (rows_of (found_of matches.now)) }
{
    let shown = verify_args(matches)?;
    let step = step_of(matches)?;
    let proof = value_of(matches, "LRAT")?;
    let result = value_of(matches, "RESULT")?;
    let transcript = value_of(matches, "NEWTRANSCRIPT")?;
    Some(ImportArgs {
        shown,
        step,
        proof,
        result,
        transcript,
    })
}
