//! The arguments of `run`, `live`, `check`, `verify` and `verify-live`: the names of an auction's files. Other commands share these
//! arguments.

ghost use Rattle.std.specs.Prelude.{◌≡◌, IfOk, false, option_and_then, option_map};
ghost use Rattle.clap.specs.Words.{app_of, first_of, found_of, rows_of};
ghost use Rattle.clap.specs.declared.builder.command.Command.TheViews.{out-Command};
ghost use Rattle.command_words.specs.Words.{name_of};
ghost use Rattle.command_words.specs.Words.{check_app, input_names, inputs_view, live_app, live_names, run_names_view, run_app, run_names, shown_by_names, verify_app, verify_live_app, verify_live_names, verify_names, verify_view};

use crate::file_args::{
    CHANNELS, DOMAINS, OWNERS, RESULT, ROWS, SCENARIO, TRANSCRIPT, VERIFIED_LIVE_TRANSCRIPT,
    VERIFIED_TRANSCRIPT, file_command,
};
use clap::{ArgMatches, Command};
use std::alloc::{AllocError, Global};

/// An input file.
#[derive(Clone, Copy, Debug, PartialEq, Eq)]
pub enum Input {
    Domains,
    Rows,
    Scenario,
    Owners,
    /// The list of a batch.
    List,
}

/// The names of the input files, as given on the command line.
#[derive(Clone, Copy, Debug, PartialEq, Eq)]
pub struct InputArgs<'a> {
    /// The domains file.
    pub domains: &'a str,
    /// The rows file.
    pub rows: &'a str,
    /// The scenario file.
    pub scenario: &'a str,
    /// The owners' file, if the auction is live.
    pub owners: Option<&'a str>,
}

/// The names of the files of `run` or `live`, as given on the command line.
#[derive(Clone, Copy, Debug, PartialEq, Eq)]
pub struct RunArgs<'a> {
    /// The input files.
    pub inputs: InputArgs<'a>,
    /// The file for the result.
    pub result: &'a str,
    /// The file for the channel map.
    pub channels: &'a str,
    /// The file for the transcript.
    pub transcript: &'a str,
}

/// The names of the files of an auction that was carried out, as given on the command line.
#[derive(Clone, Copy, Debug, PartialEq, Eq)]
pub struct VerifyArgs<'a> {
    /// The input files of the auction.
    pub inputs: InputArgs<'a>,
    /// The transcript file.
    pub transcript: &'a str,
}

impl<'a> InputArgs<'a> {
    /// Returns the name of an input file. Without an owners' file, the scenario's name stands in for it, since the scenario has the
    /// values. For a batch, the list's name is stored as that of the scenario.
    pub fn of(&self, input: Input) -> &'a str
        ensures { result.now ≡ name_of (inputs_view self.now) input }
    {
        match input {
            Input::Domains => self.domains,
            Input::Rows => self.rows,
            Input::Scenario => self.scenario,
            Input::Owners => self.owners.unwrap_or(self.scenario),
            Input::List => self.scenario,
        }
    }
}

pub(crate) fn run_command<'a>(alloc: Global) -> Result<Command<'a>, AllocError>
    ensures app { IfOk result (λ c. app_of c ≡ run_app) }
    ensures local { IfOk result (λ c. (out-Command c).has_globals ≡ false) }
{
    let about = "Runs the auction, stores its three outputs and prints the summary";
    let files = [DOMAINS, ROWS, SCENARIO, RESULT, CHANNELS, TRANSCRIPT];
    file_command(alloc, "run", about, &files)
}

pub(crate) fn live_command<'a>(alloc: Global) -> Result<Command<'a>, AllocError>
    ensures app { IfOk result (λ c. app_of c ≡ live_app) }
    ensures local { IfOk result (λ c. (out-Command c).has_globals ≡ false) }
{
    let about = "Runs the auction by what the owners say in each round";
    let files = [
        DOMAINS, ROWS, SCENARIO, OWNERS, RESULT, CHANNELS, TRANSCRIPT,
    ];
    file_command(alloc, "live", about, &files)
}

pub(crate) fn check_command<'a>(alloc: Global) -> Result<Command<'a>, AllocError>
    ensures app { IfOk result (λ c. app_of c ≡ check_app) }
    ensures local { IfOk result (λ c. (out-Command c).has_globals ≡ false) }
{
    let about = "Checks the input files and prints their counts; stores nothing";
    file_command(alloc, "check", about, &[DOMAINS, ROWS, SCENARIO])
}

pub(crate) fn verify_command<'a>(alloc: Global) -> Result<Command<'a>, AllocError>
    ensures app { IfOk result (λ c. app_of c ≡ verify_app) }
    ensures local { IfOk result (λ c. (out-Command c).has_globals ≡ false) }
{
    let about = "Checks a transcript and prints its result; stores nothing";
    file_command(
        alloc,
        "verify",
        about,
        &[DOMAINS, ROWS, SCENARIO, VERIFIED_TRANSCRIPT],
    )
}

pub(crate) fn verify_live_command<'a>(alloc: Global) -> Result<Command<'a>, AllocError>
    ensures app { IfOk result (λ c. app_of c ≡ verify_live_app) }
    ensures local { IfOk result (λ c. (out-Command c).has_globals ≡ false) }
{
    let about = "Checks a live auction's transcript and prints its result";
    let files = [DOMAINS, ROWS, SCENARIO, OWNERS, VERIFIED_LIVE_TRANSCRIPT];
    file_command(alloc, "verify-live", about, &files)
}

// Returns the first value of an argument.
pub(crate) fn value_of<'a>(matches: &ArgMatches<'a>, id: &str) -> Option<&'a str>
    ensures { option_map (λ s. s.now) result ≡ first_of id.now (rows_of (found_of matches.now)) }
{
    matches.get_str(id)
}

pub(crate) fn input_args<'a>(matches: &ArgMatches<'a>) -> Option<InputArgs<'a>>
    ensures { option_map inputs_view result ≡ input_names (rows_of (found_of matches.now)) }
{
    let domains = value_of(matches, "DOMAINS")?;
    let rows = value_of(matches, "ROWS")?;
    let scenario = value_of(matches, "SCENARIO")?;
    Some(InputArgs {
        domains,
        rows,
        scenario,
        owners: None,
    })
}

pub(crate) fn live_args<'a>(matches: &ArgMatches<'a>) -> Option<InputArgs<'a>>
    ensures { option_map inputs_view result ≡ live_names (rows_of (found_of matches.now)) }
{
    let inputs = input_args(matches)?;
    let owners = value_of(matches, "OWNERS")?;
    Some(InputArgs {
        owners: Some(owners),
        ..inputs
    })
}

pub(crate) fn run_args<'a>(matches: &ArgMatches<'a>, inputs: InputArgs<'a>) -> Option<RunArgs<'a>>
    ensures { option_map run_names_view result ≡ run_names (rows_of (found_of matches.now)) (inputs_view inputs.entry) }
{
    let result = value_of(matches, "RESULT")?;
    let channels = value_of(matches, "CHANNELS")?;
    let transcript = value_of(matches, "TRANSCRIPT")?;
    Some(RunArgs {
        inputs,
        result,
        channels,
        transcript,
    })
}

// Returns the arguments of `run`.
pub(crate) fn plain_run_args<'a>(matches: &ArgMatches<'a>) -> Option<RunArgs<'a>>
    ensures { option_map run_names_view result ≡ option_and_then (run_names (rows_of (found_of matches.now))) (input_names (rows_of (found_of matches.now))) }
{
    run_args(matches, input_args(matches)?)
}

// Returns the arguments of `live`.
pub(crate) fn live_run_args<'a>(matches: &ArgMatches<'a>) -> Option<RunArgs<'a>>
    ensures { option_map run_names_view result ≡ option_and_then (run_names (rows_of (found_of matches.now))) (live_names (rows_of (found_of matches.now))) }
{
    run_args(matches, live_args(matches)?)
}

fn shown_args<'a>(matches: &ArgMatches<'a>, inputs: InputArgs<'a>) -> Option<VerifyArgs<'a>>
    ensures { option_map verify_view result ≡ shown_by_names (rows_of (found_of matches.now)) (inputs_view inputs.entry) }
{
    let transcript = value_of(matches, "TRANSCRIPT")?;
    Some(VerifyArgs { inputs, transcript })
}

pub(crate) fn verify_args<'a>(matches: &ArgMatches<'a>) -> Option<VerifyArgs<'a>>
    ensures { option_map verify_view result ≡ verify_names (rows_of (found_of matches.now)) }
{
    shown_args(matches, input_args(matches)?)
}

// Returns the arguments of `verify-live`.
pub(crate) fn verify_live_args<'a>(matches: &ArgMatches<'a>) -> Option<VerifyArgs<'a>>
    ensures { option_map verify_view result ≡ verify_live_names (rows_of (found_of matches.now)) }
{
    shown_args(matches, live_args(matches)?)
}
