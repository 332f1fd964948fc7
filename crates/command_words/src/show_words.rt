//! The arguments of `show` and `show-live`: the files of an auction that was carried out, and the files to store.

ghost use Rattle.std.specs.Prelude.{◌≡◌, IfOk, false, option_and_then, option_map};
ghost use Rattle.clap.specs.Words.{app_of, found_of, rows_of};
ghost use Rattle.clap.specs.declared.builder.command.Command.TheViews.{out-Command};
ghost use Rattle.command_words.specs.Words.{show_app, show_live_app, show_names, show_view, verify_live_names, verify_names, verify_view};

use crate::file_args::{
    CHANNELS, DOMAINS, OWNERS, RESULT, ROWS, SCENARIO, VERIFIED_LIVE_TRANSCRIPT,
    VERIFIED_TRANSCRIPT, file_command,
};
use crate::run_words::{VerifyArgs, value_of, verify_args, verify_live_args};
use clap::{ArgMatches, Command};
use std::alloc::{AllocError, Global};

/// The arguments of `show` or `show-live`, as given on the command line.
#[derive(Clone, Copy, Debug, PartialEq, Eq)]
pub struct ShowArgs<'a> {
    /// The files of the auction.
    pub shown: VerifyArgs<'a>,
    /// The file for the result.
    pub result: &'a str,
    /// The file for the channel map.
    pub channels: &'a str,
}

pub(crate) fn show_command<'a>(alloc: Global) -> Result<Command<'a>, AllocError>
    ensures app { IfOk result (λ c. app_of c ≡ show_app) }
    ensures local { IfOk result (λ c. (out-Command c).has_globals ≡ false) }
{
    let about = "Checks a transcript and stores its result and its channels";
    let files = [
        DOMAINS,
        ROWS,
        SCENARIO,
        VERIFIED_TRANSCRIPT,
        RESULT,
        CHANNELS,
    ];
    file_command(alloc, "show", about, &files)
}

pub(crate) fn show_live_command<'a>(alloc: Global) -> Result<Command<'a>, AllocError>
    ensures app { IfOk result (λ c. app_of c ≡ show_live_app) }
    ensures local { IfOk result (λ c. (out-Command c).has_globals ≡ false) }
{
    let about = "Checks a live auction's transcript and stores result and channels";
    let files = [
        DOMAINS,
        ROWS,
        SCENARIO,
        OWNERS,
        VERIFIED_LIVE_TRANSCRIPT,
        RESULT,
        CHANNELS,
    ];
    file_command(alloc, "show-live", about, &files)
}

fn outputs_of<'a>(matches: &ArgMatches<'a>, shown: VerifyArgs<'a>) -> Option<ShowArgs<'a>>
    ensures { option_map show_view result ≡ show_names (rows_of (found_of matches.now)) (verify_view shown.entry) }
{
    let result = value_of(matches, "RESULT")?;
    let channels = value_of(matches, "CHANNELS")?;
    Some(ShowArgs {
        shown,
        result,
        channels,
    })
}

pub(crate) fn show_args<'a>(matches: &ArgMatches<'a>) -> Option<ShowArgs<'a>>
    ensures { option_map show_view result ≡ option_and_then (show_names (rows_of (found_of matches.now))) (verify_names (rows_of (found_of matches.now))) }
{
    outputs_of(matches, verify_args(matches)?)
}

pub(crate) fn show_live_args<'a>(matches: &ArgMatches<'a>) -> Option<ShowArgs<'a>>
    ensures { option_map show_view result ≡ option_and_then (show_names (rows_of (found_of matches.now))) (verify_live_names (rows_of (found_of matches.now))) }
{
    outputs_of(matches, verify_live_args(matches)?)
}
