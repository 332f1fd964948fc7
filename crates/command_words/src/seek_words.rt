//! The arguments of `seek`: the input files, and the file for the channels at the least top channel.

ghost use Rattle.std.specs.Prelude.{◌≡◌, IfOk, false, option_map};
ghost use Rattle.clap.specs.Words.{app_of, found_of, rows_of};
ghost use Rattle.clap.specs.declared.builder.command.Command.TheViews.{out-Command};
ghost use Rattle.command_words.specs.Words.{inputs_view, seek_app, seek_inputs, seek_names, seek_view};

use crate::file_args::{DOMAINS, FileArg, ROWS, SCENARIO, file_command};
use crate::run_words::{InputArgs, input_args, value_of};
use clap::{ArgMatches, Command};
use std::alloc::{AllocError, Global};

/// The arguments of `seek`, as given on the command line.
#[derive(Clone, Copy, Debug, PartialEq, Eq)]
pub struct SeekArgs<'a> {
    /// The domains file.
    pub domains: &'a str,
    /// The rows file.
    pub rows: &'a str,
    /// The scenario file.
    pub scenario: &'a str,
    /// The file for the channels.
    pub channels: &'a str,
}

impl<'a> SeekArgs<'a> {
    /// Returns the input files. There is no owners' file among them.
    pub fn inputs(&self) -> InputArgs<'a>
        ensures { inputs_view result ≡ seek_inputs (seek_view self.now) }
    {
        InputArgs {
            domains: self.domains,
            rows: self.rows,
            scenario: self.scenario,
            owners: None,
        }
    }
}

pub(crate) fn seek_command<'a>(alloc: Global) -> Result<Command<'a>, AllocError>
    ensures app { IfOk result (λ c. app_of c ≡ seek_app) }
    ensures local { IfOk result (λ c. (out-Command c).has_globals ≡ false) }
{
    let about = "Seeks the least top channel at which the start set fits";
    let channels = FileArg {
        id: "CHANNELS",
        help: "Where to store the channel of each station of the start set there",
    };
    file_command(alloc, "seek", about, &[DOMAINS, ROWS, SCENARIO, channels])
}

pub(crate) fn seek_args<'a>(matches: &ArgMatches<'a>) -> Option<SeekArgs<'a>>
    ensures { option_map seek_view result ≡ seek_names (rows_of (found_of matches.now)) }
{
    let inputs = input_args(matches)?;
    let channels = value_of(matches, "CHANNELS")?;
    Some(SeekArgs {
        domains: inputs.domains,
        rows: inputs.rows,
        scenario: inputs.scenario,
        channels,
    })
}
