//! The arguments of `batch`: the constraint files, and the list of the scenarios and of the files for their results.

ghost use Rattle.std.specs.Prelude.{◌≡◌, IfOk, false, option_map};
ghost use Rattle.clap.specs.Words.{app_of, found_of, rows_of};
ghost use Rattle.clap.specs.declared.builder.command.Command.TheViews.{out-Command};
ghost use Rattle.command_words.specs.Words.{inputs_with};
ghost use Rattle.command_words.specs.Words.{batch_app, batch_names, batch_view, inputs_view};

use crate::file_args::{DOMAINS, FileArg, ROWS, file_command};
use crate::run_words::{InputArgs, value_of};
use clap::{ArgMatches, Command};
use std::alloc::{AllocError, Global};

/// The arguments of `batch`, as given on the command line.
#[derive(Clone, Copy, Debug, PartialEq, Eq)]
pub struct BatchArgs<'a> {
    /// The domains file.
    pub domains: &'a str,
    /// The rows file.
    pub rows: &'a str,
    /// The list of the scenarios and of the files for their results.
    pub list: &'a str,
}

impl<'a> BatchArgs<'a> {
    /// Returns the input files of one auction: the constraint files, and the scenario of this name. Before the scenarios are read,
    /// callers pass the list's name.
    pub fn inputs_with(&self, scenario: &'a str) -> InputArgs<'a>
        ensures { inputs_view result ≡ inputs_with (batch_view self.now) scenario.now }
    {
        InputArgs {
            domains: self.domains,
            rows: self.rows,
            scenario,
            owners: None,
        }
    }
}

pub(crate) fn batch_command<'a>(alloc: Global) -> Result<Command<'a>, AllocError>
    ensures app { IfOk result (λ c. app_of c ≡ batch_app) }
    ensures local { IfOk result (λ c. (out-Command c).has_globals ≡ false) }
{
    let about = "Runs the auctions of many scenarios and stores their results";
    let list = FileArg {
        id: "LIST",
        help: "The auctions: lines of a scenario file and a file for its result",
    };
    file_command(alloc, "batch", about, &[DOMAINS, ROWS, list])
}

pub(crate) fn batch_args<'a>(matches: &ArgMatches<'a>) -> Option<BatchArgs<'a>>
    ensures { option_map batch_view result ≡ batch_names (rows_of (found_of matches.now)) }
{
    let domains = value_of(matches, "DOMAINS")?;
    let rows = value_of(matches, "ROWS")?;
    let list = value_of(matches, "LIST")?;
    Some(BatchArgs {
        domains,
        rows,
        list,
    })
}
