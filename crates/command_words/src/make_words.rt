//! The arguments of `make`: a seed, a size, and the names of the files to store.

ghost use Rattle.std.specs.Prelude.{◌≡◌, IfOk, false, option_map};
ghost use Rattle.clap.specs.Words.{app_of, found_of, rows_of, rule_of};
ghost use Rattle.clap.specs.declared.builder.command.Command.TheViews.{out-Command};
ghost use Rattle.command_words.specs.Words.{make_app, make_names, make_view, number_rule, number_within, numbers_app, seed_limit};

use crate::file_args::{FileArg, required, with_files};
use crate::run_words::{InputArgs, input_args, value_of};
use clap::builder::ValueParser;
use clap::{Arg, ArgMatches, Command};
use scenario_make::limits::MOST_GENERATED;
use std::alloc::{AllocError, Global};

/// The arguments of `make`, as given on the command line.
#[derive(Clone, Copy, Debug, PartialEq, Eq)]
pub struct MakeArgs<'a> {
    /// The seed from which the auction is generated.
    pub seed: u64,
    /// The number of its stations, 1 to 4,096.
    pub size: u32,
    /// The files to store: the domains, the rows and the scenario.
    pub outputs: InputArgs<'a>,
}

// Returns a required argument that is a number from `least` to `most`, with its line of help.
pub(crate) fn number<'a>(
    alloc: Global,
    name: &'a str,
    least: u64,
    most: u64,
    help: &'a str,
) -> Arg<'a>
    ensures rule { rule_of result ≡ number_rule name.entry.now least most }
    ensures local { result.global ≡ false }
{
    required(alloc, name, help).value_parser(ValueParser::unsigned(least, most))
}

// Returns the command with its two numbers.
fn numbers_command<'a>(alloc: Global) -> Result<Command<'a>, AllocError>
    ensures app { IfOk result (λ c. app_of c ≡ numbers_app) }
    ensures local { IfOk result (λ c. (out-Command c).has_globals ≡ false) }
{
    Command::new(alloc, "make")
        .about("Makes an auction from a number, stores its files and runs it")
        .arg(number(
            alloc,
            "SEED",
            0,
            u64::MAX,
            "The number to make it from: the same one makes the same files",
        ))?
        .arg(number(
            alloc,
            "SIZE",
            1,
            u64::from(MOST_GENERATED),
            "How many stations it has, 1 to 4096",
        ))
}

pub(crate) fn make_command<'a>(alloc: Global) -> Result<Command<'a>, AllocError>
    ensures app { IfOk result (λ c. app_of c ≡ make_app) }
    ensures local { IfOk result (λ c. (out-Command c).has_globals ≡ false) }
{
    let domains = FileArg {
        id: "DOMAINS",
        help: "Where to store the channels of each station",
    };
    let rows = FileArg {
        id: "ROWS",
        help: "Where to store what interferes",
    };
    let scenario = FileArg {
        id: "SCENARIO",
        help: "Where to store the auction's scenario",
    };
    with_files(alloc, numbers_command(alloc)?, &[domains, rows, scenario])
}

// Parses a seed.
fn seed_in(text: &str) -> Option<u64>
    ensures { result ≡ number_within 0 seed_limit text.now }
{
    match text.parse::<u64>() {
        Ok(seed) => Some(seed),
        Err(_) => None,
    }
}

// Parses a number from 1 to `most`.
pub(crate) fn count_in(text: &str, most: u32) -> Option<u32>
    ensures { result ≡ number_within 1 most text.now }
{
    let Ok(count) = text.parse::<u32>() else {
        return None;
    };
    if count < 1 {
        return None;
    }
    if count > most {
        return None;
    }
    Some(count)
}

pub(crate) fn make_args<'a>(matches: &ArgMatches<'a>) -> Option<MakeArgs<'a>>
    ensures { option_map make_view result ≡ make_names (rows_of (found_of matches.now)) }
{
    let seed = seed_in(value_of(matches, "SEED")?)?;
    let size = count_in(value_of(matches, "SIZE")?, MOST_GENERATED)?;
    let outputs = input_args(matches)?;
    Some(MakeArgs {
        seed,
        size,
        outputs,
    })
}
