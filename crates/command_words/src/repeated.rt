//! Which name of a file to store is given again on the command line. `auction_cmd` asks before a command is carried out.

ghost use Rattle.std.specs.Prelude.{◌≡◌, ◌++◌, count_by, find, map, option_map};
ghost use Rattle.std.specs.Str.{bytes_eq};
ghost use Rattle.command_words.specs.Words.{command_view, export_view, first_repeated, import_view, is_repeated_among, make_view, repeated_by, resume_view, run_names_view, seek_view, show_view};
ghost use Rattle.command_words.specs.Words.{export, import, make, resume, run, seek, show};

use crate::make_words::MakeArgs;
use crate::proof_words::{ExportArgs, ImportArgs};
use crate::resume_words::ResumeArgs;
use crate::run_words::{Input, RunArgs};
use crate::seek_words::SeekArgs;
use crate::show_words::ShowArgs;
use crate::words::CommandArgs;

impl<'a> CommandArgs<'a> {
    /// Returns the first name of a file to store, in the order of the arguments, that equals another given name. Names are compared
    /// byte by byte, so `a` and `./a` differ. Two names of files to read may be equal.
    #[tactic(auto, unfolding(crate::specs::Words::first_repeated))]
    pub fn given_twice(&self) -> Option<&'a str>
        ensures { option_map (λ name. name.now) result ≡ repeated_by (command_view self.now) }
    {
        match self {
            CommandArgs::Run(files) => repeated_in_run(files),
            CommandArgs::Show(files) => repeated_in_show(files),
            CommandArgs::Resume(files) => repeated_in_resume(files),
            CommandArgs::Seek(files) => repeated_in_seek(files),
            CommandArgs::Make(files) => repeated_in_make(files),
            CommandArgs::Export(files) => repeated_in_export(files),
            CommandArgs::Import(files) => repeated_in_import(files),
            CommandArgs::Check(_) | CommandArgs::Verify(_) | CommandArgs::Batch(_) => None,
        }
    }
}

fn repeated_in_run<'a>(files: &RunArgs<'a>) -> Option<&'a str>
    ensures { option_map (λ name. name.now) result ≡ repeated_by (run (run_names_view files.now)) }
{
    let read = files.inputs;
    first_repeated(
        &[files.result, files.channels, files.transcript],
        &[
            read.domains,
            read.rows,
            read.scenario,
            read.of(Input::Owners),
        ],
    )
}

fn repeated_in_show<'a>(files: &ShowArgs<'a>) -> Option<&'a str>
    ensures { option_map (λ name. name.now) result ≡ repeated_by (show (show_view files.now)) }
{
    let read = files.shown.inputs;
    first_repeated(
        &[files.result, files.channels],
        &[
            files.shown.transcript,
            read.domains,
            read.rows,
            read.scenario,
            read.of(Input::Owners),
        ],
    )
}

fn repeated_in_resume<'a>(files: &ResumeArgs<'a>) -> Option<&'a str>
    ensures { option_map (λ name. name.now) result ≡ repeated_by (resume (resume_view files.now)) }
{
    let stored = files.run_files;
    let read = stored.inputs;
    first_repeated(
        &[stored.result, stored.channels, stored.transcript],
        &[
            files.prefix,
            read.domains,
            read.rows,
            read.scenario,
            read.of(Input::Owners),
        ],
    )
}

fn repeated_in_seek<'a>(files: &SeekArgs<'a>) -> Option<&'a str>
    ensures { option_map (λ name. name.now) result ≡ repeated_by (seek (seek_view files.now)) }
{
    first_repeated(
        &[files.channels],
        &[files.domains, files.rows, files.scenario],
    )
}

fn repeated_in_make<'a>(files: &MakeArgs<'a>) -> Option<&'a str>
    ensures { option_map (λ name. name.now) result ≡ repeated_by (make (make_view files.now)) }
{
    let stored = files.outputs;
    first_repeated(&[stored.domains, stored.rows, stored.scenario], &[])
}

fn repeated_in_export<'a>(files: &ExportArgs<'a>) -> Option<&'a str>
    ensures { option_map (λ name. name.now) result ≡ repeated_by (export (export_view files.now)) }
{
    let read = files.shown.inputs;
    first_repeated(
        &[files.formula],
        &[
            files.shown.transcript,
            read.domains,
            read.rows,
            read.scenario,
            read.of(Input::Owners),
        ],
    )
}

fn repeated_in_import<'a>(files: &ImportArgs<'a>) -> Option<&'a str>
    ensures { option_map (λ name. name.now) result ≡ repeated_by (import (import_view files.now)) }
{
    let read = files.shown.inputs;
    first_repeated(
        &[files.result, files.transcript],
        &[
            files.proof,
            files.shown.transcript,
            read.domains,
            read.rows,
            read.scenario,
            read.of(Input::Owners),
        ],
    )
}

// Returns the first of these names to store that is given again, to store or to read.
#[tactic(auto, unfolding(crate::specs::Words::first_repeated))]
fn first_repeated<'a>(stored: &[&'a str], read: &[&'a str]) -> Option<&'a str>
    ensures { option_map (λ name. name.now) result ≡ first_repeated (map (λ n. n.now) stored.now) (map (λ n. n.now) read.now) }
{
    first_of(stored, stored, read)
}

// Returns the first of these names that is more than once among those to store and to read.
fn first_of<'a>(names: &[&'a str], stored: &[&'a str], read: &[&'a str]) -> Option<&'a str>
    ensures { option_map (λ name. name.now) result
        ≡ find (is_repeated_among (map (λ n. n.now) stored.now ++ map (λ n. n.now) read.now)) (map (λ n. n.now) names.now) }
{
    let (name, rest) = names.split_first()?;
    if times_in(stored, name) + times_in(read, name) > 1 {
        return Some(name);
    }
    first_of(rest, stored, read)
}

// Returns how many of these names equal this one.
fn times_in(names: &[&str], name: &str) -> usize
    ensures { result ≡ count_by (bytes_eq name.now) (map (λ n. n.now) names.now) }
{
    names.iter().filter(|other| name == **other).count()
}
