//! Why an input is rejected, and the message that says so.
//!
//! The modules that read inputs return a `Refusal`, and `explain` prints it.

ghost use Rattle.std.specs.Prelude.{◌≡◌, ◌≤◌, ◌++◌, codes, decimal};
ghost use Rattle.commands.specs.Outside.{IsLinePrintedTo};
ghost use Rattle.commands.specs.Refusal.{input_of, refusal_line, owner_text, place_text, refusal_text, row_text, scenario_text};
ghost use Rattle.command_words.specs.Words.{inputs_view};

use crate::messages::print_line;
use command_words::run_words::{Input, InputArgs};
use constraint_files::error::RowWhy;
use itoa::Buffer;
use outside_io::sink::Sink;
use owner_line::error::OwnerWhy;
use scenario_json::error::ScenarioErr;

/// Why the inputs are rejected.
#[derive(Clone, Copy, Debug, PartialEq, Eq)]
pub enum Refusal {
    /// This file is longer than the limit.
    TooLong(Input),
    /// A record of a constraint file is rejected. It is in this line; the first line is 1.
    Row {
        input: Input,
        line: u64,
        why: RowWhy,
    },
    /// The scenario is rejected.
    Scenario(ScenarioErr),
    /// This is the least station of the scenario that has no row in the domains file.
    MissingDomain(u32),
    /// A record of the owners' file is rejected. It is in this line; the first line is 1.
    Owners {
        line: u64,
        why: OwnerWhy,
    },
    /// A record of a batch's list is rejected. It is in this line; the first line is 1.
    BadLine {
        line: u64,
    },
    /// A batch's list has no record.
    EmptyList,
}

impl Refusal {
    /// Returns the file that is rejected.
    pub fn input(&self) -> Input
        ensures { result ≡ input_of self.now }
    {
        match self {
            Refusal::TooLong(input) => *input,
            Refusal::Row { input, .. } => *input,
            Refusal::Scenario(_) => Input::Scenario,
            Refusal::MissingDomain(_) => Input::Domains,
            Refusal::Owners { .. } => Input::Owners,
            Refusal::BadLine { .. } | Refusal::EmptyList => Input::List,
        }
    }
}

// Returns the words for a rejected record of a constraint file.
#[tactic(auto, unfolding(crate::specs::Refusal::row_text))]
fn row_text(why: RowWhy) -> &'static str
    ensures { result.now ≡ row_text why }
{
    match why {
        RowWhy::ShortRow => "short row",
        RowWhy::BadKey => "unknown key",
        RowWhy::BadNumber => "bad number",
        RowWhy::ChannelRange => "channel out of range",
        RowWhy::BadOffset => "channels do not fit the key",
        RowWhy::SecondDomain => "second domain row",
        RowWhy::TooMany => "too many",
    }
}

// Returns the words for a rejected record of the owners' file.
#[tactic(auto, unfolding(crate::specs::Refusal::owner_text))]
fn owner_text(why: OwnerWhy) -> &'static str
    ensures { result.now ≡ owner_text why }
{
    match why {
        OwnerWhy::Fields => "not three fields",
        OwnerWhy::BadNumber => "bad number",
        OwnerWhy::RoundRange => "round out of range",
        OwnerWhy::UnknownStation => "unknown station",
        OwnerWhy::BadWord => "bad word",
        OwnerWhy::Repeated => "repeated",
    }
}

// Prints what is wrong with a member of the scenario in the file of this name. If `at` is not 0, it is the member's place in its
// list and is printed too.
fn print_member<'p, K: Sink>(out: &mut K, file: &'p str, what: &'p str, member: &'p str, at: u64)
    ensures says { IsLinePrintedTo (K.modelled out.old) (K.modelled out.new) (file.now ++ (what.now ++ (member.now ++ place_text at))) }
    ensures counted { (K.modelled out.old).faults ≤ (K.modelled out.new).faults }
{
    if at == 0 {
        print_line(out, &[file, what, member, "\n"]);
        return;
    }
    let mut place = Buffer::new();
    print_line(out, &[file, what, member, " at ", place.format(at), "\n"]);
}

// Prints why the record in this line of the file of this name is rejected.
fn print_row<'p, K: Sink>(out: &mut K, file: &'p str, line: u64, why: &'p str)
    ensures says { IsLinePrintedTo (K.modelled out.old) (K.modelled out.new)
        (file.now ++ codes ": line " ++ decimal line ++ codes ": " ++ why.now ++ codes "\n") }
    ensures counted { (K.modelled out.old).faults ≤ (K.modelled out.new).faults }
{
    let mut number = Buffer::new();
    print_line(
        out,
        &[file, ": line ", number.format(line), ": ", why, "\n"],
    );
}

// Prints why the scenario in the file of this name is rejected.
#[tactic(auto, unfolding(crate::specs::Refusal::scenario_text))]
fn print_scenario<K: Sink>(out: &mut K, file: &str, error: ScenarioErr)
    ensures says { IsLinePrintedTo (K.modelled out.old) (K.modelled out.new) (file.now ++ scenario_text error) }
    ensures counted { (K.modelled out.old).faults ≤ (K.modelled out.new).faults }
{
    match error {
        ScenarioErr::Syntax => print_line(out, &[file, ": not JSON\n"]),
        ScenarioErr::MissingField { name, at } => print_member(
            out,
            file,
            ": missing ",
            name.text(),
            at,
        ),
        ScenarioErr::WrongKind { name, at } => print_member(
            out,
            file,
            ": wrong kind ",
            name.text(),
            at,
        ),
        ScenarioErr::OutOfLimit { name, at } => print_member(
            out,
            file,
            ": out of limit ",
            name.text(),
            at,
        ),
        ScenarioErr::RepeatedStation(id) => {
            let mut number = Buffer::new();
            print_line(out, &[file, ": repeated station ", number.format(id), "\n"]);
        }
        ScenarioErr::SumOverOpening => print_line(
            out,
            &[file, ": decrements exceed the opening\n"],
        ),
        ScenarioErr::NoProver => print_line(out, &[file, ": no cdcl worker\n"]),
        ScenarioErr::NoMemory => print_line(out, &[file, ": out of memory\n"]),
    }
}

// Prints why the file of this name is rejected.
#[tactic(auto, unfolding(crate::specs::Refusal::refusal_text))]
fn print_refusal<K: Sink>(out: &mut K, file: &str, refusal: Refusal)
    ensures says { IsLinePrintedTo (K.modelled out.old) (K.modelled out.new) (file.now ++ refusal_text refusal) }
    ensures counted { (K.modelled out.old).faults ≤ (K.modelled out.new).faults }
{
    match refusal {
        Refusal::TooLong(_) => print_line(out, &[file, ": too long\n"]),
        Refusal::Row { line, why, .. } => print_row(out, file, line, row_text(why)),
        Refusal::Owners { line, why } => print_row(out, file, line, owner_text(why)),
        Refusal::BadLine { line } => print_row(out, file, line, "bad list"),
        Refusal::EmptyList => print_line(out, &[file, ": empty list\n"]),
        Refusal::Scenario(error) => print_scenario(out, file, error),
        Refusal::MissingDomain(id) => {
            let mut number = Buffer::new();
            print_line(
                out,
                &[
                    file,
                    ": no domain row for station ",
                    number.format(id),
                    "\n",
                ],
            );
        }
    }
}

/// Prints which of these files is rejected, and why. Allocates no memory.
pub fn print_refused_input<K: Sink>(out: &mut K, files: &InputArgs<'_>, refusal: Refusal)
    ensures says { IsLinePrintedTo (K.modelled out.old) (K.modelled out.new) (refusal_line (inputs_view files.now) refusal) }
    ensures counted { (K.modelled out.old).faults ≤ (K.modelled out.new).faults }
{
    print_refusal(out, files.of(refusal.input()), refusal);
}
