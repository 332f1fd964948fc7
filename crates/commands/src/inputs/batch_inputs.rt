//! Reads the inputs of a batch: the constraint files once, the list, and for each line its scenario and book.
//!
//! Only `batch` calls it. `constraints` and `inputs` read the constraint files and the scenarios, as for `run`.

ghost use Rattle.std.specs.Prelude.{◌≡◌, ◌≤◌, All, IfErr, IfOk, List, None, Ok, OnOk, Some, length};
ghost use Rattle.outside_io.specs.Files.{StoredFile};
ghost use Rattle.batch_list.specs.ListOf.{list_limit};
ghost use Rattle.pack_defs.specs.Book.{stations_of};
ghost use Rattle.pack_defs.specs.Scenario.{IsWithinLimits, facilities};
ghost use Rattle.auction_core.specs.Setup.{IsOfAuction};
ghost use Rattle.commands.specs.Batch.{constraints_of, each_inputs, inputs_with_constraints, list_named, listing_of, listed_seen};
ghost use Rattle.commands.specs.BatchEnds.{IsReadingStopped, IsUnderOneOf};
ghost use Rattle.commands.specs.Ends.{ExplainsHalt};
ghost use Rattle.commands.specs.Inputs.{Agrees, CountsFault};
ghost use Rattle.commands.specs.Outside.{outside};
ghost use Rattle.command_words.specs.Words.{batch_view, inputs_view};

use crate::inputs::Inputs;
use crate::inputs::constraints::{domains_from, pairs_from};
use crate::inputs::input_file::{Stop, load};
use crate::inputs::sources::scenario_from;
use crate::messages::explain::explain;
use crate::messages::refusal::Refusal;
use batch_list::error::ListErr;
use batch_list::line::BatchLine;
use batch_list::read::read_list;
use command_words::batch_words::BatchArgs;
use command_words::run_words::{Input, InputArgs};
use constraint_files::domains::Domains;
use constraint_files::pairs::Pairs;
use outside_io::folder::Folder;
use outside_io::sink::Sink;
use scenario_json::join::{JoinErr, join};
use std::alloc::Global;

/// What the constraint files hold, before a scenario cuts it to a book.
#[derive(Drop)]
pub struct Constraints {
    pub domains: Domains,
    pub pairs: Pairs,
}

/// What the constraint files hold, and the lines of a batch's list.
#[derive(Drop)]
pub struct Listed {
    pub constraints: Constraints,
    pub lines: Vec<BatchLine>,
}

// Returns what the domains file and the rows file hold, read in this order.
#[tactic(auto, unfolding(crate::specs::Batch::constraints_of))]
fn read_constraints<F: Folder>(
    alloc: Global,
    folder: &mut F,
    names: &InputArgs<'_>,
) -> Result<Constraints, Stop>
    ensures modelled { (files : List StoredFile) → (F.modelled folder.old).files ≡ Some files →
        Agrees (λ c. c) (F.modelled folder.old).steady (constraints_of files (inputs_view names.now)) result }
    ensures files { (F.modelled folder.new).files ≡ (F.modelled folder.old).files }
    ensures steady { (F.modelled folder.new).steady ≡ (F.modelled folder.old).steady }
    ensures counted { CountsFault (F.modelled folder.old).faults (F.modelled folder.new).faults result }
{
    let domains = domains_from(alloc, folder, names.domains)?;
    let pairs = pairs_from(alloc, folder, names.rows, &domains)?;
    Ok(Constraints { domains, pairs })
}

// Returns the lines of the list of this name.
fn list_from<F: Folder>(alloc: Global, folder: &mut F, name: &str) -> Result<Vec<BatchLine>, Stop>
    ensures modelled { (files : List StoredFile) → (F.modelled folder.old).files ≡ Some files →
        Agrees (λ v. v.items) (F.modelled folder.old).steady (list_named files name.now) result }
    ensures few { IfOk result (λ v. length v.items ≤ list_limit) }
    ensures files { (F.modelled folder.new).files ≡ (F.modelled folder.old).files }
    ensures steady { (F.modelled folder.new).steady ≡ (F.modelled folder.old).steady }
    ensures counted { CountsFault (F.modelled folder.old).faults (F.modelled folder.new).faults result }
{
    let bytes = load(alloc, folder, name, Input::List)?;
    match read_list(alloc, &bytes) {
        Ok(lines) => Ok(lines),
        Err(ListErr::BadLine { line }) => Err(Stop::Refused(Refusal::BadLine { line })),
        Err(ListErr::Empty) => Err(Stop::Refused(Refusal::EmptyList)),
        Err(ListErr::NoMemory) => Err(Stop::NoMemory),
    }
}

/// Returns what the constraint files and the list hold, read in this order. The list's name is in the place of a scenario's: it
/// is `names.scenario`.
///
/// # Errors
///
/// `CannotRead` or `Refused` for the first of these files that cannot be read, is too long or is rejected. `NoMemory` if memory
/// runs out. No file is changed.
#[tactic(auto, unfolding(crate::specs::Batch::listing_of))]
pub fn read_listed<F: Folder>(
    alloc: Global,
    folder: &mut F,
    names: &InputArgs<'_>,
) -> Result<Listed, Stop>
    ensures modelled { (files : List StoredFile) → (F.modelled folder.old).files ≡ Some files →
        Agrees listed_seen (F.modelled folder.old).steady (listing_of files (inputs_view names.now)) result }
    ensures few { IfOk result (λ l. length l.lines.items ≤ list_limit) }
    ensures files { (F.modelled folder.new).files ≡ (F.modelled folder.old).files }
    ensures steady { (F.modelled folder.new).steady ≡ (F.modelled folder.old).steady }
    ensures counted { CountsFault (F.modelled folder.old).faults (F.modelled folder.new).faults result }
{
    let constraints = read_constraints(alloc, folder, names)?;
    let lines = list_from(alloc, folder, names.scenario)?;
    Ok(Listed { constraints, lines })
}

// Returns the inputs of the scenario of this name, with the book that it makes with these constraint files.
#[tactic(auto, unfolding(crate::specs::Batch::inputs_with_constraints))]
fn inputs_with_constraints<F: Folder>(
    alloc: Global,
    folder: &mut F,
    constraints: &Constraints,
    name: &str,
) -> Result<Inputs, Stop>
    ensures modelled { (files : List StoredFile) → (F.modelled folder.old).files ≡ Some files →
        Agrees (λ i. i) (F.modelled folder.old).steady (inputs_with_constraints files constraints.now name.now) result }
    ensures limits { IfOk result (λ i. IsWithinLimits i.scenario) }
    ensures stations { IfOk result (λ i. stations_of i.book ≡ facilities i.scenario) }
    ensures files { (F.modelled folder.new).files ≡ (F.modelled folder.old).files }
    ensures steady { (F.modelled folder.new).steady ≡ (F.modelled folder.old).steady }
    ensures counted { CountsFault (F.modelled folder.old).faults (F.modelled folder.new).faults result }
{
    let scenario = scenario_from(alloc, folder, name)?;
    match join(alloc, &scenario, &constraints.domains, &constraints.pairs) {
        Ok(book) => Ok(Inputs {
            scenario,
            book,
            self_pairs: constraints.pairs.self_pairs(),
            strangers: constraints.pairs.strangers(),
        }),
        Err(JoinErr::MissingDomain(station)) => Err(Stop::Refused(Refusal::MissingDomain(station))),
        Err(JoinErr::NoMemory) => Err(Stop::NoMemory),
    }
}

// Prints why the reading of this scenario stopped, and returns the status for it. If a station has no domain row, the message
// names the domains file.
fn explain_batch_stop<'p, K: Sink>(
    out: &mut K,
    domains: &'p str,
    rows: &'p str,
    scenario: &'p str,
    stop: Stop,
) -> u8
    ensures explains { ExplainsHalt (record { domains = domains.now; rows = rows.now; scenario = scenario.now; owners = None }) stop
        (K.modelled out.old).held (K.modelled out.new).held (K.modelled out.old).faults (K.modelled out.new).faults result }
    ensures counted { (K.modelled out.old).faults ≤ (K.modelled out.new).faults }
{
    let names = InputArgs {
        domains,
        rows,
        scenario,
        owners: None,
    };
    explain(out, &names, stop)
}

/// The lines of a batch's list, and the inputs of each line's scenario.
#[derive(Drop)]
pub struct ReadBatch {
    pub lines: Vec<BatchLine>,
    pub inputs: Vec<Inputs>,
}

/// Returns these lines with the inputs of their scenarios, which are read one after another. What the constraint files held is
/// dropped.
///
/// # Errors
///
/// The exit status of the first scenario that cannot be used: it cannot be read, is too long or is rejected, or a station of it
/// has no domain row. Also `NO_MEMORY`, if memory runs out. A line on the sink says why. No file is changed.
pub fn read_each<F: Folder, K: Sink>(
    alloc: Global,
    folder: &mut F,
    out: &mut K,
    files: &BatchArgs<'_>,
    listed: Listed,
) -> Result<ReadBatch, u8>
    ensures modelled { IfOk result (λ b. (held : List StoredFile) → (F.modelled folder.old).files ≡ Some held →
        each_inputs held (batch_view files.now) listed.constraints listed.lines.items ≡ Ok b.inputs.items) }
    ensures lines { IfOk result (λ b. b.lines ≡ listed.lines) }
    ensures many { IfOk result (λ b. length b.inputs.items ≡ length listed.lines.items) }
    ensures auctions { IfOk result (λ b. All (λ i. IsOfAuction i.scenario i.book) b.inputs.items) }
    ensures same { OnOk result (outside (F.modelled folder.new) (K.modelled out.new) ≡ outside (F.modelled folder.old) (K.modelled out.old)) }
    ensures stopped { IfErr result (IsReadingStopped (λ held. each_inputs held (batch_view files.now) listed.constraints listed.lines.items) (IsUnderOneOf (batch_view files.now) listed.lines.items)
        (outside (F.modelled folder.old) (K.modelled out.old)) (outside (F.modelled folder.new) (K.modelled out.new))) }
{
    let Ok(mut inputs) = Vec::with_capacity(alloc, listed.lines.len()) else {
        return Err(explain(out, &files.inputs_with(files.list), Stop::NoMemory));
    };
    for line in &listed.lines {
        match inputs_with_constraints(alloc, folder, &listed.constraints, line.scenario()) {
            Ok(read) => inputs.push_reserved(read),
            Err(stop) => {
                return Err(explain_batch_stop(
                    out,
                    files.domains,
                    files.rows,
                    line.scenario(),
                    stop,
                ));
            }
        }
    }
    let Listed {
        constraints: _,
        lines,
    } = listed;
    Ok(ReadBatch { lines, inputs })
}
