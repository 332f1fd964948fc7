//! Reads the inputs of an auction from three files, and the owners' answers of a live auction from a fourth.
//!
//! `run`, `check`, `resume` and `shown` call `read_inputs`. It reads the three files through `sources`, and the fourth itself.

ghost use Rattle.std.specs.Prelude.{◌≡◌, List, Some, IfOk, option_map};
ghost use Rattle.outside_io.specs.Files.{StoredFile};
ghost use Rattle.pack_defs.specs.Book.{stations_of};
ghost use Rattle.pack_defs.specs.Scenario.{IsWithinLimits, facilities};
ghost use Rattle.outside_io.specs.declared.diary.CallEnd.TheVariants.{Done};
ghost use Rattle.commands.specs.Calls.{CallsAll, CallsOne, input_calls, loaded_as, owner_calls, source_calls, stopped_by};
ghost use Rattle.commands.specs.Inputs.{Agrees, CountsFault, inputs_of, owners_in, valued_of, with_owners_file};
ghost use Rattle.command_words.specs.Words.{InputNames, inputs_view};

pub(crate) mod batch_inputs;
pub(crate) mod constraints;
pub mod input_file;
pub(crate) mod sources;

use crate::inputs::input_file::{Stop, load};
use crate::inputs::sources::{book_of, read_sources};
use crate::messages::refusal::Refusal;
use command_words::run_words::{Input, InputArgs};
use offer_sched::offers::last_round;
use outside_io::folder::Folder;
use owner_line::error::OwnerErr;
use owner_line::read::read_owners;
use pack_defs::book::Book;
use pack_defs::owners::Owners;
use pack_defs::scenario::Scenario;
use std::alloc::{AllocError, Global};

/// The inputs of an auction.
#[derive(Drop)]
pub struct Inputs {
    /// The scenario. In a live auction it has the owners' answers.
    pub scenario: Scenario,
    pub book: Book,
    /// How many fields of the rows file pair a station with itself.
    pub self_pairs: u64,
    /// How many other fields of the rows file make a pair with a station that has no domain row.
    pub strangers: u64,
}

// Returns what the domains, the rows and the scenario hold, read in this order, with the book that they make.
fn read_valued<F: Folder>(
    alloc: Global,
    folder: &mut F,
    names: &InputArgs<'_>,
) -> Result<Inputs, Stop>
    ensures modelled { (files : List StoredFile) → (F.modelled folder.old).files ≡ Some files →
        Agrees (λ i. i) (F.modelled folder.old).steady (valued_of files (inputs_view names.now)) result }
    ensures limits { IfOk result (λ i. IsWithinLimits i.scenario) }
    ensures stations { IfOk result (λ i. stations_of i.book ≡ facilities i.scenario) }
    ensures files { (F.modelled folder.new).files ≡ (F.modelled folder.old).files }
    ensures steady { (F.modelled folder.new).steady ≡ (F.modelled folder.old).steady }
    ensures counted { CountsFault (F.modelled folder.old).faults (F.modelled folder.new).faults result }
    ensures called { CallsAll (inputs_view names.now) (source_calls (inputs_view names.now)) (F.modelled folder.old).calls (F.modelled folder.new).calls (stopped_by result) }
{
    let sources = read_sources(alloc, folder, names)?;
    let book = book_of(alloc, &sources)?;
    Ok(Inputs {
        scenario: sources.scenario,
        book,
        self_pairs: sources.pairs.self_pairs(),
        strangers: sources.pairs.strangers(),
    })
}

// Returns the facility numbers of the scenario's stations, in order.
fn ids_of(alloc: Global, scenario: &Scenario) -> Result<Vec<u32>, AllocError>
    ensures { IfOk result (λ v. v.items ≡ facilities scenario.now) }
{
    let stations = scenario.stations.as_slice();
    stations.iter().map(|station| station.id).collect(alloc)
}

// Returns the owners' answers for the stations of this scenario, from the owners' file of this name.
fn owners_from<F: Folder>(
    alloc: Global,
    folder: &mut F,
    name: &str,
    scenario: &Scenario,
) -> Result<Owners, Stop>
    requires { IsWithinLimits scenario.now }
    ensures modelled { (files : List StoredFile) → (F.modelled folder.old).files ≡ Some files →
        Agrees (λ lines. lines) (F.modelled folder.old).steady (owners_in files name.now scenario.now) result }
    ensures files { (F.modelled folder.new).files ≡ (F.modelled folder.old).files }
    ensures steady { (F.modelled folder.new).steady ≡ (F.modelled folder.old).steady }
    ensures counted { CountsFault (F.modelled folder.old).faults (F.modelled folder.new).faults result }
    ensures called { CallsOne (loaded_as Done name.now) Input.Owners (F.modelled folder.old).calls (F.modelled folder.new).calls (stopped_by result) }
{
    let ids = ids_of(alloc, scenario)?;
    let falls = last_round(scenario) - 1;
    let bytes = load(alloc, folder, name, Input::Owners)?;
    match read_owners(alloc, &bytes, falls, &ids) {
        Ok(owners) => Ok(owners),
        Err(OwnerErr::Row { line, why }) => Err(Stop::Refused(Refusal::Owners { line, why })),
        Err(OwnerErr::NoMemory) => Err(Stop::NoMemory),
    }
}

// Returns these inputs, with the owners' answers if an owners' file is named.
fn with_owners_file<F: Folder>(
    alloc: Global,
    folder: &mut F,
    name: Option<&str>,
    inputs: Inputs,
) -> Result<Inputs, Stop>
    requires { IsWithinLimits inputs.scenario }
    ensures modelled { (files : List StoredFile) → (F.modelled folder.old).files ≡ Some files →
        Agrees (λ i. i) (F.modelled folder.old).steady (with_owners_file files (option_map (λ n. n.now) name.entry) inputs) result }
    ensures limits { IfOk result (λ i. IsWithinLimits i.scenario) }
    ensures stations { IfOk result (λ i. (i.book ≡ inputs.book) × (facilities i.scenario ≡ facilities inputs.scenario)) }
    ensures files { (F.modelled folder.new).files ≡ (F.modelled folder.old).files }
    ensures steady { (F.modelled folder.new).steady ≡ (F.modelled folder.old).steady }
    ensures counted { CountsFault (F.modelled folder.old).faults (F.modelled folder.new).faults result }
    ensures called { (names : InputNames) → names.owners ≡ option_map (λ n. n.now) name.entry →
        CallsAll names (owner_calls names.owners) (F.modelled folder.old).calls (F.modelled folder.new).calls (stopped_by result) }
{
    let Some(name) = name else {
        return Ok(inputs);
    };
    let owners = owners_from(alloc, folder, name, &inputs.scenario)?;
    let mut live = inputs;
    live.scenario.owners = Some(owners);
    Ok(live)
}

/// Returns the inputs that these files of the folder hold.
///
/// The domains, the rows and the scenario are read in this order, and the book is made of them. If an owners' file is named, the
/// owners' answers are then read from it.
///
/// # Errors
///
/// `CannotRead` or `Refused` for the first of these files that cannot be read, is too long or is rejected. `Refused` also, before
/// the owners' file is read, for the least station that has no domain row. `NoMemory` if memory runs out. No file is changed.
#[tactic(auto, unfolding(crate::specs::Inputs::inputs_of))]
pub fn read_inputs<F: Folder>(
    alloc: Global,
    folder: &mut F,
    names: &InputArgs<'_>,
) -> Result<Inputs, Stop>
    // The result is what the files hold.
    ensures modelled { (files : List StoredFile) → (F.modelled folder.old).files ≡ Some files →
        Agrees (λ i. i) (F.modelled folder.old).steady (inputs_of files (inputs_view names.now)) result }
    ensures limits { IfOk result (λ i. IsWithinLimits i.scenario) }
    ensures stations { IfOk result (λ i. stations_of i.book ≡ facilities i.scenario) }
    ensures files { (F.modelled folder.new).files ≡ (F.modelled folder.old).files }
    ensures steady { (F.modelled folder.new).steady ≡ (F.modelled folder.old).steady }
    ensures counted { CountsFault (F.modelled folder.old).faults (F.modelled folder.new).faults result }
    ensures called { CallsAll (inputs_view names.now) (input_calls (inputs_view names.now)) (F.modelled folder.old).calls (F.modelled folder.new).calls (stopped_by result) }
{
    let inputs = read_valued(alloc, folder, names)?;
    with_owners_file(alloc, folder, names.owners, inputs)
}
