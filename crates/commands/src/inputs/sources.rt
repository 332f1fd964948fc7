//! Reads the three input files, before a scenario's top channel cuts what they hold to a book.
//!
//! `inputs` and `seek` read them with it. `inputs` makes one book of them, and `top_channel_runs` one for each top channel that it tests.

ghost use Rattle.std.specs.Prelude.{◌≡◌, List, Some, IfOk};
ghost use Rattle.outside_io.specs.Files.{StoredFile};
ghost use Rattle.pack_defs.specs.Book.{stations_of};
ghost use Rattle.pack_defs.specs.Scenario.{IsWithinLimits, facilities};
ghost use Rattle.scenario_json.specs.ScenarioOf.{scenario_of};
ghost use Rattle.outside_io.specs.declared.diary.CallEnd.TheVariants.{Done};
ghost use Rattle.commands.specs.Calls.{CallsAll, CallsOne, loaded_as, source_calls, stopped_by};
ghost use Rattle.commands.specs.Inputs.{Agrees, CountsFault, IsBookOf, and_then, file_of, scenario_read, sources_of};
ghost use Rattle.command_words.specs.Words.{inputs_view};

use crate::inputs::constraints::{domains_from, pairs_from};
use crate::inputs::input_file::{Stop, load};
use crate::messages::refusal::Refusal;
use command_words::run_words::{Input, InputArgs};
use constraint_files::domains::Domains;
use constraint_files::pairs::Pairs;
use outside_io::folder::Folder;
use pack_defs::book::Book;
use pack_defs::scenario::Scenario;
use scenario_json::error::ScenarioErr;
use scenario_json::join::{JoinErr, join};
use scenario_json::scenario::read_scenario;
use std::alloc::Global;

/// What the three input files hold.
#[derive(Drop)]
pub struct Sources {
    pub domains: Domains,
    pub pairs: Pairs,
    pub scenario: Scenario,
}

// Returns the scenario that the file of this name holds.
pub(crate) fn scenario_from<F: Folder>(
    alloc: Global,
    folder: &mut F,
    name: &str,
) -> Result<Scenario, Stop>
    ensures modelled { (files : List StoredFile) → (F.modelled folder.old).files ≡ Some files → Agrees (λ sc. sc) (F.modelled folder.old).steady
        (and_then (file_of files name.now Input.Scenario) (λ bytes. scenario_read (scenario_of bytes))) result }
    ensures limits { IfOk result IsWithinLimits }
    ensures files { (F.modelled folder.new).files ≡ (F.modelled folder.old).files }
    ensures steady { (F.modelled folder.new).steady ≡ (F.modelled folder.old).steady }
    ensures counted { CountsFault (F.modelled folder.old).faults (F.modelled folder.new).faults result }
    ensures called { CallsOne (loaded_as Done name.now) Input.Scenario (F.modelled folder.old).calls (F.modelled folder.new).calls (stopped_by result) }
{
    let bytes = load(alloc, folder, name, Input::Scenario)?;
    match read_scenario(alloc, &bytes) {
        Ok(scenario) => Ok(scenario),
        Err(ScenarioErr::NoMemory) => Err(Stop::NoMemory),
        Err(why) => Err(Stop::Refused(Refusal::Scenario(why))),
    }
}

/// Returns what the domains, the rows and the scenario hold, read in this order.
///
/// # Errors
///
/// `CannotRead` or `Refused` for the first of these files that cannot be read, is too long or is rejected. `NoMemory` if memory
/// runs out. No file is changed.
#[tactic(auto, unfolding(crate::specs::Inputs::sources_of))]
pub fn read_sources<F: Folder>(
    alloc: Global,
    folder: &mut F,
    names: &InputArgs<'_>,
) -> Result<Sources, Stop>
    ensures modelled { (files : List StoredFile) → (F.modelled folder.old).files ≡ Some files →
        Agrees (λ s. s) (F.modelled folder.old).steady (sources_of files (inputs_view names.now)) result }
    ensures limits { IfOk result (λ s. IsWithinLimits s.scenario) }
    ensures files { (F.modelled folder.new).files ≡ (F.modelled folder.old).files }
    ensures steady { (F.modelled folder.new).steady ≡ (F.modelled folder.old).steady }
    ensures counted { CountsFault (F.modelled folder.old).faults (F.modelled folder.new).faults result }
    ensures called { CallsAll (inputs_view names.now) (source_calls (inputs_view names.now)) (F.modelled folder.old).calls (F.modelled folder.new).calls (stopped_by result) }
{
    let domains = domains_from(alloc, folder, names.domains)?;
    let pairs = pairs_from(alloc, folder, names.rows, &domains)?;
    let scenario = scenario_from(alloc, folder, names.scenario)?;
    Ok(Sources {
        domains,
        pairs,
        scenario,
    })
}

/// Returns the book of the scenario's stations up to its top channel.
///
/// # Errors
///
/// `Refused` for the least station of the scenario that has no domain row, `NoMemory` if memory runs out.
pub fn book_of(alloc: Global, sources: &Sources) -> Result<Book, Stop>
    requires { IsWithinLimits sources.now.scenario }
    ensures book { IsBookOf sources.now result }
    ensures stations { IfOk result (λ book. stations_of book ≡ facilities sources.now.scenario) }
{
    match join(alloc, &sources.scenario, &sources.domains, &sources.pairs) {
        Ok(book) => Ok(book),
        Err(JoinErr::MissingDomain(station)) => Err(Stop::Refused(Refusal::MissingDomain(station))),
        Err(JoinErr::NoMemory) => Err(Stop::NoMemory),
    }
}
