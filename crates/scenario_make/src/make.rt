//! The files of a generated auction.

ghost use Rattle.std.specs.Prelude.{◌≡◌, ◌≤◌, IfOk};
ghost use Rattle.scenario_make.specs.declared.limits.TheConstants.{MOST_GENERATED};
ghost use Rattle.scenario_make.specs.Accepted.{AreAccepted};
ghost use Rattle.scenario_make.specs.GeneratedFiles.{AreGenerated, generated_domains, generated_workers, scenario_with};

use crate::lines::push_line;
use crate::rows::draw_rows;
use crate::stations::draw_stations;
use pack_defs::fall::Fall;
use pack_defs::items::Items;
use pack_defs::scenario::Scenario;
use pack_defs::station::Station;
use pack_defs::worker::{Kind, Worker};
use rand_pcg::Lcg64Xsh32;
use scenario_json::write::write_scenario;
use std::alloc::{AllocError as NoMemory, Global};

/// The bytes of the three files of an auction.
#[derive(Debug, Drop)]
pub struct Made {
    /// The domain file: a line for each station, with the channels 14 to 17.
    pub domains: Vec<u8>,
    /// The row file: which stations interfere.
    pub rows: Vec<u8>,
    /// The scenario file.
    pub scenario: Vec<u8>,
}

// Returns the domain file.
fn domain_file(alloc: Global, size: u32) -> Result<Vec<u8>, NoMemory>
    requires { size ≤ MOST_GENERATED }
    ensures { IfOk result (λ v. v.items ≡ generated_domains size) }
{
    let mut text = Vec::new(alloc);
    for i in 0..size {
        push_line(&mut text, b"DOMAIN", &[i + 1], &[14, 15, 16, 17])?;
    }
    Ok(text)
}

// Returns a worker that learns, and one that walks with the seed of the auction.
fn workers(alloc: Global, seed: u64) -> Result<Vec<Worker>, NoMemory>
    ensures { IfOk result (λ v. v.items ≡ generated_workers seed) }
{
    let learner = Worker {
        kind: Kind::Cdcl,
        budget: 100_000,
        seed: 0,
    };
    let walk = Worker {
        kind: Kind::Walk,
        budget: 1_000,
        seed,
    };
    Ok(vec![in alloc; learner, walk]?)
}

// Returns the scenario of these stations.
#[tactic(auto, unfolding(crate::specs::GeneratedFiles::scenario_with))]
fn scenario_with(alloc: Global, seed: u64, stations: Vec<Station>) -> Result<Scenario, NoMemory>
    ensures { IfOk result (λ sc. sc ≡ scenario_with seed stations.items) }
{
    Ok(Scenario {
        version: 1,
        top: 17,
        opening: 100,
        fall: Fall::Listed(Items::from_vec(vec![in alloc; 10; 10]?)),
        stations: Items::from_vec(stations),
        workers: Items::from_vec(workers(alloc, seed)?),
        owners: None,
    })
}

// Returns the three files. The stations are drawn first and the interference after them.
fn draw_files(alloc: Global, seed: u64, size: u32) -> Result<Made, NoMemory>
    requires { size ≤ MOST_GENERATED }
    ensures { IfOk result (λ made. AreGenerated seed size made.domains.items made.rows.items made.scenario.items) }
{
    let domains = domain_file(alloc, size)?;
    let mut words = Lcg64Xsh32::new(seed, 0);
    let stations = draw_stations(alloc, &mut words, size)?;
    let rows = draw_rows(alloc, &mut words, size)?;
    let sc = scenario_with(alloc, seed, stations)?;
    let scenario = write_scenario(alloc, &sc)?;
    Ok(Made {
        domains,
        rows,
        scenario,
    })
}

/// Returns the files of the auction of this seed and size, which is the number of its stations. The same seed and size always give
/// the same files. Each file is accepted, a book is made of the three, and no station is on air at the start. Fails only if memory
/// runs out.
pub fn make(alloc: Global, seed: u64, size: u32) -> Result<Made, NoMemory>
    requires some { 1 ≤ size }
    requires most { size ≤ MOST_GENERATED }
    ensures files { IfOk result (λ made. AreGenerated seed size made.domains.items made.rows.items made.scenario.items) }
    ensures accepted { IfOk result (λ made. AreAccepted made.domains.items made.rows.items made.scenario.items) }
{
    let made = draw_files(alloc, seed, size)?;
    Ok(made)
}
