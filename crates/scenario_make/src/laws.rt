//! What holds of the files of every generated auction: they are accepted, and no station is on air at the start.

ghost use Rattle.std.specs.Prelude.{◌≡◌, ◌≤◌, ℕ, List, [], map, Ok};
ghost use Rattle.constraint_files.specs.Domains.{domains_of};
ghost use Rattle.constraint_files.specs.PairTable.{PairsView, pairs_of};
ghost use Rattle.pack_defs.specs.Prices.{start_set};
ghost use Rattle.pack_defs.specs.declared.domain.Domain.{Domain};
ghost use Rattle.scenario_json.specs.ScenarioOf.{scenario_of};
ghost use Rattle.scenario_make.specs.declared.limits.TheConstants.{MOST_GENERATED};
ghost use Rattle.scenario_make.specs.GeneratedFiles.{generated_domain, generated_domains, generated_facilities, generated_rows, generated_scenario, generated_scenario_text};

/// The scenario file of a generated auction is read as its scenario.
pub fn prove_generated_scenario_is_read()
    ensures { (seed size : ℕ) → seed ≤ 18446744073709551615 → size ≤ MOST_GENERATED → scenario_of (generated_scenario_text seed size) ≡ Ok (generated_scenario seed size) }
{}

/// No station of a generated auction declines its opening offer, so none is on air at the start.
pub fn prove_no_generated_station_starts()
    ensures { (seed size : ℕ) → start_set (generated_scenario seed size) ≡ [] }
{}

/// The domain file of a generated auction is accepted: each station may use the channels 14 to 17.
pub fn prove_generated_domains_are_read()
    ensures { (size : ℕ) → size ≤ MOST_GENERATED → domains_of (generated_domains size) ≡ Ok (map generated_domain (generated_facilities size)) }
{}

/// The row file of a generated auction is accepted, whatever the domains.
pub fn prove_generated_rows_are_read()
    ensures { (domains : List Domain) (seed size : ℕ) → size ≤ MOST_GENERATED → (pairs_view : PairsView) × (pairs_of (generated_rows seed size) domains ≡ Ok pairs_view) }
{}
