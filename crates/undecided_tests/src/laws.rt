//! Laws of settling by a proof from outside: in the record and in the result only the settled test changes.

ghost use Rattle.std.specs.Prelude.{◌≡◌, ℕ, List, MatchOption, Ok, ⊤, map};
ghost use Rattle.pack_defs.specs.Book.{BookView};
ghost use Rattle.pack_defs.specs.ClockRule.{ClockState, ClockTest, clock_rule};
ghost use Rattle.pack_defs.specs.ResultRows.{result_rows};
ghost use Rattle.pack_defs.specs.declared.scenario.Scenario.{Scenario};
ghost use Rattle.rup_check.specs.declared.line.Log.{Log};
ghost use Rattle.cert_types.specs.Outside.{IsOutsideProof};
ghost use Rattle.cert_types.specs.declared.outside.OutsideProof.{OutsideProof};
ghost use Rattle.auction_core.specs.Backed.{IsBacked, undecided_of};
ghost use Rattle.auction_core.specs.Rule.{IsAuction};
ghost use Rattle.auction_core.specs.State.{test_of};
ghost use Rattle.auction_core.specs.declared.record.Record.{Record};
ghost use Rattle.lrat_text.specs.Read.{log_of};
ghost use Rattle.auction_core.specs.LogNumbers.{clauses_in};
ghost use Rattle.undecided_tests.specs.Queries.{step_numbered};
ghost use Rattle.undecided_tests.specs.Settled.{IsLeftOpen, RefutesStep, decided_row, settled_by, without_test};
ghost use Rattle.undecided_tests.specs.Settling.{cut_proof, set_of_step, settled_text};

/// If a proof from outside refutes the set of an undecided test, the record that has it for that test is backed. The
/// other undecided tests stay undecided, and the clock rule with those comes to the same state as before.
pub fn prove_settled_by_a_proof()
    ensures backed { (sc : Scenario) (book : BookView) (rec : Record) (step : ℕ) (proof : OutsideProof) → IsAuction sc book → IsBacked sc book rec.order rec → IsLeftOpen rec step → RefutesStep book rec step proof → IsBacked sc book rec.order (settled_by rec step proof) }
    ensures left { (sc : Scenario) (book : BookView) (rec : Record) (step : ℕ) (proof : OutsideProof) → IsAuction sc book → IsBacked sc book rec.order rec → IsLeftOpen rec step → MatchOption (step_numbered rec.steps step) ⊤ (λ x. undecided_of (settled_by rec step proof).steps ≡ without_test (test_of x) (undecided_of rec.steps)) }
    ensures clock { (sc : Scenario) (book : BookView) (rec : Record) (step : ℕ) (proof : OutsideProof) → IsAuction sc book → IsBacked sc book rec.order rec → IsLeftOpen rec step → RefutesStep book rec step proof → clock_rule sc book rec.order (undecided_of (settled_by rec step proof).steps) ≡ clock_rule sc book rec.order (undecided_of rec.steps) }
{}

/// The result with one undecided test fewer has the same rows, except that the test's row says frozen instead of
/// undecided.
pub fn prove_one_row_is_decided()
    ensures { (sc : Scenario) (state : ClockState) (tests : List ClockTest) (t : ClockTest) → result_rows sc state (without_test t tests) ≡ map (decided_row t) (result_rows sc state tests) }
{}

/// A text that spells a log over the clauses of the step's set settles the step exactly if its lines up to the first
/// empty one refute the set. The new record is the old one with that proof at the step.
pub fn prove_settling_text()
    ensures settles { (book : BookView) (rec : Record) (step : ℕ) (text : List ℕ) (log : Log) → log_of text (clauses_in book (set_of_step book rec step)) ≡ Ok log → IsOutsideProof book (set_of_step book rec step) (cut_proof log) → settled_text book rec step text ≡ Ok (settled_by rec step (cut_proof log)) }
    ensures settled { (book : BookView) (rec new : Record) (step : ℕ) (text : List ℕ) → settled_text book rec step text ≡ Ok new → (log : Log) × (log_of text (clauses_in book (set_of_step book rec step)) ≡ Ok log) × IsOutsideProof book (set_of_step book rec step) (cut_proof log) × (new ≡ settled_by rec step (cut_proof log)) }
{}
