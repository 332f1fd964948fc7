//! What holds of the packing formula of every book and every set of stations.

ghost use Rattle.std.specs.Prelude.{◌≡◌, ◌↔◌, ℕ, Bool, List, [], ◌∷◌, IsTrue};
ghost use Rattle.clause_db.specs.Clause.{Satisfies};
ghost use Rattle.clause_db.specs.Clauses.{ClausesWithin};
ghost use Rattle.pack_defs.specs.Examples.{three_stations};
ghost use Rattle.pack_defs.specs.Book.{BookView, IsInOrder};
ghost use Rattle.pack_defs.specs.Lists.{is_ascending};
ghost use Rattle.pack_defs.specs.Packing.{Fits, IsPacking};
ghost use Rattle.cnf_encode.specs.Decode.{decoded, HasModel};
ghost use Rattle.cnf_encode.specs.Formula.{packing_formula, variables_in};
ghost use Rattle.cnf_encode.specs.Examples.{three_clauses};
ghost use Rattle.cnf_encode.specs.Laws.{MapGivesModel};

/// The formula of the example of three stations has six variables and twelve clauses.
pub fn prove_formula_of_three_stations()
    ensures variables { variables_in three_stations (1 ∷ 2 ∷ 3 ∷ []) ≡ 6 }
    ensures clauses { packing_formula three_stations (1 ∷ 2 ∷ 3 ∷ []) ≡ three_clauses }
{}

/// A model of the formula describes a clean map of exactly the set.
pub fn prove_model_gives_map()
    ensures { (book : BookView) (set : List ℕ) (model : ℕ → Bool) →
        Satisfies model (packing_formula book set) → IsPacking book set (decoded book set model) }
{}

/// In a book in order, a clean map of exactly an ascending set describes a model of the formula.
pub fn prove_map_gives_model()
    ensures { MapGivesModel }
{}

/// In a book in order, an ascending set fits exactly if its formula has a model.
pub fn prove_fits_iff_model()
    ensures { (book : BookView) (set : List ℕ) →
        IsInOrder book → IsTrue (is_ascending set) → (Fits book set ↔ HasModel (packing_formula book set)) }
{}

/// In a book in order, each literal of the formula has a variable from 1 to the number of variables.
pub fn prove_literals_within()
    ensures { (book : BookView) (set : List ℕ) → IsInOrder book → ClausesWithin (variables_in book set) (packing_formula book set) }
{}
