//! Laws about what fits: for components, and for subsets. No code calls them.

ghost use Rattle.std.specs.Prelude.{ℕ, List, Contains};
ghost use Rattle.pack_defs.specs.Book.{BookView};
ghost use Rattle.pack_defs.specs.Packing.{Fits};
ghost use Rattle.packing_graph.specs.Laws.{ComponentIsEnough};

/// Given a clean map of the stations on air, these and one more station fit exactly if the component of that station among them fits.
pub fn prove_component_is_enough()
    ensures { ComponentIsEnough }
{}

/// A subset of a set that fits, in any order, fits.
pub fn prove_subset_fits()
    ensures { (book : BookView) (set part : List ℕ) → ((s : ℕ) → Contains part s → Contains set s) →
        Fits book set → Fits book part }
{}
