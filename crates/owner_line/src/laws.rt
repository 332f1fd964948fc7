//! Laws of live auctions: what an owner's lines and the answers to its station's tests mean for the station. No code calls them.

ghost use Rattle.std.specs.Prelude.{◌≡◌, ◌<◌, ℕ, List, Ok, IsFalse};
ghost use Rattle.pack_defs.specs.declared.owners.OwnerLine.{OwnerLine};
ghost use Rattle.pack_defs.specs.Prices.{stays};
ghost use Rattle.owner_line.specs.OwnersOf.{owners_of};
ghost use Rattle.owner_line.specs.Laws.{ExitsByItsLines};

/// A station outside the start set goes on air in a round exactly if two conditions hold. The round is the first from 1 in which no
/// line has the station stay, or else the last round. Each test of the station up to that round was answered "fits".
pub fn prove_exits_by_its_lines()
    ensures { ExitsByItsLines }
{}

/// The lines of an owners' file, for an auction whose price falls in R rounds, have no station stay in a round after the last fall.
pub fn prove_no_line_after_last_fall()
    ensures { (bytes : List ℕ) (R : ℕ) (ids : List ℕ) (lines : List OwnerLine) (r s : ℕ) →
        owners_of bytes R ids ≡ Ok lines → R < r → IsFalse (stays lines r s) }
{}
