//! Signatures: 64 bits for a list of literals. One comparison of signatures excludes most clauses that are not subsets of a line.

ghost use Rattle.std.specs.Prelude.{◌≡◌};
ghost use Rattle.cert_types.specs.Signature.{bit_of, covers, signature};

use clause_db::lit::Lit;

/// Returns the signature of the literals: each literal sets the bit of its variable.
pub(crate) fn signature(lits: &[Lit]) -> u64
    ensures { result ≡ signature lits.now }
{
    let mut bits = 0;
    for lit in lits {
        bits |= bit_of(*lit);
    }
    bits
}

// Returns the bit of a literal.
fn bit_of(lit: Lit) -> u64
    ensures { result ≡ bit_of lit }
{
    1 << (lit.var % 64)
}

/// Whether all of `bits` are among `these`. This holds of the signatures of a line and of a subset of it.
pub(crate) fn covers(these: u64, bits: u64) -> bool
    ensures { result ≡ covers these bits }
{
    bits & these == bits
}
