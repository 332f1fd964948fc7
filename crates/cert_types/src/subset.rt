//! The subset test for lists of stations. The check of proofs and the test of queries call it.

ghost use Rattle.std.specs.Prelude.{◌≡◌, IsTrue};
ghost use Rattle.std.specs.List.{list_all};
ghost use Rattle.pack_defs.specs.Lists.{is_ascending, is_in};
ghost use Rattle.cert_types.specs.Refutes.{is_subset};

use pack_defs::numbers::is_in;

/// Checks whether a list ascends and has only stations of the ascending set. Costs one binary search for each station.
pub fn is_subset(subset: &[u32], set: &[u32]) -> bool
    requires { IsTrue (is_ascending set.now) }
    ensures { result ≡ is_subset subset.now set.now }
{
    ascends(subset) && are_in(subset, set)
}

/// Checks whether each number is above the one before it.
pub fn ascends(numbers: &[u32]) -> bool
    ensures { result ≡ is_ascending numbers.now }
{
    for i in 1..numbers.len() {
        if numbers[i - 1] >= numbers[i] {
            return false;
        }
    }
    true
}

// Whether each number is in the ascending set.
fn are_in(numbers: &[u32], set: &[u32]) -> bool
    requires { IsTrue (is_ascending set.now) }
    ensures { result ≡ list_all (is_in set.now) numbers.now }
{
    for number in numbers {
        if !is_in(set, *number) {
            return false;
        }
    }
    true
}
