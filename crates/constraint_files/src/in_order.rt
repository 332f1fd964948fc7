//! Sorting in one pass over a list, where a tree would search the place of each item.

ghost use Rattle.std.specs.Prelude.{◌≡◌, [], fold};
ghost use Rattle.std.specs.BTreeSet.{insert_key};
ghost use Rattle.std.proofs.lemmas.Map.Lookups.{CmpEqualImpliesEq};

/// Returns the items of a list in order, each once: the items that a tree has after their insertion.
pub(crate) fn in_order<T: Ord + Drop>(list: Vec<T>) -> Vec<T>
    requires { CmpEqualImpliesEq T.cmp }
    ensures { result.items ≡ fold (insert_key T.cmp) [] list.items }
{
    let mut list = list;
    list.sort_unstable();
    list.dedup();
    list
}
