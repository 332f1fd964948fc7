//! Membership tests on lists of stations that use what the last test found.

ghost use Rattle.std.specs.Prelude.{◌≡◌, ◌/◌, IsTrue, Some, nat_lt, slice_get};
ghost use Rattle.std.specs.Bool.{OnTrue};
ghost use Rattle.pack_defs.specs.Lists.{is_ascending, is_in};
ghost use Rattle.batch_cache.specs.Numbers.{ends_below, continues_above, has_gap};
ghost use Rattle.batch_cache.specs.Walks.{has_all_sorted};

/// Whether the ascending list has the number. If the number fits between the neighbours at `gap`, it is missing.
/// Otherwise this is a binary search, which leaves the place where a missing number would be in `gap`.
pub(crate) fn is_in_by_gap(numbers: &[u32], number: u32, gap: &mut usize) -> bool
    requires { IsTrue (is_ascending numbers.now) }
    ensures { result ≡ is_in numbers.now number }
{
    if has_gap(numbers, *gap, number) {
        return false;
    }
    match numbers.binary_search(&number) {
        Ok(_) => true,
        Err(place) => {
            *gap = place;
            false
        }
    }
}

/// Whether the ascending list has the number, for numbers that are asked for in ascending order. Looks at place
/// `next` first, and advances it if the number is there. Then looks at the gap there. Only then searches.
pub(crate) fn is_in_from_cursor(numbers: &[u32], number: u32, next: &mut usize) -> bool
    requires { IsTrue (is_ascending numbers.now) }
    ensures { result ≡ is_in numbers.now number }
{
    if is_at_place(numbers, *next, number) {
        *next = next.saturating_add(1);
        return true;
    }
    is_in_by_gap(numbers, number, next)
}

// Whether the number is at the place.
fn is_at_place(numbers: &[u32], place: usize, number: u32) -> bool
    ensures { OnTrue result (slice_get numbers.now place ≡ Some number) }
{
    match numbers.get(place) {
        Some(there) => *there == number,
        None => false,
    }
}

// Whether the number fits at the place: the element before it is below the number, and the element at it is above.
fn has_gap(numbers: &[u32], place: usize, number: u32) -> bool
    ensures { result ≡ has_gap numbers.now place number }
{
    if !continues_above(numbers, place, number) {
        return false;
    }
    ends_below(numbers, place, number)
}

// Whether the element at the place, if there is one, is above the number.
fn continues_above(numbers: &[u32], place: usize, number: u32) -> bool
    ensures { result ≡ continues_above numbers.now place number }
{
    match numbers.get(place) {
        Some(next) => number < *next,
        None => true,
    }
}

// Whether the list reaches up to the place, and the element before it, if there is one, is below the number.
fn ends_below(numbers: &[u32], place: usize, number: u32) -> bool
    ensures { result ≡ ends_below numbers.now place number }
{
    let Some(last) = place.checked_sub(1) else {
        return true;
    };
    match numbers.get(last) {
        Some(before) => *before < number,
        None => false,
    }
}

/// Whether `sought` binary searches among `others` numbers cost less than a walk along them. A binary search among
/// some hundreds takes as long as about ten steps of a walk.
pub(crate) fn are_few(sought: usize, others: usize) -> bool
    ensures { result ≡ nat_lt sought (others / 16) }
{
    sought < others / 16
}

/// Whether a walk along both lists finds each number of the second in the first. If both ascend, it does so exactly
/// if the first list has them all. Stops at the first number that is missing and leaves its place in `missing`. Does
/// not start if the second list is longer.
pub(crate) fn has_all_sorted(these: &[u32], sought: &[u32], missing: &mut usize) -> bool
    ensures { result ≡ has_all_sorted these.now sought.now }
{
    if these.len() < sought.len() {
        return false;
    }
    let mut next = 0;
    for number in these {
        if next == sought.len() {
            return true;
        }
        if sought[next] < *number {
            *missing = next;
            return false;
        }
        if sought[next] == *number {
            next += 1;
        }
    }
    *missing = next;
    next == sought.len()
}
