//! A search in a list of numbers: of stations, or of channels.

ghost use Rattle.std.specs.Prelude.{◌≡◌, IsTrue};
ghost use Rattle.pack_defs.specs.Lists.{is_ascending, is_in};

/// Checks whether the ascending list has the number, by binary search. Allocates nothing.
pub fn is_in(numbers: &[u32], number: u32) -> bool
    requires { IsTrue (is_ascending numbers.now) }
    ensures { result ≡ is_in numbers.now number }
{
    numbers.binary_search(&number).is_ok()
}
