//! The check of a dead pair, the shortest certificate that a set does not fit.

ghost use Rattle.std.specs.Prelude.{◌≡◌, IsTrue};
ghost use Rattle.std.specs.List.{list_any};
ghost use Rattle.pack_defs.specs.Lists.{is_ascending, is_only};
ghost use Rattle.cert_types.specs.Refutes.{is_dead, same_pair};

use pack_defs::book::Book;
use pack_defs::numbers::is_in;
use pack_defs::pair::Pair;

/// Checks whether a pair of the book refutes an ascending set. Both stations of the pair must be in the set, and each must have
/// only the pair's channel. Costs five binary searches: one for the pair, and two for each station.
pub(crate) fn is_dead(book: &Book, set: &[u32], pair: Pair) -> bool
    requires { IsTrue (is_ascending set.now) }
    ensures { result ≡ is_dead book.now set.now pair }
{
    has_pair(book, pair)
        && (is_in(set, pair.f) && is_in(set, pair.g))
        && (is_only(book.domain(pair.f), pair.a) && is_only(book.domain(pair.g), pair.b))
}

// Whether the book has the pair, by binary search.
fn has_pair(book: &Book, pair: Pair) -> bool
    ensures { result ≡ list_any (λ q. same_pair q pair) book.now.pairs }
{
    book.keeps_order();
    book.pairs().binary_search(&pair).is_ok()
}

// Whether this is the only channel.
fn is_only(channels: &[u8], c: u8) -> bool
    ensures { result ≡ is_only channels.now c }
{
    channels.len() == 1 && channels[0] == c
}
