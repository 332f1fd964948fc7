//! What a search remembers of the last set, to reject the next one sooner.

ghost use Rattle.std.specs.Prelude.{◌≡◌};

/// The station of a query that the last set lacked, and the gap in that set where it would be. The station is given
/// by its place in the query. Sets that were stored one after the other mostly lack the same station and have much
/// the same ones below it. The witness is only a guess: a set is skipped only if its own stations show that it lacks
/// this one. A place beyond all stations names none.
#[derive(Clone, Copy)]
pub(crate) struct Witness {
    pub(crate) place: usize,
    pub(crate) gap: usize,
}

impl Witness {
    /// Returns no witness, for the first set.
    pub(crate) fn none() -> Witness
        ensures { result ≡ record { place = usize.MAX; gap = 0 } }
    {
        Witness {
            place: usize::MAX,
            gap: 0,
        }
    }
}
