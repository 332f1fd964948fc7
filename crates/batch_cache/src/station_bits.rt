//! The signature of a set of stations: mostly one comparison of two words shows that a set does not contain another.

ghost use Rattle.std.specs.Prelude.{◌≡◌, ◌<◌};
ghost use Rattle.batch_cache.specs.StationBits.{are_covered, covers_word, station_bit, station_bits, word_place};

/// 1,024 bits in sixteen words; each station sets one. Of a country's 3,000 stations, three share a bit, and a set of
/// 300 sets about 19 bits of a word.
pub(crate) type StationBits = [u64; 16];

/// Returns the bits of these stations.
pub(crate) fn station_bits(stations: &[u32]) -> StationBits
    ensures { result ≡ station_bits stations.now }
{
    let mut words = [0; 16];
    for station in stations {
        words[word_place(*station)] |= station_bit(*station);
    }
    words
}

// Returns the place of a station's word.
fn word_place(station: u32) -> usize
    ensures place { result ≡ word_place station }
    ensures within { result < 16 }
{
    (station / 64 % 16) as usize
}

// Returns a station's bit in its word.
fn station_bit(station: u32) -> u64
    ensures { result ≡ station_bit station }
{
    1 << (station % 64)
}

/// Whether all of `bits` are among `these`, as they are if the one set contains the other. Stops at the first word
/// that differs.
pub(crate) fn are_covered(these: &StationBits, bits: &StationBits) -> bool
    ensures { result ≡ are_covered these.now bits.now }
{
    for i in 0..16 {
        if !covers_word(these[i], bits[i]) {
            return false;
        }
    }
    true
}

// Whether all of the word's bits are among these.
fn covers_word(these: u64, word: u64) -> bool
    ensures { result ≡ covers_word these word }
{
    word & these == word
}
