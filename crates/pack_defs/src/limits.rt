//! The limits of an auction's files. Readers reject what exceeds them.

ghost use Rattle.std.specs.Prelude.{◌≡◌};
ghost use Rattle.pack_defs.specs.Limits as limit;
ghost use Rattle.pack_defs.specs.declared.limits.TheConstants as constant;

/// The most stations of a scenario, and therefore of a book. A scenario with more is rejected.
pub const MOST_STATIONS: u64 = 8_192;

/// The most rounds in which the price falls. A list of more decrements is rejected; a fall by rate ends with this round.
pub const MOST_ROUNDS: u64 = 1_000;

/// The greatest decrement, in cents per unit of volume. A scenario with a greater one is rejected.
pub const MOST_DECREMENT: u64 = 1_000_000;

/// The greatest rate and the greatest floor of a fall by rate, in thousandths. A scenario with a greater one is rejected.
pub const MOST_THOUSANDTHS: u64 = 1_000;

/// The greatest opening price, in cents per unit of volume. A scenario with a greater one is rejected.
pub const MOST_OPENING: u64 = 1_000_000;

/// The greatest volume of a station, in units. A scenario with a greater one is rejected.
pub const MOST_VOLUME: u64 = 1_000_000;

/// The greatest value of a station, in cents. A scenario with a greater one is rejected.
pub const MOST_VALUE: u64 = 1_000_000_000_000_000;

/// The most workers of a scenario. A scenario with more is rejected.
pub const MOST_WORKERS: u64 = 16;

/// The greatest budget of a worker of kind "cdcl", in proof lines for a query. A scenario with a greater one is rejected.
pub const MOST_PROOF_LINES: u64 = 100_000;

/// The greatest budget of a worker of kind "walk", in moves for a query. A scenario with a greater one is rejected.
pub const MOST_MOVES: u64 = 1_000_000;

/// The most interfering pairs of one file. A file with more is rejected.
pub const MOST_PAIRS: usize = 4_000_000;

/// The most rows of a file of domains. A file with more is rejected.
pub const MOST_DOMAIN_ROWS: usize = 65_536;

/// The least channel that a station may have, and the least top channel of a scenario. A lesser channel of a station is dropped; a
/// scenario with a lesser top channel is rejected.
pub const LEAST_CHANNEL: u8 = 14;

/// The greatest channel that a station may have, and the greatest top channel of a scenario. A file that names a greater one is rejected.
pub const GREATEST_CHANNEL: u8 = 51;

/// Each constant is the number that the definitions give.
pub fn prove_limits()
    ensures most_stations { constant.MOST_STATIONS ≡ limit.MOST_STATIONS }
    ensures most_rounds { constant.MOST_ROUNDS ≡ limit.MOST_ROUNDS }
    ensures most_decrement { constant.MOST_DECREMENT ≡ limit.MOST_DECREMENT }
    ensures most_thousandths { constant.MOST_THOUSANDTHS ≡ limit.MOST_THOUSANDTHS }
    ensures most_opening { constant.MOST_OPENING ≡ limit.MOST_OPENING }
    ensures most_volume { constant.MOST_VOLUME ≡ limit.MOST_VOLUME }
    ensures most_value { constant.MOST_VALUE ≡ limit.MOST_VALUE }
    ensures most_workers { constant.MOST_WORKERS ≡ limit.MOST_WORKERS }
    ensures most_proof_lines { constant.MOST_PROOF_LINES ≡ limit.MOST_PROOF_LINES }
    ensures most_moves { constant.MOST_MOVES ≡ limit.MOST_MOVES }
    ensures most_pairs { constant.MOST_PAIRS ≡ limit.MOST_PAIRS }
    ensures most_domain_rows { constant.MOST_DOMAIN_ROWS ≡ limit.MOST_DOMAIN_ROWS }
    ensures least_channel { constant.LEAST_CHANNEL ≡ limit.LEAST_CHANNEL }
    ensures greatest_channel { constant.GREATEST_CHANNEL ≡ limit.GREATEST_CHANNEL }
{}
