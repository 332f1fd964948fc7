//! The owner's line of a record.

ghost use Rattle.std.specs.Prelude.{◌≡◌, map, true};
ghost use Rattle.pack_defs.specs.Lists.{is_ascending};
ghost use Rattle.owner_line.specs.OwnersOf.{line_on, owner_line, stay_of_word};

use crate::error::OwnerWhy;
use constraint_files::field::number;
use pack_defs::numbers::is_in;
use pack_defs::owners::OwnerLine;

/// Returns whether a word says that a station stays; `None` for an unknown word.
fn stay_of_word(word: &[u8]) -> Option<bool>
    ensures { result ≡ stay_of_word word.now }
{
    match word {
        b"stay" => Some(true),
        b"leave" => Some(false),
        _ => None,
    }
}

/// Returns the line of this round, station and word, in an auction with these stations whose price falls in `rounds` rounds.
///
/// # Errors
/// Fails with the first error: a round out of range, an unknown station, or an unknown word.
fn line_on(
    rounds: u32,
    ids: &[u32],
    round: u32,
    station: u32,
    word: &[u8],
) -> Result<OwnerLine, OwnerWhy>
    requires { is_ascending ids.now ≡ true }
    ensures { result ≡ line_on rounds ids.now round station word.now }
{
    if round > rounds {
        return Err(OwnerWhy::RoundRange);
    }
    if !is_in(ids, station) {
        return Err(OwnerWhy::UnknownStation);
    }
    let Some(stays) = stay_of_word(word) else {
        return Err(OwnerWhy::BadWord);
    };
    Ok(OwnerLine {
        round,
        station,
        stays,
    })
}

/// Returns the line of a record: `round,facility,word`.
///
/// # Errors
/// Fails with the record's first error.
pub(crate) fn owner_line(
    rounds: u32,
    ids: &[u32],
    fields: &[Vec<u8>],
) -> Result<OwnerLine, OwnerWhy>
    requires { is_ascending ids.now ≡ true }
    ensures { result ≡ owner_line rounds ids.now (map (λ f. f.items) fields.now) }
{
    if fields.len() != 3 {
        return Err(OwnerWhy::Fields);
    }
    let Some(round) = number(&fields[0]) else {
        return Err(OwnerWhy::BadNumber);
    };
    let Some(station) = number(&fields[1]) else {
        return Err(OwnerWhy::BadNumber);
    };
    line_on(rounds, ids, round, station, &fields[2])
}
