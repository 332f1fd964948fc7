//! The stations of a generated auction: the first draws, two for each.

ghost use Rattle.std.specs.Prelude.{◌≡◌, ◌≤◌, ◌+◌, ◌*◌, ◌%◌, IfOk, OnOk, map};
ghost use Rattle.rand_pcg.specs.Pcg.{pcg32};
ghost use Rattle.scenario_make.specs.declared.limits.TheConstants.{MOST_GENERATED};
ghost use Rattle.scenario_make.specs.Draws.{generator_after};
ghost use Rattle.scenario_make.specs.GeneratedFiles.{generated_facilities, generated_station};

use crate::draws::draw;
use pack_defs::station::Station;
use rand_pcg::Lcg64Xsh32;
use std::alloc::{AllocError as NoMemory, Global};

// Draws a volume, from 1 to 1,000.
fn draw_volume(words: &mut Lcg64Xsh32) -> u32
    ensures value { result ≡ 1 + (pcg32 words.old).0 % 1000 }
    ensures least { 1 ≤ result }
    ensures most { result ≤ 1000 }
    ensures next { words.new ≡ (pcg32 words.old).1 }
{
    1 + draw(words, 1000)
}

// Draws a value, from 0 to 100 times the volume.
fn draw_value(words: &mut Lcg64Xsh32, volume: u32) -> u64
    requires { volume ≤ 1000 }
    ensures value { result ≡ (pcg32 words.old).0 % (100 * volume + 1) }
    ensures next { words.new ≡ (pcg32 words.old).1 }
{
    u64::from(draw(words, 100 * volume + 1))
}

/// Draws the stations in order, for each its volume and then its value. Fails only if memory runs out.
pub(crate) fn draw_stations(
    alloc: Global,
    words: &mut Lcg64Xsh32,
    size: u32,
) -> Result<Vec<Station>, NoMemory>
    requires { size ≤ MOST_GENERATED }
    ensures drawn { IfOk result (λ v. v.items ≡ map (generated_station words.old) (generated_facilities size)) }
    ensures next { OnOk result (words.new ≡ generator_after words.old (2 * size)) }
{
    let mut stations = Vec::with_capacity(alloc, size as usize)?;
    for i in 0..size {
        let volume = draw_volume(words);
        let value = draw_value(words, volume);
        stations.push(Station {
            id: i + 1,
            volume,
            value: Some(value),
        })?;
    }
    Ok(stations)
}
