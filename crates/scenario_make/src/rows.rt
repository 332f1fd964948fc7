//! The row file of a generated auction: for each station in order the draws of its interference, and its lines.

ghost use Rattle.std.specs.Prelude.{◌≡◌, ◌≤◌, ◌<◌, ◌-◌, ◌%◌, ◌==◌, ◌&&◌, ◌++◌, nat_lt, if◌then◌else◌, IfOk, OnOk};
ghost use Rattle.rand_pcg.specs.Pcg.{pcg32};
ghost use Rattle.scenario_make.specs.declared.limits.TheConstants.{MOST_GENERATED};
ghost use Rattle.scenario_make.specs.Draws.{generator_after};
ghost use Rattle.scenario_make.specs.GeneratedFiles.{block_end, link_draws, generated_adjacent_lines, generated_link_lines, generated_links, generated_rows_at, generated_rows_from};

use crate::draws::draw;
use crate::lines::push_line;
use rand_pcg::Lcg64Xsh32;
use std::alloc::{AllocError as NoMemory, Global};

// The channels of every station.
const CHANNELS: [u32; 4] = [14, 15, 16, 17];

// Returns the last station in the block of a station.
fn block_end(size: u32, station: u32) -> u32
    requires some { 1 ≤ station }
    requires within { station ≤ size }
    requires few { size ≤ MOST_GENERATED }
    ensures value { result ≡ block_end size station }
    ensures least { station ≤ result }
    ensures most { result ≤ size }
{
    size.min(16 * ((station - 1) / 16 + 1))
}

// Draws which later stations, up to this end, interfere with the station on the same channel.
fn draw_links(
    alloc: Global,
    words: &mut Lcg64Xsh32,
    station: u32,
    end: u32,
) -> Result<Vec<u32>, NoMemory>
    requires { station ≤ end }
    ensures drawn { IfOk result (λ v. v.items ≡ generated_links words.old station end) }
    ensures next { OnOk result (words.new ≡ generator_after words.old (end - station)) }
{
    let mut links = Vec::new(alloc);
    for i in 0..end - station {
        if draw(words, 2) != 1 {
            continue;
        }
        links.push(station + 1 + i)?;
    }
    Ok(links)
}

// Draws whether a station and the next one interfere on adjacent channels. The last of a block takes no draw.
fn draw_adjacent(words: &mut Lcg64Xsh32, station: u32, end: u32) -> bool
    ensures drawn { result ≡ (nat_lt station end && ((pcg32 words.old).0 % 4 == 0)) }
    ensures next { words.new ≡ (if nat_lt station end then (pcg32 words.old).1 else words.old) }
{
    if station < end {
        return draw(words, 4) == 0;
    }
    false
}

// Appends the lines of a station and those that it interferes with on the same channel.
fn push_link_lines(text: &mut Vec<u8>, station: u32, links: &[u32]) -> Result<(), NoMemory>
    ensures { OnOk result (text.new.items ≡ text.old.items ++ generated_link_lines station links.now) }
{
    if links.is_empty() {
        return Ok(());
    }
    for c in 14..18 {
        push_line(text, b"CO", &[c, c, station], links)?;
    }
    Ok(())
}

// Appends the lines of a station and the next one, if they interfere on adjacent channels.
fn push_adjacent_lines(text: &mut Vec<u8>, station: u32, adjacent: bool) -> Result<(), NoMemory>
    requires { station < 4294967295 }
    ensures { OnOk result (text.new.items ≡ text.old.items ++ generated_adjacent_lines station adjacent) }
{
    if !adjacent {
        return Ok(());
    }
    for c in 14..17 {
        push_line(text, b"ADJ+1", &[c, c + 1, station, station + 1], &[])?;
    }
    Ok(())
}

// Draws the interference of a station, and appends its lines.
fn push_rows_at(
    alloc: Global,
    text: &mut Vec<u8>,
    words: &mut Lcg64Xsh32,
    station: u32,
    end: u32,
) -> Result<(), NoMemory>
    requires within { station ≤ end }
    requires few { end ≤ MOST_GENERATED }
    ensures written { OnOk result (text.new.items ≡ text.old.items ++ generated_rows_at words.old station end) }
    ensures next { OnOk result (words.new ≡ generator_after words.old (link_draws station end)) }
{
    let links = draw_links(alloc, words, station, end)?;
    let adjacent = draw_adjacent(words, station, end);
    push_link_lines(text, station, &links)?;
    push_adjacent_lines(text, station, adjacent)?;
    Ok(())
}

/// Returns the row file, drawn after the stations. Fails only if memory runs out.
pub(crate) fn draw_rows(
    alloc: Global,
    words: &mut Lcg64Xsh32,
    size: u32,
) -> Result<Vec<u8>, NoMemory>
    requires { size ≤ MOST_GENERATED }
    ensures { IfOk result (λ v. v.items ≡ generated_rows_from words.old size) }
{
    let mut text = Vec::new(alloc);
    for i in 0..size {
        let end = block_end(size, i + 1);
        push_rows_at(alloc, &mut text, words, i + 1, end)?;
    }
    Ok(text)
}
