//! Reads and writes at places that may be past the end of a list. The searches keep their numbers in range, but no proof says so. A read
//! past the end returns the caller's default, and a write past the end does nothing.

use std::alloc::{AllocError as NoMemory, Global};

/// Returns the cell at a place, or `past` past the end.
pub fn read<T: Copy>(cells: &[T], at: u32, past: T) -> T {
    let at = at as usize;
    if at < cells.len() { cells[at] } else { past }
}

/// Writes a cell, unless the place is past the end.
pub fn write<T: Copy>(cells: &mut [T], at: u32, cell: T) {
    let at = at as usize;
    if at < cells.len() {
        cells[at] = cell;
    }
}

/// Returns a list of this many equal cells.
pub fn filled<T: Copy>(alloc: Global, count: u32, cell: T) -> Result<Vec<T>, NoMemory> {
    let mut cells = Vec::new(alloc);
    cells.resize(count as usize, cell)?;
    Ok(cells)
}

/// Returns a count as 32 bits, or the greatest 32-bit number if the count is above that.
pub fn saturating_u32(count: usize) -> u32 {
    count.min(u32::MAX as usize) as u32
}

/// Returns the part of a list between two places, cut at the list's end.
pub fn slice_between<T>(cells: &[T], begin: u32, end: u32) -> &[T] {
    let end = (end as usize).min(cells.len());
    let begin = (begin as usize).min(end);
    &cells[begin..end]
}
