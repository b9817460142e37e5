//! The places of a pool's rows in its cells.

ghost use Rattle.std.specs.Prelude.{◌≡◌, ◌+◌, ◌^◌, ◌<◌, ◌≤◌, [], length, map, slice_index_or, slice_set, vec_capacity};
ghost use Rattle.std.specs.List.{All, insert};
ghost use Rattle.mq_sets.specs.Pools.{cells_of, rows_of, IsWithin, AreApart, IsPlaced};

use crate::inserting::put_first;
use std::alloc::Allocator;

/// The place of a row in the cells: its first cell, its number of cells, and the number of free cells after them. The
/// row can grow into the free cells. All numbers have 32 bits, so that few bytes are moved if a row is made or removed.
#[derive(Clone, Copy)]
pub(crate) struct Extent {
    pub(crate) start: u32,
    pub(crate) length: u32,
    pub(crate) free: u32,
}

/// Returns the extent of a row of `length` cells at `start`, with no free cells after them. A row without cells begins
/// at the first cell.
pub(crate) fn extent_at(start: usize, length: usize) -> Extent
    requires start { start < 2 ^ 32 }
    requires length { length < 2 ^ 32 }
    ensures length { result.length ≡ length }
    ensures free { result.free ≡ 0 }
    ensures start { 0 < length → result.start ≡ start }
    ensures placed { IsPlaced result }
{
    Extent {
        start: if length == 0 { 0 } else { start as u32 },
        length: length as u32,
        free: 0,
    }
}

/// Writes a row over the row at a place. It fits into the cells of the old row and the free cells after them. The others
/// of these cells are free afterwards.
pub(crate) fn write_over<T: Copy>(
    extents: &mut [Extent],
    cells: &mut [T],
    place: usize,
    before: Extent,
    row: &[T],
)
    requires place { place < length extents.old }
    requires here { before ≡ slice_index_or extents.old place before }
    requires fits { length row.now ≤ before.length + before.free }
    requires numbered { length cells.old < 2 ^ 32 }
    requires within { All (IsWithin cells.old) extents.old }
    requires apart { AreApart extents.old }
    ensures rows { rows_of cells.new extents.new ≡ slice_set (rows_of cells.old extents.old) place row.now }
    ensures within { All (IsWithin cells.new) extents.new }
    ensures apart { AreApart extents.new }
    ensures lengths { map (λ e. e.length) extents.new ≡ slice_set (map (λ e. e.length) extents.old) place (length row.now) }
    ensures len { length cells.new ≡ length cells.old }
    ensures placed { 0 < length row.now → All IsPlaced extents.old → All IsPlaced extents.new }
{
    let first = before.start as usize;
    let space = before.length as usize + before.free as usize;
    cells[first..first + row.len()].copy_from_slice(row);
    extents[place] = Extent {
        start: before.start,
        length: row.len() as u32,
        free: (space - row.len()) as u32,
    };
}

/// Inserts a cell into the row at a place, at `at`. The cells after it move by one, into the first free cell, by way of
/// `spare`, which is empty before and after.
pub(crate) fn insert_over<T: Copy, A: Allocator>(
    extents: &mut [Extent],
    cells: &mut [T],
    spare: &mut Vec<T, A>,
    place: usize,
    before: Extent,
    at: usize,
    cell: T,
)
    requires place { place < length extents.old }
    requires here { before ≡ slice_index_or extents.old place before }
    requires at { at ≤ before.length }
    requires free { 0 < before.free }
    requires empty { spare.old.items ≡ [] }
    requires room { length cells.old ≤ vec_capacity spare.old }
    requires numbered { length cells.old < 2 ^ 32 }
    requires within { All (IsWithin cells.old) extents.old }
    requires apart { AreApart extents.old }
    ensures rows { rows_of cells.new extents.new ≡ slice_set (rows_of cells.old extents.old) place (insert (cells_of cells.old before) at cell) }
    ensures within { All (IsWithin cells.new) extents.new }
    ensures apart { AreApart extents.new }
    ensures lengths { map (λ e. e.length) extents.new ≡ slice_set (map (λ e. e.length) extents.old) place (before.length + 1) }
    ensures len { length cells.new ≡ length cells.old }
    ensures placed { All IsPlaced extents.old → All IsPlaced extents.new }
    ensures empty { spare.new.items ≡ [] }
    ensures capacity { vec_capacity spare.old ≤ vec_capacity spare.new }
{
    let first = before.start as usize;
    let end = first + before.length as usize;
    put_first(&mut cells[first + at..end + 1], cell, spare);
    extents[place] = Extent {
        start: before.start,
        length: before.length + 1,
        free: before.free - 1,
    };
}
