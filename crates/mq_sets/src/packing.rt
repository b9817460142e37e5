//! The packing of rows that are kept by number.

ghost use Rattle.std.specs.Prelude.{◌≡◌, ◌+◌, ◌++◌, ◌^◌, ◌<◌, ◌≤◌, [], false, length, map, nat_le, if◌then◌else◌, vec_capacity};
ghost use Rattle.std.specs.List.{All, insert};
ghost use Rattle.mq_count.specs.Spending.{Spends};
ghost use Rattle.mq_sets.specs.Pools.{cells_of, rows_of, cells_said, IsWithin, AreApart, NamesRows, IsPlaced};

use crate::extents::{Extent, extent_at};
use crate::inserting::append_with;
use mq_count::Moves;
use std::alloc::Allocator;
use std::mem;

/// Copies the rows of `numbers`, one after another, into `packed`, which is empty and has space for them. No row has
/// free cells afterwards. Each copied cell and each number counts as a move.
pub(crate) fn pack_named<T: Copy, A: Allocator>(
    extents: &mut [Extent],
    cells: &[T],
    numbers: &[u16],
    packed: &mut Vec<T, A>,
    moves: &mut Moves,
)
    requires within { All (IsWithin cells.now) extents.old }
    requires placed { All IsPlaced extents.old }
    requires named { NamesRows (map (λ e. e.length) extents.old) numbers.now }
    requires empty { packed.old.items ≡ [] }
    requires space { cells_said extents.old ≤ vec_capacity packed.old }
    requires numbered { cells_said extents.old < 2 ^ 32 }
    ensures rows { rows_of packed.new.items extents.new ≡ rows_of cells.now extents.old }
    ensures within { All (IsWithin packed.new.items) extents.new }
    ensures placed { All IsPlaced extents.new }
    ensures lengths { map (λ e. e.length) extents.new ≡ map (λ e. e.length) extents.old }
    ensures apart { AreApart extents.new }
    ensures filled { length packed.new.items ≡ cells_said extents.old }
    ensures capacity { vec_capacity packed.old ≤ vec_capacity packed.new }
    ensures moves { let count = cells_said extents.old + length numbers.now in Spends count count moves.old moves.new }
{
    for number in numbers {
        let place = *number as usize;
        let extent = extents[place];
        let first = extent.start as usize;
        let row = &cells[first..first + extent.length as usize];
        let start = packed.len();
        packed.extend_from_slice(row).unwrap();
        extents[place] = extent_at(start, row.len());
    }
    moves.count(packed.len());
    moves.count(numbers.len());
}

/// Makes space for `count` cells after the last one, within `size` cells in all. If there is none left, it packs the
/// rows of `numbers` into `spare`, which is empty, and the two vectors change places. Returns whether it did so. Then
/// `spare` still has the cells of before.
pub(crate) fn make_space_for<T: Copy, A: Allocator>(
    extents: &mut Vec<Extent, A>,
    cells: &mut Vec<T, A>,
    spare: &mut Vec<T, A>,
    count: usize,
    size: usize,
    numbers: &[u16],
    moves: &mut Moves,
) -> bool
    requires within { All (IsWithin cells.old.items) extents.old.items }
    requires apart { AreApart extents.old.items }
    requires placed { All IsPlaced extents.old.items }
    requires named { NamesRows (map (λ e. e.length) extents.old.items) numbers.now }
    requires empty { spare.old.items ≡ [] }
    requires space { cells_said extents.old.items + count ≤ size }
    requires filled { length cells.old.items ≤ size }
    requires numbered { size < 2 ^ 32 }
    requires capacity { size ≤ vec_capacity cells.old }
    requires spare_capacity { size ≤ vec_capacity spare.old }
    ensures rows { rows_of cells.new.items extents.new.items ≡ rows_of cells.old.items extents.old.items }
    ensures within { All (IsWithin cells.new.items) extents.new.items }
    ensures apart { AreApart extents.new.items }
    ensures placed { All IsPlaced extents.new.items }
    ensures lengths { map (λ e. e.length) extents.new.items ≡ map (λ e. e.length) extents.old.items }
    ensures before { (if result then spare.new.items else cells.new.items) ≡ cells.old.items }
    ensures empty { result ≡ false → spare.new.items ≡ [] }
    ensures space { length cells.new.items + count ≤ size }
    ensures filled { length cells.new.items ≡ (if nat_le (length cells.old.items + count) size then length cells.old.items else cells_said extents.old.items) }
    ensures capacity { size ≤ vec_capacity cells.new }
    ensures spare_capacity { size ≤ vec_capacity spare.new }
    ensures moves { let moved = if nat_le (length cells.old.items + count) size then 0 else cells_said extents.old.items + length numbers.now in
        Spends moved moved moves.old moves.new }
{
    if count <= size - cells.len() {
        return false;
    }
    pack_named(extents, cells, numbers, spare, moves);
    mem::swap(cells, spare);
    true
}

/// Appends a row with one cell more, at a place of it. If the rows were packed before, the row stands in `spare`.
/// Otherwise it stands in the cells themselves, and is copied by way of `spare`, which is empty.
pub(crate) fn append_longer<T: Copy, A: Allocator>(
    cells: &mut Vec<T, A>,
    spare: &mut Vec<T, A>,
    is_packed: bool,
    row: Extent,
    place: usize,
    cell: T,
)
    requires place { place ≤ row.length }
    requires within { IsWithin (if is_packed then spare.old.items else cells.old.items) row }
    requires empty { is_packed ≡ false → spare.old.items ≡ [] }
    requires room { length cells.old.items + row.length < vec_capacity cells.old }
    requires spare_room { row.length < vec_capacity spare.old }
    ensures items { cells.new.items ≡ cells.old.items ++ insert (cells_of (if is_packed then spare.old.items else cells.old.items) row) place cell }
    ensures capacity { vec_capacity cells.old ≤ vec_capacity cells.new }
    ensures spare_capacity { vec_capacity spare.old ≤ vec_capacity spare.new }
{
    let first = row.start as usize;
    let end = first + row.length as usize;
    if is_packed {
        append_with(cells, &spare[first..end], place, cell);
    } else {
        append_with(spare, &cells[first..end], place, cell);
        cells.extend_from_slice(spare).unwrap();
    }
}
