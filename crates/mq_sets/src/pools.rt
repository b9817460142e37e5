//! Rows of cells by number, in memory that is reserved once.

ghost use Rattle.std.specs.Prelude.{◌≡◌, ℕ, ◌+◌, ◌-◌, ◌^◌, ◌<◌, ◌≤◌, [], length, map, replicate, slice_index_or, slice_set, IfOk, is_ok};
ghost use Rattle.std.specs.List.{insert};
ghost use Rattle.mq_arena.specs.Vectors.{IsSize, item_bytes, Takes};
ghost use Rattle.mq_count.specs.Spending.{Spends};
ghost use Rattle.mq_sets.specs.Pools.{cells_in, PoolState, NamesRows, IsReplaced, MovesArePaid, cells_reserved, moved_for, size_at, with_row};
ghost use Rattle.mq_sets.specs.Sizes.{bytes_of_rows};

use crate::extents::{Extent, extent_at, insert_over, write_over};
use crate::memory::Memory;
use crate::packing::{append_longer, make_space_for};
use mq_arena::{VectorSource, both_sizes, filled, times_size, vector_size};
use mq_count::Moves;
use std::alloc::{Allocator, Global};
use std::marker::Model;

/// Rows of cells, one for each number below a limit.
///
/// A row without cells is not in use. A contract sees the rows by their numbers, and the most cells that they may have
/// together. It also sees the number of cells that fit after the last one before the rows are packed. `new` reserves
/// all memory, and no other call allocates. No edit changes another row or its number.
///
/// All cells stand in one vector. A row that gets shorter keeps its cells as free ones, until it moves or has no cells.
/// `replace` writes a row over the old one if it fits into that and its free cells. Otherwise it writes the row after
/// the last cell and forgets the old one. At the end of the vector it packs the rows in use, without free cells. It
/// copies them, one after another, into a second vector of the same size, and the two change places. Each vector has
/// room for all cells that the rows may have, a quarter more, and one cell for each row. So packing copies and looks at
/// no more than four times the cells that were written after the last one since the packing before.
#[derive(Drop)]
pub struct Pool<T: Copy, A: Allocator = Global> {
    extents: Vec<Extent, A>,
    cells: Vec<T, A>,
    spare: Vec<T, A>,
    used: usize,
    cell_limit: usize,
}

impl<T: Copy, A: Allocator> Model for Pool<T, A> {
    ghost use Rattle.std.specs.Prelude.{◌≡◌, ◌-◌, ◌^◌, ◌<◌, ◌≤◌, [], length, vec_capacity};
    ghost use Rattle.std.specs.List.{All};
    ghost use Rattle.mq_sets.specs.Pools.{rows_of, IsStored, PoolState, IsPlaced, cells_reserved};

    ghost Value = { PoolState T };

    ghost view = { λ r. record {
      rows = rows_of r.cells.items r.extents.items;
      cell_limit = r.cell_limit;
      ahead = cells_reserved (length r.extents.items) r.cell_limit - length r.cells.items;
    } };

    ghost invariant = { λ r. IsStored r.extents.items r.cells.items r.used r.cell_limit
        × All IsPlaced r.extents.items
        × (r.spare.items ≡ [])
        × (cells_reserved (length r.extents.items) r.cell_limit ≤ vec_capacity r.cells)
        × (cells_reserved (length r.extents.items) r.cell_limit ≤ vec_capacity r.spare)
        × (length r.cells.items ≤ cells_reserved (length r.extents.items) r.cell_limit)
        × (cells_reserved (length r.extents.items) r.cell_limit < 2 ^ 32) };
}

impl<T: Copy, A: Allocator> Pool<T, A> {
    /// Returns the bytes that `new` allocates, or None if no memory has as many.
    pub fn size(rows: usize, cells: usize) -> Option<usize>
        requires counted { cells_reserved rows cells < 2 ^ 32 }
        ensures { IsSize (bytes_of_rows (item_bytes T.row) rows cells) result }
    {
        both_sizes(
            vector_size::<Extent>(rows),
            times_size(2, vector_size::<T>(cells + cells / 4 + rows)),
        )
    }

    /// Makes rows without cells for the numbers below `rows`, which may have `cells` cells together. Fails with `Memory` if
    /// memory is refused.
    #[tactic(auto, unfolding(crate::specs::Sizes::bytes_of_rows))]
    pub fn new<M: VectorSource<A>>(
        memory: &mut M,
        rows: usize,
        cells: usize,
    ) -> Result<Pool<T, A>, Memory>
        requires counted { cells_reserved rows cells < 2 ^ 32 }
        ensures rows { IfOk result (λ r. r ≡ record { rows = replicate rows []; cell_limit = cells; ahead = cells_reserved rows cells }) }
        ensures memory { Takes (bytes_of_rows (item_bytes T.row) rows cells) (M.less_than memory.old) (M.less_than memory.new) (is_ok result) }
    {
        let size = cells + cells / 4 + rows;
        let none = Extent {
            start: 0,
            length: 0,
            free: 0,
        };
        Ok(Pool {
            extents: filled(memory, none, rows)?,
            cells: memory.with_capacity(size)?,
            spare: memory.with_capacity(size)?,
            used: 0,
            cell_limit: cells,
        })
    }
}

impl<T: Copy, A: Allocator> Pool<T, A> {
    /// Returns the number of rows, with those that have no cells.
    pub fn rows(&self) -> usize
        ensures { result ≡ length self.now.rows }
    {
        self.extents.len()
    }

    /// Returns the cells of a row.
    pub fn row(&self, number: u16) -> &[T]
        requires number { number < length self.now.rows }
        ensures cells { result.now ≡ slice_index_or self.now.rows number [] }
    {
        let extent = self.extents[number as usize];
        let start = extent.start as usize;
        &self.cells[start..start + extent.length as usize]
    }

    /// Returns the number of free cells: the limit less the cells of all rows.
    pub fn room(&self) -> usize
        ensures { result + cells_in self.now.rows ≡ self.now.cell_limit }
    {
        self.cell_limit - self.used
    }

    /// Removes all cells of a row. Its number stays, with a row without cells. Nothing is moved.
    pub fn remove_row(&mut self, number: u16)
        requires number { number < length self.old.rows }
        ensures { self.new ≡ record self.old { rows = slice_set self.old.rows number [] } }
    {
        let before = self.extents[number as usize];
        self.extents[number as usize] = extent_at(0, 0);
        self.used -= before.length as usize;
    }

    /// Replaces one cell of a row. One move.
    pub fn set(&mut self, number: u16, place: usize, cell: T, moves: &mut Moves)
        requires number { number < length self.old.rows }
        requires place { place < size_at self.old number }
        ensures rows { let row = slice_index_or self.old.rows number [] in
            self.new ≡ record self.old { rows = slice_set self.old.rows number (slice_set row place cell) } }
        ensures moves { Spends 1 1 moves.old moves.new }
    {
        let start = self.extents[number as usize].start as usize;
        self.cells[start + place] = cell;
        moves.count(1);
    }

    /// Replaces a row. `in_use` names the rows that have cells. The moves are the cells that are written and, if the rows are
    /// packed, the rows that are looked at. A row that is no longer than the old one is written over it. A longer one is, too,
    /// if the old one has enough free cells.
    pub fn replace(&mut self, number: u16, row: &[T], in_use: &[u16], moves: &mut Moves)
        requires number { number < length self.old.rows }
        requires fits { cells_in self.old.rows + length row.now ≤ self.old.cell_limit + size_at self.old number }
        requires named { NamesRows (map length self.old.rows) in_use.now }
        ensures { (moved : ℕ)
            × IsReplaced self.old number row.now (length row.now) (length in_use.now) self.new moved
            × Spends moved moved moves.old moves.new }
    {
        if row.is_empty() {
            self.remove_row(number);
            return;
        }
        let before = self.extents[number as usize];
        if row.len() <= before.length as usize + before.free as usize {
            write_over(
                &mut self.extents,
                &mut self.cells,
                number as usize,
                before,
                row,
            );
            self.used = self.used - before.length as usize + row.len();
            moves.count(row.len());
        } else {
            self.write_behind(number, row, in_use, moves);
        }
    }

    /// Inserts a cell into a row. `in_use` names the rows that have cells. If the row has a free cell, the moves are the new
    /// cell and those after it. Otherwise they are those of a replacement.
    pub fn insert(&mut self, number: u16, place: usize, cell: T, in_use: &[u16], moves: &mut Moves)
        requires number { number < length self.old.rows }
        requires place { place ≤ size_at self.old number }
        requires fits { cells_in self.old.rows < self.old.cell_limit }
        requires named { NamesRows (map length self.old.rows) in_use.now }
        ensures { let row = insert (slice_index_or self.old.rows number []) place cell in
            let own = size_at self.old number - place + 1 in
            (moved : ℕ)
            × IsReplaced self.old number row own (length in_use.now) self.new moved
            × Spends moved moved moves.old moves.new }
    {
        let before = self.extents[number as usize];
        if before.free > 0 {
            insert_over(
                &mut self.extents,
                &mut self.cells,
                &mut self.spare,
                number as usize,
                before,
                place,
                cell,
            );
            self.used += 1;
            moves.count(before.length as usize - place + 1);
        } else {
            self.insert_behind(number, place, cell, in_use, moves);
        }
    }

    /// Replaces a row by a longer one, after the last cell.
    fn write_behind(&mut self, number: u16, row: &[T], in_use: &[u16], moves: &mut Moves)
        requires number { number < length self.old.rows }
        requires longer { size_at self.old number < length row.now }
        requires fits { cells_in self.old.rows + length row.now ≤ self.old.cell_limit + size_at self.old number }
        requires named { NamesRows (map length self.old.rows) in_use.now }
        ensures rows { self.new ≡ with_row self.old number row.now }
        ensures moves { let moved = moved_for self.old number row.now (length in_use.now) in
            Spends moved moved moves.old moves.new }
    {
        let size = self.cell_limit + self.cell_limit / 4 + self.extents.len();
        let forgotten = self.extents[number as usize].length as usize;
        self.extents[number as usize] = extent_at(0, 0);
        make_space_for(
            &mut self.extents,
            &mut self.cells,
            &mut self.spare,
            row.len(),
            size,
            in_use,
            moves,
        );
        self.spare.clear();
        self.extents[number as usize] = extent_at(self.cells.len(), row.len());
        self.cells.extend_from_slice(row).unwrap();
        self.used = self.used - forgotten + row.len();
        moves.count(row.len());
    }

    /// Replaces a row by the row with one cell more, after the last cell.
    fn insert_behind(
        &mut self,
        number: u16,
        place: usize,
        cell: T,
        in_use: &[u16],
        moves: &mut Moves,
    )
        requires number { number < length self.old.rows }
        requires place { place ≤ size_at self.old number }
        requires fits { cells_in self.old.rows < self.old.cell_limit }
        requires named { NamesRows (map length self.old.rows) in_use.now }
        ensures rows { let row = insert (slice_index_or self.old.rows number []) place cell in self.new ≡ with_row self.old number row }
        ensures moves { let row = insert (slice_index_or self.old.rows number []) place cell in
            let moved = moved_for self.old number row (length in_use.now) in
            Spends moved moved moves.old moves.new }
    {
        let size = self.cell_limit + self.cell_limit / 4 + self.extents.len();
        let before = self.extents[number as usize];
        let count = before.length as usize + 1;
        self.extents[number as usize] = extent_at(0, 0);
        let is_packed = make_space_for(
            &mut self.extents,
            &mut self.cells,
            &mut self.spare,
            count,
            size,
            in_use,
            moves,
        );
        self.extents[number as usize] = extent_at(self.cells.len(), count);
        append_longer(
            &mut self.cells,
            &mut self.spare,
            is_packed,
            before,
            place,
            cell,
        );
        self.spare.clear();
        self.used += 1;
        moves.count(count);
    }
}

/// The law `MovesArePaid`: the moves of replaced rows are in proportion to their own cells.
pub fn moves_are_paid<T>()
    ensures { MovesArePaid T }
{}
