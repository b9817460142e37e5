//! Cells that items keep.

ghost use Rattle.std.specs.Prelude.{◌≡◌, ℕ, ◌+◌, ◌^◌, ◌<◌, ◌≤◌, [], ◌∷◌, List, length, min, vec_capacity};
ghost use Rattle.std.specs.List.{All};
ghost use Rattle.mq_sets.specs.Slots.{AreSlots, IsCell, item_in, items_in};

use std::alloc::Allocator;

/// Writes an item into a free cell, or into a new one after the last if none is free. Returns the cell.
pub(crate) fn fill_cell<T: Copy, A: Allocator>(
    cells: &mut Vec<T, A>,
    free: &mut Vec<u16, A>,
    item: T,
) -> u16
    requires within { All (IsCell cells.old.items) free.old.items }
    requires numbered { length free.old.items ≡ 0 → length cells.old.items < 2 ^ 16 }
    requires space { length free.old.items ≡ 0 → length cells.old.items < vec_capacity cells.old }
    ensures item { item_in cells.new.items result ≡ item ∷ [] }
    // For any cells in use: there is one more, and their items stay.
    ensures used { (order : List ℕ) → AreSlots cells.old.items order free.old.items →
        AreSlots cells.new.items (result ∷ order) free.new.items }
    ensures kept { (order : List ℕ) → AreSlots cells.old.items order free.old.items →
        items_in cells.new.items order ≡ items_in cells.old.items order }
    ensures len { length cells.new.items + min 1 (length free.old.items) ≡ length cells.old.items + 1 }
    ensures capacity { vec_capacity cells.old ≤ vec_capacity cells.new }
    ensures free_capacity { vec_capacity free.old ≤ vec_capacity free.new }
{
    match free.pop() {
        Some(cell) => {
            cells[cell as usize] = item;
            cell
        }
        None => {
            let cell = cells.len() as u16;
            cells.push(item).unwrap();
            cell
        }
    }
}
