//! Numbers in pages: a list of lists, each with a fixed room.

ghost use Rattle.std.specs.Prelude.{◌≡◌, ◌+◌, ◌-◌, ◌*◌, ◌<◌, ◌≤◌, [], ◌∷◌, ◌++◌, length, map, take, drop, min, sum, slice_index, slice_index_or, slice_set, vec_capacity, not, IfOk, IfErr, IsTrue, is_ok};
ghost use Rattle.std.specs.List.{All, insert, remove};
ghost use Rattle.std.specs.contracts.vec.Vec as page;
ghost use denote.Builtin.{u16};
ghost use Rattle.mq_arena.specs.Vectors.{IsSize, bytes_for, item_bytes, Takes};
ghost use Rattle.mq_count.specs.Spending.{Spends};
ghost use Rattle.mq_sets.specs.Ascending.{IsAscending};
ghost use Rattle.mq_sets.specs.Search.{bitlen, IsPlaceFor};
ghost use Rattle.mq_sets.specs.Sizes.{bytes_of_pages};
ghost use Rattle.mq_sets.specs.NumberedKeys.{PagesState, AreFilled, IsTaken, above_least, first_key, joined, key_at, number_at, numbers_in, rank_of, moved_behind, moved_by_split, moved_by_insert, moved_by_remove};

use crate::firsts::search;
use crate::inserting::insert_at_once;
use crate::memory::Memory;
use crate::spots::Spot;
use mq_arena::{VectorSource, both_sizes, times_size, vector_size};
use mq_count::{Key, Meter, Moves};
use std::alloc::{Allocator, Global};
use std::marker::Model;

/// The room of a page, in numbers.
pub(crate) const PAGE_ROOM: usize = 511;
/// The fewest numbers that two neighbouring pages have together.
pub(crate) const TWO_PAGES: usize = 256;
/// The numbers of a page if all are written anew.
const FILLED_TO: usize = 384;
/// The numbers that stay in a full page that is split.
const FIRST_HALF: usize = 255;

/// Pages of numbers. A contract sees the numbers of each page, and the greatest number of pages. `with_room` allocates
/// for all of them, and no other call allocates.
#[derive(Drop)]
pub(crate) struct Pages<A: Allocator = Global> {
    used: Vec<Vec<u16, A>, A>,
    // Empty pages that aren't in the list.
    spare: Vec<Vec<u16, A>, A>,
}

impl<A: Allocator> Model for Pages<A> {
    ghost use Rattle.std.specs.Prelude.{◌≡◌, ◌+◌, ◌≤◌, [], length, map, vec_capacity};
    ghost use Rattle.std.specs.List.{All};
    ghost use Rattle.mq_sets.specs.NumberedKeys.{PagesState};

    ghost Value = { PagesState };

    ghost view = { λ s. record { pages = map (λ page. page.items) s.used.items; limit = length s.used.items + length s.spare.items } };

    ghost invariant = { λ s. All (λ page. (511 ≤ vec_capacity page) × (length page.items ≤ 511)) s.used.items
        × All (λ page. (511 ≤ vec_capacity page) × (page.items ≡ [])) s.spare.items
        × (length s.used.items + length s.spare.items ≤ vec_capacity s.used)
        × (length s.used.items + length s.spare.items ≤ vec_capacity s.spare) };
}

/// Returns `count` empty pages, in a vector with room for `limit`. Fails with `Memory` if memory is refused.
fn empty_pages<A: Allocator, M: VectorSource<A>>(
    memory: &mut M,
    count: usize,
    limit: usize,
) -> Result<Vec<Vec<u16, A>, A>, Memory>
    requires within { count ≤ limit }
    ensures empty { IfOk result (λ v. All (λ page. (511 ≤ vec_capacity page) × (page.items ≡ [])) v.items) }
    ensures count { IfOk result (λ v. (length v.items ≡ count) × (limit ≤ vec_capacity v)) }
    ensures memory { Takes (bytes_for (item_bytes (page.the_row u16 A.row ⟦<A as Allocator>⟧)) limit + count * bytes_for 2 511) (M.less_than memory.old) (M.less_than memory.new) (is_ok result) }
{
    let mut pages = memory.with_capacity(limit)?;
    for _ in 0..count {
        pages.push(memory.with_capacity(PAGE_ROOM)?)?;
    }
    Ok(pages)
}

impl<A: Allocator> Pages<A> {
    /// Returns the bytes that `with_room` allocates, or None if no memory has as many.
    pub(crate) fn size(limit: usize) -> Option<usize>
        ensures { IsSize (bytes_of_pages (item_bytes (page.the_row u16 A.row ⟦<A as Allocator>⟧)) limit) result }
    {
        both_sizes(
            times_size(2, vector_size::<Vec<u16, A>>(limit)),
            times_size(limit, vector_size::<u16>(PAGE_ROOM)),
        )
    }

    /// Returns one empty page, with memory for `limit` pages. Fails with `Memory` if memory is refused.
    #[tactic(auto, unfolding(crate::specs::Sizes::bytes_of_pages))]
    pub(crate) fn with_room<M: VectorSource<A>>(
        memory: &mut M,
        limit: usize,
    ) -> Result<Pages<A>, Memory>
        requires some { 1 ≤ limit }
        ensures pages { IfOk result (λ s. s ≡ record { pages = [] ∷ []; limit = limit }) }
        ensures memory { Takes (bytes_of_pages (item_bytes (page.the_row u16 A.row ⟦<A as Allocator>⟧)) limit) (M.less_than memory.old) (M.less_than memory.new) (is_ok result) }
    {
        Ok(Pages {
            used: empty_pages(memory, 1, limit)?,
            spare: empty_pages(memory, limit - 1, limit)?,
        })
    }
}

impl<A: Allocator> Pages<A> {
    /// Returns the number of pages.
    pub(crate) fn count(&self) -> usize
        ensures { result ≡ length self.now.pages }
    {
        self.used.len()
    }

    /// Returns the numbers of a page.
    pub(crate) fn page(&self, page: usize) -> &[u16]
        requires page { page < length self.now.pages }
        ensures numbers { result.now ≡ slice_index_or self.now.pages page [] }
        ensures within { length result.now ≤ 511 }
    {
        self.used[page].as_slice()
    }

    /// Returns the page whose first number has `key`, other than the first page. Otherwise returns as an `Err` the page
    /// to which the key belongs.
    fn page_of<K: Key>(&self, keys: &[K], key: K, m: &mut Meter) -> Result<usize, usize>
        requires filled { AreFilled (map length self.now.pages) }
        requires ascending { IsAscending (key_at K.number keys.now) (numbers_in self.now.pages) }
        requires within { All (λ n. n < length keys.now) (numbers_in self.now.pages) }
        ensures found { IfOk result (λ page. (1 ≤ page) × (page < length self.now.pages)
            × (first_key (key_at K.number keys.now) (slice_index_or self.now.pages page []) ≡ K.number key)) }
        ensures absent { IfErr result (λ page. (page < length self.now.pages)
            × IsPlaceFor (first_key (key_at K.number keys.now)) (drop 1 self.now.pages) (K.number key) page) }
        ensures spent { let others = length self.now.pages - 1 in Spends (min 1 others) (bitlen others) m.old m.new }
    {
        match search(keys, &self.used[1..], key, m) {
            Ok(behind) => Ok(behind + 1),
            Err(page) => Err(page),
        }
    }

    /// Returns the spot of the number that has `key`, or as an `Err` the spot where it would go.
    pub(crate) fn find<K: Key>(&self, keys: &[K], key: K, m: &mut Meter) -> Result<Spot, Spot>
        requires filled { AreFilled (map length self.now.pages) }
        requires ascending { IsAscending (key_at K.number keys.now) (numbers_in self.now.pages) }
        requires within { All (λ n. n < length keys.now) (numbers_in self.now.pages) }
        ensures there { IfOk result (λ spot. IsTaken self.now.pages spot) }
        ensures found { IfOk result (λ spot. key_at K.number keys.now (number_at self.now.pages spot) ≡ K.number key) }
        ensures page { IfErr result (λ spot. spot.page < length self.now.pages) }
        ensures place { IfErr result (λ spot. spot.place ≤ length (slice_index_or self.now.pages spot.page [])) }
        ensures goes { IfErr result (λ spot. IsPlaceFor (key_at K.number keys.now) (numbers_in self.now.pages) (K.number key)
            (rank_of (map length self.now.pages) spot)) }
        ensures spent { let count = length (numbers_in self.now.pages) in
            Spends (min 1 count) (bitlen count + 2) m.old m.new }
    {
        match self.page_of(keys, key, m) {
            Ok(page) => Ok(Spot { page, place: 0 }),
            Err(page) => match search(keys, self.page(page), key, m) {
                Ok(place) => Ok(Spot { page, place }),
                Err(place) => Err(Spot { page, place }),
            },
        }
    }

    /// Returns the number at a spot.
    pub(crate) fn number(&self, spot: Spot) -> u16
        requires { IsTaken self.now.pages spot }
        ensures { result ≡ number_at self.now.pages spot }
    {
        self.page(spot.page)[spot.place]
    }

    /// Puts a number at a place of a page that isn't full.
    fn put_in(&mut self, page: usize, place: usize, number: u16, moves: &mut Moves)
        requires page { page < length self.old.pages }
        requires place { place ≤ length (slice_index_or self.old.pages page []) }
        requires room { length (slice_index_or self.old.pages page []) < 511 }
        ensures pages { self.new ≡ record self.old {
          pages = slice_set self.old.pages page (insert (slice_index_or self.old.pages page []) place number);
        } }
        ensures moved { let moved = moved_behind (length (slice_index_or self.old.pages page [])) place in
            Spends moved moved moves.old moves.new }
    {
        let numbers = &mut self.used[page];
        insert_at_once(numbers, place, number);
        moves.count(numbers.len() - place);
    }

    /// Splits a full page in two, and returns the second.
    fn split(&mut self, page: usize, moves: &mut Moves) -> usize
        requires page { page < length self.old.pages }
        requires full { length (slice_index_or self.old.pages page []) ≡ 511 }
        requires room { length self.old.pages < self.old.limit }
        ensures pages { let full = slice_index_or self.old.pages page [] in
            self.new ≡ record self.old {
              pages = insert (slice_set self.old.pages page (take 255 full)) (page + 1) (drop 255 full);
            } }
        ensures second { result ≡ page + 1 }
        ensures moved { let moved = 256 + (length self.old.pages - page) in
            Spends moved moved moves.old moves.new }
    {
        let mut behind = self.spare.pop().unwrap();
        halve(&mut self.used[page], &mut behind);
        self.used.insert(page + 1, behind).unwrap();
        moves.count(PAGE_ROOM - FIRST_HALF + (self.used.len() - page - 1));
        page + 1
    }

    /// Puts a number at a spot. A full page becomes two.
    pub(crate) fn put(&mut self, spot: Spot, number: u16, moves: &mut Moves)
        requires page { spot.page < length self.old.pages }
        requires place { spot.place ≤ length (slice_index_or self.old.pages spot.page []) }
        requires filled { AreFilled (map length self.old.pages) }
        requires room { length (numbers_in self.old.pages) < 128 * self.old.limit }
        ensures numbers { numbers_in self.new.pages
            ≡ insert (numbers_in self.old.pages) (rank_of (map length self.old.pages) spot) number }
        ensures filled { AreFilled (map length self.new.pages) }
        ensures limit { self.new.limit ≡ self.old.limit }
        ensures moved { let moved = moved_by_insert (map length self.old.pages) spot in
            Spends moved moved moves.old moves.new }
    {
        if self.page(spot.page).len() < PAGE_ROOM {
            self.put_in(spot.page, spot.place, number, moves);
        } else {
            self.put_in_half(spot, number, moves);
        }
    }

    /// Puts a number at a spot of a full page, which becomes two.
    fn put_in_half(&mut self, spot: Spot, number: u16, moves: &mut Moves)
        requires page { spot.page < length self.old.pages }
        requires place { spot.place ≤ 511 }
        requires full { length (slice_index_or self.old.pages spot.page []) ≡ 511 }
        requires filled { AreFilled (map length self.old.pages) }
        requires room { length (numbers_in self.old.pages) < 128 * self.old.limit }
        ensures numbers { numbers_in self.new.pages
            ≡ insert (numbers_in self.old.pages) (rank_of (map length self.old.pages) spot) number }
        ensures filled { AreFilled (map length self.new.pages) }
        ensures limit { self.new.limit ≡ self.old.limit }
        ensures moved { let moved = moved_by_split (length self.old.pages) spot in
            Spends moved moved moves.old moves.new }
    {
        let second = self.split(spot.page, moves);
        if spot.place <= FIRST_HALF {
            self.put_in(spot.page, spot.place, number, moves);
        } else {
            self.put_in(second, spot.place - FIRST_HALF, number, moves);
        }
    }

    /// Removes the number at a spot. Two neighbours with few numbers left become one page.
    pub(crate) fn remove(&mut self, spot: Spot, moves: &mut Moves)
        requires taken { IsTaken self.old.pages spot }
        requires filled { AreFilled (map length self.old.pages) }
        ensures numbers { numbers_in self.new.pages
            ≡ remove (numbers_in self.old.pages) (rank_of (map length self.old.pages) spot) }
        ensures filled { AreFilled (map length self.new.pages) }
        ensures limit { self.new.limit ≡ self.old.limit }
        ensures moved { Spends 1 (1022 + length self.old.pages) moves.old moves.new }
        ensures exact { let moved = moved_by_remove (map length self.old.pages) spot in
            Spends moved moved moves.old moves.new }
    {
        self.take_out(spot, moves);
        if self.must_join(spot.page) {
            self.join(spot.page, moves);
        } else if spot.page > 0 && self.must_join(spot.page - 1) {
            self.join(spot.page - 1, moves);
        }
    }

    /// Replaces all numbers by these, in order. Each page but the last is three quarters full.
    pub(crate) fn fill(&mut self, numbers: &[u16], moves: &mut Moves)
        requires some { 1 ≤ self.old.limit }
        requires room { length numbers.now ≤ 128 * self.old.limit }
        ensures numbers { numbers_in self.new.pages ≡ numbers.now }
        ensures filled { AreFilled (map length self.new.pages) }
        ensures limit { self.new.limit ≡ self.old.limit }
        ensures moved { let moved = length self.old.pages + length numbers.now + length self.new.pages in
            Spends moved moved moves.old moves.new }
    {
        self.clear(moves);
        let mut done = numbers.len().min(FILLED_TO);
        self.append(&numbers[..done], moves);
        while done < numbers.len() {
            let next = (done + FILLED_TO).min(numbers.len());
            self.append(&numbers[done..next], moves);
            done = next;
        }
    }

    /// Removes all pages.
    fn clear(&mut self, moves: &mut Moves)
        ensures pages { self.new ≡ record self.old { pages = [] } }
        ensures moved { let moved = length self.old.pages in Spends moved moved moves.old moves.new }
    {
        moves.count(self.used.len());
        while let Some(mut page) = self.used.pop() {
            page.clear();
            self.spare.push(page).unwrap();
        }
    }

    /// Appends a page with these numbers.
    fn append(&mut self, numbers: &[u16], moves: &mut Moves)
        requires room { length self.old.pages < self.old.limit }
        requires within { length numbers.now ≤ 511 }
        ensures pages { self.new ≡ record self.old { pages = self.old.pages ++ numbers.now ∷ [] } }
        ensures moved { let moved = length numbers.now + 1 in Spends moved moved moves.old moves.new }
    {
        let mut page = self.spare.pop().unwrap();
        page.extend_from_slice(numbers).unwrap();
        self.used.push(page).unwrap();
        moves.count(numbers.len() + 1);
    }

    /// Removes the number at a spot, and changes nothing else.
    fn take_out(&mut self, spot: Spot, moves: &mut Moves)
        requires taken { IsTaken self.old.pages spot }
        ensures pages { self.new ≡ record self.old {
          pages = slice_set self.old.pages spot.page (remove (slice_index_or self.old.pages spot.page []) spot.place);
        } }
        ensures moved { let moved = length (slice_index_or self.old.pages spot.page []) - spot.place in
            Spends moved moved moves.old moves.new }
    {
        let numbers = &mut self.used[spot.page];
        moves.count(numbers.len() - spot.place);
        numbers.remove(spot.place);
    }

    /// Returns whether a page and the next must become one: one is empty, or both together have too few numbers.
    fn must_join(&self, page: usize) -> bool
        requires page { page < length self.now.pages }
        ensures yes { IsTrue result → (page + 1 < length self.now.pages) × (above_least (map length self.now.pages) page ≡ 0) }
        ensures no { IsTrue (not result) → page + 1 < length self.now.pages → 1 ≤ above_least (map length self.now.pages) page }
    {
        if self.count() - page == 1 {
            return false;
        }
        let behind = page + 1;
        let (first, second) = (self.page(page).len(), self.page(behind).len());
        first == 0 || second == 0 || first + second < TWO_PAGES
    }

    /// Joins a page and the next.
    fn join(&mut self, page: usize, moves: &mut Moves)
        requires behind { page + 1 < length self.old.pages }
        requires fits { length (slice_index_or self.old.pages page []) + length (slice_index_or self.old.pages (page + 1) []) ≤ 511 }
        ensures pages { self.new ≡ record self.old { pages = joined self.old.pages page } }
        ensures moved { let moved = length (slice_index_or self.old.pages (page + 1) []) + (length self.old.pages - 1 - page) in
            Spends moved moved moves.old moves.new }
    {
        let mut behind = self.used.remove(page + 1);
        moves.count(behind.len() + (self.used.len() - page));
        self.used[page]
            .extend_from_slice(behind.as_slice())
            .unwrap();
        behind.clear();
        self.spare.push(behind).unwrap();
    }
}

/// Moves the numbers after the first half of a full page into an empty page.
fn halve<A: Allocator>(full: &mut Vec<u16, A>, behind: &mut Vec<u16, A>)
    requires full { length full.old.items ≡ 511 }
    requires empty { behind.old.items ≡ [] }
    requires room { 511 ≤ vec_capacity behind.old }
    ensures first { full.new.items ≡ take 255 full.old.items }
    ensures behind { behind.new.items ≡ drop 255 full.old.items }
    ensures capacity { vec_capacity full.old ≤ vec_capacity full.new }
    ensures capacity_behind { vec_capacity behind.old ≤ vec_capacity behind.new }
{
    behind.extend_from_slice(&full[FIRST_HALF..]).unwrap();
    full.truncate(FIRST_HALF);
}
