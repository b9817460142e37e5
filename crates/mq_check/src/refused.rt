//! Groups that a check doesn't judge, since its own link refused a record about them.

ghost use Rattle.std.specs.Prelude.{◌≡◌, ◌==◌, [], IfOk, fold, is_ok, map as list_map};
ghost use Rattle.std.specs.List.{list_any};
ghost use Rattle.mq_arena.specs.Vectors.{Takes};
ghost use Rattle.mq_check.specs.Checking as checks;
ghost use Rattle.mq_check.specs.Numbered.{numbered_entry};
ghost use Rattle.mq_check.specs.Refused as spec;
ghost use Rattle.mq_check.specs.Sizes.{bytes_of_refused};

use crate::asked::Asked;
use crate::checking::Checking;
use crate::entry::Entry;
use mq_arena::VectorSource;
use mq_link::{Family, Received};
use mq_wire::{Message, Records};
use std::alloc::{AllocError, Allocator};
use std::marker::Model;

/// The most groups that are kept apart.
const ROOM: usize = 256;

/// The groups that aren't judged, in the order in which the link refused records about them. If there is no room for more,
/// no group is judged. `new` allocates all memory.
#[derive(Drop)]
pub(crate) struct Refused<F: Family, A: Allocator> {
    groups: Vec<F::Address, A>,
}

impl<F: Family, A: Allocator> Model for Refused<F, A> {
    ghost use Rattle.std.specs.Prelude.{◌≡◌, ℕ, List, map as list_map, vec_capacity};

    ghost Value = { List ℕ };

    ghost view = { λ r. list_map F.Address.number r.groups.items };

    ghost invariant = { λ r. vec_capacity r.groups ≡ 256 };
}

/// Returns whether the link refused a record of a datagram.
fn has_refused(received: Received) -> bool
    ensures { result ≡ spec.has_refused received }
{
    match received {
        Received::Taken { refused, .. } => 0 < refused,
        Received::Dropped(_) => false,
    }
}

impl<F: Family, A: Allocator> Refused<F, A> {
    /// Returns no groups, with all memory allocated from `memory`.
    pub(crate) fn new<M: VectorSource<A>>(memory: &mut M) -> Result<Refused<F, A>, AllocError>
        ensures none { IfOk result (λ r. r ≡ []) }
        ensures memory { Takes (bytes_of_refused F.Address.row) (M.less_than memory.old) (M.less_than memory.new) (is_ok result) }
    {
        Ok(Refused {
            groups: memory.with_capacity(ROOM)?,
        })
    }

    /// Returns whether no group is judged.
    pub(crate) fn is_crowded(&self) -> bool
        ensures { result ≡ spec.is_crowded self.now }
    {
        ROOM <= self.groups.len()
    }

    /// Returns whether a group is one of them.
    fn has(&self, group: F::Address) -> bool
        ensures { result ≡ list_any (λ other. other == F.Address.number group) self.now }
    {
        for place in 0..self.groups.len() {
            if F::is_same(self.groups[place], group) {
                return true;
            }
        }
        false
    }

    /// Returns whether a group isn't judged.
    fn is_refused(&self, group: F::Address) -> bool
        ensures { result ≡ spec.is_refused self.now (F.Address.number group) }
    {
        self.is_crowded() || self.has(group)
    }

    /// Returns whether the subject of an entry isn't judged.
    pub(crate) fn leaves_out(&self, entry: &Entry<F::Address>) -> bool
        ensures { result ≡ spec.is_left_out self.now (numbered_entry F.Address.number entry.now) }
    {
        match entry {
            Entry::Wanted(_, asked, ..) | Entry::Seen(_, asked, ..) => match *asked {
                Asked::AllGroups => false,
                Asked::Group(group) | Asked::Source(group, _) => self.is_refused(group),
            },
            _ => false,
        }
    }

    /// Takes a group from those that are judged.
    fn put(&mut self, group: F::Address)
        ensures { self.new ≡ spec.with_refused self.old (F.Address.number group) }
    {
        if !self.is_refused(group) {
            self.groups.push_reserved(group);
        }
    }

    /// Takes the groups of records from those that are judged.
    fn put_all(&mut self, records: Records<'_, F::Address>)
        ensures { self.new ≡ fold spec.with_refused self.old (list_map spec.group_in records.entry) }
    {
        for view in records {
            self.put(view.group);
        }
    }
}

impl<F: Family, A: Allocator> Checking<F, A> {
    /// Handles the answer of the link to a datagram. If it refused a record, no group of the datagram is judged.
    #[tactic(auto, unfolding(crate::specs::Refused::groups_spelled))]
    pub(crate) fn refuse(&mut self, received: Received, envelope: &F::Envelope, body: &[u8])
        ensures { self.new ≡ checks.groups_refused
            (spec.refused_by F.FAMILY received (record { envelope = F.envelope_of envelope.now; body = body.now })) self.old }
    {
        if !has_refused(received) {
            return;
        }
        match F::read(envelope, body) {
            Ok(Message::Report(records)) => self.refused.put_all(records),
            Ok(Message::Leave(group) | Message::OldReport(_, group)) => self.refused.put(group),
            _ => {}
        }
    }
}
