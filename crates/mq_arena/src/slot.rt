// A cell that holds the rest of an arena's memory. Its value is the size of all of the memory, in bytes.
ghost use Rattle.std.specs.Prelude.{◌≡◌, ◌≤◌, ℕ};
ghost use base.Fml.{fex, fsep, ftrue};
ghost use Rattle.mq_arena.specs.Ownership.{behind_a_ref};

use crate::unused_memory::Unused;
use std::marker::{Move, Owns};

#[derive(Drop)]
pub(crate) struct Slot {
    unused: Unused,
}

impl Owns for Slot {
    ghost Value = { ℕ };

    ghost shr_at = { λ n. behind_a_ref Fields (λ i. fex (i.unused ≤ n) (λ _. ftrue)) };
}

impl Move for Slot {
    ghost own_val = { λ n vs. fex Inside (λ i. fsep (Fields.own_val i vs) (fex (i.unused ≤ n) (λ _. ftrue))) };
}

impl Slot {
    pub(crate) fn new(unused: Unused) -> Slot
        ensures { result ≡ unused.entry }
    {
        Slot { unused }
    }

    pub(crate) fn replace(&self, unused: Unused) -> Unused
        requires { unused ≤ self.now }
        ensures { result ≤ self.now }
    {
        let place = &raw const self.unused as *mut Unused;
        unsafe {
            let old = place.read();
            place.write(unused);
            old
        }
    }
}
