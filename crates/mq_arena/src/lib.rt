//! An allocator over caller-provided memory.
//!
//! ```text
//! let arena = Arena::new(memory);                  // memory: &'static mut [u128]
//! let numbers = Vec::with_capacity(&arena, 100)?;  // takes 400 bytes from the front
//! ```
//!
//! - The allocator: `Arena`.
//! - Memory from C: `LentMemory`.
//! - The rest of the memory, and the requests that it grants: `Unused`.
//! - A vector of fixed capacity, or a value for good, in a block of the rest: `Unused::vec_with_capacity`, `place`.
//! - The sufficient size: `block_size`, and the law `granted_in_turn`.
//! - Sources of vectors: `VectorSource`, for an allocator `OfAllocator`; the bytes of a vector: `vector_size`.
#![tactic(auto)]

mod arenas;
mod lent_memory;
mod lent_vectors;
mod slot;
mod unused_memory;
mod vectors;

pub use arenas::Arena;
pub use lent_memory::LentMemory;
pub use std_alloc::vec::Lodged;
pub use unused_memory::{Unused, block_size, granted_in_turn};
pub use vectors::{OfAllocator, VectorSource, both_sizes, filled, times_size, vector_size};
