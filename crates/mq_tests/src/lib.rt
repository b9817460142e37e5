//! The tests of the libraries, through their public calls alone. They are for what no vector, no run, no row of a link,
//! no worked example and no clause shows. These are the state after refused memory, streams that fail or return few
//! bytes, texts, and proofs of a caller. The tests have a crate of their own above the libraries, since a crate with
//! tests is proved twice.
//!
//! The time to prove a test grows faster than its length. So its rows are constants, and each fact is a call, which has
//! no branch in the test.
#![tactic(auto)]

#[cfg(test)]
mod arenas;
#[cfg(test)]
mod captures;
#[cfg(test)]
mod codes;
#[cfg(test)]
mod facts;
#[cfg(test)]
mod faulty;
#[cfg(test)]
mod groups;
#[cfg(test)]
mod links;
#[cfg(test)]
mod merges;
#[cfg(test)]
mod meters;
#[cfg(test)]
mod moments;
#[cfg(test)]
mod readings;
#[cfg(test)]
mod reserved;
#[cfg(test)]
mod source_sets;
#[cfg(test)]
mod storages;
#[cfg(test)]
mod streams;
#[cfg(test)]
mod table_rows;
#[cfg(test)]
mod writing;
