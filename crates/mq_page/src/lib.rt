//! The module for WebAssembly of the page: it lists, converts, replays and checks a capture in its memory.
//!
//! - The data that cross: `answer`, `settings`, `chosen`, and the faults with their statuses and sentences: `page_fault`,
//!   `statuses`, `status_faults`, `sentence`.
//! - The memory of the page for the work: `work_room`, `text_room`. The result of a call: `telling`.
//! - The calls: `listing`, `conversion`, `replays`, `checks`. Their functions for the page: `exports`.
#![tactic(auto)]

mod answer;
mod checks;
mod chosen;
mod conversion;
mod exports;
mod listing;
mod page_fault;
mod replays;
mod sentence;
mod settings;
mod status_faults;
mod statuses;
mod telling;
mod text_room;
mod work_room;
