//! Facts that a test requires.

use std::process::Abort;

/// Ends the test with these words if the fact does not hold.
pub fn expect_that(rt: &impl Abort, holds: bool, words: &str) {
    assert!(rt; holds, "{words}");
}

/// Ends the test if something is wrong, with the words of the row, and of the fact that does not hold.
pub fn expect_none_wrong(rt: &impl Abort, wrong: Option<&'static str>, row: &str) {
    if let Some(fact) = wrong {
        panic!(rt; "{row}: {fact}");
    }
}

/// Ends the test if something is wrong, with the number of the row, and the words of the fact that does not hold.
pub fn expect_none_wrong_at(rt: &impl Abort, wrong: Option<&'static str>, row: usize) {
    if let Some(fact) = wrong {
        panic!(rt; "{row}: {fact}");
    }
}
