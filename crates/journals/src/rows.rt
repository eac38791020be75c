// The rows: a set of journals that keeps one row for each ledger.
ghost use Rattle.std.specs.Prelude.{◌≡◌, ℕ, ◌≤◌, [], length, slice_index_or};

use crate::entry::Entry;
use crate::limits::{ENTRIES, LEDGERS};
use arrayvec::ArrayVec;

mod calls;

#[derive(Drop)]
pub struct Rows {
    // What each ledger wrote.
    rows: [ArrayVec<Entry, ENTRIES>; LEDGERS],
    ghost whole: { length rows ≡ 8 },
    ghost short: { (p : ℕ) → length (slice_index_or rows p (record { items = [] })).items ≤ 8 },
}
