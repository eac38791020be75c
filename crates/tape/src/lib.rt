// The tape: a set of journals that keeps one list of records for all ledgers.
#![tactic(auto)]

ghost use Rattle.std.specs.Prelude.{◌≡◌, ℕ, ◌<◌, true, length, slice_index_or};
ghost use Rattle.tape.specs.Records.{lawful, no_track, track_of};

use arrayvec::ArrayVec;
use journals::limits::LEDGERS;
use records::{Record, Track};

mod bytes;
mod calls;
mod records;

// The most records: eight of each of eight ledgers.
pub const RECORDS: usize = 64;

// The bytes of one record.
pub const RECORD_BYTES: usize = 4;

// The most bytes that a tape has.
pub const TAPE_BYTES: usize = 256;

#[derive(Drop)]
pub struct Tape {
    // The oldest first.
    records: ArrayVec<Record, RECORDS>,
    // Beside the records, what they tell of each ledger, so that no call has to count them.
    tracks: [Track; LEDGERS],
    ghost whole: { length tracks ≡ 8 },
    ghost kept: { lawful records.items ≡ true },
    ghost tracked: { ((p : ℕ) → p < 8 → slice_index_or tracks p no_track ≡ track_of p records.items) },
}
