// Records of what the ledgers wrote, and what they tell of one ledger.
ghost use Rattle.std.specs.Prelude.{◌≡◌, ◌==◌};
ghost use Rattle.tape.specs.RecordFacts.{one_ledger};
ghost use Rattle.tape.specs.Records.{codes_of};
ghost use Rattle.std.specs.List.{slice_get};

use owned::Owned;
use owned::of_owner::of_owner;

// One code that a ledger wrote.
#[derive(Clone, Copy, Default)]
pub struct Record {
    pub ledger: u8,
    pub code: u8,
}

impl Owned for Record {
    type Owner = u8;

    ghost belongs = { λ r p. r.ledger == p };

    ghost one_owner = { one_ledger };

    fn belongs_to(&self, owner: &u8) -> bool {
        self.ledger == *owner
    }
}

// What a list of records tells of one ledger.
#[derive(Clone, Copy, Default)]
pub struct Track {
    pub count: usize,
    // The number of its latest record, counted from 0.
    pub latest: Option<usize>,
}

// The code at a place of the ledger's list.
pub fn code_at(records: &[Record], ledger: u8, place: usize) -> Option<u8>
    ensures { result ≡ slice_get (codes_of ledger records.now) place }
{
    of_owner(records, &ledger).map(|r| r.code).nth(place)
}
