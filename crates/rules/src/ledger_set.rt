// Sets of ledgers.
ghost use Rattle.std.specs.Prelude.{◌≡◌, false, slice_index_or};
ghost use Rattle.rules.specs.Ledgers.{empty, first_missing, with_ledger};

use ledgers::ledger::{LEDGERS, Ledger};

// A flag for each ledger: a set is copied with its row, and asks for no memory.
#[derive(Clone, Copy, Debug, PartialEq, Eq)]
pub struct LedgerSet {
    pub members: [bool; LEDGERS],
}

impl LedgerSet {
    pub fn new() -> LedgerSet
        ensures { result ≡ empty }
    {
        LedgerSet {
            members: [false; LEDGERS],
        }
    }

    // Whether the ledger is a member; one that there is not never is.
    pub fn contains(&self, ledger: u8) -> bool
        ensures { result ≡ slice_index_or self.now.members ledger false }
    {
        self.members.get(ledger as usize).copied().unwrap_or(false)
    }

    // The set with one ledger more.
    pub fn with(self, ledger: u8) -> LedgerSet
        ensures { result ≡ with_ledger self ledger }
    {
        let mut members = self.members;
        if let Some(ledger) = Ledger::new(ledger) {
            members[ledger.index()] = true;
        }
        LedgerSet { members }
    }
}

// The lowest ledger at or after `from` and below `end` that is in neither set.
pub fn first_missing(one: LedgerSet, other: LedgerSet, from: u8, end: u8) -> Option<u8>
    ensures { result ≡ first_missing one other from end }
{
    (from..end).find(|&ledger| !(one.contains(ledger) || other.contains(ledger)))
}
