// How many ledgers and entries there can be, and what the calls check first.
ghost use Rattle.std.specs.Prelude.{◌≡◌, ◌<◌, ◌≤◌, true, false, MatchResult};
ghost use Rattle.journals.specs.Codes.{code_of, is_code};
ghost use Rattle.journals.specs.Refusals.{refused_for};
ghost use Rattle.journals.specs.declared.fault.JournalsRefusal.TheVariants.{UnknownCode, UnknownLedger};

use crate::entry::Entry;
use crate::fault::{JournalsFault, JournalsRefusal};
pub use ledgers::ledger::LEDGERS;
use ledgers::ledger::Ledger;

// The most entries that a ledger's journal holds.
pub const ENTRIES: usize = 8;

// The ledger of this number, if there is one.
pub fn check_ledger(ledger: u8) -> Result<Ledger, JournalsFault>
    ensures { MatchResult result (λ known. (ledger < 8) × (known.number ≡ ledger)) (λ fault. (8 ≤ ledger) × (fault ≡ refused_for ledger UnknownLedger)) }
{
    Ledger::new(ledger).ok_or(JournalsFault::of(ledger, JournalsRefusal::UnknownLedger))
}

// The entry with this code, if there is one.
pub fn known_entry(ledger: u8, code: u8) -> Result<Entry, JournalsFault>
    ensures { MatchResult result (λ entry. (is_code code ≡ true) × (code_of entry ≡ code)) (λ fault. (is_code code ≡ false) × (fault ≡ refused_for ledger UnknownCode)) }
{
    Entry::try_from(code).map_err(|_| JournalsFault::of(ledger, JournalsRefusal::UnknownCode))
}
