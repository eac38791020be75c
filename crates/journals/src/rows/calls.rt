// How the rows are made, written and read.
ghost use Rattle.std.specs.Prelude.{◌≡◌, ◌<◌, [], ◌∷◌, ◌++◌, length};
ghost use Rattle.journals.specs.Calls.{no_entries, with_entry};
ghost use Rattle.journals.specs.Codes.{code_of};
ghost use Rattle.journals.specs.Rows.{codes, entries_of};
ghost use Rattle.std.specs.List.{slice_get};
ghost use Rattle.journals.specs.RowFacts.{entries_known, entries_past, entries_short};

use super::Rows;
use crate::entry::Entry;
use crate::fault::{JournalsFault, JournalsRefusal};
use crate::limits::{ENTRIES, check_ledger, known_entry};
use crate::set::Journals;
use arrayvec::ArrayVec;
use ledgers::ledger::Ledger;

impl Rows {
    // Rows in which no ledger has written.
    pub fn new() -> Rows
        ensures { entries_of result ≡ no_entries }
    {
        let rows = Default::default();
        Rows { rows }
    }

    fn row_of(&self, ledger: Ledger) -> &ArrayVec<Entry, ENTRIES>
        ensures { codes result.now ≡ entries_of self.now ledger.number }
    {
        &self.rows[ledger.index()]
    }

    fn push(&mut self, ledger: Ledger, entry: Entry)
        requires { length (entries_of self.old ledger.number) < 8 }
        ensures { entries_of self.new ≡ with_entry (entries_of self.old) ledger.number (code_of entry) }
    {
        self.rows[ledger.index()].push(entry);
    }
}

impl Journals for Rows {
    ghost entries = { entries_of };

    ghost short = { entries_short };

    ghost known = { entries_known };

    ghost bounded = { entries_past };

    fn append(&mut self, ledger: u8, code: u8) -> Result<(), JournalsFault> {
        let known = check_ledger(ledger)?;
        let entry = known_entry(ledger, code)?;
        if self.row_of(known).is_full() {
            return Err(JournalsFault::of(ledger, JournalsRefusal::JournalFull));
        }
        self.push(known, entry);
        Ok(())
    }

    fn read(&self, ledger: u8, place: usize) -> Result<u8, JournalsFault> {
        let entry = self.row_of(check_ledger(ledger)?).get(place);
        let code = entry.map(|entry| entry.code());
        code.ok_or(JournalsFault::of(ledger, JournalsRefusal::NothingThere))
    }

    fn count(&self, ledger: u8) -> Result<usize, JournalsFault> {
        Ok(self.row_of(check_ledger(ledger)?).len())
    }
}
