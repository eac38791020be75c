// What every set of journals means, and how each call moves it.
ghost use Rattle.std.specs.Prelude.{◌≡◌, ℕ, ◌≤◌, true, List, [], length};
ghost use Rattle.journals.specs.Calls.{append_answer, append_after, read_answer, count_answer};
ghost use Rattle.journals.specs.Codes.{is_code};
ghost use Rattle.std.specs.List.{AllByRecursion};

use crate::fault::JournalsFault;

pub trait Journals {
    // The codes that each ledger wrote, the oldest first.
    ghost entries: { Self → ℕ → List ℕ };

    // Adds the code at the end of the ledger's list.
    fn append(&mut self, ledger: u8, code: u8) -> Result<(), JournalsFault>
        ensures answer { result ≡ append_answer (entries self.old) ledger code }
        ensures after { entries self.new ≡ append_after (entries self.old) ledger code };

    // The code at a place of the ledger's list.
    fn read(&self, ledger: u8, place: usize) -> Result<u8, JournalsFault>
        ensures { result ≡ read_answer (entries self.now) ledger place };

    // The length of the ledger's list.
    fn count(&self, ledger: u8) -> Result<usize, JournalsFault>
        ensures { result ≡ count_answer (entries self.now) ledger };

    ghost short: { (j : Self) (p : ℕ) → length (entries j p) ≤ 8 };

    ghost known: { (j : Self) (p : ℕ) → AllByRecursion (λ c. is_code c ≡ true) (entries j p) };

    ghost bounded: { (j : Self) (p : ℕ) → 8 ≤ p → entries j p ≡ [] };
}
