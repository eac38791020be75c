// How a tape is made, written and read.
ghost use Rattle.std.specs.Prelude.{◌≡◌, ◌<◌, true, [], ◌∷◌, ◌++◌, map, length, is_ok, if◌then◌else◌};
ghost use Rattle.std.proofs.Common.{ap};
ghost use Rattle.journals.specs.Calls.{append_after, append_answer, with_entry};
ghost use Rattle.tape.specs.Records.{is_record};
ghost use Rattle.tape.specs.Tape.{entries_of, records_of};
ghost use Rattle.tape.specs.RecordFacts.{at_most_8, codes_known, none_past};
ghost use Rattle.tape.specs.declared.records.Record.{Record};

use crate::Tape;
use crate::records::{Record, Track, code_at};
use arrayvec::ArrayVec;
use journals::fault::{JournalsFault, JournalsRefusal};
use journals::limits::{ENTRIES, LEDGERS, check_ledger, known_entry};
use journals::set::Journals;
use ledgers::ledger::Ledger;

impl Tape {
    // A tape on which no ledger has written.
    pub fn new() -> Tape
        ensures { records_of result ≡ [] }
    {
        let records = ArrayVec::new();
        let tracks = [Track::default(); LEDGERS];
        Tape { records, tracks }
    }

    // How many records the tape has.
    pub fn len(&self) -> usize
        ensures { result ≡ length (records_of self.now) }
    {
        self.records.len()
    }

    fn count_of(&self, ledger: Ledger) -> usize
        ensures { result ≡ length (entries_of self.now ledger.number) }
    {
        self.tracks[ledger.index()].count
    }

    // Every record comes in here: at most eight of each ledger, so that the 64 places suffice.
    #[tactic(auto, using(crate::proofs::TapeFacts::space))]
    pub(super) fn push(&mut self, new: Record)
        requires { (is_record new ≡ true) × (length (entries_of self.old new.ledger) < 8) }
        ensures records { records_of self.new ≡ records_of self.old ++ (new ∷ []) }
        ensures entries { entries_of self.new ≡ with_entry (entries_of self.old) new.ledger new.code }
    {
        let ledger = new.ledger as usize;
        let track = Track {
            count: self.tracks[ledger].count + 1,
            latest: Some(self.len()),
        };
        self.records.push(new);
        self.tracks[ledger] = track;
    }
}

impl Journals for Tape {
    ghost entries = { entries_of };

    ghost short = { λ j p. at_most_8 (records_of j) j.kept p };

    ghost known = { λ j p. codes_known (records_of j) j.kept p };

    ghost bounded = { λ j p past. ap (map (λ (r : Record). r.code)) (none_past (records_of j) j.kept p past) };

    fn append(&mut self, ledger: u8, code: u8) -> Result<(), JournalsFault>
        ensures answer { result ≡ append_answer (entries_of self.old) ledger code }
        ensures after { entries_of self.new ≡ append_after (entries_of self.old) ledger code }
        ensures records { records_of self.new ≡ (if is_ok result then records_of self.old ++ (record { ledger = ledger; code = code } ∷ []) else records_of self.old) }
    {
        let known = check_ledger(ledger)?;
        known_entry(ledger, code)?;
        if self.count_of(known) >= ENTRIES {
            return Err(JournalsFault::of(ledger, JournalsRefusal::JournalFull));
        }
        self.push(Record { ledger, code });
        Ok(())
    }

    fn read(&self, ledger: u8, place: usize) -> Result<u8, JournalsFault> {
        check_ledger(ledger)?;
        let code = code_at(self.records.as_slice(), ledger, place);
        code.ok_or(JournalsFault::of(ledger, JournalsRefusal::NothingThere))
    }

    fn count(&self, ledger: u8) -> Result<usize, JournalsFault> {
        Ok(self.count_of(check_ledger(ledger)?))
    }
}
