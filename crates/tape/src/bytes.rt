// A tape as bytes: read from them, and written to a buffer.
ghost use Rattle.std.specs.Prelude.{◌≡◌, ◌+◌, ◌/◌, ◌%◌, ◌<◌, ◌≤◌, [], ◌∷◌, ◌++◌, length, take, drop, IfOk, if◌then◌else◌, Ok};
ghost use Rattle.tape.specs.Bytes.{is_next, laid, read_tape, torn, trailer, write_after, write_answer};
ghost use Rattle.tape.specs.Records.{latest};
ghost use Rattle.tape.specs.Tape.{records_of, told};

use crate::records::Record;
use crate::{RECORD_BYTES, TAPE_BYTES, Tape};
use journals::fault::{JournalsFault, JournalsRefusal};
use journals::set::Journals;

impl Tape {
    // The number of the ledger's latest record.
    #[tactic(auto, using(crate::proofs::TapeFacts::none_latest))]
    fn latest_of(&self, ledger: u8) -> Option<usize>
        ensures { result ≡ latest ledger (records_of self.now) }
    {
        self.tracks.get(ledger as usize)?.latest
    }

    // The trailer of the ledger's next record. On a tape, a ledger's first record has the trailer 0.
    fn next_trailer(&self, ledger: u8) -> u16
        ensures { result ≡ trailer (records_of self.now) ledger }
    {
        match self.latest_of(ledger) {
            Some(earlier) => ((self.records.len() - earlier) * RECORD_BYTES) as u16,
            None => 0,
        }
    }

    // Takes four bytes as the next record, and answers whether they are one, as its definition does.
    fn read_record(&mut self, ledger: u8, code: u8, low: u8, high: u8) -> bool
        ensures answer { result ≡ is_next (records_of self.old) ledger code low high }
        ensures after { records_of self.new ≡ (if result then records_of self.old ++ (record { ledger = ledger; code = code } ∷ []) else records_of self.old) }
    {
        u16::from_le_bytes([low, high]) == self.next_trailer(ledger)
            && self.append(ledger, code).is_ok()
    }

    // The set of journals whose tape this is.
    pub fn from_bytes(bytes: &[u8]) -> Result<Tape, JournalsFault>
        ensures answer { told result ≡ torn (read_tape bytes.now) }
        ensures back { IfOk result (λ tape. laid (records_of tape) ≡ bytes.now) }
    {
        if bytes.len() > TAPE_BYTES || bytes.len() % RECORD_BYTES != 0 {
            return Err(JournalsFault::torn(bytes.len()));
        }
        let mut tape = Tape::new();
        let mut left = bytes;
        while let Some((&[ledger, code, low, high], rest)) = left.split_first_chunk::<
            RECORD_BYTES,
        >()
        {
            if !tape.read_record(ledger, code, low, high) {
                return Err(JournalsFault::torn(RECORD_BYTES * tape.len()));
            }
            left = rest;
        }
        Ok(tape)
    }

    // Lays the tape at the buffer's front, and answers how many bytes it has.
    pub fn write_to(&self, buffer: &mut [u8]) -> Result<usize, JournalsFault>
        ensures answer { result ≡ write_answer (records_of self.now) buffer.old }
        ensures after { buffer.new ≡ write_after (records_of self.now) buffer.old }
        ensures again { IfOk result (λ n. read_tape (take n buffer.new) ≡ Ok (records_of self.now)) }
    {
        let length = RECORD_BYTES * self.records.len();
        if length > buffer.len() {
            return Err(JournalsFault::of_none(JournalsRefusal::ShortList));
        }
        let mut before = Tape::new();
        // By place, and not through `chunks_exact_mut`: after that loan only the buffer's length is known.
        for next in self.records.as_slice() {
            lay_record(
                buffer,
                RECORD_BYTES * before.len(),
                *next,
                before.next_trailer(next.ledger),
            );
            before.push(*next);
        }
        Ok(length)
    }
}

// Lays one record's bytes at their place.
fn lay_record(buffer: &mut [u8], start: usize, next: Record, trailer: u16)
    requires { start + 4 ≤ length buffer.old }
    ensures front { take (start + 4) buffer.new ≡ take start buffer.old ++ (next.ledger ∷ next.code ∷ trailer % 256 ∷ trailer / 256 ∷ []) }
    ensures rest { drop (start + 4) buffer.new ≡ drop (start + 4) buffer.old }
{
    let [low, high] = trailer.to_le_bytes();
    buffer[start..start + RECORD_BYTES].copy_from_slice(&[next.ledger, next.code, low, high]);
}
