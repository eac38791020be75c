// What a person must settle.
ghost use Rattle.std.specs.Prelude.{◌≡◌, ◌≤◌, true, length, is_ok};
ghost use Rattle.floor.specs.State.{state};
ghost use Rattle.protocol.specs.Worklist.{note_of, notes_of, worklist_after, worklist_answer};
ghost use Rattle.std.specs.Option.{option_to_list};

use super::Floor;
use arrayvec::ArrayVec;
use journals::entry::Entry;
use journals::fault::NO_LEDGER;
use journals::set::Journals;
use ledgers::ledger::LEDGERS;
use network::link::Network;
use protocol::fault::{FloorFault, FloorRefusal};
use protocol::note::{Note, Reason};
use rules::stage::Status;

impl<N: Network, J: Journals> Floor<N, J> {
    fn note_of(&self, ledger: u8) -> Option<Note>
        ensures { option_to_list result ≡ note_of (state self.now) ledger }
    {
        match self.status_of(ledger) {
            Status::Running if self.has(ledger, Entry::Dispute) => Some(Note {
                ledger,
                reason: Reason::Disputed,
            }),
            Status::Restarted if self.is_uncertain(ledger) => Some(Note {
                ledger,
                reason: Reason::Uncertain,
            }),
            _ => None,
        }
    }

    // Each ledger has one note at the most.
    fn notes(&self) -> ArrayVec<Note, LEDGERS>
        ensures { result.items ≡ notes_of (state self.now) }
    {
        let mut notes = ArrayVec::new();
        for ledger in 0..self.ledgers {
            if let Some(note) = self.note_of(ledger) {
                notes.push(note);
            }
        }
        notes
    }

    // Fills the front of the list, by ledger number, with what a person must settle, and answers how much that is. Eight places suffice.
    pub fn worklist(&self, list: &mut [Note]) -> Result<usize, FloorFault>
        ensures answer { result ≡ worklist_answer (state self.now) (length list.old) }
        ensures after { list.new ≡ worklist_after (state self.now) list.old }
        ensures eight { 8 ≤ length list.old → is_ok result ≡ true }
    {
        let notes = self.notes();
        if notes.len() > list.len() {
            return Err(FloorFault::Refused(FloorRefusal::ShortList, NO_LEDGER, NO_LEDGER));
        }
        list[..notes.len()].copy_from_slice(&notes);
        Ok(notes.len())
    }
}
