// What a person must settle after a script.
ghost use Rattle.std.specs.Prelude.{◌≡◌, ◌++◌, length, IfOk, string_bytes, OnOk};
ghost use Rattle.floor.specs.State.{state};
ghost use Rattle.script.specs.Work.{note_text, notes_text, reason_text, settle_text, work_text};

use crate::rehearsal::{Rehearsal, rehearse};
use floor::floor::Floor;
use journals::set::Journals;
use ledgers::ledger::LEDGERS;
use network::link::Network;
use protocol::note::{Note, Reason};
use std::alloc::{AllocError, Global};

// What the person should settle, in this text's words.
fn reason_words(reason: Reason) -> &'static str
    ensures { result.now ≡ reason_text reason }
{
    match reason {
        Reason::Uncertain => {
            "uncertain after a restart: ask the other ledgers whether they posted or dropped, and settle this one alike"
        }
        Reason::Disputed => {
            "dispute between decisions: find the ledgers that decided otherwise, and settle post or drop for all of them"
        }
    }
}

fn push_note(text: &mut String, note: Note) -> Result<(), AllocError>
    ensures { OnOk result (string_bytes text.new ≡ string_bytes text.old ++ note_text note) }
{
    let ledger = note.ledger;
    let number = note.reason.number();
    let words = reason_words(note.reason);
    writeln!(text, "W {ledger} {number} {words}")
}

fn push_notes(text: &mut String, notes: &[Note]) -> Result<(), AllocError>
    ensures { OnOk result (string_bytes text.new ≡ string_bytes text.old ++ notes_text notes.now) }
{
    for note in notes {
        push_note(text, *note)?;
    }
    Ok(())
}

// Adds the floor's notes, and how many they are.
fn push_work<N: Network, J: Journals>(
    text: &mut String,
    floor: &Floor<N, J>,
) -> Result<(), AllocError>
    ensures { OnOk result (string_bytes text.new ≡ string_bytes text.old ++ settle_text (state floor.now)) }
{
    // The floor fills the front of a list that its caller keeps.
    let mut notes = [Note::default(); LEDGERS];
    let count = floor.worklist(&mut notes).unwrap();
    push_notes(text, &notes[0..count])?;
    writeln!(text, "N {count}")
}

// What a person must settle after a script over this network and these journals.
pub fn list_work<N: Network + Drop, J: Journals + Drop>(
    heap: Global,
    network: N,
    journals: J,
    script: &[u8],
) -> Result<String, AllocError>
    ensures { IfOk result (λ text. string_bytes text ≡ work_text N.DEPTH (N.links network) (J.entries journals) script.now) }
{
    let Rehearsal {
        floor,
        text,
        opening,
    } = rehearse(heap, network, journals, script)?;
    if opening.is_err() {
        return Ok(text);
    }
    let mut work = String::new(heap);
    push_work(&mut work, &floor)?;
    Ok(work)
}
