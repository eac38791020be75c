// What a rehearsal prints.
ghost use Rattle.std.specs.Prelude.{◌≡◌, ◌<◌, ◌≤◌, true, ◌++◌, string_bytes, OnOk};
ghost use Rattle.floor.specs.State.{state};
ghost use Rattle.protocol.specs.State.{known};
ghost use Rattle.script.specs.Texts.{answer_text, end_text, fault_text, ledger_text, standing_letter};

use crate::fault::{ScriptFault, ScriptRefusal};
use floor::floor::Floor;
use journals::set::Journals;
use network::link::Network;
use protocol::call::Answer;
use protocol::standing::Standing;
use report::letters::push_letters;
use std::alloc::AllocError;

// Adds the line of a call.
pub(crate) fn push_answer(
    text: &mut String,
    line: usize,
    answer: Result<Answer, ScriptRefusal>,
) -> Result<(), AllocError>
    ensures { OnOk result (string_bytes text.new ≡ string_bytes text.old ++ answer_text line answer) }
{
    match answer {
        Ok(_) => writeln!(text, "{line} 0"),
        Err(refusal) => push_fault(text, ScriptFault { line, refusal }),
    }
}

// Adds the line of a refusal.
pub(crate) fn push_fault(text: &mut String, fault: ScriptFault) -> Result<(), AllocError>
    ensures { OnOk result (string_bytes text.new ≡ string_bytes text.old ++ fault_text fault.line fault.refusal) }
{
    writeln!(text, "{fault}")
}

// By cases: the letters are this text's own, and no names of a standing.
fn standing_letter(standing: Standing) -> char
    ensures { result ≡ standing_letter standing }
{
    match standing {
        Standing::Running => 'R',
        Standing::Stopped => 'X',
        Standing::Known => 'K',
        Standing::Uncertain => 'U',
    }
}

// Adds the line of one of the floor's ledgers: of a floor and a number together, so no type of its own says it.
fn push_ledger<N: Network, J: Journals>(
    text: &mut String,
    floor: &Floor<N, J>,
    ledger: u8,
) -> Result<(), AllocError>
    requires { known (state floor.now) ledger ≡ true }
    ensures { OnOk result (string_bytes text.new ≡ string_bytes text.old ++ ledger_text (state floor.now) ledger) }
{
    let letter = standing_letter(floor.standing(ledger).unwrap());
    let journals = floor.journals_with(ledger).unwrap();
    write!(text, "L {ledger} {letter} ")?;
    push_letters(text, journals, ledger)?;
    text.push('\n')
}

// Adds how the ledgers stand at the end, and the message total.
#[tactic(auto, unfolding(crate::specs::Texts::ledger_texts))]
pub(crate) fn push_end<N: Network, J: Journals>(
    text: &mut String,
    floor: &Floor<N, J>,
) -> Result<(), AllocError>
    ensures { OnOk result (string_bytes text.new ≡ string_bytes text.old ++ end_text (state floor.now)) }
{
    // By number: the floor is asked for one ledger after the other.
    for ledger in 0..floor.ledgers() {
        push_ledger(text, floor, ledger as u8)?;
    }
    writeln!(text, "M {}", floor.total())
}
