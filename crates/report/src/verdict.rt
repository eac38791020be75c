// What is printed of a tape: every ledger's entries, or where it is torn.
ghost use Rattle.std.specs.Prelude.{◌≡◌, ◌<◌, ◌++◌, length, IfOk, string_bytes, OnOk};
ghost use Rattle.tape.specs.Tape.{entries_of, records_of};
ghost use Rattle.report.specs.Verdict.{ledger_line, ledger_lines, total_line, verdict};

use crate::letters::push_letters;
use journals::set::Journals;
use std::alloc::{AllocError, Global};
use tape::Tape;

// The text that tells what is on a tape, or where it is torn.
pub fn tape_verdict(heap: Global, bytes: &[u8]) -> Result<String, AllocError>
    ensures { IfOk result (λ text. string_bytes text ≡ verdict bytes.now) }
{
    match Tape::from_bytes(bytes) {
        Ok(tape) => whole_tape(heap, &tape),
        Err(fault) => format!(in heap; "{fault}\n"),
    }
}

fn whole_tape(heap: Global, tape: &Tape) -> Result<String, AllocError>
    ensures { IfOk result (λ text. string_bytes text ≡ ledger_lines (entries_of tape.now) 8 ++ total_line (length (records_of tape.now))) }
{
    let mut out = String::new(heap);
    for ledger in 0..8 {
        push_ledger(&mut out, tape, ledger)?;
    }
    writeln!(out, "T {}", tape.len())?;
    Ok(out)
}

// Adds the line of one ledger, whose number is one digit.
fn push_ledger<J: Journals>(out: &mut String, journals: &J, ledger: u8) -> Result<(), AllocError>
    requires { ledger < 10 }
    ensures { OnOk result (string_bytes out.new ≡ string_bytes out.old ++ ledger_line (J.entries journals.now) ledger) }
{
    // By bytes: through the formatter the text of a small tape takes half as long again.
    out.push_str("L ")?;
    out.push((b'0' + ledger) as char)?;
    out.push(' ')?;
    push_letters(out, journals, ledger)?;
    out.push('\n')
}
