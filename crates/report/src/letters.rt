// A ledger's entries as letters.
ghost use Rattle.std.specs.Prelude.{◌≡◌, ◌<◌, true, ◌++◌, string_bytes, OnOk};
ghost use Rattle.journals.specs.Codes.{is_code};
ghost use Rattle.report.specs.Letters.{letter, letters};

use journals::codes::codes;
use journals::set::Journals;
use std::alloc::AllocError;

// The letters a to j stand for the codes 1 to 10, in this text alone.
fn letter_of(code: u8) -> char
    requires { is_code code ≡ true }
    ensures { result ≡ letter code }
{
    (b'a' + (code - 1)) as char
}

// Adds the ledger's entries as letters, or `-` where it has none.
pub fn push_letters<J: Journals>(
    out: &mut String,
    journals: &J,
    ledger: u8,
) -> Result<(), AllocError>
    ensures { OnOk result (string_bytes out.new ≡ string_bytes out.old ++ letters (J.entries journals.now ledger)) }
{
    let mut rest = codes(journals, ledger);
    let Some(first) = rest.next() else {
        return out.push('-');
    };
    out.push(letter_of(first))?;
    for code in rest {
        out.push(letter_of(code))?;
    }
    Ok(())
}
