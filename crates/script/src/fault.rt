// Why a line of a script came to nothing: it is no line, or the floor refused its call.
ghost use Rattle.std.specs.Prelude.{◌≡◌, Some};
ghost use Rattle.script.specs.RefusalFacts.{refusals_counted};
ghost use Rattle.script.specs.Refusals.{at_line, layer_of, number_of};
ghost use Rattle.script.specs.Texts.{fault_words};
ghost use Rattle.script.specs.declared.fault.ScriptRefusal.TheVariants.{BadLine, Floor};

use ledgers::fault::Fault;
use protocol::fault::FloorFault;
use std::fmt;

#[derive(Clone, Copy, Debug, PartialEq, Eq)]
pub enum ScriptRefusal {
    BadLine,
    // The floor's fault, whole.
    Floor(FloorFault),
}

impl From<FloorFault> for ScriptRefusal {
    ghost from_gives = { λ e r. r ≡ Floor e };

    fn from(fault: FloorFault) -> ScriptRefusal {
        ScriptRefusal::Floor(fault)
    }
}

// A refusal, and the line where it arose.
#[derive(Clone, Copy, Debug, PartialEq, Eq)]
pub struct ScriptFault {
    pub line: usize,
    pub refusal: ScriptRefusal,
}

// By cases: a fault from below is asked itself.
impl Fault for ScriptFault {
    ghost numbered = { λ fault. number_of fault.refusal };

    ghost letter = { λ fault. layer_of fault.refusal };

    fn number(&self) -> u8 {
        match self.refusal {
            ScriptRefusal::BadLine => 16,
            ScriptRefusal::Floor(fault) => fault.number(),
        }
    }

    fn layer(&self) -> char {
        match self.refusal {
            ScriptRefusal::BadLine => 'S',
            ScriptRefusal::Floor(fault) => fault.layer(),
        }
    }

    ghost counted = { λ fault. refusals_counted fault.refusal };
}

// The line, the refusal's number and its layer's letter.
impl fmt::Display for ScriptFault {
    ghost output = { λ fault. Some (fault_words fault.line fault.refusal) };

    fn fmt<W: fmt::Write>(&self, f: &mut fmt::Formatter<W>) -> fmt::Result {
        let line = self.line;
        let number = self.number();
        let layer = self.layer();
        write!(f, "{line} {number} {layer}")
    }
}

// The fault of a line that is none.
pub(crate) fn bad_line(line: usize) -> ScriptFault
    ensures { result ≡ at_line line BadLine }
{
    ScriptFault {
        line,
        refusal: ScriptRefusal::BadLine,
    }
}
