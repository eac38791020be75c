// Why a call on journals was refused.
ghost use Rattle.std.specs.Prelude.{◌≡◌, Some};
ghost use Rattle.journals.specs.declared.fault.JournalsRefusal.TheVariants.{TornTape};
ghost use Rattle.journals.specs.Refusals.{fault_text, number_of, place_of, refused, refused_for};
ghost use Rattle.journals.specs.RefusalFacts.{numbers_counted};

use ledgers::fault::Fault;
use std::fmt;

// Stands for a ledger where a fault has none: the rules of faults fix this number.
pub const NO_LEDGER: u8 = 255;

#[derive(Clone, Copy, Debug, PartialEq, Eq)]
pub enum JournalsRefusal {
    UnknownLedger,
    NothingThere,
    JournalFull,
    UnknownCode,
    ShortList,
    // The place is where the first wrong record starts, or the length where that is wrong.
    TornTape { place: usize },
}

#[derive(Clone, Copy, Debug, PartialEq, Eq)]
pub struct JournalsFault {
    pub refusal: JournalsRefusal,
    // The ledgers as called: two, as the rules of faults have it.
    pub first: u8,
    pub second: u8,
}

impl JournalsFault {
    // The refusal of a call for one ledger.
    pub fn of(ledger: u8, refusal: JournalsRefusal) -> JournalsFault
        ensures { result ≡ refused_for ledger refusal }
    {
        JournalsFault {
            refusal,
            first: ledger,
            second: NO_LEDGER,
        }
    }

    // The refusal of a call that names no ledger.
    pub fn of_none(refusal: JournalsRefusal) -> JournalsFault
        ensures { result ≡ refused refusal }
    {
        JournalsFault::of(NO_LEDGER, refusal)
    }

    // The refusal of a tape that is torn there.
    pub fn torn(place: usize) -> JournalsFault
        ensures { result ≡ refused (TornTape place) }
    {
        JournalsFault::of_none(JournalsRefusal::TornTape { place })
    }

    // Where a torn tape is torn.
    pub fn place(&self) -> Option<usize>
        ensures { result ≡ place_of self.now.refusal }
    {
        match self.refusal {
            JournalsRefusal::TornTape { place } => Some(place),
            _ => None,
        }
    }
}

impl Fault for JournalsFault {
    ghost numbered = { λ fault. number_of fault.refusal };

    ghost letter = { λ _. 74 };

    ghost counted = { λ fault. numbers_counted fault.refusal };

    fn number(&self) -> u8
        ensures { result ≡ number_of self.now.refusal }
    {
        // By cases: only where no variant carries anything may they have numbers of their own.
        match self.refusal {
            JournalsRefusal::UnknownLedger => 2,
            JournalsRefusal::NothingThere => 7,
            JournalsRefusal::JournalFull => 12,
            JournalsRefusal::UnknownCode => 13,
            JournalsRefusal::ShortList => 14,
            JournalsRefusal::TornTape { .. } => 15,
        }
    }

    // One letter for every refusal.
    fn layer(&self) -> char
        ensures { result ≡ 74 }
    {
        'J'
    }
}

// The refusal's number, the layer, and the place of a torn tape.
impl fmt::Display for JournalsFault {
    ghost output = { λ fault. Some (fault_text fault) };

    fn fmt<W: fmt::Write>(&self, f: &mut fmt::Formatter<W>) -> fmt::Result {
        let number = self.number();
        let layer = self.layer();
        match self.place() {
            Some(place) => write!(f, "{number} {layer} {place}"),
            None => write!(f, "{number} {layer}"),
        }
    }
}
