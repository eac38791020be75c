// The ten entries that a ledger can write, and their codes.
ghost use Rattle.std.specs.Prelude.{◌≡◌, ◌++◌, Some, codes, decimal};
ghost use Rattle.journals.specs.Codes.{Decodes, code_of, decides};

use std::error::Error;
use std::fmt;

#[derive(Clone, Copy, Debug, Default, PartialEq, Eq)]
pub enum Entry {
    #[default]
    Begin = 1,
    ReadyYes = 2,
    ReadyNo = 3,
    CommitReached = 4,
    AbortReached = 5,
    CommitReceived = 6,
    AbortReceived = 7,
    TransactionCommit = 8,
    TransactionAbort = 9,
    Dispute = 10,
}

// A code that no entry has.
#[derive(Clone, Copy, Debug, PartialEq, Eq)]
pub struct NoEntry(pub u8);

impl Entry {
    // The entries are numbered by their codes.
    pub fn code(self) -> u8
        ensures { result ≡ code_of self }
    {
        self as u8
    }

    // Whether the entry is the ledger's decision.
    pub fn is_decision(self) -> bool
        ensures { result ≡ decides self }
    {
        matches!(self, Entry::TransactionCommit | Entry::TransactionAbort)
    }
}

// The entry that has this code.
impl TryFrom<u8> for Entry {
    type Error = NoEntry;

    ghost try_from_gives = { Decodes };

    fn try_from(code: u8) -> Result<Entry, NoEntry> {
        match code {
            1 => Ok(Entry::Begin),
            2 => Ok(Entry::ReadyYes),
            3 => Ok(Entry::ReadyNo),
            4 => Ok(Entry::CommitReached),
            5 => Ok(Entry::AbortReached),
            6 => Ok(Entry::CommitReceived),
            7 => Ok(Entry::AbortReceived),
            8 => Ok(Entry::TransactionCommit),
            9 => Ok(Entry::TransactionAbort),
            10 => Ok(Entry::Dispute),
            _ => Err(NoEntry(code)),
        }
    }
}

impl fmt::Display for NoEntry {
    ghost output = { λ e. Some (codes "no entry has the code " ++ decimal e.0) };

    fn fmt<W: fmt::Write>(&self, f: &mut fmt::Formatter<W>) -> fmt::Result {
        write!(f, "no entry has the code {}", self.0)
    }
}

impl Error for NoEntry {}
