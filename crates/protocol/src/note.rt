// What a person must settle, since no machine can.
ghost use Rattle.std.specs.Prelude.{◌≡◌};
ghost use Rattle.protocol.specs.Worklist.{reason_number};

#[derive(Clone, Copy, Debug, Default, PartialEq, Eq)]
pub enum Reason {
    // The ledger restarted, and its journal does not tell what the others did.
    #[default]
    Uncertain = 1,
    // The ledger runs, and another decided the contrary.
    Disputed = 2,
}

impl Reason {
    pub fn number(self) -> u8
        ensures { result ≡ reason_number self }
    {
        self as u8
    }
}

#[derive(Clone, Copy, Debug, Default, PartialEq, Eq)]
pub struct Note {
    pub ledger: u8,
    pub reason: Reason,
}
