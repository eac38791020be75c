// The ledgers and their numbers.
ghost use Rattle.std.specs.Prelude.{◌≡◌, ◌<◌, ◌≤◌, MatchOption};

// The ledgers are numbered from 0 to 7.
pub const LEDGERS: usize = 8;

// A ledger that there is.
#[derive(Clone, Copy)]
pub struct Ledger {
    number: u8,
    ghost below: { number < 8 },
}

impl Ledger {
    // The ledger of this number, if there is one.
    pub fn new(number: u8) -> Option<Ledger>
        ensures { MatchOption result (8 ≤ number) (λ ledger. ledger.number ≡ number) }
    {
        if number as usize >= LEDGERS {
            return None;
        }
        Some(Ledger { number })
    }

    pub fn number(self) -> u8
        ensures { result ≡ self.number }
    {
        self.index() as u8
    }

    // The ledger's place in a table of all ledgers.
    pub fn index(self) -> usize
        ensures place { result ≡ self.number }
        ensures inside { result < 8 }
    {
        self.number as usize
    }
}
