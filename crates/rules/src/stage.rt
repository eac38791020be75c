// How far a ledger has come with the batch.
ghost use Rattle.std.specs.Prelude.{◌≡◌};
ghost use Rattle.rules.specs.Stages.{counts, held, initial, leads};

use network::message::Decision;

// Whether a ledger's machine runs.
#[derive(Clone, Copy, Debug, PartialEq, Eq)]
pub enum Status {
    Stopped,
    Running,
    Restarted,
}

// The numbers are the ledgers that the next message goes to.
#[derive(Clone, Copy, Debug, PartialEq, Eq)]
pub enum Stage {
    Initial,
    Preparing(u8),
    Wait,
    Voting,
    Ready,
    Asking(u8),
    Consulting,
    Announcing(Decision, u8),
    Announced(Decision),
    Decided(Decision),
}

impl Stage {
    // The decision that the ledger holds; a ledger that holds none is undecided.
    pub fn held(self) -> Option<Decision>
        ensures { result ≡ held self }
    {
        match self {
            Stage::Announcing(decision, _)
            | Stage::Announced(decision)
            | Stage::Decided(decision) => Some(decision),
            _ => None,
        }
    }

    // Whether nothing has been done yet.
    pub fn is_initial(self) -> bool
        ensures { result ≡ initial self }
    {
        matches!(self, Stage::Initial)
    }

    // Whether votes count here.
    pub fn counts(self) -> bool
        ensures { result ≡ counts self }
    {
        matches!(self, Stage::Preparing(_) | Stage::Wait)
    }

    // Whether the ledger leads: it asks the higher ones, or waits for their replies.
    pub fn leads(self) -> bool
        ensures { result ≡ leads self }
    {
        matches!(self, Stage::Asking(_) | Stage::Consulting)
    }
}
