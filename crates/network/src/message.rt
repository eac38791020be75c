// The five kinds of message, and the values that they carry.
ghost use Rattle.std.specs.Prelude.{◌≡◌};
ghost use Rattle.network.specs.Messages.{decision_number, kind, vote_number};

#[derive(Clone, Copy, Debug, PartialEq, Eq)]
pub enum Vote {
    Yes = 1,
    No = 2,
}

impl Vote {
    pub fn number(self) -> u8
        ensures { result ≡ vote_number self }
    {
        self as u8 // yes is 1, no is 2
    }
}

// What becomes of a batch in every ledger.
#[derive(Clone, Copy, Debug, PartialEq, Eq)]
pub enum Decision {
    Post = 1,
    Drop = 2,
}

impl Decision {
    pub fn number(self) -> u8
        ensures { result ≡ decision_number self }
    {
        self as u8 // post is 1, drop is 2
    }
}

#[derive(Clone, Copy, Debug, PartialEq, Eq)]
pub enum Message {
    // The coordinator asks for a vote.
    Prepare,
    Vote(Vote),
    // A decision is passed on.
    Order(Decision),
    // A leader asks what another ledger knows.
    Ask {
        round: u8,
    },
    // The answer to an Ask: the decision held, if any.
    Reply {
        round: u8,
        decision: Option<Decision>,
    },
}

impl Message {
    // The number of the message's kind.
    pub fn kind(&self) -> u8
        ensures { result ≡ kind self.now }
    {
        // By cases: only variants that carry nothing may have numbers of their own.
        match self {
            Message::Prepare => 1,
            Message::Vote(_) => 2,
            Message::Order(_) => 3,
            Message::Ask { .. } => 4,
            Message::Reply { .. } => 5,
        }
    }
}
