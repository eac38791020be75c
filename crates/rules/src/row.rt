// What the floor keeps of one ledger, and who that ledger is.
ghost use Rattle.std.specs.Prelude.{◌≡◌};
ghost use Rattle.rules.specs.Rules.{in_stage, with_notice, with_reply, with_vote};

use crate::ledger_set::LedgerSet;
use crate::stage::{Stage, Status};
use network::message::Vote;

#[derive(Clone, Copy, Debug, PartialEq, Eq)]
pub struct Row {
    pub status: Status,
    pub stage: Stage,
    // How often this ledger has begun to lead.
    pub round: u8,
    // Those that were found not to answer.
    pub noticed: LedgerSet,
    // Those that held no decision in this round.
    pub replied: LedgerSet,
    // Those whose vote is in: yes, and no.
    pub ayes: LedgerSet,
    pub noes: LedgerSet,
}

// Apart from the row: a rule changes the row on its way, and who the ledger is stays.
#[derive(Clone, Copy, Debug, PartialEq, Eq)]
pub struct Member {
    // How many ledgers take part.
    pub ledgers: u8,
    // The ledger's own number; ledger 0 is the coordinator.
    pub number: u8,
    pub vote: Vote,
}

impl Row {
    // The row in another stage.
    pub fn in_stage(self, stage: Stage) -> Row
        ensures { result ≡ in_stage self stage }
    {
        Row { stage, ..self }
    }

    // The row becomes what a rule made of it.
    pub fn follow(&mut self, row: Row)
        ensures { self.new ≡ row }
    {
        *self = row;
    }

    pub(crate) fn with_vote(self, sender: u8, vote: Vote) -> Row
        ensures { result ≡ with_vote self sender vote }
    {
        match vote {
            Vote::Yes => Row {
                ayes: self.ayes.with(sender),
                ..self
            },
            Vote::No => Row {
                noes: self.noes.with(sender),
                ..self
            },
        }
    }

    pub(crate) fn with_reply(self, sender: u8) -> Row
        ensures { result ≡ with_reply self sender }
    {
        Row {
            replied: self.replied.with(sender),
            ..self
        }
    }

    pub(crate) fn with_notice(self, ledger: u8) -> Row
        ensures { result ≡ with_notice self ledger }
    {
        Row {
            noticed: self.noticed.with(ledger),
            ..self
        }
    }
}
