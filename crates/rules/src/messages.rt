// What a ledger does with a message.
ghost use Rattle.std.specs.Prelude.{◌≡◌};
ghost use Rattle.rules.specs.Entries.{reached, ready, received};
ghost use Rattle.rules.specs.Rules.{announce, counted, denied, on_denial, on_message, on_order, on_prepare, on_vote, outcome};

use crate::effect::{Effect, Response};
use crate::ledger_set::first_missing;
use crate::row::{Member, Row};
use crate::stage::Stage;
use journals::entry::Entry;
use network::message::{Decision, Message, Vote};

// By a match and not From, which only the crates of these types may give; and each table has entries of its own.

// The entry that says that the ledger is ready with its vote.
fn ready(vote: Vote) -> Entry
    ensures { result ≡ ready vote }
{
    match vote {
        Vote::Yes => Entry::ReadyYes,
        Vote::No => Entry::ReadyNo,
    }
}

// The entry of a decision that was reached here.
fn reached(decision: Decision) -> Entry
    ensures { result ≡ reached decision }
{
    match decision {
        Decision::Post => Entry::CommitReached,
        Decision::Drop => Entry::AbortReached,
    }
}

// The entry of a decision that was received.
fn received(decision: Decision) -> Entry
    ensures { result ≡ received decision }
{
    match decision {
        Decision::Post => Entry::CommitReceived,
        Decision::Drop => Entry::AbortReceived,
    }
}

impl Member {
    // Writes a decision down, to pass it on from the lowest other ledger upwards.
    pub(crate) fn announce(self, row: Row, decision: Decision, entry: Entry) -> Response
        ensures { result ≡ announce self row decision entry }
    {
        let first = if self.number == 0 { 1 } else { 0 };
        row.writes(Stage::Announcing(decision, first), entry)
    }

    fn on_prepare(self, row: Row) -> Response
        ensures { result ≡ on_prepare self row }
    {
        if !row.stage.is_initial() || self.number == 0 {
            return row.quiet();
        }
        row.writes(Stage::Voting, ready(self.vote))
    }

    // Post if every vote is yes, this ledger's own among them.
    fn outcome(self, row: Row) -> Decision
        ensures { result ≡ outcome self row }
    {
        if self.vote == Vote::Yes && first_missing(row.ayes, row.ayes, 1, self.ledgers).is_none() {
            Decision::Post
        } else {
            Decision::Drop
        }
    }

    // Decides once all votes are in.
    fn counted(self, row: Row) -> Response
        ensures { result ≡ counted self row }
    {
        if first_missing(row.ayes, row.noes, 1, self.ledgers).is_some() {
            return row.quiet();
        }
        let decision = self.outcome(row);
        self.announce(row, decision, reached(decision))
    }

    fn on_vote(self, row: Row, sender: u8, vote: Vote) -> Response
        ensures { result ≡ on_vote self row sender vote }
    {
        if !row.stage.counts() {
            return row.quiet();
        }
        self.counted(row.with_vote(sender, vote))
    }

    fn on_order(self, row: Row, decision: Decision, disputed: bool) -> Response
        ensures { result ≡ on_order self row decision disputed }
    {
        match row.stage.held() {
            None => self.announce(row, decision, received(decision)),
            Some(own) if own == decision || disputed => row.quiet(),
            Some(_) => Response {
                row,
                effect: Effect::Write(Entry::Dispute),
            },
        }
    }

    // Drops once every higher ledger that is not noticed has replied.
    fn denied(self, row: Row) -> Response
        ensures { result ≡ denied self row }
    {
        let above = self.number.saturating_add(1);
        if first_missing(row.noticed, row.replied, above, self.ledgers).is_some() {
            return row.quiet();
        }
        self.announce(row, Decision::Drop, Entry::AbortReached)
    }

    // A reply that holds no decision.
    fn on_denial(self, row: Row, sender: u8, round: u8) -> Response
        ensures { result ≡ on_denial self row sender round }
    {
        if !row.stage.leads() || round != row.round {
            return row.quiet();
        }
        self.denied(row.with_reply(sender))
    }

    // What the ledger does with a message; `disputed` says whether its journal has a dispute.
    pub fn on_message(self, row: Row, sender: u8, message: Message, disputed: bool) -> Response
        ensures { result ≡ on_message self row sender message disputed }
    {
        match message {
            Message::Prepare => self.on_prepare(row),
            Message::Vote(vote) => self.on_vote(row, sender, vote),
            Message::Order(decision) => self.on_order(row, decision, disputed),
            Message::Ask { round } => {
                let decision = row.stage.held();
                row.sends(row.stage, sender, Message::Reply { round, decision })
            }
            Message::Reply { round, decision } => match decision {
                Some(decision) => self.on_order(row, decision, disputed),
                None => self.on_denial(row, sender, round),
            },
        }
    }
}
