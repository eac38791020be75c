// How an announcement is made, sent on and closed.
ghost use Rattle.std.specs.Prelude.{◌≡◌, ◌≤◌};
ghost use Rattle.rules.specs.Announcements.{after_order, kept};
ghost use Rattle.rules.specs.Entries.{obeyed};
ghost use Rattle.rules.specs.Rules.{in_stage, other_above};
ghost use Rattle.rules.specs.declared.effect.Effect.TheVariants.{Send, Write};
ghost use Rattle.rules.specs.declared.stage.Stage.TheVariants.{Decided};
ghost use Rattle.network.specs.declared.message.Message.TheVariants.{Order};

use super::{Announcement, OpenAnnouncement, SentAnnouncement};
use crate::effect::{Effect, Response};
use crate::row::{Member, Row};
use crate::stage::Stage;
use journals::entry::Entry;
use network::message::{Decision, Message};

// The entry by which a decision is obeyed. By a match, as the tables of the entries that come before it.
fn obeyed(decision: Decision) -> Entry
    ensures { result ≡ obeyed decision }
{
    match decision {
        Decision::Post => Entry::TransactionCommit,
        Decision::Drop => Entry::TransactionAbort,
    }
}

// The next ledger that is not the owner.
fn other_above(owner: u8, ledger: u8) -> u8
    ensures { result ≡ other_above owner ledger }
{
    let above = ledger.saturating_add(1);
    if above == owner {
        above.saturating_add(1)
    } else {
        above
    }
}

impl Member {
    // Takes an announcement up again where the row left it.
    pub(crate) fn open_announcement(self, decision: Decision, next: u8) -> OpenAnnouncement
        ensures { result ≡ record { owner = self.number; decision = decision; next = next } }
    {
        OpenAnnouncement {
            owner: self.number,
            decision,
            next,
        }
    }

    // An announcement with no ledger left.
    pub(crate) fn sent_in_full(self, decision: Decision, next: u8) -> SentAnnouncement
        requires { self.ledgers ≤ next }
        ensures { result.decision ≡ decision }
    {
        SentAnnouncement {
            owner: self.number,
            decision,
            past: next,
            ledgers: self.ledgers,
        }
    }
}

impl OpenAnnouncement {
    // The Order that goes out next.
    pub(crate) fn order(&self) -> Effect
        ensures { result ≡ Send self.now.next (Order self.now.decision) }
    {
        Effect::Send(self.next, Message::Order(self.decision))
    }

    // What is left once that Order is out.
    pub(crate) fn send(self, ledgers: u8) -> Announcement
        ensures { kept result ≡ after_order self ledgers }
    {
        let OpenAnnouncement {
            owner,
            decision,
            next,
        } = self;
        let after = other_above(owner, next);
        if after < ledgers {
            return Announcement::Open(OpenAnnouncement {
                owner,
                decision,
                next: after,
            });
        }
        Announcement::Sent(SentAnnouncement {
            owner,
            decision,
            past: after,
            ledgers,
        })
    }
}

impl Announcement {
    // The stage that keeps its numbers between two steps.
    pub(crate) fn kept(self) -> Stage
        ensures { result ≡ kept self }
    {
        match self {
            Announcement::Open(open) => {
                let OpenAnnouncement {
                    owner: _,
                    decision,
                    next,
                } = open;
                Stage::Announcing(decision, next)
            }
            Announcement::Sent(sent) => {
                let SentAnnouncement {
                    owner: _,
                    decision,
                    past: _,
                    ledgers: _,
                } = sent;
                Stage::Announced(decision)
            }
        }
    }
}

impl SentAnnouncement {
    // The decision is obeyed.
    pub(crate) fn close(self, row: Row) -> Response
        ensures { result ≡ record { row = in_stage row (Decided self.decision); effect = Write (obeyed self.decision) } }
    {
        let SentAnnouncement {
            owner: _,
            decision,
            past: _,
            ledgers: _,
        } = self;
        row.writes(Stage::Decided(decision), obeyed(decision))
    }
}
