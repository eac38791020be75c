// An announcement: a decision that its owner passes on to every other ledger before it obeys it.
// Neither form is copied or let go: an open one is sent on, and one that was sent in full is closed.
ghost use Rattle.std.specs.Prelude.{◌≤◌};

use network::message::Decision;

mod sending;

pub(crate) struct OpenAnnouncement {
    pub(crate) owner: u8,
    pub(crate) decision: Decision,
    // The ledger that the next Order goes to.
    pub(crate) next: u8,
}

pub(crate) struct SentAnnouncement {
    pub(crate) owner: u8,
    pub(crate) decision: Decision,
    // Where the next Order would go: past the last ledger.
    pub(crate) past: u8,
    pub(crate) ledgers: u8,
    ghost full: { ledgers ≤ past },
}

// What is left after an Order.
pub(crate) enum Announcement {
    Open(OpenAnnouncement),
    Sent(SentAnnouncement),
}
