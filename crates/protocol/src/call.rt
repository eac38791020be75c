// The calls that carry a batch, and what they answer.
use crate::delivery::Delivery;
use crate::recovery::Recovery;

#[derive(Clone, Copy, Debug, PartialEq, Eq)]
pub enum Call {
    Begin,
    Step(u8),
    Deliver { sender: u8, receiver: u8 },
    // A ledger notices that another does not answer.
    Expire { ledger: u8, silent: u8 },
    Stop(u8),
    Restart(u8),
}

#[derive(Clone, Copy, Debug, PartialEq, Eq)]
pub enum Answer {
    Done,
    // What became of the message.
    Message(Delivery),
    // What a restarted ledger tells.
    Recovered(Recovery),
}
