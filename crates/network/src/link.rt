// What every network means, and how each call moves its links.
ghost use Rattle.std.specs.Prelude.{◌≡◌, ℕ, ◌≤◌, true, false, List, [], length, MatchResult};
ghost use Rattle.network.specs.Links.{count_answer, is_link, look_answer, put_after, put_answer, take_after};
ghost use Rattle.network.specs.Refusals.{refused};
ghost use Rattle.network.specs.declared.fault.NetworkRefusal.TheVariants.{UnknownLedger};
ghost use Rattle.network.specs.declared.message.Message.{Message};

use crate::fault::{NetworkFault, NetworkRefusal};
use crate::message::Message;
pub use ledgers::ledger::LEDGERS;
use ledgers::ledger::Ledger;

// From one ledger to another.
#[derive(Clone, Copy, Debug, PartialEq, Eq)]
pub struct Link {
    pub sender: u8,
    pub receiver: u8,
}

// A link that there is: from one ledger to a different one.
#[derive(Clone, Copy)]
pub struct Route {
    pub sender: Ledger,
    pub receiver: Ledger,
    pub ghost apart: { is_link sender.number receiver.number ≡ true },
}

impl Route {
    pub fn link(self) -> Link
        ensures { result ≡ record { sender = self.sender.number; receiver = self.receiver.number } }
    {
        Link {
            sender: self.sender.number(),
            receiver: self.receiver.number(),
        }
    }

    // A call on this link, refused.
    pub fn refused(self, refusal: NetworkRefusal) -> NetworkFault
        ensures { result ≡ refused self.sender.number self.receiver.number refusal }
    {
        NetworkFault::on(self.sender.number(), self.receiver.number(), refusal)
    }
}

// The link from one ledger to another, or the refusal of a pair that is no link: two different ledgers make one.
#[tactic(auto, unfolding(crate::specs::Links::is_link))]
pub fn check_link(sender: u8, receiver: u8) -> Result<Route, NetworkFault>
    ensures { MatchResult result (λ route. (is_link sender receiver ≡ true) × (route.sender.number ≡ sender) × (route.receiver.number ≡ receiver)) (λ fault. (is_link sender receiver ≡ false) × (fault ≡ refused sender receiver UnknownLedger)) }
{
    let unknown = NetworkFault::on(sender, receiver, NetworkRefusal::UnknownLedger);
    let from = Ledger::new(sender).ok_or(unknown)?;
    let to = Ledger::new(receiver).ok_or(unknown)?;
    if sender == receiver {
        return Err(unknown);
    }
    Ok(Route {
        sender: from,
        receiver: to,
    })
}

pub trait Network {
    // How many messages a link holds at the most.
    const DEPTH: usize;

    ghost DEPTH: { ℕ };

    // The messages on their way from one ledger to another, the oldest first.
    ghost links: { Self → ℕ → ℕ → List Message };

    // `DEPTH`, which is at least one.
    fn link_depth() -> usize
        ensures value { result ≡ DEPTH }
        ensures bound { 1 ≤ result };

    // Adds the message at the end of the link. Every call takes any two numbers, and refuses what is no link.
    fn put(&mut self, sender: u8, receiver: u8, message: Message) -> Result<(), NetworkFault>
        ensures answer { result ≡ put_answer DEPTH (links self.old) sender receiver }
        ensures after { links self.new ≡ put_after DEPTH (links self.old) sender receiver message };

    // Removes the first message of the link, and answers it.
    fn take(&mut self, sender: u8, receiver: u8) -> Result<Message, NetworkFault>
        ensures answer { result ≡ look_answer (links self.old) sender receiver }
        ensures after { links self.new ≡ take_after (links self.old) sender receiver };

    // The first message of the link.
    fn look(&self, sender: u8, receiver: u8) -> Result<Message, NetworkFault>
        ensures { result ≡ look_answer (links self.now) sender receiver };

    // The length of the link.
    fn count(&self, sender: u8, receiver: u8) -> Result<usize, NetworkFault>
        ensures { result ≡ count_answer (links self.now) sender receiver };

    ghost deep: { 1 ≤ DEPTH };

    ghost short: { (n : Self) (q p : ℕ) → length (links n q p) ≤ DEPTH };

    ghost bounded: { (n : Self) (q p : ℕ) → is_link q p ≡ false → links n q p ≡ [] };
}
