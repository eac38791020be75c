// How lanes are made, and how messages come and go.
ghost use Rattle.std.specs.Prelude.{◌≡◌, ◌+◌, ◌*◌, ◌<◌, ◌≤◌};
ghost use Rattle.lanes.specs.Lanes.{links_of};
ghost use Rattle.lanes.specs.Rings.{messages};
ghost use Rattle.network.specs.Links.{no_links};
ghost use Rattle.std.proofs.Common.{lit≤};
ghost use Rattle.lanes.specs.LaneLaws.{at_most_4, none_outside};

use crate::ring::{Ring, SLOTS};
use crate::{Lanes, RINGS};
use ledgers::ledger::LEDGERS;
use network::fault::{NetworkFault, NetworkRefusal};
use network::link::{Network, Route, check_link};
use network::message::Message;

impl Lanes {
    // Lanes with no message on its way.
    pub fn new() -> Lanes
        ensures { links_of result ≡ no_links }
    {
        let ring = Ring::new();
        Lanes {
            rings: [ring; RINGS],
        }
    }

    fn ring_of(&self, route: Route) -> Ring
        ensures { messages result ≡ links_of self.now route.sender.number route.receiver.number }
    {
        self.rings[place(route)]
    }
}

// The place of a link's ring.
fn place(route: Route) -> usize
    ensures value { result ≡ 8 * route.sender.number + route.receiver.number }
    ensures inside { result < 64 }
{
    LEDGERS * route.sender.index() + route.receiver.index()
}

impl Network for Lanes {
    const DEPTH: usize = SLOTS;

    ghost DEPTH = { 4 };

    ghost links = { links_of };

    ghost deep = { lit≤ tt };

    ghost short = { at_most_4 };

    ghost bounded = { none_outside };

    fn link_depth() -> usize {
        Self::DEPTH
    }

    #[tactic(auto, using(crate::proofs::LaneFacts::put_there))]
    fn put(&mut self, sender: u8, receiver: u8, message: Message) -> Result<(), NetworkFault> {
        let route = check_link(sender, receiver)?;
        let ring = &mut self.rings[place(route)];
        if ring.len() >= Self::DEPTH {
            return Err(route.refused(NetworkRefusal::LinkFull));
        }
        ring.push(message);
        Ok(())
    }

    #[tactic(auto, using(crate::proofs::LaneFacts::taken_there))]
    fn take(&mut self, sender: u8, receiver: u8) -> Result<Message, NetworkFault> {
        let route = check_link(sender, receiver)?;
        let ring = &mut self.rings[place(route)];
        let first = ring.pop();
        first.ok_or(route.refused(NetworkRefusal::NothingThere))
    }

    fn look(&self, sender: u8, receiver: u8) -> Result<Message, NetworkFault> {
        let route = check_link(sender, receiver)?;
        let first = self.ring_of(route).first();
        first.ok_or(route.refused(NetworkRefusal::NothingThere))
    }

    fn count(&self, sender: u8, receiver: u8) -> Result<usize, NetworkFault> {
        let route = check_link(sender, receiver)?;
        Ok(self.ring_of(route).len())
    }
}
