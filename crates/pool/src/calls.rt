// How a pool is made, and how messages come and go.
ghost use Rattle.std.specs.Prelude.{◌≡◌, ◌<◌, [], ◌∷◌, ◌++◌, length, drop, is_some, if◌then◌else◌};
ghost use Rattle.network.specs.Links.{no_links, with_link};
ghost use Rattle.pool.specs.Pool.{links_of};
ghost use Rattle.std.specs.List.{slice_get};
ghost use Rattle.pool.specs.SentLaws.{no_other_links, short_links};
ghost use Rattle.std.proofs.Common.{lit≤};

use crate::Pool;
use crate::sent::{Sent, count_on};
use arrayvec::ArrayVec;
use network::fault::{NetworkFault, NetworkRefusal};
use network::link::{Link, Network, Route, check_link};
use network::message::Message;
use owned::next_of;
use owned::of_owner::of_owner;

impl Pool {
    // A pool with no message on its way.
    #[tactic(auto, unfolding(crate::specs::Sent::lawful))]
    pub fn new() -> Pool
        ensures { links_of result ≡ no_links }
    {
        Pool {
            table: ArrayVec::new(),
        }
    }

    // Every message comes in here: at most two on each of 56 links, so that the 112 places suffice.
    #[tactic(auto, using(crate::proofs::PoolFacts::space, crate::proofs::PoolFacts::lawful_pushed, crate::proofs::PoolFacts::links_pushed))]
    fn push(&mut self, route: Route, message: Message)
        requires { length (links_of self.old route.sender.number route.receiver.number) < 2 }
        ensures { links_of self.new ≡ with_link (links_of self.old) route.sender.number route.receiver.number (links_of self.old route.sender.number route.receiver.number ++ (message ∷ [])) }
    {
        self.table.push(Sent {
            link: route.link(),
            message,
        });
    }

    fn first(&self, link: Link) -> Option<Message>
        ensures { result ≡ slice_get (links_of self.now link.sender link.receiver) 0 }
    {
        of_owner(self.table.as_slice(), &link)
            .next()
            .map(|sent| sent.message)
    }

    #[tactic(auto, using(crate::proofs::PoolFacts::none_there))]
    fn take_first(&mut self, link: Link) -> Option<Message>
        ensures value { result ≡ slice_get (links_of self.old link.sender link.receiver) 0 }
        ensures after { links_of self.new ≡ (if is_some result then with_link (links_of self.old) link.sender link.receiver (drop 1 (links_of self.old link.sender link.receiver)) else links_of self.old) }
    {
        let i = next_of(self.table.as_slice(), 0, &link)?;
        Some(self.table.remove(i).message)
    }

    fn count_of(&self, link: Link) -> usize
        ensures { result ≡ length (links_of self.now link.sender link.receiver) }
    {
        count_on(self.table.as_slice(), link)
    }
}

impl Network for Pool {
    const DEPTH: usize = 2;

    ghost DEPTH = { 2 };

    ghost links = { links_of };

    ghost deep = { lit≤ tt };

    ghost short = { short_links };

    ghost bounded = { no_other_links };

    fn link_depth() -> usize {
        Self::DEPTH
    }

    fn put(&mut self, sender: u8, receiver: u8, message: Message) -> Result<(), NetworkFault> {
        let route = check_link(sender, receiver)?;
        if self.count_of(route.link()) >= Self::DEPTH {
            return Err(route.refused(NetworkRefusal::LinkFull));
        }
        self.push(route, message);
        Ok(())
    }

    fn take(&mut self, sender: u8, receiver: u8) -> Result<Message, NetworkFault> {
        let route = check_link(sender, receiver)?;
        let first = self.take_first(route.link());
        first.ok_or(route.refused(NetworkRefusal::NothingThere))
    }

    fn look(&self, sender: u8, receiver: u8) -> Result<Message, NetworkFault> {
        let route = check_link(sender, receiver)?;
        let first = self.first(route.link());
        first.ok_or(route.refused(NetworkRefusal::NothingThere))
    }

    fn count(&self, sender: u8, receiver: u8) -> Result<usize, NetworkFault> {
        let route = check_link(sender, receiver)?;
        Ok(self.count_of(route.link()))
    }
}
