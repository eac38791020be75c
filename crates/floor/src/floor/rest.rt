// Whether an expiry is on time, and whether the floor is at rest.
ghost use Rattle.std.specs.Prelude.{◌≡◌};
ghost use Rattle.floor.specs.State.{state};
ghost use Rattle.promises.specs.Promises.{Promised};
ghost use Rattle.protocol.specs.Bounded.{all_below};
ghost use Rattle.protocol.specs.Rest.{all_clear, at_rest, clear_from, idle, on_time, on_time_answer, patient, settled, settled_from, unmissed};

use super::Floor;
use journals::set::Journals;
use network::link::Network;
use protocol::fault::FloorFault;

impl<N: Network, J: Journals> Floor<N, J> {
    fn is_clear_from(&self, sender: u8) -> bool
        ensures { result ≡ clear_from (state self.now) sender }
    {
        (0..self.ledgers).all(|receiver| self.network.look(sender, receiver).is_err())
    }

    fn is_clear(&self) -> bool
        ensures { result ≡ all_clear (state self.now) }
    {
        (0..self.ledgers).all(|sender| self.is_clear_from(sender))
    }

    // Nothing is on its way from a stopped ledger to a running one.
    fn is_settled_between(&self, sender: u8, receiver: u8) -> bool
        ensures { result ≡ settled (state self.now) sender receiver }
    {
        self.is_alive(sender)
            || !self.is_alive(receiver)
            || self.network.look(sender, receiver).is_err()
    }

    fn is_settled_from(&self, sender: u8) -> bool
        ensures { result ≡ settled_from (state self.now) sender }
    {
        (0..self.ledgers).all(|receiver| self.is_settled_between(sender, receiver))
    }

    fn is_settled(&self) -> bool
        ensures { result ≡ all_below (settled_from (state self.now)) self.now.ledgers }
    {
        (0..self.ledgers).all(|sender| self.is_settled_from(sender))
    }

    fn on_time(&self, ledger: u8) -> bool
        ensures { result ≡ on_time (state self.now) ledger }
    {
        !self.is_alive(ledger) && self.is_settled()
    }

    // Whether an expiry of this ledger would be on time.
    pub fn is_on_time(&self, ledger: u8) -> Result<bool, FloorFault>
        ensures { result ≡ on_time_answer (state self.now) ledger }
    {
        self.asked(ledger)?;
        Ok(self.on_time(ledger))
    }

    fn is_idle(&self) -> bool
        ensures { result ≡ all_below (idle (state self.now)) self.now.ledgers }
    {
        (0..self.ledgers).all(|ledger| self.step_of(ledger).is_err())
    }

    fn is_patient(&self, silent: u8) -> bool
        ensures { result ≡ all_below (patient (state self.now) silent) self.now.ledgers }
    {
        (0..self.ledgers).all(|ledger| self.expiry_of(ledger, silent).is_err())
    }

    // Nobody would expire the ledger on time.
    fn is_unmissed(&self, ledger: u8) -> bool
        ensures { result ≡ unmissed (state self.now) ledger }
    {
        !self.on_time(ledger) || self.is_patient(ledger)
    }

    fn are_unmissed(&self) -> bool
        ensures { result ≡ all_below (unmissed (state self.now)) self.now.ledgers }
    {
        (0..self.ledgers).all(|ledger| self.is_unmissed(ledger))
    }

    fn rests(&self) -> bool
        ensures { result ≡ at_rest (state self.now) }
    {
        self.is_clear() && self.is_idle() && self.are_unmissed()
    }

    // No message is on its way, no running ledger has an act left, and no on-time expiry would be taken.
    pub fn is_at_rest(&self) -> bool
        ensures answer { result ≡ at_rest (state self.now) }
        ensures promises { Promised N.DEPTH (state self.now) }
    {
        self.rests()
    }
}
