// The calls that carry a batch.
ghost use Rattle.std.specs.Prelude.{◌≡◌, is_err};
ghost use Rattle.floor.specs.State.{state};
ghost use Rattle.protocol.specs.Calls.{begin_after, begin_answer, do_after, do_answer, deliver_after, deliver_answer, expire_after, expire_answer, restart_after, restart_answer, step_after, step_answer, stop_after, stop_answer};
ghost use Rattle.protocol.specs.Plans.{call_after, call_answer};
ghost use Rattle.protocol.specs.Laws.{LawfulCall};

use super::Floor;
use super::reads::fresh;
use journals::entry::Entry;
use journals::fault::NO_LEDGER;
use journals::set::Journals;
use network::link::Network;
use protocol::call::{Answer, Call};
use protocol::delivery::Delivery;
use protocol::fault::{FloorFault, FloorRefusal};
use protocol::recovery::Recovery;
use rules::effect::Response;
use rules::stage::Status;

impl<N: Network, J: Journals> Floor<N, J> {
    // Carries out what a ledger found to do, or refuses the call that names it and another.
    fn carry_out(
        &mut self,
        ledger: u8,
        other: u8,
        plan: Result<Response, FloorRefusal>,
    ) -> Result<(), FloorFault>
        ensures answer { result ≡ do_answer N.DEPTH (state self.old) ledger other plan }
        ensures after { state self.new ≡ do_after N.DEPTH (state self.old) ledger plan }
    {
        let response = plan.map_err(|refusal| FloorFault::Refused(refusal, ledger, other))?;
        self.perform(ledger, response)
    }

    // The coordinator begins the batch.
    pub fn begin(&mut self) -> Result<(), FloorFault>
        ensures answer { result ≡ begin_answer N.DEPTH (state self.old) }
        ensures after { state self.new ≡ begin_after N.DEPTH (state self.old) }
    {
        let plan = self.begin_of();
        self.carry_out(0, NO_LEDGER, plan)
    }

    // One act of a ledger.
    pub fn step(&mut self, ledger: u8) -> Result<(), FloorFault>
        ensures answer { result ≡ step_answer N.DEPTH (state self.old) ledger }
        ensures after { state self.new ≡ step_after N.DEPTH (state self.old) ledger }
    {
        let plan = self.step_of(ledger);
        self.carry_out(ledger, NO_LEDGER, plan)
    }

    // A ledger notices that another does not answer.
    pub fn expire(&mut self, ledger: u8, silent: u8) -> Result<(), FloorFault>
        ensures answer { result ≡ expire_answer N.DEPTH (state self.old) ledger silent }
        ensures after { state self.new ≡ expire_after N.DEPTH (state self.old) ledger silent }
    {
        let plan = self.expiry_of(ledger, silent);
        self.carry_out(ledger, silent, plan)
    }

    // The ledger's machine stops: its stage is lost, its journal and what it sent remain.
    pub fn stop(&mut self, ledger: u8) -> Result<(), FloorFault>
        ensures answer { result ≡ stop_answer (state self.old) ledger }
        ensures after { state self.new ≡ stop_after (state self.old) ledger }
    {
        let plan = self.stop_of(ledger);
        self.carry_out(ledger, NO_LEDGER, plan)
    }

    // Takes the first message on its way to a ledger, and has that ledger act on it.
    pub fn deliver(&mut self, sender: u8, receiver: u8) -> Result<Delivery, FloorFault>
        ensures answer { result ≡ deliver_answer N.DEPTH (state self.old) sender receiver }
        ensures after { state self.new ≡ deliver_after N.DEPTH (state self.old) sender receiver }
    {
        self.check_pair(sender, receiver)
            .map_err(|refusal| FloorFault::Refused(refusal, sender, receiver))?;
        let message = self.network.look(sender, receiver)?;
        let Ok(row) = self.running(receiver) else {
            let _ = self.network.take(sender, receiver);
            return Ok(Delivery::Discarded);
        };
        let disputed = self.has(receiver, Entry::Dispute);
        let response = self
            .member_of(receiver)
            .on_message(row, sender, message, disputed);
        self.perform(receiver, response)?;
        // What was looked at is still the first.
        let _ = self.network.take(sender, receiver);
        Ok(Delivery::Delivered)
    }

    // The ledger's machine starts again: it tells what its journal says, and stays out of the batch.
    pub fn restart(&mut self, ledger: u8) -> Result<Recovery, FloorFault>
        ensures answer { result ≡ restart_answer N.DEPTH (state self.old) ledger }
        ensures after { state self.new ≡ restart_after N.DEPTH (state self.old) ledger }
    {
        let found = self
            .restart_of(ledger)
            .map_err(|refusal| FloorFault::Refused(refusal, ledger, NO_LEDGER))?;
        let response = Response {
            row: fresh(Status::Restarted),
            effect: found.effect,
        };
        self.perform(ledger, response)?;
        Ok(found.recovery)
    }

    fn dispatch(&mut self, call: Call) -> Result<Answer, FloorFault>
        ensures answer { result ≡ call_answer N.DEPTH (state self.old) call }
        ensures after { state self.new ≡ call_after N.DEPTH (state self.old) call }
    {
        match call {
            Call::Begin => self.begin().map(|()| Answer::Done),
            Call::Step(ledger) => self.step(ledger).map(|()| Answer::Done),
            Call::Deliver { sender, receiver } => {
                self.deliver(sender, receiver).map(Answer::Message)
            }
            Call::Expire { ledger, silent } => self.expire(ledger, silent).map(|()| Answer::Done),
            Call::Stop(ledger) => self.stop(ledger).map(|()| Answer::Done),
            Call::Restart(ledger) => self.restart(ledger).map(Answer::Recovered),
        }
    }

    // Any of these calls, with the laws that all of them keep to.
    pub fn call(&mut self, call: Call) -> Result<Answer, FloorFault>
        ensures answer { result ≡ call_answer N.DEPTH (state self.old) call }
        ensures after { state self.new ≡ call_after N.DEPTH (state self.old) call }
        ensures lawful { LawfulCall call (is_err result) (state self.old) (state self.new) }
    {
        self.dispatch(call)
    }
}
