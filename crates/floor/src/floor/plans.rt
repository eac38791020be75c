// What a call finds to do, or why it is refused.
ghost use Rattle.std.specs.Prelude.{◌≡◌};
ghost use Rattle.floor.specs.State.{state};
ghost use Rattle.protocol.specs.Calls.{expiry_of, restart_of};
ghost use Rattle.protocol.specs.Plans.{begin_of, step_of, stop_of};

use super::Floor;
use super::reads::{fresh, waits};
use journals::entry::Entry;
use journals::set::Journals;
use network::link::Network;
use protocol::fault::FloorRefusal;
use protocol::recovery::Finding;
use rules::effect::{Effect, Response};
use rules::stage::{Stage, Status};

impl<N: Network, J: Journals> Floor<N, J> {
    // The coordinator's first entry.
    pub(super) fn begin_of(&self) -> Result<Response, FloorRefusal>
        ensures { result ≡ begin_of (state self.now) }
    {
        let row = self.running(0)?;
        if !row.stage.is_initial() {
            return Err(FloorRefusal::Begun);
        }
        Ok(Response {
            row: row.in_stage(Stage::Preparing(1)),
            effect: Effect::Write(Entry::Begin),
        })
    }

    // A ledger's act.
    pub(super) fn step_of(&self, ledger: u8) -> Result<Response, FloorRefusal>
        ensures { result ≡ step_of (state self.now) ledger }
    {
        let row = self.running(ledger)?;
        self.member_of(ledger)
            .on_step(row)
            .ok_or(FloorRefusal::Idle)
    }

    // Nothing is left of the row of a ledger that stops.
    pub(super) fn stop_of(&self, ledger: u8) -> Result<Response, FloorRefusal>
        ensures { result ≡ stop_of (state self.now) ledger }
    {
        self.running(ledger)?;
        Ok(Response {
            row: fresh(Status::Stopped),
            effect: Effect::Nothing,
        })
    }

    // What a ledger does about another's silence, or why it does nothing.
    pub(super) fn expiry_of(&self, ledger: u8, silent: u8) -> Result<Response, FloorRefusal>
        ensures { result ≡ expiry_of (state self.now) ledger silent }
    {
        self.check_pair(ledger, silent)?;
        let row = self.running(ledger)?;
        if !waits(ledger, row) {
            return Err(FloorRefusal::NotWaiting);
        }
        if row.noticed.contains(silent) {
            return Err(FloorRefusal::Noticed);
        }
        Ok(self.member_of(ledger).on_expiry(row, silent))
    }

    // What a restart of this ledger finds, or why it may not restart.
    pub(super) fn restart_of(&self, ledger: u8) -> Result<Finding, FloorRefusal>
        ensures { result ≡ restart_of (state self.now) ledger }
    {
        if self.known(ledger)?.status != Status::Stopped {
            return Err(FloorRefusal::NotStopped);
        }
        Ok(self.finding(ledger))
    }
}
