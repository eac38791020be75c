// What a floor tells, with nothing changed.
ghost use Rattle.std.specs.Prelude.{◌≡◌, ◌≤◌, true, false, MatchResult};
ghost use Rattle.floor.specs.State.{state};
ghost use Rattle.protocol.specs.Calls.{read_of, status_answer};
ghost use Rattle.protocol.specs.State.{known};
ghost use Rattle.protocol.specs.Worklist.{standing_answer};
ghost use Rattle.protocol.specs.declared.fault.FloorFault.TheVariants.{Refused};
ghost use Rattle.protocol.specs.declared.fault.FloorRefusal.TheVariants.{UnknownLedger};

use super::Floor;
use journals::set::Journals;
use network::link::Network;
use protocol::fault::FloorFault;
use protocol::standing::Standing;
use rules::stage::Status;

impl<N: Network, J: Journals> Floor<N, J> {
    // Whether a ledger's machine runs.
    pub fn status(&self, ledger: u8) -> Result<Status, FloorFault>
        ensures { result ≡ status_answer (state self.now) ledger }
    {
        Ok(self.asked(ledger)?.status)
    }

    // How a ledger stands.
    pub fn standing(&self, ledger: u8) -> Result<Standing, FloorFault>
        ensures { result ≡ standing_answer (state self.now) ledger }
    {
        let standing = match self.asked(ledger)?.status {
            Status::Running => Standing::Running,
            Status::Stopped => Standing::Stopped,
            Status::Restarted if self.is_uncertain(ledger) => Standing::Uncertain,
            Status::Restarted => Standing::Known,
        };
        Ok(standing)
    }

    // How many ledgers take part; none where the floor is closed.
    pub fn ledgers(&self) -> usize
        ensures value { result ≡ (state self.now).ledgers }
        ensures few { result ≤ 8 }
    {
        self.ledgers as usize
    }

    // The journals, for a reader of one of the floor's ledgers.
    pub fn journals_with(&self, ledger: u8) -> Result<&J, FloorFault>
        ensures { MatchResult result (λ journals. (known (state self.now) ledger ≡ true) × (J.entries journals.now ≡ (state self.now).entries)) (λ fault. (known (state self.now) ledger ≡ false) × (fault ≡ Refused UnknownLedger ledger 255)) }
    {
        self.asked(ledger)?;
        Ok(&self.journals)
    }

    // The code at a place of a ledger's journal.
    pub fn read(&self, ledger: u8, place: usize) -> Result<u8, FloorFault>
        ensures { result ≡ read_of (state self.now) ledger place }
    {
        Ok(self.journals.read(ledger, place)?)
    }

    // How many messages were sent since the opening.
    pub fn total(&self) -> u64
        ensures { result ≡ (state self.now).sent }
    {
        self.sent
    }
}
