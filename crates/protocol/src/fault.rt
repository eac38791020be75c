// Why a call on a floor was refused: by the floor itself, by its network or by its journals.
ghost use Rattle.std.specs.Prelude.{◌≡◌};
ghost use Rattle.protocol.specs.RefusalFacts.{faults_counted};
ghost use Rattle.protocol.specs.Refusals.{fault_layer, fault_number, number_of};
ghost use Rattle.protocol.specs.declared.fault.FloorFault.TheVariants.{Link, Journal};

use journals::fault::JournalsFault;
use ledgers::fault::Fault;
use network::fault::NetworkFault;

#[derive(Clone, Copy, Debug, PartialEq, Eq)]
pub enum FloorRefusal {
    MisreadOpening = 1,
    UnknownLedger = 2,
    NotRunning = 3,
    NotStopped = 4,
    Begun = 5,
    Idle = 6,
    NotWaiting = 9,
    Noticed = 10,
    NotFresh = 11,
    ShortList = 14,
}

impl FloorRefusal {
    pub fn number(self) -> u8
        ensures { result ≡ number_of self }
    {
        self as u8
    }
}

#[derive(Clone, Copy, Debug, PartialEq, Eq)]
pub enum FloorFault {
    // The floor's own refusal, with the ledgers as called: two numbers, as in every fault.
    // It is made by its variant wherever it arises, which shows the two ledgers there: a function would name them no plainer.
    Refused(FloorRefusal, u8, u8),
    Link(NetworkFault),
    Journal(JournalsFault),
}

// By cases: a fault from below is asked itself.
impl Fault for FloorFault {
    ghost numbered = { fault_number };

    ghost letter = { fault_layer };

    fn number(&self) -> u8
        ensures { result ≡ fault_number self.now }
    {
        match self {
            FloorFault::Refused(refusal, _, _) => refusal.number(),
            FloorFault::Link(link) => link.number(),
            FloorFault::Journal(journal) => journal.number(),
        }
    }

    fn layer(&self) -> char
        ensures { result ≡ fault_layer self.now }
    {
        match self {
            FloorFault::Refused(_, _, _) => 'F',
            FloorFault::Link(link) => link.layer(),
            FloorFault::Journal(journal) => journal.layer(),
        }
    }

    ghost counted = { faults_counted };
}

impl From<NetworkFault> for FloorFault {
    ghost from_gives = { λ e r. r ≡ Link e };

    fn from(fault: NetworkFault) -> FloorFault {
        FloorFault::Link(fault)
    }
}

impl From<JournalsFault> for FloorFault {
    ghost from_gives = { λ e r. r ≡ Journal e };

    fn from(fault: JournalsFault) -> FloorFault {
        FloorFault::Journal(fault)
    }
}
