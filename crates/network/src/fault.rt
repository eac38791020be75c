// Why a call on a network was refused.
ghost use Rattle.std.specs.Prelude.{◌≡◌};
ghost use Rattle.network.specs.Refusals.{counted, number_of, refused};

use ledgers::fault::Fault;

// Each with its number.
#[derive(Clone, Copy, Debug, PartialEq, Eq)]
pub enum NetworkRefusal {
    UnknownLedger = 2,
    NothingThere = 7,
    LinkFull = 8,
}

#[derive(Clone, Copy, Debug, PartialEq, Eq)]
pub struct NetworkFault {
    pub refusal: NetworkRefusal,
    // The link's two ends, as called.
    pub sender: u8,
    pub receiver: u8,
}

impl NetworkFault {
    pub fn on(sender: u8, receiver: u8, refusal: NetworkRefusal) -> NetworkFault
        ensures { result ≡ refused sender receiver refusal }
    {
        NetworkFault {
            refusal,
            sender,
            receiver,
        }
    }
}

impl Fault for NetworkFault {
    ghost numbered = { λ fault. number_of fault.refusal };

    ghost letter = { λ _. 78 };

    fn number(&self) -> u8
        ensures { result ≡ number_of self.now.refusal }
    {
        self.refusal as u8
    }

    // The letter of the layer where the fault arose: one for every refusal.
    fn layer(&self) -> char
        ensures { result ≡ 78 }
    {
        'N'
    }

    ghost counted = { counted };
}
