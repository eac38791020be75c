// Whether anything was sent or written before the opening.
ghost use Rattle.std.specs.Prelude.{◌≡◌};
ghost use Rattle.protocol.specs.Opening.{no_entry, no_message, no_message_from};

use journals::set::Journals;
use ledgers::ledger::LEDGERS;
use network::link::Network;

pub(super) fn no_entry<J: Journals>(journals: &J) -> bool
    ensures { result ≡ no_entry (J.entries journals.now) }
{
    (0..LEDGERS as u8).all(|ledger| journals.read(ledger, 0).is_err())
}

fn no_message_from<N: Network>(network: &N, sender: u8) -> bool
    ensures { result ≡ no_message_from (N.links network.now) sender }
{
    (0..LEDGERS as u8).all(|receiver| network.look(sender, receiver).is_err())
}

pub(super) fn no_message<N: Network>(network: &N) -> bool
    ensures { result ≡ no_message (N.links network.now) }
{
    (0..LEDGERS as u8).all(|sender| no_message_from(network, sender))
}
