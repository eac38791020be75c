// How a floor is opened.
ghost use Rattle.std.specs.Prelude.{◌≡◌, ◌≤◌, true, is_ok, is_some, OnOk, unwrap_or};
ghost use Rattle.protocol.specs.Opening.{open_after, open_answer, vote_at, vote_fits, votes_fit, votes_of};
ghost use Rattle.floor.specs.State.{state};
ghost use Rattle.network.specs.declared.message.Vote.TheVariants.{Yes};
ghost use Rattle.promises.specs.Runs.{new};

use super::Floor;
use super::blank::{no_entry, no_message};
use super::reads::fresh;
use crate::opening::Opening;
use journals::fault::NO_LEDGER;
use journals::set::Journals;
use ledgers::ledger::LEDGERS;
use network::link::Network;
use network::message::Vote;
use protocol::fault::{FloorFault, FloorRefusal};
use rules::stage::Status;
use std::array;

// A vote is yes (1) or no (2); a ledger past the last is as good as one that votes yes.
fn vote_at(votes: &[u8], ledger: usize) -> Option<Vote>
    ensures fits { is_some result ≡ vote_fits votes.now ledger }
    ensures vote { unwrap_or result Yes ≡ vote_at votes.now ledger }
{
    match votes.get(ledger).copied() {
        None | Some(1) => Some(Vote::Yes),
        Some(2) => Some(Vote::No),
        Some(_) => None,
    }
}

fn votes_fit(votes: &[u8]) -> bool
    ensures { result ≡ votes_fit votes.now }
{
    (0..LEDGERS).all(|ledger| vote_at(votes, ledger).is_some())
}

fn votes_of(votes: &[u8]) -> [Vote; LEDGERS]
    ensures { result ≡ votes_of votes.now }
{
    array::from_fn(|ledger| vote_at(votes, ledger).unwrap_or(Vote::Yes))
}

fn check_opening<N: Network, J: Journals>(
    network: &N,
    journals: &J,
    ledgers: u8,
    votes: &[u8],
) -> Result<(), FloorFault>
    ensures answer { result ≡ open_answer (N.links network.now) (J.entries journals.now) ledgers votes.now }
    ensures few { OnOk result (ledgers ≤ 8) }
{
    if !(2..=8).contains(&ledgers) || votes.len() != ledgers as usize || !votes_fit(votes) {
        return Err(FloorFault::Refused(FloorRefusal::MisreadOpening, NO_LEDGER, NO_LEDGER));
    }
    if !no_message(network) || !no_entry(journals) {
        return Err(FloorFault::Refused(FloorRefusal::NotFresh, NO_LEDGER, NO_LEDGER));
    }
    Ok(())
}

impl<N: Network, J: Journals> Floor<N, J> {
    fn opened_or_closed(network: N, journals: J, ledgers: u8, votes: &[u8]) -> Opening<N, J>
        ensures answer { result.answer ≡ open_answer (N.links network) (J.entries journals) ledgers votes.now }
        ensures after { state result.floor ≡ open_after (N.links network) (J.entries journals) ledgers votes.now }
    {
        let answer = check_opening(&network, &journals, ledgers, votes);
        let floor = match answer {
            Ok(()) => Floor {
                network,
                journals,
                ledgers,
                votes: votes_of(votes),
                rows: [fresh(Status::Running); LEDGERS],
                sent: 0,
            },
            Err(_) => Floor {
                network,
                journals,
                ledgers: 0,
                votes: [Vote::Yes; LEDGERS],
                rows: [fresh(Status::Stopped); LEDGERS],
                sent: 0,
            },
        };
        Opening { floor, answer }
    }

    // Opens a floor over a network and journals that hold nothing yet. Its parts come one by one: together they are a floor.
    pub fn open(network: N, journals: J, ledgers: u8, votes: &[u8]) -> Opening<N, J>
        ensures answer { result.answer ≡ open_answer (N.links network) (J.entries journals) ledgers votes.now }
        ensures after { state result.floor ≡ open_after (N.links network) (J.entries journals) ledgers votes.now }
        ensures fresh { is_ok result.answer ≡ true → state result.floor ≡ new ledgers (votes_of votes.now) }
    {
        Floor::opened_or_closed(network, journals, ledgers, votes)
    }
}
