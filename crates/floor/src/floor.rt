// A floor and what it keeps.
ghost use Rattle.std.specs.Prelude.{◌≡◌, ◌≤◌, length};

use journals::set::Journals;
use ledgers::ledger::LEDGERS;
use network::link::Network;
use network::message::Vote;
use rules::row::Row;

mod blank;
mod calls;
mod opening;
mod perform;
mod plans;
mod questions;
mod reads;
mod rest;
mod worklist;

#[derive(Drop)]
pub struct Floor<N: Network, J: Journals> {
    network: N,
    journals: J,
    // How many ledgers take part; none where the floor is closed, so that every call refuses there by its first check.
    ledgers: u8,
    // Beside the rows, as the state that the contracts read has two lists.
    votes: [Vote; LEDGERS],
    rows: [Row; LEDGERS],
    // The messages sent since the opening.
    sent: u64,
    ghost few: { ledgers ≤ 8 },
    ghost voted: { length votes ≡ 8 },
    ghost whole: { length rows ≡ 8 },
}
