// What an opening gives.
use crate::floor::Floor;
use journals::set::Journals;
use network::link::Network;
use protocol::fault::FloorFault;

#[derive(Drop)]
pub struct Opening<N: Network, J: Journals> {
    // Where the opening was refused, a closed floor: it keeps the network and the journals, and knows no ledger.
    pub floor: Floor<N, J>,
    pub answer: Result<(), FloorFault>,
}
