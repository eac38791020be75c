// How a ledger's response is carried out.
ghost use Rattle.std.specs.Prelude.{◌≡◌};
ghost use Rattle.protocol.specs.Perform.{perform_after, perform_answer, with_row};
ghost use Rattle.floor.specs.State.{state};

use super::Floor;
use journals::set::Journals;
use network::link::Network;
use protocol::fault::FloorFault;
use rules::effect::{Effect, Response};
use rules::row::Row;

impl<N: Network, J: Journals> Floor<N, J> {
    // Every change of a row comes in here: the table lends that row and no other.
    pub(super) fn store(&mut self, ledger: u8, row: Row)
        ensures { state self.new ≡ with_row (state self.old) ledger row }
    {
        if (ledger as usize) < self.rows.len() {
            self.rows[ledger as usize].follow(row);
        }
    }

    // The entry or the message first, and then the row: where either is refused, nothing has changed.
    pub(super) fn perform(&mut self, ledger: u8, response: Response) -> Result<(), FloorFault>
        ensures answer { result ≡ perform_answer N.DEPTH (state self.old) ledger response.effect }
        ensures after { state self.new ≡ perform_after N.DEPTH (state self.old) ledger response.row response.effect }
    {
        match response.effect {
            Effect::Nothing => {}
            Effect::Write(entry) => self.journals.append(ledger, entry.code())?,
            Effect::Send(receiver, message) => {
                self.network.put(ledger, receiver, message)?;
                self.sent = self.sent.saturating_add(1);
            }
        }
        self.store(ledger, response.row);
        Ok(())
    }
}
