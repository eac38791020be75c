// The one act that a ledger does in a step.
ghost use Rattle.std.specs.Prelude.{◌≡◌, Some};
ghost use Rattle.rules.specs.Rules.{act, on_step};
ghost use Rattle.rules.specs.declared.stage.Stage.TheVariants.{Announcing, Asking, Preparing};

use crate::effect::Response;
use crate::ledger_set::first_missing;
use crate::row::{Member, Row};
use crate::stage::Stage;
use network::message::{Decision, Message};

impl Member {
    fn prepares(self, row: Row, next: u8) -> Response
        ensures { Some result ≡ act self row (Preparing next) }
    {
        let after = next.saturating_add(1);
        let stage = if after < self.ledgers {
            Stage::Preparing(after)
        } else {
            Stage::Wait
        };
        row.sends(stage, next, Message::Prepare)
    }

    // After the last ledger to ask, it waits for the replies.
    fn asks(self, row: Row, next: u8) -> Response
        ensures { Some result ≡ act self row (Asking next) }
    {
        let above = next.saturating_add(1);
        let after = first_missing(row.noticed, row.noticed, above, self.ledgers);
        let stage = after.map_or(Stage::Consulting, Stage::Asking);
        row.sends(stage, next, Message::Ask { round: row.round })
    }

    // Sends one Order; the row keeps the numbers of the announcement that is given back.
    fn announces(self, row: Row, decision: Decision, next: u8) -> Response
        ensures { Some result ≡ act self row (Announcing decision next) }
    {
        let announcement = self.open_announcement(decision, next);
        let order = announcement.order();
        row.responds(announcement.send(self.ledgers).kept(), order)
    }

    // What the ledger does in a step, where it has something to do.
    pub fn on_step(self, row: Row) -> Option<Response>
        ensures { result ≡ on_step self row }
    {
        match row.stage {
            Stage::Preparing(next) => Some(self.prepares(row, next)),
            Stage::Voting => Some(row.sends(Stage::Ready, 0, Message::Vote(self.vote))),
            Stage::Asking(next) => Some(self.asks(row, next)),
            Stage::Announcing(decision, next) => Some(self.announces(row, decision, next)),
            // The last ledger was passed.
            Stage::Announced(decision) => {
                Some(self.sent_in_full(decision, self.ledgers).close(row))
            }
            _ => None,
        }
    }
}
