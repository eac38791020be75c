// What a ledger does besides changing its row: at most one entry written, or one message sent.
ghost use Rattle.std.specs.Prelude.{◌≡◌};
ghost use Rattle.rules.specs.Rules.{in_stage, quiet};
ghost use Rattle.rules.specs.declared.effect.Effect.TheVariants.{Send, Write};

use crate::row::Row;
use crate::stage::Stage;
use journals::entry::Entry;
use network::message::Message;

#[derive(Clone, Copy, Debug, PartialEq, Eq)]
pub enum Effect {
    Nothing,
    Write(Entry),
    // To a ledger.
    Send(u8, Message),
}

// What a rule makes of a row.
#[derive(Clone, Copy, Debug, PartialEq, Eq)]
pub struct Response {
    pub row: Row,
    pub effect: Effect,
}

impl Row {
    pub(crate) fn quiet(self) -> Response
        ensures { result ≡ quiet self }
    {
        Response {
            row: self,
            effect: Effect::Nothing,
        }
    }

    pub(crate) fn responds(self, stage: Stage, effect: Effect) -> Response
        ensures { result ≡ record { row = in_stage self stage; effect = effect } }
    {
        Response {
            row: self.in_stage(stage),
            effect,
        }
    }

    pub(crate) fn writes(self, stage: Stage, entry: Entry) -> Response
        ensures { result ≡ record { row = in_stage self stage; effect = Write entry } }
    {
        self.responds(stage, Effect::Write(entry))
    }

    pub(crate) fn sends(self, stage: Stage, ledger: u8, message: Message) -> Response
        ensures { result ≡ record { row = in_stage self stage; effect = Send ledger message } }
    {
        self.responds(stage, Effect::Send(ledger, message))
    }
}
