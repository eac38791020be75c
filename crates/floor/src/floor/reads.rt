// What the calls read of a floor.
ghost use Rattle.std.specs.Prelude.{◌≡◌, true, not, ◌&&◌, is_some, Ok, IfOk, ◌==◌};
ghost use Rattle.journals.specs.Codes.{code_of};
ghost use Rattle.protocol.specs.Calls.{need, pair};
ghost use Rattle.protocol.specs.Recovery.{finding, found};
ghost use Rattle.protocol.specs.Refusals.{check};
ghost use Rattle.floor.specs.State.{state};
ghost use Rattle.protocol.specs.State.{fresh, has, known, member_of, row_of, runs};
ghost use Rattle.protocol.specs.Worklist.{uncertain};
ghost use Rattle.protocol.specs.declared.fault.FloorFault.TheVariants.{Refused};
ghost use Rattle.protocol.specs.declared.fault.FloorRefusal.TheVariants.{NotRunning, UnknownLedger};
ghost use Rattle.rules.specs.Stages.{held, initial};

use super::Floor;
use journals::codes::codes;
use journals::entry::Entry;
use journals::fault::NO_LEDGER;
use journals::set::Journals;
use network::link::Network;
use network::message::Vote;
use protocol::fault::{FloorFault, FloorRefusal};
use protocol::recovery::{Finding, Recovery};
use rules::effect::Effect;
use rules::ledger_set::LedgerSet;
use rules::row::{Member, Row};
use rules::stage::{Stage, Status};

impl<N: Network, J: Journals> Floor<N, J> {
    pub(super) fn member_of(&self, ledger: u8) -> Member
        ensures { result ≡ member_of (state self.now) ledger }
    {
        Member {
            ledgers: self.ledgers,
            number: ledger,
            vote: self
                .votes
                .get(ledger as usize)
                .copied()
                .unwrap_or(Vote::Yes),
        }
    }

    // Past the table there is a row that does not run.
    pub(super) fn status_of(&self, ledger: u8) -> Status
        ensures { result ≡ (row_of (state self.now) ledger).status }
    {
        self.rows
            .get(ledger as usize)
            .map_or(Status::Stopped, |row| row.status)
    }

    pub(super) fn is_alive(&self, ledger: u8) -> bool
        ensures { result ≡ runs (row_of (state self.now) ledger).status }
    {
        self.status_of(ledger) == Status::Running
    }

    // The row of one of the floor's ledgers.
    pub(super) fn known(&self, ledger: u8) -> Result<Row, FloorRefusal>
        ensures { result ≡ need (known (state self.now) ledger) UnknownLedger (Ok (row_of (state self.now) ledger)) }
    {
        if ledger >= self.ledgers {
            return Err(FloorRefusal::UnknownLedger);
        }
        Ok(self.rows[ledger as usize])
    }

    // The same, for a question about that ledger alone.
    pub(super) fn asked(&self, ledger: u8) -> Result<Row, FloorFault>
        ensures { result ≡ check (known (state self.now) ledger) (Refused UnknownLedger ledger 255) (Ok (row_of (state self.now) ledger)) }
    {
        self.known(ledger)
            .map_err(|refusal| FloorFault::Refused(refusal, ledger, NO_LEDGER))
    }

    // The row of a ledger that runs.
    pub(super) fn running(&self, ledger: u8) -> Result<Row, FloorRefusal>
        ensures answer { result ≡ need (known (state self.now) ledger) UnknownLedger (need (runs (row_of (state self.now) ledger).status) NotRunning (Ok (row_of (state self.now) ledger))) }
        ensures found { IfOk result (λ row. (known (state self.now) ledger ≡ true) × (runs row.status ≡ true) × (row ≡ row_of (state self.now) ledger)) }
    {
        let row = self.known(ledger)?;
        if row.status != Status::Running {
            return Err(FloorRefusal::NotRunning);
        }
        Ok(row)
    }

    // Two different ledgers of the floor are named.
    pub(super) fn check_pair(&self, one: u8, other: u8) -> Result<(), FloorRefusal>
        ensures { result ≡ need (pair (state self.now) one other) UnknownLedger (Ok tt) }
    {
        if one >= self.ledgers || other >= self.ledgers || one == other {
            return Err(FloorRefusal::UnknownLedger);
        }
        Ok(())
    }

    // What a restart finds in the ledger's journal.
    pub(super) fn finding(&self, ledger: u8) -> Finding
        ensures { result ≡ finding (J.entries self.now.journals ledger) }
    {
        if self.has(ledger, Entry::TransactionCommit) {
            return found(Recovery::Posted, Effect::Nothing);
        }
        if self.has(ledger, Entry::TransactionAbort) {
            return found(Recovery::Dropped, Effect::Nothing);
        }
        if self.has(ledger, Entry::AbortReached) || self.has(ledger, Entry::AbortReceived) {
            return found(Recovery::Dropped, Effect::Write(Entry::TransactionAbort));
        }
        if self.has(ledger, Entry::CommitReached)
            || self.has(ledger, Entry::CommitReceived)
            || self.has(ledger, Entry::ReadyYes)
        {
            return found(Recovery::Uncertain, Effect::Nothing);
        }
        found(Recovery::Dropped, Effect::Write(Entry::TransactionAbort))
    }

    // The journal does not tell what became of the batch.
    pub(super) fn is_uncertain(&self, ledger: u8) -> bool
        ensures { result ≡ uncertain (finding (J.entries self.now.journals ledger)).recovery }
    {
        self.finding(ledger).recovery == Recovery::Uncertain
    }

    // Whether the ledger wrote this entry.
    pub(super) fn has(&self, ledger: u8, entry: Entry) -> bool
        ensures { result ≡ has (code_of entry) (J.entries self.now.journals ledger) }
    {
        codes(&self.journals, ledger).any(|code| code == entry.code())
    }
}

fn found(recovery: Recovery, effect: Effect) -> Finding
    ensures { result ≡ found recovery effect }
{
    Finding { recovery, effect }
}

pub(super) fn waits(ledger: u8, row: Row) -> bool
    ensures { result ≡ (not (is_some (held row.stage)) && not (ledger == 0 && initial row.stage)) }
{
    row.stage.held().is_none() && !(ledger == 0 && row.stage.is_initial())
}

// A row of which nothing is left but the status.
pub(super) fn fresh(status: Status) -> Row
    ensures { result ≡ fresh status }
{
    Row {
        status,
        stage: Stage::Initial,
        round: 0,
        noticed: LedgerSet::new(),
        replied: LedgerSet::new(),
        ayes: LedgerSet::new(),
        noes: LedgerSet::new(),
    }
}
