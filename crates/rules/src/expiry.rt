// What a ledger does when it finds that another does not answer.
ghost use Rattle.std.specs.Prelude.{◌≡◌};
ghost use Rattle.rules.specs.Rules.{coordinator_lacks, lead, on_expiry, participant_notices};

use crate::effect::Response;
use crate::ledger_set::{LedgerSet, first_missing};
use crate::row::{Member, Row};
use crate::stage::Stage;
use journals::entry::Entry;
use network::message::Decision;

impl Member {
    // Begins a round: no reply of an earlier one counts any more.
    fn lead(self, row: Row, first: Option<u8>) -> Response
        ensures { result ≡ lead self row first }
    {
        match first {
            None => self.announce(row, Decision::Drop, Entry::AbortReached),
            Some(higher) => Row {
                stage: Stage::Asking(higher),
                round: row.round.saturating_add(1),
                replied: LedgerSet::new(),
                ..row
            }
            .quiet(),
        }
    }

    fn coordinator_lacks(self, row: Row, ledger: u8) -> Response
        ensures { result ≡ coordinator_lacks self row ledger }
    {
        if row.ayes.contains(ledger) || row.noes.contains(ledger) {
            return row.quiet();
        }
        self.announce(row, Decision::Drop, Entry::AbortReached)
    }

    fn participant_notices(self, row: Row) -> Response
        ensures { result ≡ participant_notices self row }
    {
        let noticed = row.noticed;
        if first_missing(noticed, noticed, 0, self.number).is_some() {
            return row.quiet();
        }
        let above = self.number.saturating_add(1);
        self.lead(row, first_missing(noticed, noticed, above, self.ledgers))
    }

    // What the ledger does when it notices that another does not answer.
    pub fn on_expiry(self, row: Row, ledger: u8) -> Response
        ensures { result ≡ on_expiry self row ledger }
    {
        let noticing = row.with_notice(ledger);
        if self.number == 0 {
            return self.coordinator_lacks(noticing, ledger);
        }
        self.participant_notices(noticing)
    }
}
