// The codes that a ledger wrote, one after the other, in whatever set keeps them.
ghost use Rattle.std.specs.Prelude.{◌≡◌, drop};
ghost use Rattle.std.specs.Iterator.{YieldsFirst, item_count};
ghost use Rattle.journals.specs.Calls.{left_from};

use crate::set::Journals;

#[derive(Drop)]
pub struct LedgerCodes<'a, J> {
    journals: &'a J,
    ledger: u8,
    // The place of the code that comes next.
    place: usize,
}

// The codes that the ledger wrote, the oldest first; none where there is no such ledger.
pub fn codes<J: Journals>(journals: &J, ledger: u8) -> LedgerCodes<'_, J>
    ensures { left_from (J.entries result.journals.now) result.ledger result.place ≡ J.entries journals.now ledger }
{
    LedgerCodes {
        journals,
        ledger,
        place: 0,
    }
}

impl<'a, J: Journals> Iterator for LedgerCodes<'a, J> {
    type Item = u8;

    ghost next_gives = { YieldsFirst (λ s. left_from (J.entries s.journals.now) s.ledger s.place) };

    ghost remaining = { item_count (λ s. left_from (J.entries s.journals.now) s.ledger s.place) };

    fn next(&mut self) -> Option<u8> {
        let code = self.journals.read(self.ledger, self.place).ok()?;
        self.place += 1;
        Some(code)
    }
}
