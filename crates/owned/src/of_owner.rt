// The elements of one owner, one after the other.
ghost use Rattle.std.specs.Prelude.{◌≡◌, filter};
ghost use Rattle.std.specs.Iterator.{YieldsFirstRef, item_count};
ghost use Rattle.owned.specs.Search.{left_of};

use crate::{Owned, next_of};

#[derive(Drop)]
pub struct OfOwner<'a, T: Owned> {
    elements: &'a [T],
    owner: &'a T::Owner,
    // The place after the elements that were given.
    start: usize,
}

// The elements that belong to `owner`, in their order.
pub fn of_owner<'a, T: Owned>(elements: &'a [T], owner: &'a T::Owner) -> OfOwner<'a, T>
    ensures { left_of (λ x. T.belongs x result.owner.now) result.elements.now result.start ≡ filter (λ x. T.belongs x owner.now) elements.now }
{
    OfOwner {
        elements,
        owner,
        start: 0,
    }
}

impl<'a, T: Owned> Iterator for OfOwner<'a, T> {
    type Item = &'a T;

    ghost next_gives = { YieldsFirstRef (λ s. left_of (λ x. T.belongs x s.owner.now) s.elements.now s.start) };

    ghost remaining = { item_count (λ s. left_of (λ x. T.belongs x s.owner.now) s.elements.now s.start) };

    fn next(&mut self) -> Option<&'a T> {
        let i = next_of(self.elements, self.start, self.owner)?;
        self.start = i + 1;
        Some(&self.elements[i])
    }
}
