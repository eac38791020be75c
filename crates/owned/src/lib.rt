// Elements that have an owner, and the one search for the next element of an owner.
#![tactic(auto)]

pub mod of_owner;

ghost use Rattle.std.specs.Prelude.{◌≡◌, Bool, true, position};
ghost use Rattle.owned.specs.Search.{First, next_of};

// An element that belongs to one owner at most.
pub trait Owned {
    type Owner;

    // Whether the element belongs to that owner.
    ghost belongs: { Self → Self.Owner → Bool };

    fn belongs_to(&self, owner: &Self::Owner) -> bool
        ensures { result ≡ belongs self.now owner.now };

    ghost one_owner: { (x : Self) (a b : Self.Owner) → belongs x a ≡ true → belongs x b ≡ true → a ≡ b };
}

// The index of the first element that belongs to `owner`.
fn first_of<T: Owned>(elements: &[T], owner: &T::Owner) -> Option<usize>
    ensures { result ≡ position (λ x. T.belongs x owner.now) elements.now }
{
    elements.iter().position(|x| x.belongs_to(owner))
}

// The index of the first element at or after `start` that belongs to `owner`.
pub fn next_of<T: Owned>(elements: &[T], start: usize, owner: &T::Owner) -> Option<usize>
    ensures answer { result ≡ next_of (λ x. T.belongs x owner.now) elements.now start }
    ensures first { First (λ x. T.belongs x owner.now) elements.now start result }
{
    first_of(elements.get(start..)?, owner).map(|i| start + i)
}
