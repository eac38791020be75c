// What every refusal tells, in whichever layer it arose.
ghost use Rattle.std.specs.Prelude.{◌≡◌, ℕ, ◌≤◌, None, Some, MatchResult};

pub trait Fault {
    ghost numbered: { Self → ℕ };

    ghost letter: { Self → ℕ };

    // The number of the refusal.
    fn number(&self) -> u8
        ensures { result ≡ numbered self.now };

    // The letter of the layer where it arose.
    fn layer(&self) -> char
        ensures { result ≡ letter self.now };

    // No refusal has the number 0, which stands for a call that was taken.
    ghost counted: { (fault : Self) → (1 ≤ numbered fault) × (numbered fault ≤ 16) };
}

// The number of the refusal, where the call was refused.
pub fn refusal<T: Drop, E: Fault + Drop>(answer: Result<T, E>) -> Option<u8>
    ensures { MatchResult answer (λ _. result ≡ None) (λ fault. result ≡ Some (E.numbered fault)) }
{
    answer.err().map(|fault| fault.number())
}
