// What holds of every run of a floor.
#![tactic(auto)]

ghost use Rattle.promises.specs.Promises.{Kept};

// A theorem: nothing is computed.
pub fn promises_are_kept()
    ensures { Kept }
{}
