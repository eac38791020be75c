// Openings, restarts, tapes and whole runs, each with what must come out of it.
#![tactic(auto)]

ghost use Rattle.trials.specs.Cases.{TrialCases};

// A theorem: nothing is computed.
#[tactic(auto, using(crate::proofs::Computed::trial_cases))]
pub fn trial_cases_hold()
    ensures { TrialCases }
{}
