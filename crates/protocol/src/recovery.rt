// What a restarted ledger tells of the batch from its journal alone.
use rules::effect::Effect;

#[derive(Clone, Copy, Debug, PartialEq, Eq)]
pub enum Recovery {
    Posted,
    Dropped,
    // Others may have posted or dropped: a person must find out.
    Uncertain,
}

// What a restart finds, and the entry that closes the batch where it may.
#[derive(Clone, Copy, Debug, PartialEq, Eq)]
pub struct Finding {
    pub recovery: Recovery,
    pub effect: Effect,
}
