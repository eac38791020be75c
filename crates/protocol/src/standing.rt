// How a ledger stands.
#[derive(Clone, Copy, Debug, PartialEq, Eq)]
pub enum Standing {
    Running,
    Stopped,
    // Restarted, and its journal tells what became of the batch.
    Known,
    // Restarted, and its journal does not tell.
    Uncertain,
}
