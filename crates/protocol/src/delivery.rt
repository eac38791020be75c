// What became of a message that was taken from its link.
#[derive(Clone, Copy, Debug, PartialEq, Eq)]
pub enum Delivery {
    // The ledger got it.
    Delivered,
    // The ledger does not run, so nobody got it.
    Discarded,
}
