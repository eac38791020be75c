// The pool: a network that keeps all messages in one table, in the order of sending.
#![tactic(auto)]

ghost use Rattle.std.specs.Prelude.{◌≡◌, true};
ghost use Rattle.pool.specs.Sent.{lawful};

use arrayvec::ArrayVec;
use sent::Sent;

mod calls;
mod sent;

// Two messages on each of 56 links.
pub const PLACES: usize = 112;

#[derive(Drop)]
pub struct Pool {
    // The messages on their way, the oldest first.
    table: ArrayVec<Sent, PLACES>,
    ghost kept: { lawful table.items ≡ true },
}
