// Moving messages from one link to another, over any network.
ghost use Rattle.std.specs.Prelude.{◌≡◌};
ghost use Rattle.network.specs.Forward.{Together, all_after, all_answer, one_after, one_answer};

use crate::fault::NetworkFault;
use crate::link::{Link, Network};

// Moves the first message of one link to the end of another.
pub fn forward<N: Network>(network: &mut N, from: Link, to: Link) -> Result<(), NetworkFault>
    ensures answer { result ≡ one_answer N.DEPTH (N.links network.old) from to }
    ensures after { N.links network.new ≡ one_after N.DEPTH (N.links network.old) from to }
{
    let message = network.look(from.sender, from.receiver)?;
    network.put(to.sender, to.receiver, message)?;
    // What was looked at is still the first.
    let _ = network.take(from.sender, from.receiver);
    Ok(())
}

// Moves as many messages, until a call is refused.
#[tactic(auto, using(crate::proofs::ForwardFacts::went_on_answer, crate::proofs::ForwardFacts::went_on_after, crate::proofs::ForwardFacts::still_together))]
pub fn forward_all<N: Network>(
    network: &mut N,
    from: Link,
    to: Link,
    most: usize,
) -> Result<(), NetworkFault>
    ensures answer { result ≡ all_answer most N.DEPTH (N.links network.old) from to }
    ensures together { Together (N.links network.old) (N.links network.new) from to }
    ensures after { N.links network.new ≡ all_after most N.DEPTH (N.links network.old) from to }
{
    for _moved in 0..most {
        forward(network, from, to)?;
    }
    Ok(())
}
