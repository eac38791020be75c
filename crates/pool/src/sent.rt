// Messages on their way, and the links that they are on.
ghost use Rattle.std.specs.Prelude.{◌≡◌, length};
ghost use Rattle.pool.specs.Sent.{is_on, link_of};
ghost use Rattle.pool.specs.SentOwner.{one_link};

use network::link::Link;
use network::message::Message;
use owned::Owned;

#[derive(Clone, Copy)]
pub struct Sent {
    pub link: Link,
    pub message: Message,
}

// What an unused place holds.
impl Default for Sent {
    fn default() -> Sent {
        Sent {
            link: Link {
                sender: 0,
                receiver: 0,
            },
            message: Message::Prepare,
        }
    }
}

impl Owned for Sent {
    type Owner = Link;

    ghost belongs = { λ s l. is_on l.sender l.receiver s };

    ghost one_owner = { one_link };

    fn belongs_to(&self, owner: &Link) -> bool {
        self.link == *owner
    }
}

// How many messages are on a link. By the library's filter, which can be counted without a bound on the iterator.
pub fn count_on(sent: &[Sent], link: Link) -> usize
    ensures { result ≡ length (link_of link.sender link.receiver sent.now) }
{
    sent.iter()
        .filter(|sent| sent.belongs_to(&link))
        .map(|sent| sent.message)
        .count()
}
