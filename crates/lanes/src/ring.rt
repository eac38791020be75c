// A ring: a few places that are used round and round.
ghost use Rattle.std.specs.Prelude.{◌≡◌, ◌<◌, ◌≤◌, [], ◌∷◌, ◌++◌, length, drop};
ghost use Rattle.std.specs.List.{slice_get};

use network::message::Message;

// The places of a ring, and so the depth of a lane.
pub const SLOTS: usize = 4;

// By value, since a library's ring asks for memory; seen by its fields, since a model that forgets where
// the ring starts could not be copied, and would hide from the lanes' law that it is never longer.
#[derive(Clone, Copy)]
pub struct Ring {
    slots: [Message; SLOTS],
    // Where the oldest message lies.
    head: usize,
    len: usize,
    ghost inside: { head < 4 },
    ghost within: { len ≤ 4 },
}

impl Ring {
    ghost use Rattle.lanes.specs.Rings.{messages};

    pub(crate) fn new() -> Ring
        ensures { messages result ≡ [] }
    {
        Ring {
            slots: [Message::Prepare; SLOTS],
            head: 0,
            len: 0,
        }
    }

    #[tactic(auto, using(crate::specs::LaneLaws::round_length))]
    pub(crate) fn len(&self) -> usize
        ensures { result ≡ length (messages self.now) }
    {
        self.len
    }

    // Adds a message at the end.
    #[tactic(auto, using(crate::specs::LaneLaws::round_length, crate::proofs::RingFacts::round_push))]
    pub(crate) fn push(&mut self, message: Message)
        requires { length (messages self.old) < 4 }
        ensures { messages self.new ≡ messages self.old ++ (message ∷ []) }
    {
        self.slots[(self.head + self.len) % SLOTS] = message;
        self.len += 1;
    }

    // The oldest message.
    pub(crate) fn first(&self) -> Option<Message>
        ensures { result ≡ slice_get (messages self.now) 0 }
    {
        if self.len == 0 {
            return None;
        }
        Some(self.slots[self.head])
    }

    // Gives up the oldest message.
    pub(crate) fn pop(&mut self) -> Option<Message>
        ensures value { result ≡ slice_get (messages self.old) 0 }
        ensures rest { messages self.new ≡ drop 1 (messages self.old) }
    {
        let oldest = self.first()?;
        self.head = (self.head + 1) % SLOTS;
        self.len -= 1;
        Some(oldest)
    }
}
