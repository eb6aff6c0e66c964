//! The funnel in one thread.

ghost use Rattle.std.specs.Prelude.{◌≡◌, ◌++◌, ◌<◌, nat_lt, not, if◌then◌else◌, [], ◌∷◌, IfErr, IfOk, IfSome, OnErr};
ghost use Rattle.std.specs.Prelude.{Some, None, Ok, Err, length, slice_get};
ghost use Rattle.std.specs.Option.{option_to_list};
ghost use Rattle.std.specs.VecDeque.{deque_capacity};
ghost use Rattle.funnel.specs.Held.{Held, KeepsLimits};
ghost use Rattle.funnel.specs.Limits.{limit_fault};
ghost use Rattle.message.specs.Version.{most_harts};
ghost use Rattle.message.specs.declared.header.Version.TheVariants.{Two};
ghost use Rattle.funnel.specs.Machine.{Funnel, send, take_front};
ghost use Rattle.funnel.specs.declared.fault.OpenFault.{OpenFault as AnyFault};

use crate::fault::OpenFault;
use crate::limits::opening_fault;
use message::{MOST_HARTS, Message};
use std::alloc::{Allocator, Global};
use std::collections::VecDeque;
use std::marker::Model;

/// A queue of messages of several harts, of bounded length.
#[derive(Drop)]
pub struct Core<A: Allocator = Global> {
    harts: u16,
    capacity: u32,
    queue: VecDeque<Message, A>,
}

impl<A: Allocator> Model for Core<A> {
    ghost Value = { Held };

    ghost view = { λ c. record { harts = c.harts; capacity = c.capacity; queue = c.queue.items } };

    ghost invariant = { λ c. KeepsLimits (record { harts = c.harts; capacity = c.capacity; queue = c.queue.items })
        × (deque_capacity c.queue ≡ c.capacity) };
}

impl<A: Allocator> Core<A> {
    /// An empty queue of messages of the harts below `harts`, which is 1 to 1,024. It holds at most `capacity`
    /// messages, 1 to 65,536. A fault leaves no memory taken.
    pub fn new(alloc: A, harts: u16, capacity: u32) -> Result<Core<A>, OpenFault>
        ensures made { IfOk result (λ core. core ≡ record { harts = harts; capacity = capacity; queue = [] }) }
        ensures refused { (fault : AnyFault) → limit_fault (most_harts Two) harts capacity ≡ Some fault
            → result ≡ Err fault }
        ensures memory { limit_fault (most_harts Two) harts capacity ≡ None
            → IfErr result (λ fault. fault ≡ OpenFault.Memory) }
    {
        if let Some(fault) = opening_fault(MOST_HARTS, usize::from(harts), capacity) {
            return Err(fault);
        }
        match VecDeque::with_capacity(alloc, capacity as usize) {
            Ok(queue) => Ok(Core {
                harts,
                capacity,
                queue,
            }),
            Err(_) => Err(OpenFault::Memory),
        }
    }

    /// Whether the queue is full.
    pub fn is_full(&self) -> bool
        ensures { result ≡ not (nat_lt (length self.now.queue) self.now.capacity) }
    {
        self.queue.len() >= self.capacity as usize
    }

    /// Puts a message at the back of the queue; where the queue is full, gives it back and changes nothing.
    pub fn offer(&mut self, message: Message) -> Result<(), Message>
        requires known { message.hart < self.old.harts }
        ensures answer { result ≡ (if nat_lt (length self.old.queue) self.old.capacity then Ok tt else Err message) }
        ensures step { (state : Funnel) → state.queue ≡ self.old.queue →
            self.new ≡ record self.old { queue = (send self.old.capacity message state).queue } }
        ensures refused { OnErr result (self.new ≡ self.old) }
        ensures limits { (self.new.harts ≡ self.old.harts) × (self.new.capacity ≡ self.old.capacity) }
    {
        if self.is_full() {
            return Err(message);
        }
        self.queue.push_back_reserved(message);
        Ok(())
    }

    /// Takes the front message; `None` where the queue is empty.
    pub fn take(&mut self) -> Option<Message>
        ensures front { result ≡ slice_get self.old.queue 0 }
        ensures step { (state : Funnel) → state.queue ≡ self.old.queue →
            self.new ≡ record self.old { queue = (take_front state).queue } }
        ensures taken { (state : Funnel) → state.queue ≡ self.old.queue →
            (take_front state).taken ≡ state.taken ++ option_to_list result }
        ensures known { IfSome result (λ message. message.hart < self.old.harts) }
        ensures limits { (self.new.harts ≡ self.old.harts) × (self.new.capacity ≡ self.old.capacity) }
    {
        self.queue.pop_front()
    }
}
