//! Events as numbers.

ghost use Rattle.std.specs.Prelude.{◌≡◌, ◌==◌, ◌&&◌, IfSome, IsTrue};
ghost use Rattle.retire.specs.declared.event.Event.{Event as AnyEvent};
ghost use Rattle.ffi.specs.Events.{numbers_if_any, numbers_of_event};
ghost use Rattle.ffi.specs.steps.ReadingEvents.{event_if_any, event_in, is_retirement_read};

use retire::Event;

/// An instruction retired.
pub const RETIREMENT: u32 = 0;
/// An exception or an interrupt was taken.
pub const TRAP_TAKEN: u32 = 1;

/// A retirement or a trap as numbers. What an event of this kind does not have is 0.
#[repr(C)]
#[derive(Clone, Copy, PartialEq, Eq)]
pub struct EventNumbers {
    /// Which event it is: [`RETIREMENT`] or [`TRAP_TAKEN`].
    pub kind: u32,
    /// Of a retirement: the instruction's type, numbered as `itype` is at the E-Trace specification's interface between
    /// a hart and its encoder: 0 for none of the others, 3 for a return from a trap, 4 for a branch not taken, 5 for a
    /// branch taken, 6 for an uninferable jump.
    pub itype: u8,
    /// The privilege that an instruction retired at, or that a trap was taken from: 0, 1 or 3.
    pub privilege: u8,
    /// Of a trap: the cause, below 64.
    pub cause: u8,
    /// Of a trap: 1 where it is an interrupt, and else 0.
    pub interrupt: u8,
    /// The address of a retirement, the exception program counter of a trap. It is even.
    pub address: u64,
    /// Of an exception: the trap value.
    pub tval: u64,
}

/// The numbers of an event.
pub(crate) fn numbers_of_event(event: &Event) -> EventNumbers
    ensures { result ≡ numbers_of_event event.now }
{
    match event {
        Event::Retire {
            addr,
            itype,
            privilege,
        } => EventNumbers {
            kind: RETIREMENT,
            itype: *itype,
            privilege: *privilege,
            cause: 0,
            interrupt: 0,
            address: *addr,
            tval: 0,
        },
        Event::Trap {
            privilege,
            interrupt,
            cause,
            epc,
            tval,
        } => EventNumbers {
            kind: TRAP_TAKEN,
            itype: 0,
            privilege: *privilege,
            cause: *cause,
            interrupt: u8::from(*interrupt),
            address: *epc,
            tval: *tval,
        },
    }
}

/// The event that has these numbers, if there is one. Its type, privilege and cause may be such that no log has.
#[inline(always)]
pub(crate) fn event_of(numbers: &EventNumbers) -> Option<Event>
    ensures found { IfSome result (λ event. numbers.now ≡ numbers_of_event event) }
    ensures only { (event : AnyEvent) → numbers.now ≡ numbers_of_event event → result ≡ Some event }
{
    let event = event_in(numbers);
    if numbers_of_event(&event) == *numbers {
        Some(event)
    } else {
        None
    }
}

/// Reads an event from its numbers. Whether they are an event's.
#[inline(always)]
pub(crate) fn read_event(numbers: &EventNumbers, event: &mut Event) -> bool
    ensures { IsTrue result → numbers.now ≡ numbers_of_event event.new }
{
    if is_retirement(numbers) {
        *event = retirement_in(numbers);
        return true;
    }
    read_trap(numbers, event)
}

/// Whether numbers are those of a retirement: its kind is 0, and so is what it does not have. All bits of these are
/// looked at together, which is faster than each number; the cause and the interrupt lie side by side and are loaded as
/// one number.
#[inline(always)]
fn is_retirement(numbers: &EventNumbers) -> bool
    ensures { result ≡ ((numbers.now.kind == RETIREMENT) && is_retirement_read numbers.now) }
{
    let of_trap = u16::from(numbers.cause) + (u16::from(numbers.interrupt) << 8);
    u64::from(numbers.kind | u32::from(of_trap)) | numbers.tval == 0
}

/// The retirement that has these numbers, if one has. It is a function's result, which is stored in fewer parts than
/// an event that is made in place.
#[inline(always)]
fn retirement_in(numbers: &EventNumbers) -> Event
    ensures { result ≡ AnyEvent.Retire numbers.now.address numbers.now.itype numbers.now.privilege }
{
    Event::Retire {
        addr: numbers.address,
        itype: numbers.itype,
        privilege: numbers.privilege,
    }
}

/// Reads a trap from its numbers. It is a call of its own, which keeps the loop over retirements short.
#[inline(never)]
fn read_trap(numbers: &EventNumbers, event: &mut Event) -> bool
    ensures { IsTrue result → numbers.now ≡ numbers_of_event event.new }
{
    match event_of(numbers) {
        Some(found) => {
            *event = found;
            true
        }
        None => false,
    }
}

/// An event that has these numbers, if any has.
#[inline(always)]
fn event_in(numbers: &EventNumbers) -> Event
    ensures { result ≡ event_in numbers.now }
{
    let privilege = numbers.privilege;
    if numbers.kind == RETIREMENT {
        return Event::Retire {
            addr: numbers.address,
            itype: numbers.itype,
            privilege,
        };
    }
    Event::Trap {
        privilege,
        interrupt: numbers.interrupt != 0,
        cause: numbers.cause,
        epc: numbers.address,
        tval: numbers.tval,
    }
}

/// The numbers of an event, if there is one. Else all are 0.
#[inline(always)]
pub(crate) fn numbers_if_any(event: &Option<Event>) -> EventNumbers
    ensures { result ≡ numbers_if_any event.now }
{
    match event {
        Some(event) => numbers_of_event(event),
        None => EventNumbers {
            kind: 0,
            itype: 0,
            privilege: 0,
            cause: 0,
            interrupt: 0,
            address: 0,
            tval: 0,
        },
    }
}

/// An event that has these numbers, if any has, where there is one by this flag.
#[inline(always)]
pub(crate) fn event_if_any(there: u32, numbers: &EventNumbers) -> Option<Event>
    ensures { result ≡ event_if_any there numbers.now }
{
    if there == 0 {
        None
    } else {
        Some(event_in(numbers))
    }
}
