//! What is due for an event before the next one comes.

ghost use Rattle.std.specs.Prelude.{◌≡◌};
ghost use Rattle.encoder.specs.steps.Stepping.{next_due, is_discontinuity_by_type, cuts_off, is_handler_due};

use retire::{Event, ITYPE_TRAP_RETURN, ITYPE_UNINFERABLE};

/// What is known of the rule of an event before the next one comes.
#[derive(Clone, Copy)]
pub enum Due {
    /// The packet of a trap, with its handler if a retirement comes next.
    TrapOrHandler,
    /// The packet of a trap, with its own address.
    Trap,
    /// Nothing more: the event is a handler, and was reported with its trap.
    Handler,
    /// A sync packet.
    Sync,
    /// An address packet, as the target of an uninferable discontinuity.
    Target,
    /// Nothing, unless what comes next or the event itself calls for a packet.
    Nothing,
}

impl Due {
    /// Whether this is due for a trap, or for a retirement that is a new start.
    #[inline]
    pub(crate) fn cuts_off(self) -> bool
        ensures { result ≡ cuts_off self }
    {
        matches!(self, Due::Sync | Due::Trap | Due::TrapOrHandler)
    }

    /// Whether this is due for a handler.
    #[inline]
    pub(crate) fn is_handler(self) -> bool
        ensures { result ≡ is_handler_due self }
    {
        matches!(self, Due::Handler)
    }
}

/// What is due for an event after the held one, for which `due` is due. `left` retirements come before the next
/// periodic sync.
#[inline]
pub fn due_behind(held: &Option<Event>, due: Due, left: u16, event: &Event) -> Due
    ensures { result ≡ next_due held.now due left event.now }
{
    match event {
        Event::Retire { privilege, .. } => match held {
            Some(
                Event::Retire {
                    itype,
                    privilege: level,
                    ..
                },
            ) => {
                if *privilege != *level || left == 0 {
                    Due::Sync
                } else if is_discontinuity(*itype) {
                    Due::Target
                } else {
                    Due::Nothing
                }
            }
            Some(Event::Trap { .. }) => {
                if matches!(due, Due::TrapOrHandler) {
                    Due::Handler
                } else {
                    Due::Sync
                }
            }
            None => Due::Sync,
        },
        Event::Trap { .. } => match held {
            Some(Event::Retire { itype, .. }) => {
                if is_discontinuity(*itype) {
                    Due::Trap
                } else {
                    Due::TrapOrHandler
                }
            }
            Some(Event::Trap { .. }) | None => Due::Trap,
        },
    }
}

/// Whether a retirement of this type is an uninferable discontinuity.
#[inline]
pub fn is_discontinuity(itype: u8) -> bool
    ensures { result ≡ is_discontinuity_by_type itype }
{
    itype == ITYPE_TRAP_RETURN || itype == ITYPE_UNINFERABLE
}
