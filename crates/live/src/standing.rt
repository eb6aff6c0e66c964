//! Where a message is, by what is in view.

ghost use Rattle.std.specs.Prelude.{◌≡◌};
ghost use Rattle.live.specs.Live.{is_beyond};

/// Where a number of a hart is, by what is in view of SENT.
#[derive(Clone, Copy)]
pub enum Standing {
    /// It is below those in view: it is given up.
    Below,
    /// It is in view, at this place. Places are counted from the first message in view.
    At(usize),
    /// It is neither.
    Beyond,
}

impl Standing {
    /// Whether it is beyond the view.
    pub(crate) fn is_beyond(self) -> bool
        ensures { result ≡ is_beyond self }
    {
        match self {
            Standing::Beyond => true,
            _ => false,
        }
    }
}
