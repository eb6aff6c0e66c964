//! What an address field holds.
ghost use Rattle.std.specs.Prelude.{◌≡◌};
ghost use Rattle.payload.specs.AddressField.{aim, delta};

/// What the address field of address packets (formats 1 and 2) holds. The packet that opens a trace announces the mode
/// for the whole of it.
#[derive(Clone, Copy, Debug, PartialEq, Eq)]
pub enum Mode {
    /// The difference from the last reported address, modulo 2^64.
    Differential,
    /// The address itself: full-address mode.
    Full,
}

impl Mode {
    /// What the address field of a packet holds for an address, where `reported` is the last reported one.
    #[inline]
    pub fn delta(self, reported: u64, address: u64) -> u64
        ensures { result ≡ delta self reported address }
    {
        match self {
            Mode::Differential => address.wrapping_sub(reported),
            Mode::Full => address,
        }
    }

    /// The address that such a field reports, where `reported` is the last reported one.
    #[inline]
    pub fn aim(self, reported: u64, delta: u64) -> u64
        ensures { result ≡ aim self reported delta }
    {
        match self {
            Mode::Differential => reported.wrapping_add(delta),
            Mode::Full => delta,
        }
    }
}
