//! By what payloads are compared.

/// By what a payload that came is compared with the one that was sent.
#[derive(Clone, Copy)]
pub enum By {
    /// By their bytes.
    Bytes,
    /// By the packets that they unpack to. Where the payload that was sent does not unpack, by their bytes.
    Packets,
}
