//! What is asked for beside the lines.

use message::Version;
use payload::Mode;

/// What a capture is to be beside its messages.
#[derive(Clone, Copy)]
pub struct Settings {
    /// The capture's version. In version 1 a line's hart is below 64, in version 2 below 1,024.
    pub version: Version,
    /// The mode of the header. Version 1 has no header.
    pub mode: Mode,
    /// The period of the header.
    pub period: u16,
    /// The count of harts, below which the hart of each line is. `None` is the count up to the highest hart of the
    /// lines, and 1 where there is no line.
    pub harts: Option<u16>,
    /// How many numbers a line's field has, 2 or more, where it begins again at 0 after the last of them. A message of
    /// a hart is then the one nearest to those of its hart before it. `None` where a line has the message's own number.
    pub numbers: Option<u64>,
}
