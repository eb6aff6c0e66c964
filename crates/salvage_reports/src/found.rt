//! What is found of some harts of a capture that may be damaged.

ghost use Rattle.std.specs.Prelude.{◌≡◌};
ghost use Rattle.salvage_reports.specs.Damage.{closed_harts, first_unclosed, is_damaged};
ghost use Rattle.salvage_reports.specs.HartItems.{items_of};

use crate::damage::{first_unclosed, is_damaged};
use crate::frame_reading::Frames;
use crate::hart_items::items_of;
use message::{HartRange, Header, MessageFault};
use salvaging::{Salvaged, SalvagedHart};

/// What is found of some harts of a capture that may be damaged. The capture is whole if and only if `fault` is `None`,
/// each of these harts is closed, nothing of them is damaged, and no byte belongs to no frame.
#[derive(Drop)]
pub struct Found {
    /// These harts.
    pub only: HartRange,
    /// The header, where a valid one begins the capture.
    pub header: Option<Header>,
    /// Why there is none, where the capture begins as one of version 2 does: its header is cut short or bad.
    pub fault: Option<MessageFault>,
    /// The messages of these harts' frames, where they are, and whether there are bytes that belong to no frame.
    pub frames: Frames,
    /// What is salvaged of these messages, of all harts of the capture from hart 0 on.
    pub salvaged: Salvaged,
}

impl Found {
    /// What is salvaged of those of these harts that the capture has.
    pub fn harts(&self) -> &[SalvagedHart]
        ensures { result.now ≡ items_of self.now.only self.now.salvaged.harts.items }
    {
        items_of(self.only, self.salvaged.harts.as_slice())
    }

    /// The lowest of these harts whose closing packet did not come, if there is one.
    pub fn first_unclosed(&self) -> Option<usize>
        ensures { result ≡ first_unclosed self.now.only.first
            (closed_harts (items_of self.now.only self.now.salvaged.harts.items)) }
    {
        first_unclosed(self.only.first, self.harts())
    }

    /// Whether some number of one of these harts did not come or is bad, doubtful or alone, or a message is a stranger.
    pub fn is_damaged(&self) -> bool
        ensures { result ≡ is_damaged (items_of self.now.only self.now.salvaged.harts.items)
            self.now.salvaged.strangers }
    {
        is_damaged(self.harts(), self.salvaged.strangers)
    }
}
