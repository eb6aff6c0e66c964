//! What the definitions of what is read and kept of a capture promise.

ghost use Rattle.std.specs.Prelude.{ℕ, List, Option, Ok};
ghost use Rattle.salvage_reports.specs.HartItems.{AllHartsHaveItems};
ghost use Rattle.std.specs.declared.alloc.Global.{Global as AnyGlobal};
ghost use Rattle.captures.specs.Whole.{IsWhole};
ghost use Rattle.losses.specs.declared.part.HartPieces.{HartPieces};
ghost use Rattle.message.specs.declared.fault.MessageFault.{MessageFault};
ghost use Rattle.message.specs.declared.header.Header.{Header};
ghost use Rattle.message.specs.declared.message.Message.{Message};
ghost use Rattle.rvclass.specs.Image.{Image};
ghost use Rattle.salvaging.specs.declared.salvaged.Salvaged.{Salvaged};
ghost use Rattle.salvaging.specs.declared.salvaged.SalvagedHart.{SalvagedHart};
ghost use Rattle.capture_commands.specs.KeptToo.{AreReadAlike, CountAlike, HaveSmallNumbers, IsKeptToo, IsOfFrames};
ghost use Rattle.capture_commands.specs.Pieces.{ArePieces};
ghost use Rattle.salvage_reports.specs.Found.{IsSalvagedCapture};

/// Where no range of harts is asked for, `salvage` and `decode --lossy` leave no hart out.
pub fn all_harts_have_items()
    ensures salvaged { AllHartsHaveItems (SalvagedHart AnyGlobal) }
    ensures pieces { AllHartsHaveItems (HartPieces AnyGlobal) }
{}

/// The messages that `decode --lossy` reads of a capture are those of its frames, in their order, which `salvage`
/// reads. The capture has a valid header or none. The hart of each message is below the header's count, or without a
/// header below 1,024, and its number is below 2^32.
pub fn captures_are_read_alike()
    ensures { (bytes : List ℕ) (header : Option Header) (messages : List Message) → IsOfFrames bytes header messages
        → AreReadAlike bytes header messages }
{}

/// Where `decode --lossy` collects what is left of a capture's logs without a fault, `salvage` keeps the same of each
/// hart and ends in the same way. The numbers of the messages are below 2^32. Without a header the same harts are asked
/// of both, or of neither.
pub fn what_is_collected_of_a_capture_is_salvaged()
    ensures { (harts : ℕ) (asked : Option ℕ) (program : Image) (bytes : List ℕ) (header found : Option Header)
        (messages : List Message) (why : Option MessageFault) (pieces : List (HartPieces AnyGlobal))
        (salvaged : Salvaged AnyGlobal) → IsWhole bytes header messages → HaveSmallNumbers messages
        → CountAlike harts asked header → ArePieces harts program bytes (Ok pieces)
        → IsSalvagedCapture asked program bytes found why salvaged → IsKeptToo bytes found why pieces salvaged }
{}
