//! Facts that follow from the definitions of tables, and of captures that `generate` makes.

ghost use Rattle.std.specs.Prelude.{◌≡◌, All, ℕ, Bool, List, Option, length};
ghost use Rattle.auditing.specs.DecodedAgain.{AreAllWhole};
ghost use Rattle.auditing.specs.Sent.{IsSent};
ghost use Rattle.captures.specs.Decoded.{IsDecoded};
ghost use Rattle.captures.specs.Returned.{AreReturned};
ghost use Rattle.captures.specs.Versions.{header_of as header_of_logs};
ghost use Rattle.captures.specs.declared.outcome.CaptureFault.{CaptureFault};
ghost use Rattle.legalpath.specs.ProgramLog.{ProgramLog};
ghost use Rattle.message.specs.Header.{IsHeader};
ghost use Rattle.payload.specs.declared.mode.Mode.{Mode};
ghost use Rattle.message.specs.OfHart.{of_hart};
ghost use Rattle.message.specs.declared.header.Version.{Version};
ghost use Rattle.message.specs.declared.header.Version.TheVariants.{One};
ghost use Rattle.message.specs.declared.message.Message.{Message};
ghost use Rattle.path_commands.specs.DecodedLogs.{AreItsLogs, IsOfMixedLogs, header_in};
ghost use Rattle.path_commands.specs.ReadBack.{AreReadBack};
ghost use Rattle.retire.specs.declared.event.Event.{Event};
ghost use Rattle.rvclass.specs.Fetch.{words_of};
ghost use Rattle.rvclass.specs.Image.{Image};
ghost use Rattle.stimulus.specs.Mixed.{IsMixedCapture, header_of};
ghost use Rattle.stimulus.specs.declared.capturing.Capture.{Capture};

/// The table of an audit is read back: at each of its rows `csv` reads just the fields of the row, and goes on after it.
pub fn rows_are_read_back()
    ensures { AreReadBack }
{}

/// What `generate capture` writes may be what was sent. Its audit with messages of which each hart's are the same, in the
/// same order, is whole, and so is its audit with itself.
pub fn generated_captures_are_whole()
    ensures sent { (program : Image) (asked : Capture) (bytes : List ℕ) → IsHeader (header_of asked)
        → (made : IsMixedCapture program asked bytes)
        → IsSent bytes (header_in asked.version (header_of asked)) made.messages }
    ensures whole { (program : Image) (asked : Capture) (bytes : List ℕ) → IsHeader (header_of asked)
        → (made : IsMixedCapture program asked bytes)
        → AreAllWhole (header_in asked.version (header_of asked)) made.messages made.messages }
    ensures alike { (program : Image) (asked : Capture) (bytes : List ℕ) → IsHeader (header_of asked)
        → (made : IsMixedCapture program asked bytes) → (others : List Message)
        → ((hart : ℕ) → of_hart hart others ≡ of_hart hart made.messages)
        → AreAllWhole (header_in asked.version (header_of asked)) made.messages others }
{}

/// What `generate capture` writes decodes to the logs that its harts sent, without a fault, unless an allocation fails.
/// In version 1, which has no header, the count of harts has to be given.
pub fn generated_captures_decode()
    ensures { (program : Image) (asked : Capture) (bytes : List ℕ) → IsHeader (header_of asked)
        → (made : IsMixedCapture program asked bytes) → (harts : ℕ) → (asked.version ≡ One → harts ≡ asked.harts)
        → (lists : List (List Event)) (closed : List Bool) (stop : Option (ℕ × CaptureFault))
        → IsDecoded (words_of program) harts bytes lists closed stop
        → AreItsLogs program (header_of asked) made.messages lists closed stop }
{}

/// What `encode --mixed` writes of all logs as a capture, and any other capture in which each hart's messages are those
/// of its log, in their order, may be what was sent (`sent`). Its audit with messages of which each hart's are the same
/// is whole, so with what `encode` writes without `--mixed` (`alike`). It decodes to the logs, without a fault, unless an
/// allocation fails (`decodes`); in version 1, which has no header, the count of harts has to be given. That each hart's
/// messages are the same with `--mixed` is `log_commands::mixed_messages_are_the_same`.
pub fn mixed_captures_decode()
    ensures sent { (period : ℕ) (mode : Mode) (version : Version) (logs : List ProgramLog) (bytes : List ℕ)
        (messages : List Message) → IsOfMixedLogs period mode version logs bytes messages
        → IsSent bytes (header_in version (header_of_logs period mode logs)) messages }
    ensures alike { (period : ℕ) (mode : Mode) (version : Version) (logs : List ProgramLog) (bytes : List ℕ)
        (messages : List Message) → IsOfMixedLogs period mode version logs bytes messages → (others : List Message)
        → ((hart : ℕ) → of_hart hart others ≡ of_hart hart messages)
        → AreAllWhole (header_in version (header_of_logs period mode logs)) messages others }
    ensures decodes { (program : Image) (period : ℕ) (mode : Mode) (version : Version) (logs : List ProgramLog)
        (bytes : List ℕ) (messages : List Message) → IsOfMixedLogs period mode version logs bytes messages
        → All (λ (log : ProgramLog). log.program ≡ program) logs
        → (harts : ℕ) → (version ≡ One → harts ≡ length logs)
        → (lists : List (List Event)) (closed : List Bool) (stop : Option (ℕ × CaptureFault))
        → IsDecoded (words_of program) harts bytes lists closed stop → AreReturned logs lists closed stop }
{}
