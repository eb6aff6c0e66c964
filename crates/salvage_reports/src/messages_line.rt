//! The line of a count of messages.

ghost use Rattle.std.specs.Prelude.{◌≡◌, IfErr, OnOk};
ghost use Rattle.std.specs.Io.KnownBytes.{Appends};
ghost use Rattle.output.specs.Begun.{AppendsBeginning};
ghost use Rattle.salvage_reports.specs.MessagesLine.{messages_line};

use output::write_text;
use retire::WriteFault;
use std::io::Write;

/// Writes the line of a count of messages, after the name of what they are: `gap: 3 messages`. The only fault is
/// [`WriteFault::Write`], where the writer failed: what was written then is a prefix of the line. No memory is taken.
pub fn write_messages<O: Write>(name: &str, count: u64, out: &mut O) -> Result<(), WriteFault>
    ensures fault { IfErr result (λ fault. fault ≡ WriteFault.Write) }
    ensures text { OnOk result (Appends (O.contents out.old) (O.contents out.new) (messages_line name.now count)) }
    ensures begun { AppendsBeginning (messages_line name.now count) (O.contents out.old) (O.contents out.new) }
{
    write_text(out, format_args!("{name}: {count} messages\n"))?;
    Ok(())
}
