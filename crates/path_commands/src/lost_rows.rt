//! The rows of the numbers of a hart that were lost.

ghost use Rattle.std.specs.Prelude.{OnOk};
ghost use Rattle.std.specs.Io.KnownBytes.{Appends};
ghost use Rattle.output.specs.Begun.{AppendsBeginning};
ghost use Rattle.path_commands.specs.Rows.{run_rows};

use crate::rows::LostRow;
use auditing::LostRuns;
use command_inputs::Format;
use output::write_text;
use std::io;
use std::io::Write;

/// Writes the rows of the longest runs of numbers of a hart that were lost.
pub(crate) fn write_lost<O: Write>(
    format: Format,
    runs: LostRuns<'_>,
    hart: usize,
    out: &mut O,
) -> io::Result<()>
    ensures text { OnOk result (Appends (O.contents out.old) (O.contents out.new) (run_rows format hart runs.entry)) }
    ensures begun { AppendsBeginning (run_rows format hart runs.entry) (O.contents out.old) (O.contents out.new) }
{
    let mut left = runs;
    while let Some(run) = left.next() {
        let row = LostRow { format, hart, run };
        write_text(out, row)?;
    }
    Ok(())
}
