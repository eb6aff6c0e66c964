//! Writing what is salvaged of a capture that may be damaged.

ghost use Rattle.std.specs.Prelude.{◌≡◌, ◌⊎◌, Err, IfOk, None};
ghost use Rattle.std.specs.Io.KnownBytes.{Appends, Keeps};
ghost use Rattle.frames.specs.Start.{spans_of};
ghost use Rattle.salvage_reports.specs.Found.{IsFound};
ghost use Rattle.salvage_reports.specs.Layouts.{salvaged_as};
ghost use Rattle.salvage_reports.specs.Salvaged.{BeginsSalvaged};

use crate::finding::find_salvaged;
use crate::found::Found;
use crate::found_writing::{Layout, write_found};
use crate::progress::WatchSalvage;
use frames::{harts_counted, start_of};
use message::HartRange;
use retire::WriteFault;
use rvclass::ProgramOver;
use std::alloc::Global;
use std::io::Write;

/// Writes what is left of the logs of some harts of a capture, whatever happened to its bytes, as `tracebench salvage`
/// prints it, and returns what was found. The messages of a capture are the frames among its bytes, after a valid
/// header, and without one from the first byte on. `only` says which harts are written: messages of all other harts are
/// passed over.
///
/// The harts of the capture are those that its header counts; without a valid header those below `harts`; and where
/// `harts` is `None` those up to the highest hart of a frame, hart 0 at least.
///
/// [`WriteFault::Memory`] comes before anything is written. Where the writer fails, what was written is a prefix of the
/// text. The writer is not flushed. `watch` is told of each message once.
pub fn write_salvaged<V: WatchSalvage, O: Write>(
    alloc: Global,
    program: &ProgramOver,
    harts: Option<u16>,
    only: HartRange,
    layout: Layout,
    bytes: &[u8],
    watch: &V,
    out: &mut O,
) -> Result<Found, WriteFault>
    ensures found { IfOk result (IsFound only harts program.now bytes.now) }
    ensures text { IfOk result (λ found. Appends (O.contents out.old) (O.contents out.new)
        (salvaged_as layout None only found.header (spans_of found.header bytes.now) found.salvaged)) }
    ensures begun { Keeps (O.contents out.old) (O.contents out.new)
        ⊎ BeginsSalvaged layout only harts program.now bytes.now (O.contents out.old) (O.contents out.new) }
    ensures untouched { result ≡ Err WriteFault.Memory → out.new ≡ out.old }
{
    let start = start_of(bytes);
    let count = harts_counted(harts, start.header, bytes);
    let found = find_salvaged(alloc, program, start, count, only, bytes, watch)?;
    write_found(alloc, layout, None, &found, bytes, out)?;
    Ok(found)
}
