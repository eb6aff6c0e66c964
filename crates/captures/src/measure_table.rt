//! The table of measures.

ghost use Rattle.std.specs.Prelude.{◌≡◌, ◌≤◌, ◌^◌, All, IfErr, IfOk, OnOk, length};
ghost use Rattle.std.specs.Io.KnownBytes.{Appends};
ghost use Rattle.output.specs.Begun.{AppendsBeginning};
ghost use Rattle.captures.specs.Bounds.{AreWithin, most_counted};
ghost use Rattle.captures.specs.Measures.{total};
ghost use Rattle.captures.specs.Table.{column_names, hart_rows, measures_table, table_of};

use crate::measure_row::{Name, Row};
use crate::measured_harts::{Harts, Logged, Measured};
use crate::measures::Measures;
use legalpath::LegalLog;
use output::{write_bytes, write_text};
use payload::Mode;
use retire::WriteFault;
use std::alloc::Allocator;
use std::io::Write;

/// The first line, which names the columns.
const COLUMN_NAMES: &str =
    "hart,events,retirements,traps,branches,packets,support,sync,trap,address,map,notify,\
    updiscon,payload_bytes,longest,bits_per_retirement\n";

/// Writes the measures of each hart's log as a table, hart 0 first: a line that names the columns, a row for each hart,
/// and for several harts one for all together, whose first field is `all`. Fields are parted by commas.
///
/// The last column has eight times the payload bytes divided by the retirements, with three decimals, cut off and not
/// rounded; it is empty if nothing retired. The only fault is [`WriteFault::Write`]: the writer failed, and what was
/// written is a prefix of the table. The call allocates nothing, and does not flush the writer.
pub fn write_measures<W: Write, A: Allocator>(
    logs: &[LegalLog<'_, A>],
    period: u16,
    mode: Mode,
    sink: &mut W,
) -> Result<(), WriteFault>
    requires period { 1 ≤ period }
    requires few { length logs.now ≤ 2 ^ 16 }
    ensures table { OnOk result (Appends (W.contents sink.old) (W.contents sink.new)
        (measures_table period mode logs.now)) }
    ensures begun { AppendsBeginning (measures_table period mode logs.now)
        (W.contents sink.old) (W.contents sink.new) }
    ensures fault { IfErr result (λ fault. fault ≡ WriteFault.Write) }
{
    write_table(&Logged { logs, period, mode }, sink)
}

/// Writes the table that [`write_measures`] writes of logs, from the measures of each, hart 0 first.
///
/// The measures are those that [`LogMeasures::finish`](crate::LogMeasures::finish) returns, or no greater. The only
/// fault is [`WriteFault::Write`]: the writer failed, and what was written is a prefix of the table. The call allocates
/// nothing, and does not flush the writer.
pub fn write_measures_of<W: Write>(each: &[Measures], sink: &mut W) -> Result<(), WriteFault>
    requires few { length each.now ≤ 2 ^ 16 }
    requires within { All (AreWithin most_counted) each.now }
    ensures table { OnOk result (Appends (W.contents sink.old) (W.contents sink.new) (table_of each.now)) }
    ensures begun { AppendsBeginning (table_of each.now) (W.contents sink.old) (W.contents sink.new) }
    ensures fault { IfErr result (λ fault. fault ≡ WriteFault.Write) }
{
    write_table(&Measured { each }, sink)
}

/// Writes the table of the measures of harts.
fn write_table<H: Harts, W: Write>(harts: &H, sink: &mut W) -> Result<(), WriteFault>
    requires { length (H.each harts.now) ≤ 2 ^ 16 }
    ensures table { OnOk result (Appends (W.contents sink.old) (W.contents sink.new) (table_of (H.each harts.now))) }
    ensures begun { AppendsBeginning (table_of (H.each harts.now)) (W.contents sink.old) (W.contents sink.new) }
    ensures fault { IfErr result (λ fault. fault ≡ WriteFault.Write) }
{
    write_column_names(sink)?;
    let all = write_harts(harts, sink)?;
    if harts.count() <= 1 {
        return Ok(());
    }
    let row = Row {
        name: Name::All,
        measures: all,
    };
    write_text(sink, row)?;
    Ok(())
}

/// Writes the line that names the columns.
fn write_column_names<W: Write>(sink: &mut W) -> Result<(), WriteFault>
    ensures text { OnOk result (Appends (W.contents sink.old) (W.contents sink.new) column_names) }
    ensures begun { AppendsBeginning column_names (W.contents sink.old) (W.contents sink.new) }
    ensures fault { IfErr result (λ fault. fault ≡ WriteFault.Write) }
{
    write_bytes(sink, COLUMN_NAMES.as_bytes())?;
    Ok(())
}

/// Writes the row of each hart, and returns the measures of all together.
fn write_harts<H: Harts, W: Write>(harts: &H, sink: &mut W) -> Result<Measures, WriteFault>
    requires { length (H.each harts.now) ≤ 2 ^ 16 }
    ensures all { IfOk result (λ all. all ≡ total (H.each harts.now)) }
    ensures text { OnOk result (Appends (W.contents sink.old) (W.contents sink.new)
        (hart_rows 0 (H.each harts.now))) }
    ensures begun { AppendsBeginning (hart_rows 0 (H.each harts.now)) (W.contents sink.old) (W.contents sink.new) }
    ensures fault { IfErr result (λ fault. fault ≡ WriteFault.Write) }
{
    let mut all = Measures::none();
    for hart in 0..harts.count() {
        let measures = harts.measures(hart);
        let row = Row {
            name: Name::Hart(hart),
            measures,
        };
        write_text(sink, row)?;
        all.add(&measures);
    }
    Ok(all)
}
