//! What is salvaged of all harts of a capture, and what is done with each message (`salvaging`).

use crate::spans::bytes_in;
use cases::{Case, bytes_of};
use frames::{CaptureStart, Span, spans_of};
use listing::Form;
use message::{HartRange, Message, NoProgress};
use payload::Mode;
use rvclass::Program;
use salvage_reports::{
    Found, Layout, TreatedCapture, TreatedInRows, find_salvaged, in_rows, write_found,
    write_treated,
};
use salvaging::treat_watched;
use symbols::Symbols;

/// The program that begins at `base`, if there is one.
fn program_of(case: &Case) -> Option<Program> {
    let (base, image) = (case.named("base"), case.named("image"));
    let base = case.hex(base);
    let program = Program::new(base, bytes_of(case, image));
    case.read(program)
}

/// The messages of the frames of a capture without a header.
fn messages_in(case: &Case, capture: &[u8]) -> Vec<Message> {
    let mut messages = Vec::new(case.alloc);
    for span in spans_of(capture, None) {
        if let Span::Frame { message, .. } = span {
            case.push(&mut messages, message);
        }
    }
    messages
}

/// The form that a case names.
fn form_of(case: &Case) -> Form {
    match case.named("form") {
        "table" => Form::Table,
        "rows" => Form::Lines { rows: true },
        _ => Form::Lines { rows: false },
    }
}

/// Appends what is done with each message: as a table with `form=table`, as lines with rows with `form=rows`, or else as
/// lines.
fn put_treated(case: &Case, capture: &[u8], treated: &[TreatedInRows]) {
    let mut text = Vec::new(case.alloc);
    let form = form_of(case);
    let capture = TreatedCapture {
        header: None,
        only: HartRange::ALL,
        bytes: capture,
        treated,
    };
    let written = write_treated(form, None::<&Symbols>, capture, &mut text);
    case.granted(written);
    case.put_text(text.as_slice());
}

/// What is done with each message of a capture without a header.
pub(crate) fn treat(case: &Case) {
    let harts = case.small("harts", 1);
    let capture = bytes_in(case);
    let messages = messages_in(case, capture.as_slice());
    let Some(program) = program_of(case) else {
        return;
    };
    let (mode, messages) = (Mode::Differential, messages.as_slice());
    let treated = treat_watched(case.alloc, &program, harts, mode, messages, &NoProgress);
    let Some(treated) = case.granted(treated) else {
        return;
    };
    let rows = in_rows(case.alloc, form_of(case), messages, treated.as_slice());
    if let Some(rows) = case.granted(rows) {
        put_treated(case, capture.as_slice(), rows.as_slice());
    }
}

/// Appends the table of what is salvaged.
fn put_salvaged(case: &Case, capture: &[u8], found: &Found) {
    let mut table = Vec::new(case.alloc);
    let written = write_found(case.alloc, Layout::Table, None, found, capture, &mut table);
    case.granted(written);
    case.put_text(table.as_slice());
}

/// The table of what is salvaged of a capture of one hart without a header.
pub(crate) fn salvage(case: &Case) {
    let capture = bytes_in(case);
    let Some(program) = program_of(case) else {
        return;
    };
    let start = CaptureStart {
        header: None,
        fault: None,
    };
    let only = HartRange::ALL;
    let bytes = capture.as_slice();
    let found = find_salvaged(case.alloc, &program, start, 1, only, bytes, &NoProgress);
    if let Some(found) = case.granted(found) {
        put_salvaged(case, bytes, &found);
    }
}
