//! Whether the lines of a text have a fault, and how many harts they have.

ghost use Rattle.std.specs.Prelude.{◌≡◌, ◌≤◌, ◌<◌, IfOk, IfSome, Ok};
ghost use Rattle.std.specs.Str.Lines.{lines};
ghost use Rattle.captures.specs.Lines.{first_form, form_of};
ghost use Rattle.captures.specs.steps.Passing.{checked_from, harts_with};

use crate::capture_line::{Line, form_of_line, line_of};
use crate::line_cursor::Lines;
use crate::line_fault::LinesFault;
use crate::line_field::is_passed_over;
use crate::line_form::Form;
use crate::line_settings::Settings;

/// The form of a text.
pub(crate) fn form_of(settings: &Settings, text: &[u8]) -> Form
    ensures { result ≡ form_of settings.now.numbers (lines text.now) }
{
    match settings.numbers {
        None => first_form(text),
        Some(_) => Form::Numbered,
    }
}

/// The form of the first line that is not passed over.
fn first_form(text: &[u8]) -> Form
    ensures { result ≡ first_form (lines text.now) }
{
    let mut lines = Lines::new(text);
    for _ in 0..u64::MAX {
        let Some(line) = lines.next() else {
            return Form::Numbered;
        };
        if !is_passed_over(line) {
            return form_of_line(line);
        }
    }
    Form::Numbered
}

/// The count of harts with one line more.
fn harts_with(harts: u16, line: Option<Line>) -> u16
    requires known { IfSome line (λ line. line.hart < 1024) }
    ensures value { result ≡ harts_with harts (Ok line) }
    ensures least { harts ≤ result }
    ensures most { harts ≤ 1024 → result ≤ 1024 }
{
    match line {
        Some(line) => harts.max(line.hart + 1),
        None => harts,
    }
}

/// The count of harts up to the highest of a text's lines, or the first fault of these.
pub(crate) fn check(settings: &Settings, form: Form, text: &[u8]) -> Result<u16, LinesFault>
    ensures value { result ≡ checked_from settings.now form 1 1 (lines text.now) }
    ensures some { IfOk result (λ harts. 1 ≤ harts) }
    ensures few { IfOk result (λ harts. harts ≤ 1024) }
{
    let mut lines = Lines::new(text);
    let mut harts = 1;
    for at in 1..u64::MAX {
        let Some(line) = lines.next() else {
            return Ok(harts);
        };
        match line_of(settings, form, line) {
            Ok(line) => harts = harts_with(harts, line),
            Err(why) => return Err(LinesFault::Line { line: at, why }),
        }
    }
    Ok(harts)
}
