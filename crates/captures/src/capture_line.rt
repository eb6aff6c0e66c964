//! What a line says.

ghost use Rattle.std.specs.Prelude.{◌≡◌, ◌<◌, ◌^◌, ◌∷◌, IfOk, IfSome, option_map, unwrap_or};
ghost use Rattle.captures.specs.Line.{fields_of, form_of_line, is_within, line_by, line_of, number_below};
ghost use Rattle.captures.specs.Line.{number_said, said};
ghost use Rattle.captures.specs.declared.line_form.Form.TheVariants as form;
ghost use Rattle.captures.specs.steps.Cutting.{fields_left};

use crate::line_fault::LineFault;
use crate::line_field::{
    cut, is_over, is_passed_over, is_time, number_below, number_of, payload_of,
};
use crate::line_form::Form;
use crate::line_settings::Settings;
use payload::Payload;

/// What a line says.
#[derive(Drop)]
pub(crate) struct Line {
    /// The hart.
    pub(crate) hart: u16,
    /// The number of the line's field, where it has one.
    pub(crate) number: Option<u64>,
    /// The message's payload.
    pub(crate) payload: Payload,
}

/// The form of a text whose first line this is, but for those that are passed over.
pub(crate) fn form_of_line(line: &[u8]) -> Form
    ensures { result ≡ form_of_line line.now }
{
    let (_, rest) = cut(line);
    let Some(rest) = rest else {
        return Form::Numbered;
    };
    let (_, rest) = cut(rest);
    if is_over(rest) {
        Form::Counted
    } else {
        Form::Numbered
    }
}

/// What a line of a text of this form says, or its first fault. A line that is passed over says nothing.
pub(crate) fn line_of(
    settings: &Settings,
    form: Form,
    line: &[u8],
) -> Result<Option<Line>, LineFault>
    ensures value { result ≡ line_of settings.now form line.now }
    ensures known { IfOk result (λ line. IfSome line (λ line. line.hart < 1024)) }
{
    if is_passed_over(line) {
        return Ok(None);
    }
    match line_by(settings, form, line) {
        Ok(line) => Ok(Some(line)),
        Err(why) => Err(why),
    }
}

/// What a line says that is not passed over, or its first fault.
fn line_by(settings: &Settings, form: Form, line: &[u8]) -> Result<Line, LineFault>
    ensures value { result ≡ line_by settings.now form (fields_of line.now) }
    ensures known { IfOk result (λ line. line.hart < 1024) }
{
    let (hart, rest) = cut(line);
    let Some(rest) = rest else {
        return Err(LineFault::Fields);
    };
    let (second, rest) = cut(rest);
    match form {
        Form::Counted => counted(settings, hart, second, rest),
        Form::Numbered => numbered(settings, hart, second, rest),
    }
}

/// What a line with this hart and these bytes says, or its first fault. The rest is what is left after the bytes.
fn counted(
    settings: &Settings,
    hart: &[u8],
    bytes: &[u8],
    rest: Option<&[u8]>,
) -> Result<Line, LineFault>
    ensures value { result ≡ line_by settings.now form.Counted
        (hart.now ∷ bytes.now ∷ fields_left (option_map (λ rest. rest.now) rest.entry)) }
    ensures known { IfOk result (λ line. line.hart < 1024) }
{
    if hart.is_empty() || bytes.is_empty() || !is_over(rest) {
        return Err(LineFault::Fields);
    }
    said(settings, hart, None, bytes)
}

/// What a line with this hart and this number says, or its first fault. The rest is what is left after the number.
fn numbered(
    settings: &Settings,
    hart: &[u8],
    number: &[u8],
    rest: Option<&[u8]>,
) -> Result<Line, LineFault>
    ensures value { result ≡ line_by settings.now form.Numbered
        (hart.now ∷ number.now ∷ fields_left (option_map (λ rest. rest.now) rest.entry)) }
    ensures known { IfOk result (λ line. line.hart < 1024) }
{
    let Some(rest) = rest else {
        return Err(LineFault::Fields);
    };
    let (bytes, rest) = cut(rest);
    let has_empty = hart.is_empty() || number.is_empty() || bytes.is_empty();
    if has_empty || is_time(bytes) || !is_over(rest) {
        return Err(LineFault::Fields);
    }
    said(settings, hart, Some(number), bytes)
}

/// What a line with a hart, a number or none, and bytes says, or its first fault.
fn said(
    settings: &Settings,
    hart: &[u8],
    number: Option<&[u8]>,
    bytes: &[u8],
) -> Result<Line, LineFault>
    ensures value { result ≡ said settings.now hart.now (option_map (λ text. text.now) number.entry) bytes.now }
    ensures known { IfOk result (λ line. line.hart < 1024) }
{
    let Some(hart) = number_below(u64::from(settings.version.most_harts()), hart) else {
        return Err(LineFault::Hart(settings.version));
    };
    let Some(number) = number_said(settings.numbers, number) else {
        return Err(LineFault::Number(settings.numbers));
    };
    let Some(payload) = payload_of(bytes) else {
        return Err(LineFault::Bytes);
    };
    let hart = hart as u16;
    if !is_within(settings.harts, hart) {
        return Err(LineFault::Above);
    }
    Ok(Line {
        hart,
        number,
        payload,
    })
}

/// The number that a field of so many numbers says, or none where there is no such field. `None` where it is no number.
fn number_said(numbers: Option<u64>, field: Option<&[u8]>) -> Option<Option<u64>>
    ensures { result ≡ number_said numbers (option_map (λ text. text.now) field.entry) }
{
    let Some(digits) = field else {
        return Some(None);
    };
    match number_within(numbers, digits) {
        Some(number) => Some(Some(number)),
        None => None,
    }
}

/// The number that decimal digits spell, where it is below the count of numbers, or else below 2^64.
fn number_within(numbers: Option<u64>, digits: &[u8]) -> Option<u64>
    ensures { result ≡ number_below (unwrap_or numbers (2 ^ 64)) digits.now }
{
    match numbers {
        None => number_of(digits),
        Some(limit) => number_below(limit, digits),
    }
}

/// Whether a hart is below the count of harts, where one is asked for.
fn is_within(harts: Option<u16>, hart: u16) -> bool
    ensures { result ≡ is_within harts hart }
{
    match harts {
        None => true,
        Some(harts) => hart < harts,
    }
}
