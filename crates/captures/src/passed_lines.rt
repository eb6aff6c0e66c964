//! The lines that were passed, and the messages of those that come next.

ghost use Rattle.std.specs.Prelude.{◌≡◌, ◌≤◌, ◌<◌, ◌+◌, ◌∷◌, ℕ, List, [], Option, IfSome};
ghost use Rattle.std.specs.Str.Lines.{lines};
ghost use Rattle.captures.specs.Pass.{IsPassed, no_lines, no_pass, pass, pass_fault, pass_said, skipped_of};
ghost use Rattle.captures.specs.Streamed.{form_or, known_form};

use crate::capture_line::{Line, form_of_line, line_of};
use crate::line_cursor::Lines;
use crate::line_fault::{LineFault, LinesFault};
use crate::line_form::Form;
use crate::line_settings::Settings;
use crate::numbering::{Harts, message_of};
use message::{MOST_HARTS, write_message};
use std::io::Write;

/// What is kept of the lines of a text that were passed: the form and the numbers of those that come next are known by
/// it. It does not grow with the text.
#[derive(Drop)]
pub struct PassedLines {
    /// The form of the lines, once it is known.
    form: Option<Form>,
    /// How many messages each hart has.
    counts: Harts,
    /// The lowest number that the next field of each hart may stand for.
    lows: Harts,
    /// How many lines were passed.
    lines: u64,
    /// How many of them have a fault.
    skipped: u64,
}

/// The form of a line: the one that is known, or else its own.
fn form_or(known: Option<Form>, line: &[u8]) -> Form
    ensures { result ≡ form_or known line.now }
{
    match known {
        None => form_of_line(line),
        Some(form) => form,
    }
}

/// The form that is known before the first line. Where a field has so many numbers, each line has one.
fn known_form(numbers: Option<u64>) -> Option<Form>
    ensures { result ≡ known_form numbers }
{
    match numbers {
        None => None,
        Some(_) => Some(Form::Numbered),
    }
}

impl PassedLines {
    /// No line of a text is passed yet.
    pub fn new(settings: &Settings) -> PassedLines
        ensures { result ≡ no_lines (known_form settings.now.numbers) }
    {
        PassedLines::of_form(known_form(settings.numbers))
    }

    /// No line is passed yet of a text of this form, where it is known.
    pub(crate) fn of_form(form: Option<Form>) -> PassedLines
        ensures { result ≡ no_lines form }
    {
        PassedLines {
            form,
            counts: [0; MOST_HARTS as usize],
            lows: [0; MOST_HARTS as usize],
            lines: 0,
            skipped: 0,
        }
    }

    /// How many of the lines that were passed have a fault.
    pub fn skipped(&self) -> u64
        ensures { result ≡ skipped_of self.now }
    {
        let PassedLines { skipped, .. } = self;
        *skipped
    }

    /// Passes the lines of a text, which come after those that were passed, and writes the message of each, as
    /// [`write_capture`](crate::write_capture) does. The form is that of the first line that says something.
    ///
    /// A line that has a fault is counted and passed over where `skip` is set. Else its fault is returned, with its
    /// number among all lines that were passed: the messages of the lines before it are then written, and those lines
    /// are passed. Where the writer fails, what was written is a prefix of the messages, and no clause says which lines
    /// are passed. No memory is taken, and the writer is not flushed.
    pub fn add<W: Write>(
        &mut self,
        settings: &Settings,
        skip: bool,
        text: &[u8],
        sink: &mut W,
    ) -> Result<(), LinesFault>
        requires { IfSome settings.now.numbers (λ numbers. 2 ≤ numbers) }
        ensures { IsPassed [] (pass settings.now skip self.old (lines text.now)) result self.new
            (W.contents sink.old) (W.contents sink.new) }
    {
        let mut lines = Lines::new(text);
        for _ in 0..u64::MAX {
            let Some(line) = lines.next() else {
                return Ok(());
            };
            match self.pass(settings, skip, line, sink) {
                Ok(()) => {}
                Err(why) => return Err(why),
            }
        }
        // No text has so many lines.
        Err(LinesFault::Write)
    }

    /// Passes one line.
    fn pass<W: Write>(
        &mut self,
        settings: &Settings,
        skip: bool,
        line: &[u8],
        sink: &mut W,
    ) -> Result<(), LinesFault>
        requires { IfSome settings.now.numbers (λ numbers. 2 ≤ numbers) }
        ensures { IsPassed [] (pass settings.now skip self.old (line.now ∷ [])) result self.new
            (W.contents sink.old) (W.contents sink.new) }
    {
        let Some(count) = self.lines.checked_add(1) else {
            // No text has so many lines.
            return Err(LinesFault::Write);
        };
        let form = form_or(self.form, line);
        match line_of(settings, form, line) {
            Ok(said) => self.send(settings.numbers, count, form, said, sink),
            Err(why) => self.pass_over(skip, count, why),
        }
    }

    /// Writes the message of a line that has no fault, where it says something.
    fn send<W: Write>(
        &mut self,
        numbers: Option<u64>,
        count: u64,
        form: Form,
        said: Option<Line>,
        sink: &mut W,
    ) -> Result<(), LinesFault>
        requires numbers { IfSome numbers (λ numbers. 2 ≤ numbers) }
        requires next { count ≡ self.old.lines + 1 }
        requires known { IfSome said (λ line. line.hart < 1024) }
        ensures { IsPassed [] (pass_said numbers self.old form said no_pass) result self.new
            (W.contents sink.old) (W.contents sink.new) }
    {
        let Some(said) = said else {
            self.lines = count;
            return Ok(());
        };
        let Some(message) = message_of(numbers, &mut self.counts, &mut self.lows, said) else {
            // No text has so many lines.
            return Err(LinesFault::Write);
        };
        self.form = Some(form);
        self.lines = count;
        match write_message(sink, &message) {
            Ok(()) => Ok(()),
            Err(_) => Err(LinesFault::Write),
        }
    }

    /// Passes over a line that has a fault, where that is asked for.
    fn pass_over(&mut self, skip: bool, count: u64, why: LineFault) -> Result<(), LinesFault>
        requires { count ≡ self.old.lines + 1 }
        ensures { (bytes : Option (List ℕ)) →
            IsPassed [] (pass_fault skip self.old why no_pass) result self.new bytes bytes }
    {
        if !skip {
            return Err(LinesFault::Line { line: count, why });
        }
        let Some(skipped) = self.skipped.checked_add(1) else {
            // No text has so many lines.
            return Err(LinesFault::Write);
        };
        self.skipped = skipped;
        self.lines = count;
        Ok(())
    }
}
