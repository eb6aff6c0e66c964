//! The lines of a text, one at a time.

ghost use Rattle.std.specs.Prelude.{◌≡◌, ◌<◌, List, [], ◌∷◌, ℕ, IfSome, MatchOption, length};
ghost use Rattle.std.specs.Str.Lines.{lines, strip_carriage_return};

use crate::line_field::{Stop, first_place};
use std::marker::Model;

/// The lines of a text that are left to read. A clause sees the bytes that are left.
#[derive(Drop)]
pub(crate) struct Lines<'a> {
    rest: &'a [u8],
}

impl<'a> Model for Lines<'a> {
    ghost Value = { List ℕ };

    ghost view = { λ lines. lines.rest.now };
}

impl<'a> Lines<'a> {
    /// The lines of a text, before any of them is read.
    pub(crate) fn new(text: &'a [u8]) -> Lines<'a>
        ensures { result ≡ text.now }
    {
        Lines { rest: text }
    }

    /// The first line that is left, if there is one. It is passed over.
    pub(crate) fn next(&mut self) -> Option<&'a [u8]>
        ensures line { MatchOption result (lines self.old ≡ [])
            (λ line. lines self.old ≡ line.now ∷ lines self.new) }
        ensures shorter { IfSome result (λ line. length self.new < length self.old) }
    {
        let rest = self.rest;
        if rest.is_empty() {
            return None;
        }
        let feed = first_place(rest, Stop::Feed);
        if feed == rest.len() {
            self.rest = &rest[feed..];
            return Some(rest);
        }
        self.rest = &rest[feed + 1..];
        Some(without_return(&rest[..feed]))
    }
}

/// A line without a carriage return at its end.
fn without_return(line: &[u8]) -> &[u8]
    ensures { result.now ≡ strip_carriage_return line.now }
{
    let count = line.len();
    if count == 0 {
        return line;
    }
    if line[count - 1] == b'\r' {
        &line[..count - 1]
    } else {
        line
    }
}
