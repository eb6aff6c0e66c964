//! The byte order mark.

ghost use Rattle.std.specs.Prelude.{◌≡◌, ◌≤◌, drop, length};
ghost use Rattle.csv.specs.Reading.{is_bom, strip_bom};

/// Whether three bytes are the byte order mark.
fn is_mark(first: u8, second: u8, third: u8) -> bool
    ensures { result ≡ is_bom first second third }
{
    first == 0xef && second == 0xbb && third == 0xbf
}

/// How many bytes the byte order mark at the start of a text takes: 3, or 0 where there is none.
pub(crate) fn mark_length(text: &[u8]) -> usize
    ensures mark { drop result text.now ≡ strip_bom text.now }
    ensures within { result ≤ length text.now }
{
    if text.len() < 3 {
        return 0;
    }
    if is_mark(text[0], text[1], text[2]) {
        return 3;
    }
    0
}
