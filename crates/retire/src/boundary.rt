//! Where a text may be cut between two records.

ghost use Rattle.std.specs.Prelude.{◌≡◌, ◌≤◌, ◌⊎◌, ◌-◌, take, length, get_or, true};
ghost use Rattle.retire.specs.PlainText.{is_line_end, is_plain};
ghost use Rattle.retire.specs.steps.Place.{next_place, outside, place_after};

/// The place of a byte among records.
#[derive(Clone, Copy, PartialEq, Eq)]
pub(crate) enum Place {
    /// A record may start.
    Start,
    /// A field starts, and the record before it goes on.
    Field,
    /// Inside a field that has no quotes.
    Inside,
    /// Inside quotes.
    Quoted,
    /// After a quote in a quoted field, which ends the field unless another quote follows.
    Quote,
}

/// What follows a byte that is outside quotes and is no quote itself.
#[inline(always)]
fn outside(byte: u8) -> Place
    ensures { result ≡ outside byte }
{
    match byte {
        b',' => Place::Field,
        b'\r' | b'\n' => Place::Start,
        _ => Place::Inside,
    }
}

/// What follows a byte.
#[inline(always)]
fn next_place(place: Place, byte: u8) -> Place
    ensures { result ≡ next_place place byte }
{
    match (place, byte) {
        (Place::Start | Place::Field | Place::Quote, b'"') => Place::Quoted,
        (Place::Quoted, b'"') => Place::Quote,
        (Place::Quoted, _) => Place::Quoted,
        _ => outside(byte),
    }
}

/// The last place of a text that begins with a record where another may start.
fn last_start(text: &[u8]) -> usize
    ensures within { result ≤ length text.now }
    ensures starts { place_after Place.Start (take result text.now) ≡ Place.Start }
{
    let mut place = Place::Start;
    let mut last = 0;
    for (i, byte) in text.iter().enumerate() {
        place = next_place(place, *byte);
        if place == Place::Start {
            last = i + 1;
        }
    }
    last
}

/// The end of the last line of a text, or its start if no line ends in it. A carriage return counts only if the text
/// has no line feed, so that a cut seldom parts it from the line feed that follows it.
fn last_line_end(text: &[u8]) -> usize
    ensures within { result ≤ length text.now }
    ensures ends { (result ≡ 0) ⊎ (is_line_end (get_or text.now (result - 1) 0) ≡ true) }
{
    match last_byte(text, b'\n') {
        0 => last_byte(text, b'\r'),
        end => end,
    }
}

/// What follows the last of these bytes in a text; 0 where there is none.
fn last_byte(text: &[u8], wanted: u8) -> usize
    ensures within { result ≤ length text.now }
    ensures ends { (result ≡ 0) ⊎ (get_or text.now (result - 1) 0 ≡ wanted) }
{
    let mut end = text.len();
    while end > 0 {
        if text[end - 1] == wanted {
            return end;
        }
        end -= 1;
    }
    0
}

/// Whether a text has no quote. There is no early end, so that many bytes are looked at in one step.
fn is_plain(text: &[u8]) -> bool
    ensures { result ≡ is_plain text.now }
{
    let mut found = false;
    for byte in text {
        found |= *byte == b'"';
    }
    !found
}

/// A place of a text that begins with a record where another may start: the last one, or that at the end of the last
/// line where no field is quoted. It is 0 where there is none.
pub(crate) fn boundary(text: &[u8]) -> usize
    ensures within { result ≤ length text.now }
    ensures starts { place_after Place.Start (take result text.now) ≡ Place.Start }
{
    if is_plain(text) {
        last_line_end(text)
    } else {
        last_start(text)
    }
}
