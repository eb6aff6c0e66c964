//! Small programs, logs of them, texts and messages. Words, rows and texts are those of `cases`.

ghost use Rattle.std.specs.Prelude.{◌≡◌};

use crate::same::same_at;
use cases::{Case, events_of, piece_of, text_of};
use message::Message;
use payload::Payload;
use retire::Event;
use rvclass::Program;
use std::process::Abort;

/// Where programs begin.
pub(crate) const BASE: u64 = 0x8000_0000;

// Words, as the RISC-V Unprivileged ISA and the Privileged Architecture encode them.

/// Three NOP.
pub(crate) const NOPS: &str = "3*00000013";

/// A branch to itself.
pub(crate) const BRANCH_LOOP: &str = "00000063";

/// Appends the bytes.
pub(crate) fn add<R: Abort>(rt: &R, text: &mut Vec<u8>, bytes: &[u8]) {
    text.extend_from_slice(bytes).expect(rt, "memory");
}

/// The program of these instructions, from the base on.
pub(crate) fn program_of<R: Abort + AllocGlobal>(rt: &R, words: &str) -> Program {
    let case = Case::new(rt.alloc(), "");
    let (base, image) = piece_of(&case, words);
    same_at(rt, words, case.is_failed(), false);
    Program::new(base, image).expect(rt, "a program")
}

/// The log of these rows.
pub(crate) fn log_of<R: Abort + AllocGlobal>(rt: &R, rows: &str) -> Vec<Event> {
    let case = Case::new(rt.alloc(), rows);
    let log = events_of(&case);
    same_at(rt, rows, case.is_failed(), false);
    log
}

/// The bytes of a text between quotes.
pub(crate) fn bytes_in<R: Abort + AllocGlobal>(rt: &R, text: &str) -> Vec<u8> {
    let case = Case::new(rt.alloc(), text);
    let bytes = text_of(&case);
    same_at(rt, text, case.is_failed(), false);
    bytes
}

/// A text with a number in place of `#`.
fn filled<R: AllocGlobal>(rt: &R, text: &str, number: u32) -> String {
    let case = Case::new(rt.alloc(), "");
    case.put_filled(text, &[u64::from(number)]);
    case.taken()
}

/// The program of this many instructions C.NOP, from the base on.
pub(crate) fn short_words<R: Abort + AllocGlobal>(rt: &R, count: u32) -> Program {
    program_of(rt, filled(rt, "#*0001", count).as_str())
}

/// The log of a hart that retires each of these instructions once, at machine level.
pub(crate) fn short_log<R: Abort + AllocGlobal>(rt: &R, count: u32) -> Vec<Event> {
    log_of(rt, filled(rt, "#*80000000+2,0,3,,", count).as_str())
}

/// A message of these bytes.
pub(crate) fn message<R: Abort>(rt: &R, hart: u16, number: u64, bytes: &[u8]) -> Message
    ensures { result.hart ≡ hart }
{
    Message {
        hart,
        number,
        payload: Payload::new(bytes).expect(rt, "a payload"),
    }
}
