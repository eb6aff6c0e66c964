//! Two logs of one program. Their messages have together each kind of packet.

/// The instructions of the program: two NOP, a return to the address in ra, a branch to itself, a jump to 8 bytes before,
/// and MRET.
pub(crate) const WORDS: &str = "00000013 00000013 00008067 00000063 ff9ff06f 30200073";

/// An exception; two instructions, before an interrupt whose handler returns to a branch at privilege 0, which is not
/// taken; a jump back, to a return; an instruction, and an exception after it.
const KINDS: &str =
    "80000000,1,3,b,0 80000000,0,3,, 80000004,0,3,, 80000008,2,3,7, 80000014,3,3,, 8000000c,4,0,, \
    80000010,0,0,, 80000008,6,0,, 80000000,0,0,, 80000004,1,0,2,0";

/// A branch to itself that is taken.
const BRANCHES: &str = "33*8000000c,5,3,,";

/// The rows of a hart: each second one runs the branches.
pub(crate) fn rows_of(hart: u16) -> &'static str {
    if hart % 2 == 0 { KINDS } else { BRANCHES }
}
