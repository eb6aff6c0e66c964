//! The number of eight digits, which most addresses have.

ghost use Rattle.std.specs.Prelude.{◌≡◌, ◌≤◌, IfSome};
ghost use Rattle.retire.specs.steps.PlainRow.{HasDigits};
ghost use Rattle.retire.specs.steps.Excess.{value_or_excess};

/// A number above all that eight digits spell. The table has it for a byte that is no digit.
const EXCESS: u64 = 0x1_0000_0000;

/// The value of each byte as a hexadecimal digit, or `EXCESS`.
#[rattlefmt::skip]
static VALUES_OR_EXCESS: [u64; 256] = [
    EXCESS, EXCESS, EXCESS, EXCESS, EXCESS, EXCESS, EXCESS, EXCESS,
    EXCESS, EXCESS, EXCESS, EXCESS, EXCESS, EXCESS, EXCESS, EXCESS,
    EXCESS, EXCESS, EXCESS, EXCESS, EXCESS, EXCESS, EXCESS, EXCESS,
    EXCESS, EXCESS, EXCESS, EXCESS, EXCESS, EXCESS, EXCESS, EXCESS,
    EXCESS, EXCESS, EXCESS, EXCESS, EXCESS, EXCESS, EXCESS, EXCESS,
    EXCESS, EXCESS, EXCESS, EXCESS, EXCESS, EXCESS, EXCESS, EXCESS,
    0, 1, 2, 3, 4, 5, 6, 7,
    8, 9, EXCESS, EXCESS, EXCESS, EXCESS, EXCESS, EXCESS,
    EXCESS, 10, 11, 12, 13, 14, 15, EXCESS,
    EXCESS, EXCESS, EXCESS, EXCESS, EXCESS, EXCESS, EXCESS, EXCESS,
    EXCESS, EXCESS, EXCESS, EXCESS, EXCESS, EXCESS, EXCESS, EXCESS,
    EXCESS, EXCESS, EXCESS, EXCESS, EXCESS, EXCESS, EXCESS, EXCESS,
    EXCESS, 10, 11, 12, 13, 14, 15, EXCESS,
    EXCESS, EXCESS, EXCESS, EXCESS, EXCESS, EXCESS, EXCESS, EXCESS,
    EXCESS, EXCESS, EXCESS, EXCESS, EXCESS, EXCESS, EXCESS, EXCESS,
    EXCESS, EXCESS, EXCESS, EXCESS, EXCESS, EXCESS, EXCESS, EXCESS,
    EXCESS, EXCESS, EXCESS, EXCESS, EXCESS, EXCESS, EXCESS, EXCESS,
    EXCESS, EXCESS, EXCESS, EXCESS, EXCESS, EXCESS, EXCESS, EXCESS,
    EXCESS, EXCESS, EXCESS, EXCESS, EXCESS, EXCESS, EXCESS, EXCESS,
    EXCESS, EXCESS, EXCESS, EXCESS, EXCESS, EXCESS, EXCESS, EXCESS,
    EXCESS, EXCESS, EXCESS, EXCESS, EXCESS, EXCESS, EXCESS, EXCESS,
    EXCESS, EXCESS, EXCESS, EXCESS, EXCESS, EXCESS, EXCESS, EXCESS,
    EXCESS, EXCESS, EXCESS, EXCESS, EXCESS, EXCESS, EXCESS, EXCESS,
    EXCESS, EXCESS, EXCESS, EXCESS, EXCESS, EXCESS, EXCESS, EXCESS,
    EXCESS, EXCESS, EXCESS, EXCESS, EXCESS, EXCESS, EXCESS, EXCESS,
    EXCESS, EXCESS, EXCESS, EXCESS, EXCESS, EXCESS, EXCESS, EXCESS,
    EXCESS, EXCESS, EXCESS, EXCESS, EXCESS, EXCESS, EXCESS, EXCESS,
    EXCESS, EXCESS, EXCESS, EXCESS, EXCESS, EXCESS, EXCESS, EXCESS,
    EXCESS, EXCESS, EXCESS, EXCESS, EXCESS, EXCESS, EXCESS, EXCESS,
    EXCESS, EXCESS, EXCESS, EXCESS, EXCESS, EXCESS, EXCESS, EXCESS,
    EXCESS, EXCESS, EXCESS, EXCESS, EXCESS, EXCESS, EXCESS, EXCESS,
    EXCESS, EXCESS, EXCESS, EXCESS, EXCESS, EXCESS, EXCESS, EXCESS,
];

/// The value of a byte as a hexadecimal digit, and `EXCESS` where it is none.
#[inline(always)]
fn value_or_excess(byte: u8) -> u64
    ensures value { result ≡ value_or_excess byte }
    ensures low { result ≤ EXCESS }
{
    VALUES_OR_EXCESS[usize::from(byte)]
}

/// The number of eight digits. One byte that is no digit makes the sum too large, so they are tested at once.
#[inline(always)]
pub fn eight_digits(digits: &[u8; 8]) -> Option<u64>
    ensures { IfSome result (λ value. HasDigits digits.now value 8) }
{
    let [a, b, c, d, e, f, g, h] = *digits;
    let sum = value_or_excess(a) * 0x1000_0000
        + value_or_excess(b) * 0x100_0000
        + value_or_excess(c) * 0x10_0000
        + value_or_excess(d) * 0x1_0000
        + value_or_excess(e) * 0x1000
        + value_or_excess(f) * 0x100
        + value_or_excess(g) * 0x10
        + value_or_excess(h);
    if sum < EXCESS { Some(sum) } else { None }
}
