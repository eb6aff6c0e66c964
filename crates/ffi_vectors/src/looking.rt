//! Calls that hand out numbers alone.

use crate::arguments::Given;
use crate::fields::{Fields, KEPT, KEPT_16, kept};
use crate::writing::{put_all, put_list};
use cases::Case;
use ffi::{HeaderNumbers, MessageNumbers, PacketNumbers};

/// Appends a status and a row.
fn put_row(case: &Case, status: u32, row: u64) {
    put_all(case, "status row", &[u64::from(status), row]);
}

/// Which log is legal.
pub(crate) fn check(case: &Case, given: &Given<'_>) {
    let mut row = KEPT;
    let log = given.bytes("log");
    let status = ffi::tracebench_check(given.alloc, &given.pieces, log, &mut row);
    put_row(case, status, row);
}

/// Which events are legal.
pub(crate) fn check_events(case: &Case, given: &Given<'_>) {
    let mut row = KEPT;
    let status = ffi::tracebench_check_events(given.alloc, &given.pieces, &given.events, &mut row);
    put_row(case, status, row);
}

/// The packet of a payload.
pub(crate) fn unpack(case: &Case, given: &Given<'_>) {
    let mut packet = kept::<PacketNumbers>();
    let status = ffi::tracebench_unpack(given.bytes("payload"), &mut packet);
    put_row(case, status, KEPT);
    put_list(case, "packet", &[packet], false);
}

/// The header at the start of bytes.
pub(crate) fn read_header(case: &Case, given: &Given<'_>) {
    let mut taken = KEPT;
    let mut header = kept::<HeaderNumbers>();
    let status = ffi::tracebench_read_header(given.bytes("bytes"), &mut header, &mut taken);
    put_all(case, "status taken", &[u64::from(status), taken]);
    put_all(case, HeaderNumbers::NAMES, &header.record());
}

/// The message at the start of bytes.
pub(crate) fn read_message(case: &Case, given: &Given<'_>) {
    let mut taken = KEPT;
    let mut message = MessageNumbers {
        number: KEPT,
        payload_length: KEPT,
        hart: KEPT_16,
        payload: [0xaa; 18],
    };
    let status = ffi::tracebench_read_message(given.bytes("bytes"), &mut message, &mut taken);
    put_all(
        case,
        "status taken hart number length",
        &[
            u64::from(status),
            taken,
            u64::from(message.hart),
            message.number,
            message.payload_length,
        ],
    );
    if message.payload != [0xaa; 18] {
        case.put_word("payload=");
        case.put_digits(&message.payload);
    }
}
