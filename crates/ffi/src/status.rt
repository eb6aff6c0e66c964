//! How a call ends.

/// All is done.
pub const DONE: u32 = 0;

/// The buffer is too small: nothing was written to it, or of many events or payloads what fits.
pub const TOO_SMALL: u32 = 1;

/// An allocation failed.
pub const MEMORY: u32 = 2;

/// A number is out of its range.
pub const OUT_OF_RANGE: u32 = 4;

/// A log ends before its start, or past the texts.
pub const BAD_ENDS: u32 = 5;

/// The capture ends inside a message, or inside its header.
pub const SHORT: u32 = 16;

/// The byte for a payload's length is 0 or above 18.
pub const BAD_LENGTH: u32 = 17;

/// A reader failed. No call of this library returns it.
pub(crate) const UNREAD: u32 = 18;

/// A writer failed. No call of this library returns it.
pub(crate) const UNWRITTEN: u32 = 19;

/// The capture begins as one of version 2 does, but its header is not valid.
pub const BAD_HEADER: u32 = 20;

/// A payload is empty.
pub const EMPTY: u32 = 32;

/// A payload has more than 18 bytes.
pub const TOO_LONG: u32 = 33;

/// A bit past the packet differs from the packet's last bit.
pub const BAD_PAD: u32 = 34;

/// The profile has no packet of this format, subformat, encoder mode, options or status.
pub const UNSUPPORTED: u32 = 35;

/// The privilege is 2, the reserved level.
pub const BAD_PRIVILEGE: u32 = 36;

/// The bits notify, updiscon and irreport have values that no report has.
pub const BAD_REPORT: u32 = 37;

/// No packet of the profile has these numbers.
pub const NO_PACKET: u32 = 38;

/// An image, or a piece of one, has an odd base.
pub const ODD_BASE: u32 = 48;

/// An image, or a piece of one, has more than 2^24 bytes.
pub const TOO_LARGE: u32 = 49;

/// The address after the last byte of an image, or of a piece of one, is 2^64 or more.
pub const PAST_END: u32 = 50;

/// A byte of a piece has the address of a byte of a piece before it.
pub const OVERLAP: u32 = 51;

/// Pieces have more than 2^26 bytes in all.
pub const TOO_MUCH: u32 = 52;

/// There are more than 1,024 pieces.
pub const TOO_MANY_PIECES: u32 = 53;

/// A piece's base is below that of the piece before it.
pub const NOT_SORTED: u32 = 54;

/// The first record of a log is not `addr,itype,priv,cause,tval`, or there is none.
pub const WRONG_HEADER: u32 = 64;

/// A row has more or fewer than five fields.
pub const WRONG_FIELDS: u32 = 65;

/// A field of a row spells no number.
pub const NO_NUMBER: u32 = 66;

/// A row's address is odd.
pub const ODD_ADDRESS: u32 = 67;

/// A row's type is 7 or more.
pub const WRONG_ROW_TYPE: u32 = 68;

/// A row's privilege is none of 0, 1 and 3.
pub const WRONG_ROW_PRIVILEGE: u32 = 69;

/// A row's cause is above 3f.
pub const LARGE_CAUSE: u32 = 70;

/// A row's cause or value is missing or not wanted.
pub const WRONG_TRAP_FIELDS: u32 = 71;

/// An interrupt has a value that is not zero.
pub const VALUED_INTERRUPT: u32 = 72;

/// A log has more than 2^24 rows.
pub const TOO_MANY_ROWS: u32 = 73;

/// At a retirement's address there is no complete instruction of the program.
pub const OFF_PROGRAM: u32 = 80;

/// The instruction at a retirement's address does not retire.
pub const NOT_RETIRABLE: u32 = 81;

/// A retirement's type is not that of its instruction, or a trap's cause or value is out of range.
pub const WRONG_TYPE: u32 = 82;

/// A retirement is not at an address to which the event before leads.
pub const WRONG_NEXT: u32 = 83;

/// A row's privilege is not one at which its instruction may retire, or to which the event before leads.
pub const WRONG_PRIVILEGE: u32 = 84;

/// A trap's exception program counter is odd, or not an address to which the event before leads.
pub const WRONG_EPC: u32 = 85;

/// A message is of a hart that is not known.
pub const STRANGER: u32 = 96;

/// A message's number is below the one that is expected.
pub const REPEAT: u32 = 97;

/// A message's number is above the one that is expected.
pub const GAP: u32 = 98;

/// A message comes after its hart's closing packet.
pub const AFTER_CLOSE: u32 = 99;

/// A packet opens a trace in another mode than the header's.
pub const OTHER_MODE: u32 = 100;

/// Another packet than the one that opens the trace comes first.
pub const NOT_OPENED: u32 = 112;

/// At an address that is to be retired there is no complete instruction that retires.
pub const WALKS_OFF_PROGRAM: u32 = 113;

/// A walk would go on after a backward jump that no packet reported.
pub const MISSED_NOTIFY: u32 = 114;

/// Outcomes of branches are missing or left over, or a branch is reported as taken where there is no such branch.
pub const WRONG_BRANCHES: u32 = 115;

/// A packet comes at a place in the trace where it may not come.
pub const WRONG_PLACE: u32 = 116;

/// An instruction does not retire at the privilege, or the event before does not lead to that privilege.
pub const WALKS_AT_WRONG_PRIVILEGE: u32 = 117;

/// A packet comes after the one that closes the trace.
pub const AFTER_CLOSING_PACKET: u32 = 118;

/// No encoder or decoder has this state.
pub const BAD_STATE: u32 = 128;

/// No event has these numbers.
pub const NO_EVENT: u32 = 129;

/// The event before is illegal, whatever comes before it.
pub const BAD_BEFORE: u32 = 130;

/// A line has not as many fields as the first one, or an empty field.
pub const LINE_FIELDS: u32 = 144;

/// Hart is not a number below 64: a line's, in version 1.
pub const LINE_HART_ONE: u32 = 145;

/// Hart is not a number below 1024: a line's, in version 2.
pub const LINE_HART_TWO: u32 = 146;

/// A line's number is not a decimal number below 2^64.
pub const LINE_NUMBER: u32 = 147;

/// A line's bytes are not 1 to 18, of two hexadecimal digits each.
pub const LINE_BYTES: u32 = 148;

/// A line's hart is not below the count of harts that was asked for.
pub const LINE_ABOVE: u32 = 149;

/// No line of the symbols is a symbol of code.
pub const NO_SYMBOL: u32 = 150;

/// The symbols have more than 16,777,216 bytes.
pub const SYMBOLS_TOO_LARGE: u32 = 151;

/// There are more or fewer logs than harts.
pub const UNEQUAL_COUNTS: u32 = 152;
