//! Where the fields of packets lie, and the numbers by which packets differ.
//!
//! The fields are those of the E-Trace specification's packet formats, with the widths of this project's profile.
//! `specs/Layout.antt` has the same names for the definitions.

/// Where a field lies: the bit at which it begins, and how many bits it has.
#[derive(Clone, Copy)]
pub(crate) struct Place {
    pub(crate) from: u32,
    pub(crate) width: u32,
}

/// `format`, with which every packet begins.
pub(crate) const FORMAT: Place = Place { from: 0, width: 2 };

/// `subformat`, after format 3.
pub(crate) const SUBFORMAT: Place = Place { from: 2, width: 2 };

/// The `subformat` of a sync packet.
pub(crate) const SYNC: u8 = 0;

/// The `subformat` of a trap packet.
pub(crate) const TRAP: u8 = 1;

/// The `subformat` of a support packet.
pub(crate) const SUPPORT: u8 = 3;

/// The four bits with which a support packet begins: format 3 and its `subformat`.
pub(crate) const SUPPORT_BEGINNING: u8 = 3 + (SUPPORT << SUBFORMAT.from);

/// `branch` of a sync or trap packet.
pub(crate) const BRANCH: Place = Place { from: 4, width: 1 };

/// `privilege` of a sync or trap packet.
pub(crate) const PRIVILEGE: Place = Place { from: 5, width: 2 };

/// `address` of a sync packet.
pub(crate) const SYNC_ADDRESS: Place = Place { from: 7, width: 63 };

/// `ecause` of a trap packet.
pub(crate) const ECAUSE: Place = Place { from: 7, width: 6 };

/// `interrupt` of a trap packet.
pub(crate) const INTERRUPT: Place = Place { from: 13, width: 1 };

/// `thaddr` of a trap packet.
pub(crate) const THADDR: Place = Place { from: 14, width: 1 };

/// `address` of a trap packet.
pub(crate) const TRAP_ADDRESS: Place = Place {
    from: 15,
    width: 63,
};

/// `tval` of an exception.
pub(crate) const TVAL: Place = Place {
    from: 78,
    width: 64,
};

/// `ienable` of a support packet, and above it `encoder_mode`.
pub(crate) const ENABLE: Place = Place { from: 4, width: 2 };

/// `qual_status` of a support packet.
pub(crate) const STATUS: Place = Place { from: 6, width: 2 };

/// `ioptions` of a support packet.
pub(crate) const OPTIONS: Place = Place { from: 8, width: 5 };

/// The `qual_status` no_change.
pub(crate) const NO_CHANGE: u8 = 0;

/// The `qual_status` ended_rep.
pub(crate) const ENDED_REP: u8 = 1;

/// The `qual_status` ended_ntr.
pub(crate) const ENDED_NTR: u8 = 3;

/// The `ioptions` of a packet that opens a trace whose address fields hold differences.
pub(crate) const DIFFERENTIAL: u8 = 0;

/// The `ioptions` of a packet that opens a trace whose address fields hold addresses: this project's profile.
pub(crate) const FULL: u8 = 1;

/// The `ioptions` of a support packet that closes a trace.
pub(crate) const NO_OPTIONS: u8 = 0;

/// `branches` of format 1.
pub(crate) const BRANCHES: Place = Place { from: 2, width: 5 };

/// `branch_map` of format 1 without an address.
pub(crate) const FULL_MAP: Place = Place { from: 7, width: 31 };

/// The bit at which `branch_map` of format 1 begins.
pub(crate) const MAP_FROM: u32 = FULL_MAP.from;

/// The bit at which `address` of format 2 begins.
pub(crate) const ADDRESS_FROM: u32 = 2;

/// How many bits `address` of formats 1 and 2 has.
pub(crate) const ADDRESS_WIDTH: u32 = 63;

/// The distance from the first bit of this `address` to its top bit.
pub(crate) const TOP_BIT: u32 = 62;

/// The distance from the first bit of this `address` to `notify`, above which lie `updiscon` and `irreport`.
pub(crate) const NOTIFY_BIT: u32 = 63;

/// How many bits `address`, `notify`, `updiscon` and `irreport` have together.
pub(crate) const REPORTED_WIDTH: u32 = 66;

/// How many bits a sync packet has.
pub(crate) const SYNC_WIDTH: u32 = SYNC_ADDRESS.from + SYNC_ADDRESS.width;

/// How many bits the trap packet of an interrupt has; that of an exception has `tval` after them.
pub(crate) const INTERRUPT_WIDTH: u32 = TRAP_ADDRESS.from + TRAP_ADDRESS.width;

/// How many bits a support packet has.
pub(crate) const SUPPORT_WIDTH: u32 = OPTIONS.from + OPTIONS.width;

/// How many bits a full branch map without an address has.
pub(crate) const MAP_PACKET_WIDTH: u32 = FULL_MAP.from + FULL_MAP.width;
