//! The counts that a trace is measured by.

/// How many events and packets there are, by their kinds, and how many bytes the payloads of the packets take.
#[derive(Clone, Copy, Debug, PartialEq, Eq)]
pub struct Measures {
    /// The events: retirements and traps.
    pub events: u64,
    /// The instructions that retired.
    pub retirements: u64,
    /// The exceptions and interrupts that were taken.
    pub traps: u64,
    /// The conditional branches that retired: retirements of type 4 or 5.
    pub branches: u64,
    /// The packets.
    pub packets: u64,
    /// The packets that open or close a trace: format 3, subformat 3.
    pub support: u64,
    /// The synchronisation packets: format 3, subformat 0.
    pub sync: u64,
    /// The trap packets: format 3, subformat 1.
    pub trap: u64,
    /// The packets of formats 1 and 2 with an address.
    pub address: u64,
    /// The packets of format 1 without an address.
    pub map: u64,
    /// The packets with an address that notify; in this project's profile the address is a backward jump's.
    pub notify: u64,
    /// The packets with an address after an uninferable discontinuity that `updiscon` reports.
    pub updiscon: u64,
    /// The bytes of the packets' payloads.
    pub payload_bytes: u64,
    /// The most bytes of one payload; 0 if there is no packet.
    pub longest: u64,
}

impl Measures {
    ghost use Rattle.std.specs.Prelude.{◌≡◌, ◌^◌, []};
    ghost use Rattle.captures.specs.Measures.{measured, together};
    ghost use Rattle.captures.specs.Bounds.{AreWithin};

    /// The measures of no events and no packets.
    pub(crate) fn none() -> Measures
        ensures { result ≡ measured [] [] [] }
    {
        Measures {
            events: 0,
            retirements: 0,
            traps: 0,
            branches: 0,
            packets: 0,
            support: 0,
            sync: 0,
            trap: 0,
            address: 0,
            map: 0,
            notify: 0,
            updiscon: 0,
            payload_bytes: 0,
            longest: 0,
        }
    }

    /// Adds the measures of another trace.
    pub(crate) fn add(&mut self, other: &Measures)
        requires room { AreWithin (2 ^ 56) self.old }
        requires few { AreWithin (2 ^ 56) other.now }
        ensures { self.new ≡ together self.old other.now }
    {
        self.events += other.events;
        self.retirements += other.retirements;
        self.traps += other.traps;
        self.branches += other.branches;
        self.packets += other.packets;
        self.support += other.support;
        self.sync += other.sync;
        self.trap += other.trap;
        self.address += other.address;
        self.map += other.map;
        self.notify += other.notify;
        self.updiscon += other.updiscon;
        self.payload_bytes += other.payload_bytes;
        self.longest = self.longest.max(other.longest);
    }
}
