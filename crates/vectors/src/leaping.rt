//! Cases of walks along skips (`decoder`): with them a packet gives what it gives without.

use cases::{Case, cut, outcomes_of, report_of};
use decoder::{Decoder, StraightRuns};
use payload::{Mode, Packet, Support};
use rvclass::Program;
use std::alloc::Global;

/// Two decoders take an address packet after a synchronisation at the base, one of them along skips. Whether all that
/// they return and add is the same.
fn are_alike(
    case: &Case,
    program: &Program,
    lines: &StraightRuns<'_, Global>,
    sent: Packet,
) -> bool {
    let start = Packet::Sync {
        taken: false,
        privilege: 3,
        address: program.base(),
    };
    let open = Packet::Support(Support::Open(Mode::Differential));
    let end = Packet::Support(Support::EndedRep);
    let (mut decoder, mut twin) = (Decoder::new(), Decoder::new());
    let mut log = Vec::new(case.alloc);
    let mut copy = Vec::new(case.alloc);
    let mut alike = true;
    for packet in [open, start, sent, end].iter() {
        let wanted = decoder.feed(program, packet, &mut log);
        alike &= twin.feed_by(lines.paths(), packet, &mut copy) == wanted;
    }
    alike && copy.as_slice() == log.as_slice()
}

/// `leap PLACES PACKETS`: how many walks give the same along skips: with each of these address packets, `MAP/REPORT`,
/// to each of so many places, two bytes apart.
pub(crate) fn leap_case(case: &Case, program: &Program) {
    let places = case.next_decimal().min(1 << 32);
    let mut lines = StraightRuns::new(case.alloc, &*program);
    let done = lines.find(case.alloc);
    case.note(done);
    let mut count: u64 = 0;
    for place in 0..places {
        for word in case.text().split_whitespace() {
            let (digits, report) = cut(word, '/');
            let sent = Packet::Address {
                outcomes: outcomes_of(digits),
                delta: place.wrapping_mul(2),
                report: report_of(case, report),
            };
            if are_alike(case, program, &lines, sent) {
                count = count.saturating_add(1);
            }
        }
    }
    case.put_shown(count);
}
