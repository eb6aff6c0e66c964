//! What is under way of one hart.

ghost use Rattle.std.specs.Prelude.{ℕ, ◌≡◌, ◌≢◌, ◌≤◌, ◌<◌, ◌-◌, Bool, false, List, [], ◌∷◌, ◌++◌, IfOk, None, OnOk};
ghost use Rattle.std.specs.Prelude.{Some, map};
ghost use Rattle.retire.specs.declared.event.Event.{Event as AnyEvent};
ghost use Rattle.rvclass.specs.Fetch.{words_of};
ghost use Rattle.rvclass.specs.Words.{Words};
ghost use Rattle.payload.specs.Closing.{is_closing_packet};
ghost use Rattle.payload.specs.declared.mode.Mode.{Mode as AnyMode};
ghost use Rattle.payload.specs.declared.packet.Packet.{Packet as AnyPacket};
ghost use Rattle.decoder.specs.declared.fault.DecodeFault.TheVariants.{Memory};
ghost use Rattle.message.specs.Harts.{end_of_numbers};
ghost use Rattle.losses.specs.Runs.{Run, first_run, run_behind};
ghost use Rattle.losses.specs.Apart.{AreRising};
ghost use Rattle.salvaging.specs.Entries.{Entry as AnyEntry, entry_number, next_used};
ghost use Rattle.salvaging.specs.Leaving.{own_mode};
ghost use Rattle.salvaging.specs.Shares.{Share};
ghost use Rattle.salvaging.specs.Tallies.{is_sync};
ghost use Rattle.salvaging.specs.Treatments.{added_of, treatment_of};
ghost use Rattle.salvaging.specs.steps.Arrivals.{arrivals_in};
ghost use Rattle.salvaging.specs.steps.Grouping.{AreSmall, entries_by, entry_of};
ghost use Rattle.salvaging.specs.steps.Trails.{TakesAll, TakesEntries};
ghost use Rattle.salvaging.specs.steps.UnderWay.{BeginsWith, EndsRun, EndsStretch, GoesOn, IsUnderWay, Judged};
ghost use Rattle.salvaging.specs.steps.UnderWay.{StaysRead, TakesBad, TakesDoubtful, TakesUsed, begun_by, early, share_by};

use crate::entry::Entry;
use crate::grouping::first_entry;
use crate::mark::Mark;
use crate::part::{Part, push_gap, push_part};
use crate::reason::Reason;
use crate::received::ReceivedMessage;
use crate::treatment::{Added, Treatment};
use crate::used::next_used;
use decoder::{DecodeFault, Decoder, Paths, StraightRuns};
use message::{Message, ProgressSink};
use payload::{Mode, Packet, Payload, unpack};
use retire::Event;
use rvclass::ProgramOver;
use std::alloc::{AllocError, Allocator};
use std::mem;

/// A hart's decoder, the stretch under way, and what is left of the hart's log so far.
#[derive(Drop)]
pub(crate) struct Trail<A: Allocator> {
    decoder: Decoder,
    /// The events so far of the stretch that is under way.
    events: Vec<Event, A>,
    /// Whether a run after lost numbers is under way, whose stretch begins at a synchronisation.
    looking: bool,
    /// The number of the packet that begins the stretch, once it came.
    begun: Option<u64>,
    /// The number after the last one of the run under way.
    next: u64,
    /// What is left of the log so far.
    parts: Vec<Part<A>, A>,
}

/// What the entries of a hart leave of its log, and what is kept of what each of them does.
#[derive(Drop)]
pub(crate) struct HartOutcome<A: Allocator, M> {
    pub(crate) parts: Vec<Part<A>, A>,
    /// A mark for each entry, in their order.
    pub(crate) marks: Vec<M, A>,
}

/// Whether a packet is a synchronisation.
pub(crate) fn is_sync(packet: &Packet) -> bool
    ensures { result ≡ is_sync packet.now }
{
    matches!(packet, Packet::Sync { .. })
}

/// Why a message is bad whose packet the decoder refuses with this fault. A failed allocation is an error.
fn reason_of(fault: DecodeFault) -> Result<Option<Reason>, AllocError>
    ensures { IfOk result (λ found. (found ≡ Some (Reason.Decode fault)) × (fault ≢ Memory)) }
{
    match fault {
        DecodeFault::Memory => Err(AllocError),
        why => Ok(Some(Reason::Decode(why))),
    }
}

/// The next number that is used after a packet that closes the trace; `behind` are the messages after it. `None` where
/// none is used, and for any other packet.
fn early(packet: &Packet, behind: &[ReceivedMessage<'_>]) -> Option<u64>
    ensures { result ≡ early (is_closing_packet packet.now) (next_used (entries_by (arrivals_in behind.now))) }
{
    if packet.is_closing() {
        next_used(behind)
    } else {
        None
    }
}

/// The number of the packet that begins the stretch, where this packet comes and has this number.
fn begun_by(looking: bool, packet: &Packet, number: u64, begun: Option<u64>) -> Option<u64>
    ensures { result ≡ begun_by looking (is_sync packet.now) number begun }
{
    match begun {
        Some(first) => Some(first),
        None => {
            if looking && !is_sync(packet) {
                None
            } else {
                Some(number)
            }
        }
    }
}

/// How many events these are, and where the first and the last of them are.
fn added_of(events: &[Event]) -> Added
    ensures { result ≡ added_of events.now }
{
    if events.is_empty() {
        return Added {
            count: 0,
            first: 0,
            last: 0,
        };
    }
    Added {
        count: events.len(),
        first: events[0].place(),
        last: events[events.len() - 1].place(),
    }
}

/// What a good message did, where `begun` says whether its stretch has begun, and it added these events.
fn treated_good(begun: Option<u64>, added: &[Event]) -> Treatment
    ensures { result ≡ treatment_of (share_by begun added.now) }
{
    match begun {
        None => Treatment::Passed,
        Some(_) => Treatment::Taken(added_of(added)),
    }
}

impl<A: Allocator + Copy> Trail<A> {
    /// The trail of a hart before its first entry. Takes no memory.
    pub(crate) fn new(alloc: A) -> Trail<A>
        ensures under_way { (words : Words) (mode : AnyMode) → IsUnderWay words mode mode first_run 0 false result }
        ensures next { result.next ≡ 0 }
        ensures parts { result.parts.items ≡ [] }
    {
        Trail {
            decoder: Decoder::new(),
            events: Vec::new(alloc),
            looking: false,
            begun: None,
            next: 0,
            parts: Vec::new(alloc),
        }
    }

    /// The stretch under way becomes the last part, where it has an event.
    fn end_stretch(&mut self, alloc: A) -> Result<(), AllocError>
        ensures ends { (next : ℕ) (packets : List AnyPacket) → self.old.next ≡ next
            → BeginsWith self.old.begun next packets → (packets ≡ [] → self.old.events.items ≡ [])
            → OnOk result (EndsStretch next packets self.old self.new) }
        ensures decoder { self.new.decoder ≡ self.old.decoder }
        ensures next { self.new.next ≡ self.old.next }
    {
        let Some(first) = self.begun else {
            return Ok(());
        };
        if self.events.is_empty() {
            return Ok(());
        }
        self.parts.reserve(1)?;
        let events = mem::replace(&mut self.events, Vec::new(alloc));
        self.parts.push_reserved(Part::Stretch {
            first,
            last: self.next.saturating_sub(1),
            events,
        });
        Ok(())
    }

    /// Ends the run under way: its stretch becomes the last part, where it has an event, and a synchronisation is
    /// looked for.
    pub(crate) fn end_run(&mut self, alloc: A, mode: Mode) -> Result<(), AllocError>
        ensures ends { (words : Words) (reads : AnyMode) (run : Run) (next : ℕ) (closed : Bool)
            → IsUnderWay words mode reads run next closed self.old
            → OnOk result (EndsRun words mode reads run next closed self.old self.new) }
        ensures next { self.new.next ≡ self.old.next }
    {
        self.end_stretch(alloc)?;
        self.looking = true;
        self.begun = None;
        self.decoder.resume(mode);
        Ok(())
    }

    /// Goes on to a used number. Where numbers are lost before it, the run under way is over, and a gap is added after
    /// it.
    fn go_on(&mut self, alloc: A, mode: Mode, number: u64) -> Result<(), AllocError>
        requires { self.old.next ≤ number }
        ensures goes_on { (words : Words) (reads : AnyMode) (run : Run) (next : ℕ)
            → IsUnderWay words mode reads run next false self.old
            → OnOk result (GoesOn words mode reads run next number self.old self.new) }
        ensures next { OnOk result (self.new.next ≡ number) }
    {
        let lost = number - self.next;
        if lost > 0 {
            self.end_run(alloc, mode)?;
            push_gap(&mut self.parts, lost)?;
            self.next = number;
        }
        Ok(())
    }

    /// Takes the message of the number that comes next, or finds why it is bad. A bad one changes nothing. `behind` are
    /// the messages with greater numbers.
    pub(crate) fn judge(
        &mut self,
        paths: Paths<'_>,
        payload: &Payload,
        behind: &[ReceivedMessage<'_>],
    ) -> Result<Option<Reason>, AllocError>
        requires { self.old.next < end_of_numbers }
        ensures judged { (mode reads : AnyMode) (run : Run) (next : ℕ)
            → IsUnderWay (words_of paths.entry.program.now) mode reads run next false self.old
            → IfOk result (λ judged. Judged (words_of paths.entry.program.now) mode reads run next payload.now
            (next_used (entries_by (arrivals_in behind.now))) judged self.new) }
        ensures parts { self.new.parts ≡ self.old.parts }
        ensures appended { (rest : List AnyEvent) × (self.new.events.items ≡ self.old.events.items ++ rest) }
    {
        let packet = match unpack(payload.bytes()) {
            Ok(packet) => packet,
            Err(why) => return Ok(Some(Reason::Packet(why))),
        };
        match early(&packet, behind) {
            Some(next) => return Ok(Some(Reason::Closing { next })),
            None => {}
        }
        match self.decoder.feed_by(paths, &packet, &mut self.events) {
            Ok(()) => {}
            Err(fault) => return reason_of(fault),
        }
        self.begun = begun_by(self.looking, &packet, self.next, self.begun);
        self.next += 1;
        Ok(None)
    }

    /// Takes the message of a used number, and returns what it does. `behind` are the messages with greater numbers.
    fn take_used(
        &mut self,
        alloc: A,
        paths: Paths<'_>,
        mode: Mode,
        place: usize,
        message: &Message,
        behind: &[ReceivedMessage<'_>],
    ) -> Result<Treatment, AllocError>
        requires next { self.old.next ≤ message.now.number }
        requires small { message.now.number < end_of_numbers }
        ensures { (run : Run) (next : ℕ)
            → IsUnderWay (words_of paths.entry.program.now) mode mode run next false self.old
            → StaysRead mode (run_behind (message.now.number - next) run) message.now.payload
            → IfOk result (λ treatment. TakesUsed (words_of paths.entry.program.now) mode run next message.now.number
            place message.now.payload (next_used (entries_by (arrivals_in behind.now))) treatment self.old self.new) }
    {
        self.go_on(alloc, mode, message.number)?;
        let before = self.events.len();
        match self.judge(paths, &message.payload, behind)? {
            None => Ok(treated_good(self.begun, &self.events[before..])),
            Some(why) => {
                self.take_bad(alloc, mode, message.number, place, why)?;
                Ok(Treatment::Bad(why))
            }
        }
    }

    /// Takes the message of the number that comes next, which is bad for this reason: the run under way is over.
    fn take_bad(
        &mut self,
        alloc: A,
        mode: Mode,
        number: u64,
        place: usize,
        why: Reason,
    ) -> Result<(), AllocError>
        requires { number < end_of_numbers }
        ensures { (words : Words) (run : Run) → IsUnderWay words mode mode run number false self.old
            → OnOk result (TakesBad words mode run number place why self.old self.new) }
    {
        self.end_run(alloc, mode)?;
        push_part(&mut self.parts, Part::Bad { number, place, why })?;
        self.next = number + 1;
        Ok(())
    }

    /// Takes a doubtful number, the first two differing messages of which are at these places: the run under way is over.
    fn take_doubtful(
        &mut self,
        alloc: A,
        mode: Mode,
        number: u64,
        first: usize,
        second: usize,
    ) -> Result<(), AllocError>
        requires { self.old.next ≤ number }
        ensures { (words : Words) (run : Run) (next : ℕ) (closed : Bool)
            → IsUnderWay words mode mode run next closed self.old
            → OnOk result (TakesDoubtful words mode run next number first second closed self.old self.new) }
    {
        self.end_run(alloc, mode)?;
        push_gap(&mut self.parts, number - self.next)?;
        push_part(
            &mut self.parts,
            Part::Doubtful {
                number,
                first,
                second,
            },
        )?;
        self.next = number;
        Ok(())
    }

    /// Takes a hart's next entry, and returns what it does. `behind` are the messages with greater numbers.
    fn take(
        &mut self,
        alloc: A,
        paths: Paths<'_>,
        mode: Mode,
        entry: Entry<'_>,
        behind: &[ReceivedMessage<'_>],
    ) -> Result<Treatment, AllocError>
        requires next { self.old.next ≤ entry_number (entry_of entry) }
        requires small { entry_number (entry_of entry) < end_of_numbers }
        ensures { (all done : List AnyEntry) (shares : List Share) → TakesEntries (words_of paths.entry.program.now)
            mode all done shares (entry_of entry.entry ∷ entries_by (arrivals_in behind.now)) self.old
            → IfOk result (λ treatment. (share : Share) × (treatment ≡ treatment_of share)
            × TakesEntries (words_of paths.entry.program.now) mode all (done ++ entry_of entry.entry ∷ [])
            (shares ++ share ∷ []) (entries_by (arrivals_in behind.now)) self.new) }
    {
        match entry {
            Entry::Used { place, message } => {
                self.take_used(alloc, paths, mode, place, message, behind)
            }
            Entry::Doubtful {
                number,
                first,
                second,
            } => {
                self.take_doubtful(alloc, mode, number, first, second)?;
                Ok(Treatment::Doubtful)
            }
        }
    }
}

/// Whether this is a message whose packet the decoder refused, maybe at the end of a long walk.
fn walked_in_vain(treatment: Treatment) -> bool {
    match treatment {
        Treatment::Bad(why) => match why {
            Reason::Decode(fault) => match fault {
                DecodeFault::NotOpened | DecodeFault::AfterClose | DecodeFault::Memory => false,
                _ => true,
            },
            _ => false,
        },
        _ => false,
    }
}

/// Finds the program's skips after such a message.
fn find_after<A: Allocator + Copy>(
    alloc: A,
    treatment: Treatment,
    lines: &mut StraightRuns<'_, A>,
) -> Result<(), AllocError>
    ensures { lines.new.program ≡ lines.old.program }
{
    if walked_in_vain(treatment) {
        return lines.find(alloc);
    }
    Ok(())
}

/// Takes the entries of a hart up to its end one after the other, and tells of the messages of each. The hart's messages
/// are in the order of their numbers, and the mode is its own. The program's skips are found once a packet was refused.
pub(crate) fn take_all<A: Allocator + Copy, V: ProgressSink, M: Mark>(
    alloc: A,
    program: &ProgramOver,
    lines: &mut StraightRuns<'_, A>,
    mode: Mode,
    came: &[ReceivedMessage<'_>],
    watch: &V,
) -> Result<HartOutcome<A, M>, AllocError>
    requires lines { lines.old.program.now ≡ program.now }
    requires rising { AreRising 0 (map entry_number (entries_by (arrivals_in came.now))) }
    requires small { AreSmall (entries_by (arrivals_in came.now)) }
    requires own { own_mode mode (entries_by (arrivals_in came.now)) ≡ mode }
    ensures taken { IfOk result (TakesAll M.kept (words_of program.now) mode (entries_by (arrivals_in came.now))) }
    ensures lines { lines.new.program ≡ lines.old.program }
{
    let mut trail = Trail::new(alloc);
    let mut marks = Vec::new(alloc);
    let mut rest = came;
    while let Some((entry, count)) = first_entry(rest) {
        let behind = &rest[count..];
        marks.reserve(1)?;
        let one = trail.take(alloc, lines.paths(), mode, entry, behind)?;
        marks.push_reserved(M::of(one));
        find_after(alloc, one, lines)?;
        watch.note(count);
        rest = behind;
    }
    trail.end_run(alloc, mode)?;
    Ok(HartOutcome {
        parts: trail.parts,
        marks,
    })
}
