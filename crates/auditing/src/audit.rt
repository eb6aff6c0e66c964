//! The audit of a path.

ghost use Rattle.std.specs.Prelude.{◌≡◌, ◌<◌, ◌^◌, ◌++◌, All, List, [], ◌∷◌, IfErr, IfOk, Option, length, map, option_map, slice_get};
ghost use Rattle.message.specs.Capture.{capture};
ghost use Rattle.message.specs.Cut.{IsMessage};
ghost use Rattle.message.specs.declared.header.Header.{Header as AnyHeader};
ghost use Rattle.message.specs.declared.message.Message.{Message as AnyMessage};
ghost use Rattle.frames.specs.Borrowed.{message_of};
ghost use Rattle.auditing.specs.Audits.{Audits};
ghost use Rattle.auditing.specs.Fates.{fate_of};
ghost use Rattle.auditing.specs.Findings.{finding_of, first_found};
ghost use Rattle.auditing.specs.HartRows.{row_of};
ghost use Rattle.auditing.specs.Judged.{strangers_in};
ghost use Rattle.auditing.specs.Known.{known_all, known_one};
ghost use Rattle.auditing.specs.Ledger.{Ledger};
ghost use Rattle.auditing.specs.Losing.{lost_runs};
ghost use Rattle.auditing.specs.SentPayload.{payload_sent};
ghost use Rattle.auditing.specs.Sent.{AreInTurn, IsSent, IsSentFault, known_harts};
ghost use Rattle.auditing.specs.Tallies.{tally_of};
ghost use Rattle.auditing.specs.steps.Indexing.{IsCountFault, harts_by};
ghost use Rattle.auditing.specs.steps.Moving.{moves_by, owner_in};
ghost use Rattle.auditing.specs.steps.Owning.{KeepsOwners};
ghost use Rattle.auditing.specs.steps.Seeing.{sight_in};
ghost use Rattle.auditing.specs.steps.Taking.{finding_found, finding_from, first_after, harts_found, ledger_after};

use crate::exchange::{count_moved, none_moved};
use crate::fate::Fate;
use crate::fault::SentFault;
use crate::finding::Finding;
use crate::hart::HartAudit;
use crate::indexing::index_messages;
use crate::judging::count_messages;
use crate::lost::LostRuns;
use crate::owners::Owners;
use crate::row::HartRow;
use crate::tally::Tally;
use frames::{BorrowedMessage, Sent, Sight};
use message::{Header, MOST_HARTS, Message, Messages};
use payload::By;
use std::alloc::{Allocator, Global};
use std::marker::Model;

/// How many bytes a header has.
const HEADER: usize = 16;

/// What became of the messages of SENT, as far as the messages of RECEIVED were taken.
///
/// As a [`Sent`] it knows the messages of SENT. Taking messages does not change that. It takes memory in one case: where
/// many messages are not true, all of SENT are put in a table once, about 75 bytes each. Where an allocation for it
/// fails, nothing differs but the time.
#[derive(Drop)]
pub struct Audit<'a, A: Allocator = Global> {
    /// By what payloads are compared.
    by: By,
    /// The header of SENT.
    header: Option<Header>,
    /// What is kept of each hart of SENT.
    harts: Vec<HartAudit<'a, A>, A>,
    /// How many strangers came.
    strangers: u64,
    /// How many messages came.
    taken: u64,
    /// The place of the first message that was not in order or skipped a number, if there was one.
    first: Option<u64>,
    /// Of each hart how many of its messages that are not true are of each hart.
    moves: Vec<Vec<u64, A>, A>,
    /// Whose the messages of SENT are.
    owners: Owners<A>,
}

impl<'a, A: Allocator> Model for Audit<'a, A> {
    ghost Value = { Ledger };

    ghost view = { λ a. record {
      by = a.by;
      header = a.header;
      harts = a.harts.items;
      strangers = a.strangers;
      taken = a.taken;
      first = a.first;
      moves = map (λ counts. counts.items) a.moves.items;
    } };

    ghost invariant = { λ a. KeepsOwners a.by a.harts.items a.owners.complete a.owners.table };
}

impl<'a, A: Allocator + Copy> Audit<'a, A> {
    /// The audit of SENT, which has these bytes, before the first message of RECEIVED.
    ///
    /// SENT is complete if the hart of each message is known, and the number of each is the next one of its hart,
    /// counted from 0. The harts are those that the header counts, or without a header 0 to the highest that has a
    /// message, which is below 1,024. The fault is the header, where it is cut short or bad, or else the first message
    /// that is not so. A stranger is tested before a repeat, and a repeat before a gap. Payloads are compared by their
    /// bytes, and never unpacked.
    ///
    /// No other fault comes but [`SentFault::Memory`]. At most 17 bytes are taken for each message, 150 for each hart that
    /// may come, and 8 for each pair of harts.
    pub fn new(alloc: A, bytes: &'a [u8]) -> Result<Audit<'a, A>, SentFault>
        ensures audits { IfOk result (λ audit. (sent : List AnyMessage) × IsSent bytes.entry.now audit.header sent
            × Audits sent [] audit) }
        ensures by { IfOk result (λ audit. audit.by ≡ By.Bytes) }
        ensures fault { IfErr result (IsSentFault bytes.entry.now) }
        // If SENT is complete, the only fault is that an allocation failed.
        ensures memory { (header : Option AnyHeader) (sent : List AnyMessage) → IsSent bytes.entry.now header sent
            → IfErr result (λ fault. fault ≡ SentFault.Memory) }
    {
        Audit::with(alloc, bytes, By::Bytes)
    }

    /// As [`Audit::new`], where payloads are compared by these.
    ///
    /// By packets a message is true where its payload unpacks to the packet that was sent; where what was sent does not
    /// unpack, where its bytes are the same. SENT is not complete for that: its payloads may be any.
    pub fn with(alloc: A, bytes: &'a [u8], by: By) -> Result<Audit<'a, A>, SentFault>
        ensures audits { IfOk result (λ audit. (sent : List AnyMessage) × IsSent bytes.entry.now audit.header sent
            × Audits sent [] audit) }
        ensures by { IfOk result (λ audit. audit.by ≡ by) }
        ensures fault { IfErr result (IsSentFault bytes.entry.now) }
        // If SENT is complete, the only fault is that an allocation failed.
        ensures memory { (header : Option AnyHeader) (sent : List AnyMessage) → IsSent bytes.entry.now header sent
            → IfErr result (λ fault. fault ≡ SentFault.Memory) }
    {
        Audit::by_header(alloc, bytes, by)
    }

    /// As [`Audit::new`], by the header.
    fn by_header(alloc: A, bytes: &'a [u8], by: By) -> Result<Audit<'a, A>, SentFault>
        ensures audits { IfOk result (λ audit. (sent : List AnyMessage) × IsSent bytes.entry.now audit.header sent
            × Audits sent [] audit) }
        ensures by { IfOk result (λ audit. audit.by ≡ by) }
        ensures fault { IfErr result (IsSentFault bytes.entry.now) }
    {
        let mut messages = Messages::new(bytes);
        match messages.header() {
            Ok(Some(header)) => {
                Audit::of_messages(alloc, Some(header), header.harts, &bytes[HEADER..], by)
            }
            Ok(None) => Audit::of_messages(alloc, None, MOST_HARTS, bytes, by),
            Err(why) => Err(SentFault::Unread(0, why)),
        }
    }

    /// The audit of the messages of these bytes, which follow this header or none. Only the harts below `harts` are
    /// known.
    fn of_messages(
        alloc: A,
        header: Option<Header>,
        harts: u16,
        bytes: &'a [u8],
        by: By,
    ) -> Result<Audit<'a, A>, SentFault>
        requires { harts ≡ known_harts header }
        ensures by { IfOk result (λ audit. audit.by ≡ by) }
        ensures audits { IfOk result (λ audit. (audit.header ≡ header)
            × ((sent : List AnyMessage) × All IsMessage sent × (bytes.entry.now ≡ capture sent)
            × AreInTurn harts [] sent × Audits sent [] audit)) }
        ensures fault { IfErr result (IsCountFault harts bytes.entry.now) }
    {
        let counted = count_messages(alloc, harts, Messages::new(bytes))?;
        let count = count_of_harts(header, counted.highest);
        let index = index_messages(alloc, counted.counts.as_slice(), count, bytes)?;
        let moves = none_moved(alloc, usize::from(count))?;
        let owners = Owners::new(alloc, index.as_slice());
        Ok(Audit {
            by,
            header,
            harts: index,
            strangers: 0,
            taken: 0,
            first: None,
            moves,
            owners,
        })
    }

    /// Takes the next message of RECEIVED, and returns what became of it.
    pub fn take(&mut self, message: &Message) -> Fate
        ensures fate { (sent received : List AnyMessage) → Audits sent received self.old
            → result ≡ fate_of (known_all self.old.by sent) (known_all self.old.by received)
            (known_one self.old.by message.now) }
        ensures taken { (sent received : List AnyMessage) → Audits sent received self.old
            → Audits sent (received ++ message.now ∷ []) self.new }
        ensures by { self.new.by ≡ self.old.by }
        ensures header { self.new.header ≡ self.old.header }
        ensures harts { length self.new.harts ≡ length self.old.harts }
    {
        self.take_by_hart(message).fate()
    }

    /// Takes the next message of RECEIVED as [`Audit::take`] does, and returns what is found of it: its fate, and how many
    /// numbers it skips or by how much it is late.
    pub fn examine(&mut self, message: &Message) -> Finding
        ensures finding { (sent received : List AnyMessage) → Audits sent received self.old
            → result ≡ finding_of (known_all self.old.by sent) (known_all self.old.by received)
            (known_one self.old.by message.now) }
        ensures taken { (sent received : List AnyMessage) → Audits sent received self.old
            → Audits sent (received ++ message.now ∷ []) self.new }
        ensures by { self.new.by ≡ self.old.by }
        ensures header { self.new.header ≡ self.old.header }
        ensures harts { length self.new.harts ≡ length self.old.harts }
    {
        self.take_by_hart(message)
    }

    /// As [`Audit::examine`], of a message whose payload is left where it is. Nothing is copied.
    pub fn examine_borrowed(&mut self, message: BorrowedMessage<'_>) -> Finding
        ensures finding { (sent received : List AnyMessage) → Audits sent received self.old
            → result ≡ finding_of (known_all self.old.by sent) (known_all self.old.by received)
            (known_one self.old.by (message_of message.entry)) }
        ensures taken { (sent received : List AnyMessage) → Audits sent received self.old
            → Audits sent (received ++ message_of message.entry ∷ []) self.new }
        ensures by { self.new.by ≡ self.old.by }
        ensures header { self.new.header ≡ self.old.header }
        ensures harts { length self.new.harts ≡ length self.old.harts }
    {
        self.take_borrowed(message)
    }

    /// As [`Audit::examine`], by what is kept.
    fn take_by_hart(&mut self, message: &Message) -> Finding
        ensures finding { result ≡ finding_from self.old.by self.old message.now }
        ensures after { self.new ≡ ledger_after self.old.by self.old message.now }
    {
        self.take_borrowed(BorrowedMessage {
            hart: message.hart,
            number: message.number,
            payload: message.payload.bytes(),
        })
    }

    /// As [`Audit::examine_borrowed`], by what is kept.
    #[inline(always)]
    fn take_borrowed(&mut self, message: BorrowedMessage<'_>) -> Finding
        ensures finding { result ≡ finding_from self.old.by self.old (message_of message.entry) }
        ensures after { self.new ≡ ledger_after self.old.by self.old (message_of message.entry) }
    {
        let finding = take_of(&mut self.harts, message, self.by);
        if let Finding::Stranger = finding {
            self.strangers = self.strangers.saturating_add(1);
        }
        self.first = first_after(self.first, self.taken, finding);
        self.taken = self.taken.saturating_add(1);
        if matches!(finding, Finding::Stranger | Finding::Changed) {
            self.find_owner(message);
        }
        finding
    }

    /// Counts a message that is not true for the hart whose it is, if there is just one.
    #[inline(never)]
    fn find_owner(&mut self, message: BorrowedMessage<'_>)
        ensures { self.new ≡ record self.old {
          moves = moves_by self.old.moves (message_of message.entry).hart
              (owner_in self.old.by self.old.harts (message_of message.entry).number (message_of message.entry).payload);
        } }
    {
        let harts = self.harts.as_slice();
        let owner = self
            .owners
            .find(harts, message.number, message.payload, self.by);
        if let Some(owner) = owner {
            count_moved(&mut self.moves, usize::from(message.hart), owner);
        }
    }
}

impl<'a, A: Allocator> Audit<'a, A> {
    /// By what payloads are compared.
    pub fn by(&self) -> By
        ensures { result ≡ self.now.by }
    {
        self.by
    }

    /// The header of SENT, if it has one.
    pub fn header(&self) -> Option<Header>
        ensures { result ≡ self.now.header }
    {
        self.header
    }

    /// How many harts SENT has.
    pub fn harts(&self) -> usize
        ensures { result ≡ length self.now.harts }
    {
        self.harts.len()
    }

    /// The payload that SENT has with this hart and this number; `None` where it has none. Takes no memory.
    pub fn sent(&self, hart: u16, number: u64) -> Option<&'a [u8]>
        ensures { (sent received : List AnyMessage) → Audits sent received self.now
            → option_map (λ payload. payload.now) result ≡ payload_sent sent hart number }
    {
        match self.harts.get(usize::from(hart)) {
            Some(own) => own.payload(number),
            None => None,
        }
    }

    /// What became of the messages of a hart of SENT, counted. No count is above 2^64 - 1. Takes no memory.
    pub fn tally(&self, hart: usize) -> Tally
        requires known { hart < length self.now.harts }
        ensures { (sent received : List AnyMessage) → Audits sent received self.now → length received < 2 ^ 64
            → result ≡ tally_of (known_all self.now.by sent) (known_all self.now.by received) hart }
    {
        let own = &self.harts[hart];
        own.tally()
    }

    /// The longest runs of numbers of a hart of SENT that were lost.
    pub fn lost(&self, hart: usize) -> LostRuns<'_>
        requires known { hart < length self.now.harts }
        ensures { (sent received : List AnyMessage) → Audits sent received self.now
            → result ≡ lost_runs (known_all self.now.by sent) (known_all self.now.by received) hart }
    {
        let own = &self.harts[hart];
        LostRuns::new(own.came.as_slice())
    }

    /// What is found of a hart of SENT: what became of its messages, its strangers, the runs of its lost numbers, the most
    /// by which one is late, and whose most of its messages are that are not true. No count is above 2^64 - 1. Takes no
    /// memory.
    pub fn row(&self, hart: usize) -> HartRow
        requires known { hart < length self.now.harts }
        ensures { (sent received : List AnyMessage) → Audits sent received self.now → length received < 2 ^ 64
            → result ≡ row_of (known_all self.now.by sent) (known_all self.now.by received) hart }
    {
        let own = &self.harts[hart];
        match self.moves.get(hart) {
            Some(moved) => own.row(moved.as_slice()),
            None => own.row(&[]),
        }
    }

    /// The place of the first message of RECEIVED that is not in order or skips a number, counted from 0; `None` where
    /// there is none. The place is not above 2^64 - 1.
    pub fn first(&self) -> Option<u64>
        ensures { (sent received : List AnyMessage) → Audits sent received self.now → length received < 2 ^ 64
            → result ≡ first_found (known_all self.now.by sent) (known_all self.now.by received) }
    {
        self.first
    }

    /// How many strangers came, of whatever hart. The count is not above 2^64 - 1.
    pub fn strangers(&self) -> u64
        ensures { (sent received : List AnyMessage) → Audits sent received self.now → length received < 2 ^ 64
            → result ≡ strangers_in (known_all self.now.by sent) (known_all self.now.by received) }
    {
        self.strangers
    }
}

impl<'a, A: Allocator> Sent for Audit<'a, A> {
    ghost sees = { λ audit message. sight_in audit message };

    fn sight(&self, message: &Message) -> Sight {
        match self.harts.get(usize::from(message.hart)) {
            Some(own) => own.sight(message.number, message.payload.bytes(), self.by),
            None => Sight::Strange,
        }
    }

    fn knows_none(&self) -> bool {
        true
    }
}

/// Takes the next message of RECEIVED of these harts, and returns what is found of it.
#[inline(always)]
fn take_of<A: Allocator>(
    harts: &mut Vec<HartAudit<'_, A>, A>,
    message: BorrowedMessage<'_>,
    by: By,
) -> Finding
    ensures finding { result ≡ finding_found by (slice_get harts.old.items message.entry.hart) (message_of message.entry) }
    ensures after { harts.new.items ≡ harts_found by harts.old.items (message_of message.entry)
        (slice_get harts.old.items message.entry.hart) }
{
    match harts.get_mut(usize::from(message.hart)) {
        Some(hart) => hart.take(message.number, message.payload, by),
        None => Finding::Stranger,
    }
}

/// How many harts SENT has: as many as its header counts, or without a header those up to the highest that has a
/// message.
fn count_of_harts(header: Option<Header>, highest: u16) -> u16
    ensures { result ≡ harts_by header highest }
{
    match header {
        Some(header) => header.harts,
        None => highest,
    }
}

/// The place of the first message that is not in order or skips a number, after one more with this finding at this place.
fn first_after(first: Option<u64>, place: u64, finding: Finding) -> Option<u64>
    ensures { result ≡ first_after first place finding }
{
    if first.is_some() || finding.is_plain() {
        first
    } else {
        Some(place)
    }
}
