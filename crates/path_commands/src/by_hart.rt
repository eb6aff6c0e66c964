//! The messages of a capture by hart, read from its bytes. The messages themselves are not kept.

ghost use Rattle.std.specs.Prelude.{ℕ, ◌≡◌, ◌++◌, [], ◌∷◌, IfOk, List, OnOk, length};
ghost use Rattle.message.specs.Range.{selected};
ghost use Rattle.message.specs.declared.message.Message.{Message as AnyMessage};
ghost use Rattle.captures.specs.Whole.{IsFront};
ghost use Rattle.captures.specs.steps.Reading.{AreReadUpTo};
ghost use Rattle.auditing.specs.Split.{AreSplit};
ghost use Rattle.path_commands.specs.steps.Matching.{IsByHart};

use auditing::SentPayloads;
use message::{HartRange, Header, Message, MessageFault, Messages};
use payload::By;
use std::alloc::{AllocError, Global};

/// Messages by hart.
#[derive(Drop)]
pub(crate) struct ByHart {
    /// The hart of each, in their order.
    pub(crate) harts: Vec<u16>,
    /// The payloads of each of the harts that are asked for, of so many, as they are compared.
    pub(crate) payloads: SentPayloads,
}

/// What a capture holds before the first place where there is no complete message.
#[derive(Drop)]
pub(crate) struct FrontByHart {
    /// The header. A capture of version 1 has none, nor has one whose header is cut short or bad.
    pub(crate) header: Option<Header>,
    /// The messages.
    pub(crate) lists: ByHart,
    /// Why no complete message or no header follows them, or `None` where the capture ends there.
    pub(crate) stop: Option<MessageFault>,
}

/// How many messages there are.
#[derive(Drop)]
struct Counts {
    /// All of them.
    all: usize,
    /// Those of each of so many harts, where they are asked for.
    own: Vec<usize>,
}

/// Counts the messages that bytes begin with behind their header, if they have one: all, and those of each of these
/// harts, of so many.
fn count_messages(
    alloc: Global,
    harts: HartRange,
    count: usize,
    bytes: &[u8],
) -> Result<Counts, AllocError> {
    let mut all = 0usize;
    let mut own = vec![in alloc; 0usize; count]?;
    let mut left = Messages::new(bytes);
    let _ = left.header();
    while let Ok(Some(message)) = left.next() {
        all = all.saturating_add(1);
        if harts.selects(message.hart) {
            add_one(&mut own, message.hart);
        }
    }
    Ok(Counts { all, own })
}

/// Counts one message more of this hart.
fn add_one(own: &mut Vec<usize>, hart: u16) {
    if let Some(count) = own.get_mut(usize::from(hart)) {
        *count = count.saturating_add(1);
    }
}

/// Reads the messages of a capture, of either version, up to the first place where there is no complete message, and
/// the header where it has one. Only the payloads of these harts, of so many, are kept, as they are compared by these.
///
/// Memory is taken once for each list: 2 bytes a message, and 32 more for one of these harts.
pub(crate) fn read_by_hart(
    alloc: Global,
    harts: HartRange,
    count: usize,
    by: By,
    bytes: &[u8],
) -> Result<FrontByHart, AllocError>
    ensures front { IfOk result (λ front. (messages : List AnyMessage)
        × IsFront bytes.now front.header messages front.stop × IsByHart harts messages front.lists) }
    ensures by { IfOk result (λ front. front.lists.payloads.by ≡ by) }
    ensures count { IfOk result (λ front. length front.lists.payloads.lists ≡ count) }
{
    let counts = count_messages(alloc, harts, count, bytes)?;
    let mut lists = ByHart {
        harts: Vec::with_capacity(alloc, counts.all)?,
        payloads: SentPayloads::with_space(alloc, count, by, counts.own.as_slice())?,
    };
    let mut left = Messages::new(bytes);
    let header = match left.header() {
        Ok(header) => header,
        Err(fault) => {
            return Ok(FrontByHart {
                header: None,
                lists,
                stop: Some(fault),
            });
        }
    };
    let stop = read_into(&mut lists, harts, left)?;
    Ok(FrontByHart {
        header,
        lists,
        stop,
    })
}

/// Adds the messages that these bytes begin with, up to the first place where there is no complete message. Only the
/// payloads of these harts are kept. Returns why there is none, or `None` at the end of the bytes.
fn read_into(
    lists: &mut ByHart,
    harts: HartRange,
    mut left: Messages<'_>,
) -> Result<Option<MessageFault>, AllocError>
    requires fresh { IsByHart harts [] lists.old }
    ensures read { IfOk result (λ stop. (messages : List AnyMessage) × AreReadUpTo left.entry messages stop
        × IsByHart harts messages lists.new) }
    ensures by { lists.new.payloads.by ≡ lists.old.payloads.by }
    ensures count { IfOk result (λ stop. length lists.new.payloads.lists ≡ length lists.old.payloads.lists) }
{
    loop {
        match left.next() {
            Ok(Some(message)) => {
                take_message(lists, harts, &message)?;
            }
            Ok(None) => return Ok(None),
            Err(fault) => return Ok(Some(fault)),
        }
    }
}

/// Adds a message. Its payload is kept if it is of one of these harts.
#[inline(always)]
pub(crate) fn take_message(
    lists: &mut ByHart,
    harts: HartRange,
    message: &Message,
) -> Result<(), AllocError>
    ensures kept { (messages : List AnyMessage) → IsByHart harts messages lists.old
        → OnOk result (IsByHart harts (messages ++ message.now ∷ []) lists.new
        × (length lists.new.payloads.lists ≡ length lists.old.payloads.lists)) }
    ensures by { lists.new.payloads.by ≡ lists.old.payloads.by }
{
    lists.harts.push(message.hart)?;
    add_selected(&mut lists.payloads, harts, message)
}

/// Adds the payload of a message, if it is of one of these harts.
fn add_selected(
    payloads: &mut SentPayloads,
    harts: HartRange,
    message: &Message,
) -> Result<(), AllocError>
    ensures by { payloads.new.by ≡ payloads.old.by }
    ensures split { (count : ℕ) (messages : List AnyMessage)
        → AreSplit payloads.old.by count (selected harts messages) payloads.old.lists
        → OnOk result (AreSplit payloads.old.by count (selected harts
        (messages ++ message.now ∷ [])) payloads.new.lists) }
{
    if harts.selects(message.hart) {
        payloads.add(message)
    } else {
        Ok(())
    }
}
