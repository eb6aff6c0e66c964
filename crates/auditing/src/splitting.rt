//! The payloads of messages, by hart.

ghost use Rattle.std.specs.Prelude.{◌≡◌, ◌++◌, [], ◌∷◌, ◌<◌, ℕ, List, IfOk, OnOk, replicate};
ghost use Rattle.auditing.specs.Split.{AreSplit};
ghost use Rattle.auditing.specs.steps.Splitting.{added};

use message::Message;
use payload::{By, Payload, known};
use std::alloc::{AllocError, Allocator};
use std::marker::Model;

/// The payloads of a hart, as they are compared.
#[derive(Drop)]
pub(crate) struct HartPayloads<A: Allocator> {
    list: Vec<Payload, A>,
}

impl<A: Allocator> Model for HartPayloads<A> {
    ghost Value = { List (List ℕ) };

    ghost view = { λ own. own.list.items };
}

impl<A: Allocator> HartPayloads<A> {
    /// No payloads, with a capacity for so many.
    fn new(alloc: A, count: usize) -> Result<HartPayloads<A>, AllocError>
        ensures { IfOk result (λ own. own ≡ []) }
    {
        Ok(HartPayloads {
            list: Vec::with_capacity(alloc, count)?,
        })
    }

    /// Adds one.
    fn add(&mut self, payload: Payload) -> Result<(), AllocError>
        ensures { OnOk result (self.new ≡ self.old ++ payload ∷ []) }
    {
        self.list.push(payload)?;
        Ok(())
    }

    /// The payloads.
    pub(crate) fn list(&self) -> &[Payload]
        ensures { result.now ≡ self.now }
    {
        self.list.as_slice()
    }
}

/// How many of these messages each of so many harts has.
fn counts<A: Allocator + Copy>(
    alloc: A,
    harts: usize,
    messages: &[Message],
) -> Result<Vec<usize, A>, AllocError> {
    let mut counts = vec![in alloc; 0usize; harts]?;
    for message in messages {
        let hart = usize::from(message.hart);
        if let Some(count) = counts.get_mut(hart) {
            *count = count.saturating_add(1);
        }
    }
    Ok(counts)
}

/// No payloads of so many harts, with capacities for these counts.
pub(crate) fn empty<A: Allocator + Copy>(
    alloc: A,
    harts: usize,
    counts: &[usize],
) -> Result<Vec<HartPayloads<A>, A>, AllocError>
    ensures { IfOk result (λ lists. lists.items ≡ replicate harts []) }
{
    let mut lists = Vec::with_capacity(alloc, harts)?;
    for hart in 0..harts {
        let count = match counts.get(hart) {
            Some(count) => *count,
            None => 0,
        };
        lists.push(HartPayloads::new(alloc, count)?)?;
    }
    Ok(lists)
}

/// Adds a payload of a hart, if the hart has a list.
pub(crate) fn add_payload<A: Allocator>(
    lists: &mut Vec<HartPayloads<A>, A>,
    hart: u16,
    payload: Payload,
) -> Result<(), AllocError>
    ensures { OnOk result (lists.new.items ≡ added lists.old.items hart payload) }
{
    match lists.get_mut(usize::from(hart)) {
        Some(own) => own.add(payload),
        None => Ok(()),
    }
}

/// The payloads of the messages of each of so many harts, as they are compared.
pub(crate) fn split<A: Allocator + Copy>(
    alloc: A,
    harts: usize,
    messages: &[Message],
    by: By,
) -> Result<Vec<HartPayloads<A>, A>, AllocError>
    ensures { IfOk result (λ lists. AreSplit by harts messages.now lists.items) }
{
    let counts = counts(alloc, harts, messages)?;
    let mut lists = empty(alloc, harts, counts.as_slice())?;
    for message in messages {
        add_payload(&mut lists, message.hart, known(&message.payload, by))?;
    }
    Ok(lists)
}
