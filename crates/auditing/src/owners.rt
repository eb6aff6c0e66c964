//! Whose the messages of SENT are.

ghost use Rattle.std.specs.Prelude.{◌≡◌, ◌==◌, ◌&&◌, ℕ, IfOk, IfSome, List, None, OnOk, Some, false, if◌then◌else◌, slice_get};
ghost use Rattle.std.specs.Str.{bytes_eq};
ghost use Rattle.payload.specs.Same.{known_by};
ghost use Rattle.auditing.specs.steps.Moving.{owner_in};
ghost use Rattle.auditing.specs.steps.Owning.{KeepsOwners, found, is_known_by, owner_after, owners_after, the_owner};

use crate::hart::HartAudit;
use crate::known_payloads::bytes_of;
use arrayvec::ArrayVec;
use payload::{By, MOST_BYTES, Payload, known};
use std::alloc::{AllocError, Allocator};
use std::collections::HashMap;
use std::hash::{BuildHasherDefault, FoldHasher};

/// A number, and what a payload is known by.
type Key = (u64, ArrayVec<u8, MOST_BYTES>);

/// The only hart that has a message with a number and a payload; `None` where several have one.
type Table<A> = HashMap<Key, Option<usize>, BuildHasherDefault<FoldHasher>, A>;

/// How many harts are asked for a message in about the time in which one is put in the table.
const ASKED: usize = 8;

/// Whose the messages of SENT are, by number and payload.
///
/// The first messages are looked up hart by hart. Once that took about as long as a table of all messages of SENT takes,
/// they are put in one. So a lookup takes constant time on average, however many harts there are. Where an allocation
/// for the table fails, harts go on to be asked, and as much later the table is tried again.
#[derive(Drop)]
pub(crate) struct Owners<A: Allocator> {
    /// The messages of SENT that were put in, with the only hart that has each.
    pub(crate) table: Table<A>,
    /// Whether all messages of SENT are in the table.
    pub(crate) complete: bool,
    /// How many messages SENT has.
    messages: usize,
    /// How many harts were asked since the start or the last try.
    asked: usize,
}

impl<A: Allocator + Copy> Owners<A> {
    /// No table of these harts yet. Takes no memory.
    pub(crate) fn new(alloc: A, harts: &[HartAudit<'_, A>]) -> Owners<A>
        ensures { result.complete ≡ false }
    {
        Owners {
            table: HashMap::new(alloc),
            complete: false,
            messages: count_of(harts),
            asked: 0,
        }
    }

    /// The only hart that has a message with this number and this payload, if there is just one.
    pub(crate) fn find(
        &mut self,
        harts: &[HartAudit<'_, A>],
        number: u64,
        payload: &[u8],
        by: By,
    ) -> Option<usize>
        requires { KeepsOwners by harts.now self.old.complete self.old.table }
        ensures owner { result ≡ owner_in by harts.now number payload.now }
        ensures kept { KeepsOwners by harts.now self.new.complete self.new.table }
    {
        self.prepare(harts, by);
        if !self.complete {
            return owner(harts, number, payload, by);
        }
        match key_of(number, payload, by) {
            Some(key) => owner_found(&self.table, &key),
            None => owner(harts, number, payload, by),
        }
    }

    /// Puts the messages of SENT in the table, if enough harts were asked.
    fn prepare(&mut self, harts: &[HartAudit<'_, A>], by: By)
        requires { KeepsOwners by harts.now self.old.complete self.old.table }
        ensures { KeepsOwners by harts.now self.new.complete self.new.table }
    {
        if self.complete {
            return;
        }
        self.asked = self.asked.saturating_add(harts.len());
        if self.asked / ASKED >= self.messages {
            self.asked = 0;
            self.complete = fill(&mut self.table, harts, by, self.messages).is_ok();
        }
    }
}

/// How many messages SENT has.
fn count_of<A: Allocator>(harts: &[HartAudit<'_, A>]) -> usize {
    let mut count: usize = 0;
    for own in harts {
        count = count.saturating_add(own.payloads.len());
    }
    count
}

/// What a message with this number and this payload is looked up by; `None` where no message has such a payload.
fn key_of(number: u64, payload: &[u8], by: By) -> Option<Key>
    ensures { IfSome result (λ key. (key.0 ≡ number) × (key.1.items ≡ known_by by payload.now)) }
{
    match Payload::new(payload) {
        Ok(payload) => Some((number, bytes_of(&known(&payload, by)))),
        Err(_) => None,
    }
}

/// The only hart that a table has with a key, if it has just one.
fn owner_found<A: Allocator>(table: &Table<A>, key: &Key) -> Option<usize>
    ensures { result ≡ the_owner (found table.now key.now.0 key.now.1.items) }
{
    match table.get(key) {
        Some(owner) => *owner,
        None => None,
    }
}

/// Puts the messages of SENT in a table, which are so many.
fn fill<A: Allocator + Copy>(
    table: &mut Table<A>,
    harts: &[HartAudit<'_, A>],
    by: By,
    messages: usize,
) -> Result<(), AllocError>
    ensures { OnOk result ((number : ℕ) (payload : List ℕ)
        → found table.new number payload ≡ owners_after by number payload 0 harts.now None) }
{
    table.clear();
    table.reserve(messages)?;
    for hart in 0..harts.len() {
        add_hart(table, hart, &harts[hart], by)?;
    }
    Ok(())
}

/// Puts the messages of a hart in a table.
fn add_hart<A: Allocator + Copy>(
    table: &mut Table<A>,
    hart: usize,
    own: &HartAudit<'_, A>,
    by: By,
) -> Result<(), AllocError>
    ensures { OnOk result ((number : ℕ) (payload : List ℕ) → found table.new number payload
        ≡ owner_after (is_known_by by payload (slice_get own.now.payloads number)) hart (found table.old number payload)) }
{
    for number in 0..own.payloads.len() {
        add_owner(table, hart, number as u64, own.payloads[number], by)?;
    }
    Ok(())
}

/// Puts a message of a hart in a table.
fn add_owner<A: Allocator + Copy>(
    table: &mut Table<A>,
    hart: usize,
    number: u64,
    payload: &[u8],
    by: By,
) -> Result<(), AllocError>
    ensures { OnOk result ((other : ℕ) (bytes : List ℕ) → found table.new other bytes
        ≡ owner_after ((number == other) && bytes_eq (known_by by payload.now) bytes) hart (found table.old other bytes)) }
{
    let before = put(table, number, payload, by, Some(hart))?;
    match before {
        Some(_) => {
            put(table, number, payload, by, None)?;
            Ok(())
        }
        None => Ok(()),
    }
}

/// Puts a hart at the key of a message, and returns what was there.
fn put<A: Allocator + Copy>(
    table: &mut Table<A>,
    number: u64,
    payload: &[u8],
    by: By,
    owner: Option<usize>,
) -> Result<Option<Option<usize>>, AllocError>
    ensures before { IfOk result (λ before. before ≡ found table.old number (known_by by payload.now)) }
    ensures after { OnOk result ((other : ℕ) (bytes : List ℕ) → found table.new other bytes
        ≡ (if (number == other) && bytes_eq (known_by by payload.now) bytes then Some owner else found table.old other bytes)) }
{
    match key_of(number, payload, by) {
        Some(key) => Ok(table.insert(key, owner)?),
        None => Err(AllocError),
    }
}

/// The only hart that has a message with this number and this payload, if there is just one. Each hart is asked.
fn owner<A: Allocator>(
    harts: &[HartAudit<'_, A>],
    number: u64,
    payload: &[u8],
    by: By,
) -> Option<usize>
    ensures { result ≡ owner_in by harts.now number payload.now }
{
    let mut owner = None;
    for hart in 0..harts.len() {
        let own = &harts[hart];
        if own.has(number, payload, by) {
            if owner.is_some() {
                return None;
            }
            owner = Some(hart);
        }
    }
    owner
}
