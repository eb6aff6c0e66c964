//! A memory, and what stands at each of its addresses.

ghost use Rattle.std.specs.Prelude.{◌≡◌, ◌≢◌, ◌⊎◌, ◌↔◌, ◌+◌, ◌-◌, ◌%◌, ◌^◌, ◌<◌, ◌≤◌, [], ◌∷◌, length, vec_len, option_map, slice_get, IsOk, IfOk, IfErr, IfSome, Ok, Err};
ghost use Rattle.rvclass.specs.Adding.{add_piece};
ghost use Rattle.rvclass.specs.FetchedBytes.{BeginsWithHalf, byte_at, fetched};
ghost use Rattle.rvclass.specs.Memory.{Memory, IsMemory, base_of, byte_count, in_order, with_piece};
ghost use Rattle.rvclass.specs.Piece.{IsPiece, extent_of, piece_at};
ghost use Rattle.rvclass.specs.steps.HeldBytes.{held_bytes};
ghost use Rattle.rvclass.specs.steps.Kept.{IsKept, kept_pieces, others_of};

use crate::adding::{insert_part, overlap_any, overlap_each, windows_of};
use crate::among::{byte_among, place_near, word_near};
use crate::fetched::Fetched;
use crate::held::Held;
use crate::part::{Part, extent_in, parts_in, rank_of};
use crate::piece_fault::PieceFault;
use crate::search::count_up_to;
use crate::slices::{byte_of, word_of};
use std::alloc::{Allocator, Global};
use std::marker::Model;

/// The largest memory, in bytes.
const MAX_TOTAL: usize = 1 << 26;

/// The most pieces.
const MAX_PIECES: usize = 1024;

/// A memory: pieces that do not overlap, each with its base address and its bytes, which it owns or borrows for `'b`.
#[derive(Drop)]
pub struct Memory<'b, A: Allocator = Global> {
    base: u64,
    bytes: Held<'b>,
    /// The number of places of the first piece from which there are four bytes: its length less 3, or 0.
    windows: u64,
    /// The pieces after the first, by rank, if there were any.
    others: Option<Vec<Part<'b>, A>>,
    /// The lowest base.
    lowest: u64,
    /// The number of bytes of all pieces.
    count: usize,
}

impl<'b, A: Allocator> Model for Memory<'b, A> {
    ghost Value = { Memory };

    ghost view = { λ m. kept_pieces m.base (held_bytes m.bytes) (others_of m.others) };

    ghost invariant = { λ m. IsKept m.base (held_bytes m.bytes) m.windows (others_of m.others) m.lowest m.count };
}

impl<'b, A: Allocator> Memory<'b, A> {
    /// The memory of one piece: these bytes from the address `base` on. There may be an odd number of bytes, or none.
    /// Takes no memory.
    pub fn new(base: u64, bytes: Vec<u8>) -> Result<Memory<'b, A>, PieceFault>
        ensures exact { result ≡ add_piece [] base bytes.items }
        ensures memory { IfOk result (λ m. m ≡ piece_at base bytes.items ∷ []) }
        ensures ok { IsOk result ↔ IsPiece (piece_at base bytes.items) }
        ensures odd_base { (result ≡ Err PieceFault.OddBase) ↔ (base % 2 ≡ 1) }
        ensures too_large { (result ≡ Err PieceFault.TooLarge) ↔ ((base % 2 ≡ 0) × (2 ^ 24 < vec_len bytes)) }
        ensures past_end { (result ≡ Err PieceFault.PastEnd)
            ↔ ((base % 2 ≡ 0) × (vec_len bytes ≤ 2 ^ 24) × (2 ^ 64 ≤ base + vec_len bytes)) }
    {
        let windows = windows_of(base, &bytes)?;
        let count = bytes.len();
        Ok(Memory {
            base,
            bytes: Held::Owned(bytes),
            windows,
            others: None,
            lowest: base,
            count,
        })
    }

    /// The memory of one piece, as [`new`](Memory::new) makes it, without a copy of the bytes. Takes no memory.
    pub fn borrowed(base: u64, bytes: &'b [u8]) -> Result<Memory<'b, A>, PieceFault>
        ensures exact { result ≡ add_piece [] base bytes.now }
        ensures memory { IfOk result (λ m. m ≡ piece_at base bytes.now ∷ []) }
    {
        let windows = windows_of(base, bytes)?;
        Ok(Memory {
            base,
            bytes: Held::Borrowed(bytes),
            windows,
            others: None,
            lowest: base,
            count: bytes.len(),
        })
    }

    /// The lowest address of a piece, of one without bytes too.
    #[inline]
    pub fn base(&self) -> u64
        ensures base { result ≡ base_of self.now }
        ensures kept { IsMemory self.now }
    {
        self.lowest
    }

    /// The number of bytes of all pieces.
    #[inline]
    pub fn byte_count(&self) -> usize
        ensures count { result ≡ byte_count self.now }
        ensures kept { IsMemory self.now }
    {
        self.count
    }

    /// The number of pieces.
    #[inline]
    pub fn piece_count(&self) -> usize
        ensures { result ≡ length self.now }
    {
        parts_in(&self.others).len() + 1
    }

    /// The base and the number of bytes of a piece. Pieces with bytes are numbered from 0 by rising base, and those
    /// without bytes come after them.
    pub fn extent(&self, number: usize) -> Option<(u64, usize)>
        ensures { result ≡ option_map extent_of (slice_get (in_order self.now) number) }
    {
        let length = self.bytes.bytes().len();
        let others = parts_in(&self.others);
        let place = count_up_to(others, rank_of(self.base, length));
        if number == place {
            return Some((self.base, length));
        }
        if number < place {
            return extent_in(others, number);
        }
        extent_in(others, number - 1)
    }

    /// The byte at an address, if there is one.
    pub fn byte_at(&self, addr: u64) -> Option<u8>
        ensures byte { result ≡ byte_at self.now addr }
        ensures below { IfSome result (λ _. addr + 1 < 2 ^ 64) }
    {
        match byte_of(self.base, self.bytes.bytes(), addr) {
            Some(byte) => Some(byte),
            None => byte_among(parts_in(&self.others), addr),
        }
    }

    /// What stands at an address: four bytes, or else two, or else nothing. Bytes stand there whichever pieces they
    /// came in.
    #[inline(always)]
    pub fn fetch(&self, addr: u64) -> Fetched
        ensures what { result ≡ fetched self.now addr }
        ensures low { BeginsWithHalf self.now addr result }
    {
        match word_of(self.base, self.bytes.bytes(), self.windows, addr) {
            Some(word) => Fetched::Word(word),
            None => self.fetch_elsewhere(addr),
        }
    }

    /// What stands at an address, as [`fetch`](Memory::fetch) says. Lookups near the last one are quicker: `near` says
    /// where it was, is 0 at first, and changes nothing about what is found.
    #[inline(always)]
    pub fn fetch_near(&self, near: &mut usize, addr: u64) -> Fetched
        ensures what { result ≡ fetched self.now addr }
        ensures low { BeginsWithHalf self.now addr result }
    {
        match word_of(self.base, self.bytes.bytes(), self.windows, addr) {
            Some(word) => Fetched::Word(word),
            None => self.fetch_behind(near, addr),
        }
    }

    /// What stands at an address from which the first piece does not have four bytes, by a place where it may be.
    #[inline]
    fn fetch_behind(&self, near: &mut usize, addr: u64) -> Fetched
        ensures what { result ≡ fetched self.now addr }
        ensures low { BeginsWithHalf self.now addr result }
    {
        match word_near(parts_in(&self.others), *near, addr) {
            Some(word) => Fetched::Word(word),
            None => {
                *near = place_near(parts_in(&self.others), addr);
                self.fetch_at(*near, addr)
            }
        }
    }

    /// What stands at an address from which the first piece does not have four bytes.
    #[inline(never)]
    fn fetch_elsewhere(&self, addr: u64) -> Fetched
        ensures what { result ≡ fetched self.now addr }
        ensures low { BeginsWithHalf self.now addr result }
    {
        let near = place_near(parts_in(&self.others), addr);
        self.fetch_at(near, addr)
    }

    /// What stands at an address, by the place of the part that may have it.
    #[inline]
    fn fetch_at(&self, near: usize, addr: u64) -> Fetched
        ensures what { result ≡ fetched self.now addr }
        ensures low { BeginsWithHalf self.now addr result }
    {
        match word_near(parts_in(&self.others), near, addr) {
            Some(word) => Fetched::Word(word),
            None => self.fetch_by_bytes(addr),
        }
    }

    /// What stands at an address, byte by byte.
    #[inline(never)]
    fn fetch_by_bytes(&self, addr: u64) -> Fetched
        ensures what { result ≡ fetched self.now addr }
        ensures low { BeginsWithHalf self.now addr result }
    {
        let first = match self.byte_at(addr) {
            Some(byte) => byte,
            None => return Fetched::Nothing,
        };
        let second = match self.byte_at(addr + 1) {
            Some(byte) => byte,
            None => return Fetched::Nothing,
        };
        let low = u32::from(first) + (u32::from(second) << 8);
        let third = match self.byte_at(addr + 2) {
            Some(byte) => byte,
            None => return Fetched::Half(low),
        };
        let fourth = match self.byte_at(addr + 3) {
            Some(byte) => byte,
            None => return Fetched::Half(low),
        };
        let high = u32::from(third) + (u32::from(fourth) << 8);
        Fetched::Word(low + (high << 16))
    }

    /// Adds the piece of these bytes from the address `base` on. It may touch others, and may have no byte. Memory is
    /// taken for the list of pieces alone, and where the piece is refused nothing has changed.
    pub fn add(&mut self, alloc: A, base: u64, bytes: Vec<u8>) -> Result<(), PieceFault>
        ensures added { IfOk result (λ _. add_piece self.old base bytes.items ≡ Ok self.new) }
        ensures refused { IfErr result (λ fault.
            (fault ≡ PieceFault.Memory) ⊎ (add_piece self.old base bytes.items ≡ Err fault)) }
        ensures memory { result ≡ Err PieceFault.Memory → IsOk (add_piece self.old base bytes.items) }
        ensures same { IfErr result (λ _. self.new ≡ self.old) }
    {
        self.allow(base, &bytes)?;
        self.place(alloc, base, Held::Owned(bytes))
    }

    /// Adds a piece as [`add`](Memory::add) does, without a copy of the bytes.
    pub fn add_borrowed(&mut self, alloc: A, base: u64, bytes: &'b [u8]) -> Result<(), PieceFault>
        ensures added { IfOk result (λ _. add_piece self.old base bytes.now ≡ Ok self.new) }
        ensures refused { IfErr result (λ fault.
            (fault ≡ PieceFault.Memory) ⊎ (add_piece self.old base bytes.now ≡ Err fault)) }
        ensures memory { result ≡ Err PieceFault.Memory → IsOk (add_piece self.old base bytes.now) }
        ensures same { IfErr result (λ _. self.new ≡ self.old) }
    {
        self.allow(base, bytes)?;
        self.place(alloc, base, Held::Borrowed(bytes))
    }

    /// The first fault of adding the piece of these bytes.
    fn allow(&self, base: u64, bytes: &[u8]) -> Result<(), PieceFault>
        ensures refused { IfErr result (λ fault. add_piece self.now base bytes.now ≡ Err fault) }
        ensures fault { IfErr result (λ fault. fault ≢ PieceFault.Memory) }
        ensures allowed { IfOk result (λ _. add_piece self.now base bytes.now
            ≡ Ok (with_piece self.now (piece_at base bytes.now))) }
        ensures memory { IfOk result (λ _. IsMemory (with_piece self.now (piece_at base bytes.now))) }
    {
        windows_of(base, bytes)?;
        if overlap_each(base, bytes.len(), self.base, self.bytes.bytes().len()) {
            return Err(PieceFault::Overlap);
        }
        if overlap_any(base, bytes, parts_in(&self.others)) {
            return Err(PieceFault::Overlap);
        }
        if MAX_TOTAL - self.count < bytes.len() {
            return Err(PieceFault::TooMuch);
        }
        if parts_in(&self.others).len() + 2 > MAX_PIECES {
            return Err(PieceFault::TooMany);
        }
        Ok(())
    }

    /// Adds a piece that may be added.
    fn place(&mut self, alloc: A, base: u64, bytes: Held<'b>) -> Result<(), PieceFault>
        requires { IsMemory (with_piece self.old (piece_at base (held_bytes bytes))) }
        ensures added { IfOk result (λ _. self.new ≡ with_piece self.old (piece_at base (held_bytes bytes.entry))) }
        ensures refused { IfErr result (λ fault. fault ≡ PieceFault.Memory) }
        ensures same { IfErr result (λ _. self.new ≡ self.old) }
    {
        let length = bytes.bytes().len();
        let rank = rank_of(base, length);
        match insert_part(alloc, &mut self.others, Part { rank, base, bytes }) {
            Ok(()) => {
                self.lowest = self.lowest.min(base);
                self.count += length;
                Ok(())
            }
            Err(_) => Err(PieceFault::Memory),
        }
    }
}
