//! A program, and the instruction at each of its addresses.

ghost use Rattle.std.specs.Prelude.{◌≡◌, ◌⊎◌, ◌↔◌, ◌+◌, ◌/◌, ◌%◌, ◌^◌, ◌<◌, ◌≤◌, length, vec_len, option_map, slice_get, IsOk, IfOk, IfErr, IfSome, Ok, Err};
ghost use Rattle.rvclass.specs.Adding.{add_piece};
ghost use Rattle.rvclass.specs.Halves.{halves_below};
ghost use Rattle.rvclass.specs.Memory.{base_of, byte_count, in_order};
ghost use Rattle.rvclass.specs.Piece.{extent_of};
ghost use Rattle.rvclass.specs.declared.piece_fault.PieceFault.TheVariants as PieceFault;
ghost use Rattle.rvclass.specs.Fetch.{words_of};
ghost use Rattle.rvclass.specs.Image.{Image, IsImage, image_at};
ghost use Rattle.rvclass.specs.Instruction.{instruction_of};
ghost use Rattle.rvclass.specs.Program.{program_of};
ghost use Rattle.rvclass.specs.Words.{IsProgram, LiesIn};

use crate::class::Class;
use crate::fault::{ProgramFault, fault_of_piece};
use crate::fetching::{instruction_from, word_of};
use crate::instruction::Instruction;
use crate::{Memory, PieceFault};
use std::alloc::Global;
use std::marker::Model;

/// A program: the pieces of its image, each with its bytes from a base address on, which it owns or borrows for `'b`.
#[derive(Drop)]
pub struct ProgramOver<'b> {
    memory: Memory<'b>,
}

/// A program that owns the bytes of its image.
pub type Program = ProgramOver<'static>;

impl<'b> Model for ProgramOver<'b> {
    ghost Value = { Image };

    ghost view = { λ p. p.memory };

    ghost invariant = { λ p. IsImage p.memory };
}

impl ProgramOver<'static> {
    /// The program of these bytes from the address `base` on. There may be an odd number of bytes, or none.
    pub fn new(base: u64, bytes: Vec<u8>) -> Result<Program, ProgramFault>
        ensures exact { result ≡ program_of base bytes.items }
        ensures image { IfOk result (λ p. p ≡ image_at base bytes.items) }
        ensures ok { IsOk result ↔ IsImage (image_at base bytes.items) }
        ensures odd_base { (result ≡ Err ProgramFault.OddBase) ↔ (base % 2 ≡ 1) }
        ensures too_large { (result ≡ Err ProgramFault.TooLarge) ↔ ((base % 2 ≡ 0) × (2 ^ 24 < vec_len bytes)) }
        ensures past_end { (result ≡ Err ProgramFault.PastEnd)
            ↔ ((base % 2 ≡ 0) × (vec_len bytes ≤ 2 ^ 24) × (2 ^ 64 ≤ base + vec_len bytes)) }
    {
        match Memory::new(base, bytes) {
            Ok(memory) => Ok(ProgramOver { memory }),
            Err(fault) => Err(fault_of_piece(fault)),
        }
    }
}

impl<'b> ProgramOver<'b> {
    /// The program of these bytes from the address `base` on, as [`new`](ProgramOver::new) makes it, without a copy of
    /// the bytes. Takes no memory.
    pub fn borrowed(base: u64, bytes: &'b [u8]) -> Result<ProgramOver<'b>, ProgramFault>
        ensures exact { result ≡ program_of base bytes.now }
        ensures image { IfOk result (λ p. p ≡ image_at base bytes.now) }
    {
        match Memory::borrowed(base, bytes) {
            Ok(memory) => Ok(ProgramOver { memory }),
            Err(fault) => Err(fault_of_piece(fault)),
        }
    }

    /// Adds the piece of these bytes from the address `base` on. It may touch others, and may have no byte. Memory is
    /// taken for the list of pieces alone, and where the piece is refused nothing has changed.
    pub fn add(&mut self, alloc: Global, base: u64, bytes: Vec<u8>) -> Result<(), PieceFault>
        ensures added { IfOk result (λ _. add_piece self.old base bytes.items ≡ Ok self.new) }
        ensures refused { IfErr result (λ fault.
            (fault ≡ PieceFault.Memory) ⊎ (add_piece self.old base bytes.items ≡ Err fault)) }
        ensures memory { result ≡ Err PieceFault.Memory → IsOk (add_piece self.old base bytes.items) }
        ensures same { IfErr result (λ _. self.new ≡ self.old) }
    {
        self.memory.add(alloc, base, bytes)
    }

    /// Adds a piece as [`add`](ProgramOver::add) does, without a copy of the bytes.
    pub fn add_borrowed(
        &mut self,
        alloc: Global,
        base: u64,
        bytes: &'b [u8],
    ) -> Result<(), PieceFault>
        ensures added { IfOk result (λ _. add_piece self.old base bytes.now ≡ Ok self.new) }
        ensures refused { IfErr result (λ fault.
            (fault ≡ PieceFault.Memory) ⊎ (add_piece self.old base bytes.now ≡ Err fault)) }
        ensures memory { result ≡ Err PieceFault.Memory → IsOk (add_piece self.old base bytes.now) }
        ensures same { IfErr result (λ _. self.new ≡ self.old) }
    {
        self.memory.add_borrowed(alloc, base, bytes)
    }

    /// The lowest address of a piece of the image, of one without bytes too.
    #[inline]
    pub fn base(&self) -> u64
        ensures base { result ≡ base_of self.now }
        ensures kept { IsImage self.now }
    {
        self.memory.base()
    }

    /// The number of bytes of all pieces of the image.
    #[inline]
    pub fn byte_count(&self) -> usize
        ensures count { result ≡ byte_count self.now }
        ensures kept { IsImage self.now }
    {
        self.memory.byte_count()
    }

    /// The number of pieces of the image.
    #[inline]
    pub fn piece_count(&self) -> usize
        ensures { result ≡ length self.now }
    {
        self.memory.piece_count()
    }

    /// The base and the number of bytes of a piece. Pieces with bytes are numbered from 0 by rising base, and those
    /// without bytes come after them.
    pub fn extent(&self, number: usize) -> Option<(u64, usize)>
        ensures extent { result ≡ option_map extent_of (slice_get (in_order self.now) number) }
        ensures within { IfSome result (λ extent. extent.0 + extent.1 < 2 ^ 64) }
    {
        self.memory.extent(number)
    }

    /// The class of the instruction at an address, and its length in bytes, 2 or 4. There is none where the address is
    /// odd or where the image does not have all bytes of the instruction, whichever pieces they came in. An instruction
    /// of more than 32 bits does not retire and has length 2, by its first 16 bits alone.
    #[inline(always)]
    pub fn at(&self, addr: u64) -> Option<(Class, u8)>
        ensures word { result ≡ words_of self.now addr }
        ensures kept { IsProgram (words_of self.now) }
        ensures within { LiesIn (words_of self.now) (halves_below self.now) (byte_count self.now / 2) }
    {
        word_of(addr, self.memory.fetch(addr))
    }

    /// The instruction at an address, as [`at`](ProgramOver::at) says. Lookups near the last one are quicker: `near` says
    /// where it was, is 0 at first, and changes nothing about what is found.
    #[inline(always)]
    pub fn at_near(&self, near: &mut usize, addr: u64) -> Option<(Class, u8)>
        ensures word { result ≡ words_of self.now addr }
        ensures kept { IsProgram (words_of self.now) }
        ensures within { LiesIn (words_of self.now) (halves_below self.now) (byte_count self.now / 2) }
    {
        word_of(addr, self.memory.fetch_near(near, addr))
    }

    /// The instruction at an address with its bits. There is one where [`at`](ProgramOver::at) finds one, with the same
    /// class and length.
    pub fn instruction(&self, addr: u64) -> Option<Instruction>
        ensures { result ≡ instruction_of self.now addr }
    {
        instruction_from(addr, self.memory.fetch(addr))
    }
}
