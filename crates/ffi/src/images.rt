//! The program of an image that is handed in, as one piece or as several.

ghost use Rattle.std.specs.Prelude.{◌≡◌, ◌≤◌, ◌⊎◌, true, length, IfErr, IfOk, IsOk, Err, Ok};
ghost use Rattle.rvclass.specs.Adding.{add_piece};
ghost use Rattle.ffi.specs.Images.{IsJudged, are_sorted_from, judged_image, judged_next, judged_pieces};
ghost use Rattle.ffi.specs.Images.{with_pieces};
ghost use Rattle.ffi.specs.declared.fault.ImageFault.TheVariants.{Memory};
ghost use Rattle.ffi.specs.steps.Adding.{AreAdded};

use crate::fault::ImageFault;
use rvclass::{PieceFault, ProgramOver};
use std::alloc::Global;

/// A piece of an image: these bytes, from this address on.
#[repr(C)]
#[derive(Clone, Copy)]
pub struct ImagePiece<'b> {
    /// The address of the first byte.
    pub base: u64,
    /// The bytes. There may be none.
    pub bytes: &'b [u8],
}

/// A program over the bytes of a caller's image, or why there is none.
pub(crate) type Judged<'b> = Result<ProgramOver<'b>, ImageFault>;

/// The program of an image, which it borrows. No memory is taken.
#[inline(always)]
pub(crate) fn judge_image(base: u64, image: &[u8]) -> Judged<'_>
    ensures { result ≡ judged_image base image.now }
{
    match ProgramOver::borrowed(base, image) {
        Ok(program) => Ok(program),
        Err(why) => Err(ImageFault::First(why)),
    }
}

/// The program of pieces, which it borrows. Memory is taken for the list of the pieces after the first, and so none for
/// one piece.
#[inline(always)]
pub(crate) fn judge_pieces<'b>(alloc: Global, pieces: &[ImagePiece<'b>]) -> Judged<'b>
    ensures { IsJudged pieces.now result }
{
    if pieces.len() == 1 {
        let only = pieces[0];
        return judge_image(only.base, only.bytes);
    }
    judge_several(alloc, pieces)
}

/// The program of pieces, of which there may be any number.
fn judge_several<'b>(alloc: Global, pieces: &[ImagePiece<'b>]) -> Judged<'b>
    ensures { IsJudged pieces.now result }
{
    if !are_sorted(pieces) {
        return Err(ImageFault::NotSorted);
    }
    if pieces.is_empty() {
        return judge_image(0, &[]);
    }
    judge_sorted(alloc, pieces)
}

/// The program of pieces that are sorted.
fn judge_sorted<'b>(alloc: Global, pieces: &[ImagePiece<'b>]) -> Judged<'b>
    requires sorted { are_sorted_from 0 pieces.now ≡ true }
    requires some { 1 ≤ length pieces.now }
    ensures { IsJudged pieces.now result }
{
    let first = pieces[0];
    match judge_image(first.base, first.bytes) {
        Ok(program) => add_pieces(alloc, program, &pieces[1..]),
        Err(fault) => Err(fault),
    }
}

/// Whether no piece's base is below that of the piece before it.
fn are_sorted(pieces: &[ImagePiece<'_>]) -> bool
    ensures { result ≡ are_sorted_from 0 pieces.now }
{
    let mut least = 0;
    for piece in pieces {
        if piece.base < least {
            return false;
        }
        least = piece.base;
    }
    true
}

/// A program with pieces added, one after the other.
fn add_pieces<'b>(alloc: Global, program: ProgramOver<'b>, pieces: &[ImagePiece<'b>]) -> Judged<'b>
    ensures { AreAdded program.entry pieces.now result }
{
    let mut program = program;
    for place in 0..pieces.len() {
        let piece = &pieces[place];
        match add_piece(alloc, &mut program, piece) {
            Ok(()) => {}
            Err(fault) => return Err(fault),
        }
    }
    Ok(program)
}

/// Adds a piece to a program.
fn add_piece<'b>(
    alloc: Global,
    program: &mut ProgramOver<'b>,
    piece: &ImagePiece<'b>,
) -> Result<(), ImageFault>
    ensures added { IfOk result (λ _. add_piece program.old piece.now.base piece.now.bytes.now ≡ Ok program.new) }
    ensures refused { IfErr result (λ fault.
        ((fault ≡ Memory) × IsOk (add_piece program.old piece.now.base piece.now.bytes.now))
        ⊎ (judged_next (add_piece program.old piece.now.base piece.now.bytes.now) ≡ Err fault)) }
{
    match program.add_borrowed(alloc, piece.base, piece.bytes) {
        Ok(()) => Ok(()),
        Err(PieceFault::Memory) => Err(ImageFault::Memory),
        Err(why) => Err(ImageFault::Piece(why)),
    }
}
