//! The further pieces of an image.

ghost use Rattle.std.specs.Prelude.{◌≡◌, ◌⊎◌, IfErr, IfOk, Err, Ok, option_map};
ghost use Rattle.std.specs.List.{list_all};
ghost use Rattle.command_inputs.specs.Found.{IsWithPiece, IsWithPieces};
ghost use Rattle.command_inputs.specs.FurtherPieces.{given_piece, gives_piece};
ghost use Rattle.command_inputs.specs.declared.fault.Fault.TheVariants as Fault;

use crate::fault::Fault;
use crate::inputs::start_of;
use crate::limits::LARGEST_PIECE;
use log_streams::Files;
use retire::number;
use rvclass::Program;
use std::alloc::Global;

/// The base and the path of the piece that an argument gives. There are none where the argument has no `=`, or where
/// what comes before the first is no number.
fn given_piece(argument: &str) -> Option<(u64, &str)>
    ensures { option_map (λ piece. (piece.0, piece.1.now)) result ≡ given_piece argument.now }
{
    let (base, path) = argument.split_once('=')?;
    let base = number(base.as_bytes())?;
    Some((base, path))
}

/// Whether each of these arguments gives a piece.
pub(crate) fn give_pieces(arguments: &[&str]) -> bool
    ensures { result ≡ list_all gives_piece arguments.now }
{
    for argument in arguments {
        if given_piece(argument).is_none() {
            return false;
        }
    }
    true
}

/// The program with the pieces that these arguments give. Each is read and added before the next is looked at.
pub(crate) fn add_pieces<'a, W, F: Files>(
    alloc: Global,
    files: &mut F,
    mut program: Program,
    arguments: &[&'a str],
) -> Result<Program, Fault<'a, W>>
    ensures added { IfOk result (λ more.
        IsWithPieces {W = W} (F.content files.old) program.entry arguments.now (Ok more)) }
    ensures fault { IfErr result (λ why.
        (why ≡ Fault.Memory) ⊎ IsWithPieces (F.content files.old) program.entry arguments.now (Err why)) }
    ensures kept { F.content files.new ≡ F.content files.old }
{
    for argument in arguments {
        add_piece(alloc, files, &mut program, argument)?;
    }
    Ok(program)
}

/// Adds the piece that an argument gives to a program.
fn add_piece<'a, W, F: Files>(
    alloc: Global,
    files: &mut F,
    program: &mut Program,
    argument: &'a str,
) -> Result<(), Fault<'a, W>>
    ensures added { IfOk result (λ _.
        IsWithPiece {W = W} (F.content files.old) program.old (given_piece argument.now) (Ok program.new)) }
    ensures fault { IfErr result (λ why. (why ≡ Fault.Memory)
        ⊎ IsWithPiece (F.content files.old) program.old (given_piece argument.now) (Err why)) }
    ensures kept { F.content files.new ≡ F.content files.old }
{
    let Some((base, path)) = given_piece(argument) else {
        return Err(Fault::Base);
    };
    let bytes = start_of(files, path, Some(LARGEST_PIECE + 1))?;
    match program.add(alloc, base, bytes) {
        Ok(()) => Ok(()),
        Err(why) => Err(Fault::of_piece(path, why)),
    }
}
