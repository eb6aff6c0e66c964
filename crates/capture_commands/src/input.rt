//! What a subcommand works with once its files are read.

ghost use Rattle.std.specs.Prelude.{◌≡◌, ◌⊎◌, Err, IfErr, IfOk, IfSome, Ok};
ghost use Rattle.command_inputs.specs.FurtherPieces.{base_number};
ghost use Rattle.command_inputs.specs.OnlyHarts.{asked_harts};
ghost use Rattle.command_inputs.specs.Order.{format_base_or_only_fault};
ghost use Rattle.command_inputs.specs.declared.fault.Fault.TheVariants as Fault;
ghost use Rattle.capture_commands.specs.CaptureInput.{IsCaptureInput};
ghost use Rattle.capture_commands.specs.steps.Inputs.{lent_in, owned_in};

use crate::reason::Fault;
use command_inputs::{
    Files, Format, ProgramArgs, asked_base, content_of, harts_asked, program_of, symbols_of,
};
use message::HartRange;
use rvclass::Program;
use std::alloc::Global;
use symbols::Symbols;

/// The program that the harts of a capture ran, the capture, and the harts whose messages are looked at.
#[derive(Clone, Copy)]
pub(crate) struct Input<'p, 's, 'b> {
    pub(crate) program: &'p Program,
    /// What places are named by, if that is given.
    pub(crate) symbols: Option<&'s Symbols>,
    /// The bytes of the capture.
    pub(crate) bytes: &'b [u8],
    /// The harts whose messages are looked at. Those of all others are passed over.
    pub(crate) only: HartRange,
}

/// What was read for an [`Input`], with all that it owns.
#[derive(Drop)]
pub(crate) struct OwnedInput {
    pub(crate) program: Program,
    pub(crate) symbols: Option<Symbols>,
    pub(crate) bytes: Vec<u8>,
    pub(crate) only: HartRange,
}

impl OwnedInput {
    /// The same, lent.
    pub(crate) fn lent(&self) -> Input<'_, '_, '_>
        ensures { lent_in result ≡ owned_in self.now }
    {
        Input {
            program: &self.program,
            symbols: self.symbols.as_ref(),
            bytes: self.bytes.as_slice(),
            only: self.only,
        }
    }
}

/// What a subcommand is asked to read.
#[derive(Clone, Copy)]
pub(crate) struct InputArgs<'p, 'a> {
    /// The format of what is written. A subcommand that has no such argument writes text.
    pub(crate) format: Format,
    pub(crate) program: &'p ProgramArgs<'a>,
    /// The harts whose messages are wanted, where not all are.
    pub(crate) only: Option<&'a str>,
    /// The path of the symbols, if they are given.
    pub(crate) symbols: Option<&'a str>,
    /// The path of the capture.
    pub(crate) capture: &'a str,
}

/// Reads what is asked for. The format is looked at first, then the bases, the harts, the image with its further pieces,
/// the symbols and the capture.
pub(crate) fn read_input<'a, F: Files>(
    alloc: Global,
    files: &mut F,
    asked: &InputArgs<'_, 'a>,
) -> Result<OwnedInput, Fault<'a>>
    ensures early { IfSome (format_base_or_only_fault asked.now.format (base_number asked.now.program.now)
        (asked_harts asked.now.only)) (λ fault. result ≡ Err fault) }
    ensures found { IfOk result (λ input. IsCaptureInput (F.content files.old) asked.now.format asked.now.program.now
        asked.now.only asked.now.symbols asked.now.capture (Ok (owned_in input))) }
    ensures lacked { IfErr result (λ why. (why ≡ Fault.Memory) ⊎ IsCaptureInput (F.content files.old)
        asked.now.format asked.now.program.now asked.now.only asked.now.symbols asked.now.capture (Err why)) }
    ensures kept { F.content files.new ≡ F.content files.old }
{
    let base = asked_base(asked.format, asked.program)?;
    let only = harts_asked(asked.only)?;
    let program = program_of(alloc, files, base, asked.program)?;
    let symbols = symbols_of(alloc, files, asked.symbols)?;
    let bytes = content_of(files, asked.capture)?;
    Ok(OwnedInput {
        program,
        symbols,
        bytes,
        only,
    })
}
