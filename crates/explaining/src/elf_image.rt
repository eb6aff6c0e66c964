//! An image that is an ELF file in place of the raw bytes of a program.

ghost use Rattle.std.specs.Prelude.{◌≡◌, Some};
ghost use Rattle.rvclass.specs.Instruction.{instruction_of};
ghost use Rattle.explaining.specs.ElfImage.{begins_as_elf, elf_line};
ghost use Rattle.explaining.specs.steps.ShortWord.{is_short_word};

use rvclass::ProgramOver;
use std::fmt;

/// The line below that of an event, if the image begins as an ELF file does.
#[derive(Clone, Copy)]
pub(crate) struct ElfLine<'a>(pub(crate) &'a ProgramOver<'a>);

impl fmt::Display for ElfLine<'_> {
    ghost output = { λ text. Some (elf_line text.0.now) };

    fn fmt<W: fmt::Write>(&self, f: &mut fmt::Formatter<W>) -> fmt::Result {
        if begins_as_elf(self.0) {
            f.write_str(
                "  the image looks like an ELF file: give it the raw bytes (tools/image, or objcopy -O binary)\n",
            )
        } else {
            Ok(())
        }
    }
}

/// Whether the image begins as an ELF file does, at the lowest address of a piece.
fn begins_as_elf(program: &ProgramOver) -> bool
    ensures { result ≡ begins_as_elf program.now }
{
    let base = program.base();
    is_short_word(program, base, 0x457f) && is_short_word(program, base.saturating_add(2), 0x464c)
}

/// Whether an instruction of 2 bytes is at an address, with these bits.
fn is_short_word(program: &ProgramOver, addr: u64, code: u32) -> bool
    ensures { result ≡ is_short_word (instruction_of program.now addr) code }
{
    match program.instruction(addr) {
        Some(word) => word.length == 2 && word.code == code,
        None => false,
    }
}
