//! The instructions of a program: which addresses have one, and the class of each, whether it goes on to the next
//! instruction, jumps, branches, jumps to an address that a register holds, returns from a trap or does not retire.
//! Instructions are those of RV64IMAC, by the RISC-V Unprivileged ISA and the Privileged Architecture.
//!
//! A [`Program`] is read from a [`Memory`]: the bytes of one or several pieces of a chip's memories, which do not
//! overlap, and what is at each address.
#![tactic(auto)]

mod adding;
mod among;
mod bits;
mod class;
mod fault;
mod fetched;
mod fetching;
mod held;
mod instruction;
mod laws;
mod memory;
mod offset;
mod part;
mod piece_fault;
mod program;
mod search;
mod slices;
mod word16;
mod word32;

pub use class::{Class, Return};
pub use fault::ProgramFault;
pub use fetched::Fetched;
pub use instruction::Instruction;
pub use laws::{
    added_pieces_leave_the_others, cut_pieces_act_as_one, cut_pieces_have_the_instructions_of_one,
    cut_pieces_stay_legal, even_addresses_have_places, one_piece_is_an_image,
    pieces_are_refused_for_the_first_reason, pieces_overlap_at_an_address, the_bytes_decide,
    the_bytes_decide_the_instructions, the_order_of_adding_is_free,
};
pub use memory::Memory;
pub use piece_fault::PieceFault;
pub use program::{Program, ProgramOver};
