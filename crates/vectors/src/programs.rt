//! Cases of memories (`memory`) and of the instructions in them (`rvclass`).

use cases::{Case, piece_of};
use rvclass::{Class, Fetched, Memory, PieceFault, Program, ProgramOver, Return};

/// A piece: its base and its bytes.
type Piece = (u64, Vec<u8>);

/// Whether a memory has its bytes itself.
#[derive(Clone, Copy)]
enum Held {
    Owned,
    Borrowed,
}

/// Pieces, with a `+` between two of them.
fn pieces_of(case: &Case, text: &str) -> Vec<Piece> {
    let mut pieces = Vec::new(case.alloc);
    for words in text.split('+') {
        let piece = piece_of(case, words);
        case.push(&mut pieces, piece);
    }
    pieces
}

/// Appends why a piece is refused.
fn put_refusal(case: &Case, added: Result<(), PieceFault>) {
    if let Err(fault) = added {
        case.put_word(fault);
        case.put(";");
    }
}

/// Appends a base and how many bytes there are.
fn put_extent(case: &Case, base: u64, count: usize) {
    case.put_word("");
    case.put_hex(base);
    case.put_filled("+#", &[count as u64]);
}

/// Appends what stands at addresses: the byte, and what is fetched.
fn put_standing(case: &Case, memory: &Memory<'_>, addrs: &str) {
    let mut near = 0;
    for digits in addrs.split_whitespace() {
        let addr = case.hex(digits);
        case.put(" ");
        match memory.byte_at(addr) {
            Some(byte) => case.put_digits(&[byte]),
            None => case.put("-"),
        }
        case.put("/");
        let fetched = memory.fetch(addr);
        if memory.fetch_near(&mut near, addr) != fetched {
            case.put("near/");
        }
        match fetched {
            Fetched::Word(word) => case.put_digits(&word.to_be_bytes()),
            Fetched::Half(half) => {
                let [_, _, high, low] = half.to_be_bytes();
                case.put_digits(&[high, low]);
            }
            Fetched::Nothing => case.put("-"),
        }
    }
}

/// Appends what is said of the memory of pieces, each of which is added to those before it: why one is refused, the base and
/// how many bytes there are of all those that are not and of each, and what stands at addresses.
fn put_memory(case: &Case, pieces: &[Piece], addrs: &str, held: Held) {
    let Some(((base, bytes), others)) = pieces.split_first() else {
        return case.unread();
    };
    let made = match held {
        Held::Owned => Memory::new(*base, case.copied(bytes.as_slice())),
        Held::Borrowed => Memory::borrowed(*base, bytes.as_slice()),
    };
    let mut memory = match made {
        Ok(memory) => memory,
        Err(fault) => return put_refusal(case, Err(fault)),
    };
    for (base, bytes) in others {
        let added = match held {
            Held::Owned => memory.add(case.alloc, *base, case.copied(bytes.as_slice())),
            Held::Borrowed => memory.add_borrowed(case.alloc, *base, bytes.as_slice()),
        };
        put_refusal(case, added);
    }
    put_extent(case, memory.base(), memory.byte_count());
    case.put(":");
    for number in 0..memory.piece_count().saturating_add(1) {
        if let Some((base, count)) = memory.extent(number) {
            put_extent(case, base, count);
        }
    }
    put_standing(case, &memory, addrs);
}

/// `memory PIECES`, or `memory PIECES ? ADDRS`: the memory of pieces, and what stands at addresses, whether it has its
/// bytes itself or not.
pub(crate) fn memory_case(case: &Case) {
    let text = case.part('?');
    let addrs = case.text();
    let pieces = pieces_of(case, text);
    put_memory(case, pieces.as_slice(), addrs, Held::Owned);
    case.end_first_way();
    put_memory(case, pieces.as_slice(), addrs, Held::Borrowed);
    case.end_way("borrowed");
}

/// Appends how control goes on from an instruction.
fn put_class(case: &Case, class: Class) {
    let (name, to) = match class {
        Class::Plain => ("plain", None),
        Class::Jump(to) => ("jump:", Some(to)),
        Class::Branch(to) => ("branch:", Some(to)),
        Class::Uninferable => ("uninferable", None),
        Class::TrapReturn(Return::Mret) => ("mret", None),
        Class::TrapReturn(Return::Sret) => ("sret", None),
        Class::NotRetirable => ("none", None),
    };
    case.put(name);
    if let Some(to) = to {
        case.put_hex(to);
    }
}

/// Appends the instruction at an address: its bits, with as many digits as it has, and how control goes on from it.
fn put_instruction(case: &Case, program: &ProgramOver<'_>, near: &mut usize, addr: u64) {
    let found = program.at(addr);
    if program.at_near(near, addr) != found {
        case.put_word("near");
    }
    let Some(one) = program.instruction(addr) else {
        return case.put_word(if found.is_none() { "-" } else { "class" });
    };
    case.put_word("");
    match (one.length, one.code.to_be_bytes()) {
        (2, [_, _, high, low]) => case.put_digits(&[high, low]),
        (_, all) => case.put_digits(&all),
    }
    case.put("=");
    if found != Some((one.class, one.length)) {
        case.put("other ");
    }
    put_class(case, one.class);
}

/// Appends the extents of a program, and the instructions at addresses.
fn put_program(case: &Case, program: &ProgramOver<'_>, addrs: &str) {
    put_extent(case, program.base(), program.byte_count());
    case.put(":");
    for number in 0..program.piece_count().saturating_add(1) {
        if let Some((base, count)) = program.extent(number) {
            put_extent(case, base, count);
        }
    }
    let mut near = 0;
    for digits in addrs.split_whitespace() {
        let addr = case.hex(digits);
        put_instruction(case, program, &mut near, addr);
    }
}

/// The program that has the bytes of pieces itself, if the first of them makes one. Appends why one is refused.
fn program_of(case: &Case, pieces: &[Piece]) -> Option<Program> {
    let ((base, bytes), others) = pieces.split_first()?;
    let mut program = match Program::new(*base, case.copied(bytes.as_slice())) {
        Ok(program) => program,
        Err(fault) => {
            case.put_word(fault);
            return None;
        }
    };
    for (base, bytes) in others {
        let added = program.add(case.alloc, *base, case.copied(bytes.as_slice()));
        put_refusal(case, added);
    }
    Some(program)
}

/// Appends what is said of the program of pieces that it borrows.
fn put_borrowed(case: &Case, pieces: &[Piece], addrs: &str) {
    let Some(((base, bytes), others)) = pieces.split_first() else {
        return case.unread();
    };
    let mut program = match ProgramOver::borrowed(*base, bytes.as_slice()) {
        Ok(program) => program,
        Err(fault) => return case.put_word(fault),
    };
    for (base, bytes) in others {
        let added = program.add_borrowed(case.alloc, *base, bytes.as_slice());
        put_refusal(case, added);
    }
    put_program(case, &program, addrs);
}

/// `program PIECES`: the program of the cases after it. `program PIECES ? ADDRS`: also its pieces and the instructions at
/// addresses, whether it has its bytes itself or not. Why a piece is refused comes first.
pub(crate) fn program_case(case: &Case) -> Option<Program> {
    let only_sets = !case.text().contains('?');
    let text = case.part('?');
    let addrs = case.text();
    let pieces = pieces_of(case, text);
    let made = program_of(case, pieces.as_slice());
    if only_sets {
        if made.is_some() {
            case.sets();
        }
        return made;
    }
    if let Some(program) = &made {
        put_program(case, program, addrs);
    }
    case.end_first_way();
    put_borrowed(case, pieces.as_slice(), addrs);
    case.end_way("borrowed");
    made
}
