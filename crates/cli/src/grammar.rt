//! The program's subcommands.

ghost use Rattle.std.specs.Prelude.{IfOk};
ghost use Rattle.std.specs.List.{fold};
ghost use Rattle.cli.specs.Grammar.{HasGrammar, bare_program, program_app};
ghost use Rattle.cli.specs.steps.Subcommands.{app_of_subcommand, with_row};

use crate::help::{
    AUDIT_EXAMPLE, BENCH_EXAMPLE, CAPTURE_EXAMPLE, CHECK_EXAMPLE, COMPARE_EXAMPLE, DECODE_EXAMPLE,
    DUMP_EXAMPLE, ENCODE_EXAMPLE, EXIT_STATUSES, GENERATE_EXAMPLE, LIST_EXAMPLE, MEASURE_EXAMPLE,
    REPLAY_EXAMPLE, SALVAGE_EXAMPLE, VERSION,
};
use crate::rules::{
    ALSO, Argument, BASE, BURST, CAPACITY, CAPTURE, CAPTURE_PROGRESS, COUNTED_HARTS, EVENTS,
    EXPLAIN, EXPLAIN_ROW, EXPLAIN_SYMBOLS, FIRST, FORMAT, FULL, GIVEN_BASE, GIVEN_PERIOD, HART,
    HARTS, HEADED_FULL, HEADED_PERIOD, HEADLESS, HEX, IMAGE, LINES, LISTED_HARTS, LIVE, LOGS, LONG,
    LOSSY, MESSAGES, MIX, MIXED, MIXED_HARTS, NUMBER_BITS, OF, ONLY, PACKETS, PERIOD, PROGRESS,
    RECEIVED, ROWS, SALVAGED, SALVAGED_HARTS, SCHEDULE, SEARCH, SEED, SENT, SKIP, SUMMARY, SYMBOLS,
    UNNUMBERED, VERSION_ONE, WHAT, WINDOW, WITHOUT_LOGS, arg_of,
};
use clap::Command;
use std::alloc::{AllocError, Global};

/// A subcommand, and what help says of it. Its help ends with the example.
pub(crate) struct Subcommand {
    pub(crate) name: &'static str,
    pub(crate) about: &'static str,
    pub(crate) example: &'static str,
    /// In the order in which help has them.
    pub(crate) arguments: &'static [Argument],
}

/// The program's subcommands, in the order in which help lists them.
const SUBCOMMANDS: [Subcommand; 13] = [
    Subcommand {
        name: "check",
        about: "Check whether logs are legal",
        example: CHECK_EXAMPLE,
        arguments: &[
            BASE,
            ALSO,
            EXPLAIN,
            EXPLAIN_SYMBOLS,
            LONG,
            PROGRESS,
            IMAGE,
            LOGS,
        ],
    },
    Subcommand {
        name: "encode",
        about: "Write the trace messages of logs",
        example: ENCODE_EXAMPLE,
        arguments: &[
            BASE,
            ALSO,
            PERIOD,
            FULL,
            VERSION_ONE,
            HEX,
            MIXED,
            FIRST,
            OF,
            LONG,
            PROGRESS,
            IMAGE,
            LOGS,
        ],
    },
    Subcommand {
        name: "dump",
        about: "Write the messages of a capture as text",
        example: DUMP_EXAMPLE,
        arguments: &[SEARCH, ONLY, SYMBOLS, CAPTURE_PROGRESS, CAPTURE],
    },
    Subcommand {
        name: "decode",
        about: "Write the logs that the messages of a capture describe",
        example: DECODE_EXAMPLE,
        arguments: &[
            BASE,
            ALSO,
            HARTS,
            ONLY,
            LOSSY,
            CAPTURE_PROGRESS,
            IMAGE,
            CAPTURE,
        ],
    },
    Subcommand {
        name: "replay",
        about: "Send logs through the funnel as a schedule says, and report what is decoded",
        example: REPLAY_EXAMPLE,
        arguments: &[
            BASE, ALSO, PERIOD, FULL, CAPACITY, PROGRESS, IMAGE, SCHEDULE, LOGS,
        ],
    },
    Subcommand {
        name: "bench",
        about: "Send logs through the funnel, each from a thread of its own, and report what is decoded",
        example: BENCH_EXAMPLE,
        arguments: &[BASE, ALSO, PERIOD, FULL, CAPACITY, PROGRESS, IMAGE, LOGS],
    },
    Subcommand {
        name: "audit",
        about: "Compare a capture that came with the one that was sent, message by message",
        example: AUDIT_EXAMPLE,
        arguments: &[
            PACKETS,
            UNNUMBERED,
            LIVE,
            WINDOW,
            ONLY,
            SUMMARY,
            FORMAT,
            CAPTURE_PROGRESS,
            SENT,
            RECEIVED,
        ],
    },
    Subcommand {
        name: "measure",
        about: "Count the packets and bytes that logs take, as CSV",
        example: MEASURE_EXAMPLE,
        arguments: &[BASE, ALSO, PERIOD, FULL, LONG, PROGRESS, IMAGE, LOGS],
    },
    Subcommand {
        name: "list",
        about: "List what each message of a capture says and settles",
        example: LIST_EXAMPLE,
        arguments: &[
            BASE,
            ALSO,
            LISTED_HARTS,
            ONLY,
            SYMBOLS,
            ROWS,
            SALVAGED,
            FORMAT,
            CAPTURE_PROGRESS,
            IMAGE,
            CAPTURE,
        ],
    },
    Subcommand {
        name: "salvage",
        about: "Write what is left of the log of each hart after any damage to a capture",
        example: SALVAGE_EXAMPLE,
        arguments: &[
            BASE,
            ALSO,
            SALVAGED_HARTS,
            ONLY,
            SYMBOLS,
            WITHOUT_LOGS,
            FORMAT,
            CAPTURE_PROGRESS,
            IMAGE,
            CAPTURE,
        ],
    },
    Subcommand {
        name: "capture",
        about: "Write the capture of lines, each of one message, as `encode --hex` prints them",
        example: CAPTURE_EXAMPLE,
        arguments: &[
            HEADLESS,
            HEADED_FULL,
            HEADED_PERIOD,
            COUNTED_HARTS,
            NUMBER_BITS,
            SKIP,
            LINES,
        ],
    },
    Subcommand {
        name: "compare",
        about: "Say whether a capture describes just these logs",
        example: COMPARE_EXAMPLE,
        arguments: &[
            BASE,
            ALSO,
            HARTS,
            ONLY,
            EXPLAIN_ROW,
            SYMBOLS,
            LONG,
            PROGRESS,
            IMAGE,
            CAPTURE,
            LOGS,
        ],
    },
    Subcommand {
        name: "generate",
        about: "Make an image, a log or a capture from a seed, for a path without a core",
        example: GENERATE_EXAMPLE,
        arguments: &[
            WHAT,
            SEED,
            MIX,
            GIVEN_BASE,
            HART,
            EVENTS,
            MIXED_HARTS,
            MESSAGES,
            GIVEN_PERIOD,
            FULL,
            HEADLESS,
            BURST,
        ],
    },
];

/// A subcommand with its arguments.
fn command_of<'a>(alloc: Global, subcommand: &Subcommand) -> Result<Command<'a>, AllocError>
    ensures { IfOk result (HasGrammar (app_of_subcommand subcommand.now)) }
{
    let mut command = Command::new(alloc, subcommand.name)
        .about(subcommand.about)
        .after_help(subcommand.example);
    for argument in subcommand.arguments {
        command = command.arg(arg_of(alloc, argument))?;
    }
    Ok(command)
}

/// The program with the subcommands of a table.
fn with_subcommands<'a>(
    alloc: Global,
    mut program: Command<'a>,
    table: &[Subcommand],
) -> Result<Command<'a>, AllocError>
    requires { HasGrammar bare_program program }
    ensures { IfOk result (HasGrammar (fold with_row bare_program table.now)) }
{
    for subcommand in table {
        let command = command_of(alloc, subcommand)?;
        program = program.subcommand(command)?;
    }
    Ok(program)
}

/// The program without its subcommands.
fn bare<'a>(alloc: Global) -> Command<'a>
    ensures { HasGrammar bare_program result }
{
    Command::new(alloc, "tracebench")
        .about("A bench for RISC-V instruction trace (E-Trace)")
        .version(VERSION)
        .after_help(EXIT_STATUSES)
        .subcommand_required(true)
}

/// The program with all its subcommands.
pub(crate) fn program<'a>(alloc: Global) -> Result<Command<'a>, AllocError>
    ensures { IfOk result (HasGrammar program_app) }
{
    with_subcommands(alloc, bare(alloc), &SUBCOMMANDS)
}
