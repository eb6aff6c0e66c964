//! The arguments of the subcommands: how `clap` reads each, and what help says of it.

ghost use Rattle.cli.specs.Rules.{IsReadBy, file_rule, option_rule};
ghost use Rattle.cli.specs.steps.Subcommands.{argument_rule, reading_rule};

use clap::builder::ValueParser;
use clap::{Arg, ArgAction};
use command_inputs::{
    FEWEST_NUMBER_BITS, GREATEST_FIRST, LONGEST_BURST, LONGEST_PERIOD, MOST_IN_VIEW, MOST_MESSAGES,
    MOST_NUMBER_BITS, SHORTEST_PERIOD, SMALLEST_CAPACITY,
};
use message::{MOST_CAPACITY, MOST_HARTS};
use retire::MOST_LONG_ROWS;
use std::alloc::Global;

/// How an argument is read. Its name comes first, and then what help writes for its value.
#[derive(Clone, Copy)]
pub(crate) enum Reading {
    /// `--NAME`, which takes no value.
    Flag(&'static str),
    /// A file's path, an argument with no name that has to be given.
    File(&'static str),
    /// The paths of one file or more.
    Files(&'static str),
    /// `--NAME VALUE`, which has to be given.
    Required(&'static str, &'static str),
    /// `--NAME VALUE`, any number of times.
    Repeated(&'static str, &'static str),
    /// `--NAME VALUE`, which may be left out.
    Text(&'static str, &'static str),
    /// The same, with what it is where it is left out.
    TextOr(&'static str, &'static str, &'static str),
    /// `--NAME VALUE`, a number that this parser reads, which may be left out.
    Number(&'static str, &'static str, ValueParser<'static>),
    /// The same, with what it is where it is left out.
    NumberOr(&'static str, &'static str, ValueParser<'static>, &'static str),
}

/// An argument of a subcommand. Some are read alike, and help says something else of each.
#[derive(Clone, Copy)]
pub(crate) struct Argument {
    /// How it is read.
    pub(crate) reading: Reading,
    /// What help says of it.
    pub(crate) help: &'static str,
}

/// Harts, 0 to 1023.
const ANY_HART: ValueParser<'static> = ValueParser::Signed(0, GREATEST_FIRST as i64);

/// Counts of harts, 1 to 1024.
const COUNTS_OF_HARTS: ValueParser<'static> = ValueParser::Signed(1, MOST_HARTS as i64);

/// Periods, 1 to 65535.
const PERIODS: ValueParser<'static> = ValueParser::Signed(
    SHORTEST_PERIOD as i64,
    LONGEST_PERIOD as i64,
);

/// Capacities, 1 to 65536.
const CAPACITIES: ValueParser<'static> = ValueParser::Signed(
    SMALLEST_CAPACITY as i64,
    MOST_CAPACITY as i64,
);

/// Bursts, 1 to 65535.
const BURSTS: ValueParser<'static> = ValueParser::Signed(1, LONGEST_BURST as i64);

/// Counts of low bits, 4 to 32.
const COUNTS_OF_BITS: ValueParser<'static> = ValueParser::Signed(
    FEWEST_NUMBER_BITS as i64,
    MOST_NUMBER_BITS as i64,
);

/// Seeds, any numbers of 64 bits.
const SEEDS: ValueParser<'static> = ValueParser::Unsigned(0, u64::MAX);

/// Counts of rows, 1 to 4294967295.
const COUNTS_OF_ROWS: ValueParser<'static> = ValueParser::Unsigned(1, MOST_LONG_ROWS as u64);

/// Windows, 1 to 16777216.
const WINDOWS: ValueParser<'static> = ValueParser::Unsigned(1, MOST_IN_VIEW);

/// Counts of messages, 1 to 2^40.
const COUNTS_OF_MESSAGES: ValueParser<'static> = ValueParser::Unsigned(1, MOST_MESSAGES);

// How several arguments are read.
const PROGRESS_READING: Reading = Reading::Flag("progress");

const HARTS_READING: Reading = Reading::Number("harts", "N", COUNTS_OF_HARTS);

const EXPLAIN_READING: Reading = Reading::Flag("explain");

const FULL_READING: Reading = Reading::Flag("full");

const V1_READING: Reading = Reading::Flag("v1");

const PERIOD_READING: Reading = Reading::NumberOr("period", "N", PERIODS, "1024");

const SUMMARY_READING: Reading = Reading::Flag("summary");

const SYMBOLS_READING: Reading = Reading::Text("symbols", "FILE");

// The arguments of all subcommands.
pub(crate) const ALSO: Argument = Argument {
    reading: Reading::Repeated("also", "B2=FILE"),
    help: "Further piece of the image, any number of times: address in hexadecimal, =, file",
};

pub(crate) const BASE: Argument = Argument {
    reading: Reading::Required("base", "B"),
    help: "Address of the image's first byte, in hexadecimal",
};

pub(crate) const BURST: Argument = Argument {
    reading: Reading::Number("burst", "N", BURSTS),
    help: "How many messages of one hart come one after another at most, 1 to 65535; without it, 16",
};

pub(crate) const CAPACITY: Argument = Argument {
    reading: Reading::NumberOr("capacity", "N", CAPACITIES, "16"),
    help: "How many messages the funnel holds, 1 to 65536",
};

pub(crate) const CAPTURE: Argument = Argument {
    reading: Reading::File("CAPTURE"),
    help: "File of trace messages",
};

pub(crate) const CAPTURE_PROGRESS: Argument = Argument {
    reading: PROGRESS_READING,
    help: "Show how far the capture is worked through, where standard error is a terminal",
};

pub(crate) const COUNTED_HARTS: Argument = Argument {
    reading: HARTS_READING,
    help: "How many harts the header counts, 1 to 1024, with --v1 to 64; without it, those up to the highest",
};

pub(crate) const EVENTS: Argument = Argument {
    reading: Reading::Number("events", "N", COUNTS_OF_ROWS),
    help: "How many rows the log has, 1 to 4294967295; without it, 1000000",
};

pub(crate) const EXPLAIN: Argument = Argument {
    reading: EXPLAIN_READING,
    help: "Print below an illegal row what is there and what may follow",
};

pub(crate) const EXPLAIN_ROW: Argument = Argument {
    reading: EXPLAIN_READING,
    help: "Print the up to three rows before the first that differs",
};

pub(crate) const EXPLAIN_SYMBOLS: Argument = Argument {
    reading: SYMBOLS_READING,
    help: "With --explain, file of the program's symbols, as `nm` prints them",
};

pub(crate) const FIRST: Argument = Argument {
    reading: Reading::Number("first", "H", ANY_HART),
    help: "The hart of the first log, with --of, 0 to 1023; without it, 0",
};

pub(crate) const FORMAT: Argument = Argument {
    reading: Reading::TextOr("format", "FORMAT", "text"),
    help: "What is printed: text, or csv, a table",
};

pub(crate) const FULL: Argument = Argument {
    reading: FULL_READING,
    help: "Report addresses in full, not as differences",
};

pub(crate) const GIVEN_BASE: Argument = Argument {
    reading: Reading::TextOr("base", "B", "80000000"),
    help: "Address of the image's first byte, in hexadecimal",
};

pub(crate) const GIVEN_PERIOD: Argument = Argument {
    reading: Reading::Number("period", "N", PERIODS),
    help: "Retirements from one periodic synchronisation to the next, 1 to 65535; without it, 1024",
};

pub(crate) const HART: Argument = Argument {
    reading: Reading::Number("hart", "H", ANY_HART),
    help: "The hart whose log is made, 0 to 1023; without it, 0",
};

pub(crate) const HARTS: Argument = Argument {
    reading: Reading::NumberOr("harts", "N", COUNTS_OF_HARTS, "1"),
    help: "How many harts a capture of version 1 may have, 1 to 1024",
};

pub(crate) const HEADED_FULL: Argument = Argument {
    reading: FULL_READING,
    help: "The header says that packets report addresses in full, not as differences",
};

pub(crate) const HEADED_PERIOD: Argument = Argument {
    reading: PERIOD_READING,
    help: "The period that the header has, 1 to 65535",
};

pub(crate) const HEADLESS: Argument = Argument {
    reading: V1_READING,
    help: "Write a capture of version 1, which has no header, of at most 64 harts",
};

pub(crate) const HEX: Argument = Argument {
    reading: Reading::Flag("hex"),
    help: "Write a line of hexadecimal for each message",
};

pub(crate) const IMAGE: Argument = Argument {
    reading: Reading::File("IMAGE"),
    help: "File of the program's bytes",
};

pub(crate) const LINES: Argument = Argument {
    reading: Reading::File("LINES"),
    help: "File of lines, each of one message: HART NUMBER BYTES, or HART BYTES",
};

pub(crate) const LISTED_HARTS: Argument = Argument {
    reading: HARTS_READING,
    help: "How many harts a capture of version 1 may have, 1 to 1024; without it, 1, with --salvage those of its messages",
};

pub(crate) const LIVE: Argument = Argument {
    reading: Reading::Flag("live"),
    help: "Read both files side by side as they come, and print each line as soon as it is decided",
};

pub(crate) const LOGS: Argument = Argument {
    reading: Reading::Files("LOG"),
    help: "Logs, each of one hart, as CSV",
};

pub(crate) const LONG: Argument = Argument {
    reading: Reading::Flag("long"),
    help: "Take logs of up to 4294967295 rows, not 16777216",
};

pub(crate) const LOSSY: Argument = Argument {
    reading: Reading::Flag("lossy"),
    help: "Go on where messages are missing, and print how many are",
};

pub(crate) const MESSAGES: Argument = Argument {
    reading: Reading::Number("messages", "N", COUNTS_OF_MESSAGES),
    help: "How many messages the capture has before those that close the traces, 1 to 1099511627776; without it, 1000000",
};

pub(crate) const MIX: Argument = Argument {
    reading: Reading::TextOr("mix", "MIX", "mixed"),
    help: "What the program does: mixed, branches, jumps, traps, longest or straight",
};

pub(crate) const MIXED: Argument = Argument {
    reading: Reading::Number("mixed", "S", SEEDS),
    help: "Mix the messages of the logs, by a number from 0 to 18446744073709551615; without it, one log after another",
};

pub(crate) const MIXED_HARTS: Argument = Argument {
    reading: HARTS_READING,
    help: "How many harts the capture has, 1 to 1024, with --v1 to 64; without it, 1",
};

pub(crate) const NUMBER_BITS: Argument = Argument {
    reading: Reading::Number("number-bits", "W", COUNTS_OF_BITS),
    help: "NUMBER is the lowest W bits of a message's number, W 4 to 32; without it, the number itself",
};

pub(crate) const OF: Argument = Argument {
    reading: Reading::Number("of", "N", COUNTS_OF_HARTS),
    help: "Of how many harts the logs are a part, 1 to 1024, with --v1 to 64; without it, the count of logs",
};

pub(crate) const ONLY: Argument = Argument {
    reading: Reading::Text("only", "A-B"),
    help: "Look at harts A to B alone, or at hart A, 0 to 1023; without it, at all",
};

pub(crate) const PACKETS: Argument = Argument {
    reading: Reading::Flag("packets"),
    help: "Compare messages by the packets that they unpack to, not by their bytes",
};

pub(crate) const PERIOD: Argument = Argument {
    reading: PERIOD_READING,
    help: "Retirements from one periodic synchronisation to the next, 1 to 65535",
};

pub(crate) const PROGRESS: Argument = Argument {
    reading: PROGRESS_READING,
    help: "Show how far the logs are read, where standard error is a terminal",
};

pub(crate) const RECEIVED: Argument = Argument {
    reading: Reading::File("RECEIVED"),
    help: "File of the trace messages that came",
};

pub(crate) const ROWS: Argument = Argument {
    reading: Reading::Flag("rows"),
    help: "Print which rows of its hart each message settles",
};

pub(crate) const SALVAGED: Argument = Argument {
    reading: Reading::Flag("salvage"),
    help: "List every message that is found, and what `salvage` does with it",
};

pub(crate) const SALVAGED_HARTS: Argument = Argument {
    reading: HARTS_READING,
    help: "How many harts a capture with no valid header has, 1 to 1024; without it, those of its messages",
};

pub(crate) const SCHEDULE: Argument = Argument {
    reading: Reading::File("SCHEDULE"),
    help: "File of the turns: hart numbers, and `c` for taking a message",
};

pub(crate) const SEARCH: Argument = Argument {
    reading: Reading::Flag("search"),
    help: "Go on where bytes are no message, and print how many are passed over",
};

pub(crate) const SEED: Argument = Argument {
    reading: Reading::NumberOr("seed", "S", SEEDS, "1"),
    help: "The number that decides all draws, 0 to 18446744073709551615",
};

pub(crate) const SENT: Argument = Argument {
    reading: Reading::File("SENT"),
    help: "File of all trace messages that were sent",
};

pub(crate) const SKIP: Argument = Argument {
    reading: Reading::Flag("skip"),
    help: "With --harts or --v1, pass over lines that have a fault, and print how many they are",
};

pub(crate) const SUMMARY: Argument = Argument {
    reading: SUMMARY_READING,
    help: "Leave out the lines of single messages, of bytes and of lost numbers",
};

pub(crate) const SYMBOLS: Argument = Argument {
    reading: SYMBOLS_READING,
    help: "File of the program's symbols, as `nm` prints them",
};

pub(crate) const UNNUMBERED: Argument = Argument {
    reading: Reading::Flag("unnumbered"),
    help: "Do not look at the numbers of RECEIVED: align what came with what was sent",
};

pub(crate) const VERSION_ONE: Argument = Argument {
    reading: V1_READING,
    help: "Write a capture of version 1, which has no header, of at most 64 logs",
};

pub(crate) const WHAT: Argument = Argument {
    reading: Reading::File("WHAT"),
    help: "What is made: image, log or capture",
};

pub(crate) const WINDOW: Argument = Argument {
    reading: Reading::Number("window", "N", WINDOWS),
    help: "With --live, how many messages before and after the front are looked at, 1 to 16777216; without it, 65536",
};

pub(crate) const WITHOUT_LOGS: Argument = Argument {
    reading: SUMMARY_READING,
    help: "Leave out the texts of the logs",
};

/// The argument, with its help.
pub(crate) fn arg_of<'a>(alloc: Global, argument: &Argument) -> Arg<'a>
    ensures { IsReadBy (argument_rule argument.now) result }
{
    read_as(alloc, argument.reading).help(argument.help)
}

/// The argument that is read so.
fn read_as<'a>(alloc: Global, reading: Reading) -> Arg<'a>
    ensures { IsReadBy (reading_rule reading) result }
{
    match reading {
        Reading::Flag(name) => Arg::new(alloc, name).long(name).action(ArgAction::SetTrue),
        Reading::File(name) => file(alloc, name),
        Reading::Files(name) => file(alloc, name).action(ArgAction::Append).num_args(1..),
        Reading::Required(name, value) => option(alloc, name, value).required(true),
        Reading::Repeated(name, value) => option(alloc, name, value).action(ArgAction::Append),
        Reading::Text(name, value) => option(alloc, name, value),
        Reading::TextOr(name, value, text) => option(alloc, name, value).default_value(text),
        Reading::Number(name, value, parser) => option(alloc, name, value).value_parser(parser),
        Reading::NumberOr(name, value, parser, text) => option(alloc, name, value)
            .default_value(text)
            .value_parser(parser),
    }
}

/// A file's path, an argument with no name that has to be given.
fn file<'a>(alloc: Global, name: &'a str) -> Arg<'a>
    ensures { IsReadBy (file_rule name.entry.now) result }
{
    Arg::new(alloc, name).required(true).action(ArgAction::Set)
}

/// `--NAME VALUE`, which may be left out.
fn option<'a>(alloc: Global, name: &'a str, value: &'a str) -> Arg<'a>
    ensures { IsReadBy (option_rule name.entry.now) result }
{
    Arg::new(alloc, name)
        .long(name)
        .value_name(value)
        .action(ArgAction::Set)
}
