//! What the arguments of a command line ask for.

ghost use Rattle.std.specs.Prelude.{◌≡◌, ◌≤◌, ◌⊎◌, IfErr, IfOk, [], codes, map, option_map, string_bytes, unwrap_or};
ghost use Rattle.clap.specs.Words.{FailsBy, fault_of, first_of, first_value, found_of, kind_of, one_of, rows_of};
ghost use Rattle.clap.specs.declared.error.kind.ErrorKind.TheVariants as kind;
ghost use Rattle.cli.specs.Asking.{AreGivenBits, AreRefused, Asks, AsksProgram, IsCapacity, IsFlag, IsFormat};
ghost use Rattle.cli.specs.Asking.{IsGivenFirst, IsGivenSeed, IsGivenUpTo, IsHarts, IsMode, IsPeriod, IsProduct, IsSeed};
ghost use Rattle.cli.specs.Asking.{IsVersion, WordsAsk, text_of, texts_of};
ghost use Rattle.cli.specs.Grammar.{IsSubcommand, program_app};
ghost use Rattle.command_inputs.specs.Limits.{IsWithinLimits};

use crate::grammar::program;
use clap::{ArgMatches, Error};
use command_inputs::{
    Asked, Audit, Bench, Capture, Check, Compare, Decode, Dump, Encode, FEWEST_NUMBER_BITS, Format,
    GREATEST_FIRST, Generate, LONGEST_BURST, LONGEST_PERIOD, Listing, MOST_IN_VIEW, MOST_MESSAGES,
    MOST_NUMBER_BITS, Measure, Product, ProgramArgs, Replay, SHORTEST_PERIOD, SMALLEST_CAPACITY,
    Salvage,
};
use message::{MOST_CAPACITY, MOST_HARTS, Version};
use payload::Mode;
use retire::MOST_LONG_ROWS;
use std::alloc::{AllocError, Global};
use stimulus::Mix;

/// The period where the arguments give none.
const DEFAULT_PERIOD: u16 = 1024;

/// The capacity where the arguments give none.
const DEFAULT_CAPACITY: u32 = 16;

/// The seed where the arguments give none.
const DEFAULT_SEED: u64 = 1;

/// The count of harts where the arguments give none.
const DEFAULT_HARTS: u16 = 1;

/// The value of an argument. A parse that succeeds has one where the argument is required.
fn text<'a>(given: &ArgMatches<'a>, id: &str) -> &'a str
    ensures { result.now ≡ text_of id.now (rows_of (found_of given.now)) }
{
    text_found(given, id)
}

/// The value that was found of an argument, or none.
fn text_found<'a>(given: &ArgMatches<'a>, id: &str) -> &'a str
    ensures { result.now ≡ unwrap_or (first_value (found_of given.now) id.now) [] }
{
    given.get_str(id).unwrap_or("")
}

/// The value of an argument that may be left out.
fn given_text<'a>(given: &ArgMatches<'a>, id: &str) -> Option<&'a str>
    ensures { option_map (λ text. text.now) result ≡ first_of id.now (rows_of (found_of given.now)) }
{
    given.get_str(id)
}

/// The values of an argument. A parse that succeeds has at least one where the argument is required.
fn texts<'a>(alloc: Global, given: &ArgMatches<'a>, id: &str) -> Result<Vec<&'a str>, AllocError>
    ensures { IfOk result (λ values.
        map (λ value. value.now) values.items ≡ texts_of id.now (rows_of (found_of given.now))) }
{
    match given.get_strs(id) {
        Some(values) => Vec::from_slice(alloc, values),
        None => Ok(Vec::new(alloc)),
    }
}

/// The period, 1 to 65535 by the range that `clap` keeps.
fn period<'a>(given: &ArgMatches<'a>) -> u16
    ensures { IsPeriod (one_of (codes "period") (rows_of (found_of given.now))) result }
{
    given
        .get_one::<u16>("period")
        .unwrap_or(DEFAULT_PERIOD)
        .max(SHORTEST_PERIOD)
}

/// Whether a flag is set.
fn flag<'a>(given: &ArgMatches<'a>, id: &str) -> bool
    ensures { IsFlag (one_of id.now (rows_of (found_of given.now))) result }
{
    given.get_flag(id)
}

/// The program that was asked for.
fn program_args<'a>(alloc: Global, given: &ArgMatches<'a>) -> Result<ProgramArgs<'a>, AllocError>
    ensures { IfOk result (AsksProgram (rows_of (found_of given.now))) }
{
    Ok(ProgramArgs {
        base: text(given, "base"),
        also: texts(alloc, given, "also")?,
        image: text(given, "IMAGE"),
    })
}

/// What was asked of `check`.
fn check_asked<'a>(alloc: Global, given: &ArgMatches<'a>) -> Result<Asked<'a>, AllocError>
    ensures { IfOk result (Asks (codes "check") (rows_of (found_of given.now))) }
{
    Ok(Asked::Check(Check {
        program: program_args(alloc, given)?,
        explain: flag(given, "explain"),
        symbols: given_text(given, "symbols"),
        long: flag(given, "long"),
        progress: flag(given, "progress"),
        logs: texts(alloc, given, "LOG")?,
    }))
}

/// The mode, which is differential where the arguments do not ask for full addresses.
fn mode<'a>(given: &ArgMatches<'a>) -> Mode
    ensures { IsMode (one_of (codes "full") (rows_of (found_of given.now))) result }
{
    if flag(given, "full") {
        Mode::Full
    } else {
        Mode::Differential
    }
}

/// The version, which is the second where the arguments do not ask for the first.
fn version<'a>(given: &ArgMatches<'a>) -> Version
    ensures { IsVersion (one_of (codes "v1") (rows_of (found_of given.now))) result }
{
    if flag(given, "v1") {
        Version::One
    } else {
        Version::Two
    }
}

/// What was asked of `encode`.
fn encode_asked<'a>(alloc: Global, given: &ArgMatches<'a>) -> Result<Asked<'a>, AllocError>
    ensures { IfOk result (Asks (codes "encode") (rows_of (found_of given.now))) }
{
    Ok(Asked::Encode(Encode {
        program: program_args(alloc, given)?,
        period: period(given),
        mode: mode(given),
        version: version(given),
        hex: flag(given, "hex"),
        mixed: given_seed(given, "mixed"),
        first: given_first(given, "first"),
        of: given_up_to(given, "of", MOST_HARTS),
        long: flag(given, "long"),
        progress: flag(given, "progress"),
        logs: texts(alloc, given, "LOG")?,
    }))
}

/// What was asked of `dump`.
fn dump_asked<'a>(given: &ArgMatches<'a>) -> Asked<'a>
    ensures { Asks (codes "dump") (rows_of (found_of given.now)) result }
{
    Asked::Dump(Dump {
        search: flag(given, "search"),
        only: given_text(given, "only"),
        symbols: given_text(given, "symbols"),
        progress: flag(given, "progress"),
        capture: text(given, "CAPTURE"),
    })
}

/// The count of harts, 1 to 1024 by the range that `clap` keeps.
fn harts<'a>(given: &ArgMatches<'a>) -> u16
    ensures { IsHarts (one_of (codes "harts") (rows_of (found_of given.now))) result }
{
    given
        .get_one::<u16>("harts")
        .unwrap_or(DEFAULT_HARTS)
        .clamp(1, MOST_HARTS)
}

/// A count, where this argument is given, 1 to `most` by the range that `clap` keeps.
fn given_up_to<'a>(given: &ArgMatches<'a>, id: &str, most: u16) -> Option<u16>
    requires { 1 ≤ most }
    ensures { IsGivenUpTo most (one_of id.now (rows_of (found_of given.now))) result }
{
    match given.get_one::<u16>(id) {
        Some(count) => Some(count.clamp(1, most)),
        None => None,
    }
}

/// The same of a count of 64 bits.
fn given_long<'a>(given: &ArgMatches<'a>, id: &str, most: u64) -> Option<u64>
    requires { 1 ≤ most }
    ensures { IsGivenUpTo most (one_of id.now (rows_of (found_of given.now))) result }
{
    match given.get_one::<u64>(id) {
        Some(long) => Some(long.clamp(1, most)),
        None => None,
    }
}

/// A hart, where this argument is given, 0 to 1023 by the range that `clap` keeps.
fn given_first<'a>(given: &ArgMatches<'a>, id: &str) -> Option<u16>
    ensures { IsGivenFirst (one_of id.now (rows_of (found_of given.now))) result }
{
    match given.get_one::<u16>(id) {
        Some(first) => Some(first.min(GREATEST_FIRST)),
        None => None,
    }
}

/// What was asked of `decode`.
fn decode_asked<'a>(alloc: Global, given: &ArgMatches<'a>) -> Result<Asked<'a>, AllocError>
    ensures { IfOk result (Asks (codes "decode") (rows_of (found_of given.now))) }
{
    Ok(Asked::Decode(Decode {
        program: program_args(alloc, given)?,
        harts: harts(given),
        only: given_text(given, "only"),
        lossy: flag(given, "lossy"),
        progress: flag(given, "progress"),
        capture: text(given, "CAPTURE"),
    }))
}

/// The capacity, 1 to 65536 by the range that `clap` keeps.
fn capacity<'a>(given: &ArgMatches<'a>) -> u32
    ensures { IsCapacity (one_of (codes "capacity") (rows_of (found_of given.now))) result }
{
    given
        .get_one::<u32>("capacity")
        .unwrap_or(DEFAULT_CAPACITY)
        .clamp(SMALLEST_CAPACITY, MOST_CAPACITY)
}

/// What was asked of `replay`.
fn replay_asked<'a>(alloc: Global, given: &ArgMatches<'a>) -> Result<Asked<'a>, AllocError>
    ensures { IfOk result (Asks (codes "replay") (rows_of (found_of given.now))) }
{
    Ok(Asked::Replay(Replay {
        program: program_args(alloc, given)?,
        period: period(given),
        mode: mode(given),
        capacity: capacity(given),
        progress: flag(given, "progress"),
        schedule: text(given, "SCHEDULE"),
        logs: texts(alloc, given, "LOG")?,
    }))
}

/// What was asked of `bench`.
fn bench_asked<'a>(alloc: Global, given: &ArgMatches<'a>) -> Result<Asked<'a>, AllocError>
    ensures { IfOk result (Asks (codes "bench") (rows_of (found_of given.now))) }
{
    Ok(Asked::Bench(Bench {
        program: program_args(alloc, given)?,
        period: period(given),
        mode: mode(given),
        capacity: capacity(given),
        progress: flag(given, "progress"),
        logs: texts(alloc, given, "LOG")?,
    }))
}

/// The format, which is text where the arguments give none.
fn format<'a>(given: &ArgMatches<'a>) -> Format
    ensures { IsFormat (text_of (codes "format") (rows_of (found_of given.now))) result }
{
    match text(given, "format") {
        "text" => Format::Text,
        "csv" => Format::Csv,
        _ => Format::Other,
    }
}

/// What was asked of `audit`.
fn audit_asked<'a>(given: &ArgMatches<'a>) -> Asked<'a>
    ensures { Asks (codes "audit") (rows_of (found_of given.now)) result }
{
    Asked::Audit(Audit {
        packets: flag(given, "packets"),
        unnumbered: flag(given, "unnumbered"),
        live: flag(given, "live"),
        window: given_long(given, "window", MOST_IN_VIEW),
        only: given_text(given, "only"),
        summary: flag(given, "summary"),
        format: format(given),
        progress: flag(given, "progress"),
        sent: text(given, "SENT"),
        received: text(given, "RECEIVED"),
    })
}

/// What was asked of `measure`.
fn measure_asked<'a>(alloc: Global, given: &ArgMatches<'a>) -> Result<Asked<'a>, AllocError>
    ensures { IfOk result (Asks (codes "measure") (rows_of (found_of given.now))) }
{
    Ok(Asked::Measure(Measure {
        program: program_args(alloc, given)?,
        period: period(given),
        mode: mode(given),
        long: flag(given, "long"),
        progress: flag(given, "progress"),
        logs: texts(alloc, given, "LOG")?,
    }))
}

/// What was asked of `list`.
fn list_asked<'a>(alloc: Global, given: &ArgMatches<'a>) -> Result<Asked<'a>, AllocError>
    ensures { IfOk result (Asks (codes "list") (rows_of (found_of given.now))) }
{
    Ok(Asked::Listing(Listing {
        program: program_args(alloc, given)?,
        harts: given_up_to(given, "harts", MOST_HARTS),
        only: given_text(given, "only"),
        symbols: given_text(given, "symbols"),
        rows: flag(given, "rows"),
        salvage: flag(given, "salvage"),
        format: format(given),
        progress: flag(given, "progress"),
        capture: text(given, "CAPTURE"),
    }))
}

/// What was asked of `salvage`.
fn salvage_asked<'a>(alloc: Global, given: &ArgMatches<'a>) -> Result<Asked<'a>, AllocError>
    ensures { IfOk result (Asks (codes "salvage") (rows_of (found_of given.now))) }
{
    Ok(Asked::Salvage(Salvage {
        program: program_args(alloc, given)?,
        harts: given_up_to(given, "harts", MOST_HARTS),
        only: given_text(given, "only"),
        symbols: given_text(given, "symbols"),
        summary: flag(given, "summary"),
        format: format(given),
        progress: flag(given, "progress"),
        capture: text(given, "CAPTURE"),
    }))
}

/// How many low bits of a number the lines have, where it is given, 4 to 32 by the range that `clap` keeps.
fn given_bits<'a>(given: &ArgMatches<'a>) -> Option<u16>
    ensures { AreGivenBits (one_of (codes "number-bits") (rows_of (found_of given.now))) result }
{
    match given.get_one::<u16>("number-bits") {
        Some(bits) => Some(bits.clamp(FEWEST_NUMBER_BITS, MOST_NUMBER_BITS)),
        None => None,
    }
}

/// What was asked of `capture`.
fn capture_asked<'a>(given: &ArgMatches<'a>) -> Asked<'a>
    ensures { Asks (codes "capture") (rows_of (found_of given.now)) result }
{
    Asked::Capture(Capture {
        version: version(given),
        mode: mode(given),
        period: period(given),
        harts: given_up_to(given, "harts", MOST_HARTS),
        number_bits: given_bits(given),
        skip: flag(given, "skip"),
        lines: text(given, "LINES"),
    })
}

/// What was asked of `compare`.
fn compare_asked<'a>(alloc: Global, given: &ArgMatches<'a>) -> Result<Asked<'a>, AllocError>
    ensures { IfOk result (Asks (codes "compare") (rows_of (found_of given.now))) }
{
    Ok(Asked::Compare(Compare {
        program: program_args(alloc, given)?,
        harts: harts(given),
        only: given_text(given, "only"),
        explain: flag(given, "explain"),
        symbols: given_text(given, "symbols"),
        long: flag(given, "long"),
        progress: flag(given, "progress"),
        capture: text(given, "CAPTURE"),
        logs: texts(alloc, given, "LOG")?,
    }))
}

/// What `generate` makes.
fn product<'a>(given: &ArgMatches<'a>) -> Product
    ensures { IsProduct (text_of (codes "WHAT") (rows_of (found_of given.now))) result }
{
    match text(given, "WHAT") {
        "image" => Product::Image,
        "log" => Product::Log,
        "capture" => Product::Capture,
        _ => Product::Other,
    }
}

/// The seed, any number of 64 bits.
fn seed<'a>(given: &ArgMatches<'a>) -> u64
    ensures { IsSeed (one_of (codes "seed") (rows_of (found_of given.now))) result }
{
    given.get_one::<u64>("seed").unwrap_or(DEFAULT_SEED)
}

/// A seed, any number of 64 bits, where this argument is given.
fn given_seed<'a>(given: &ArgMatches<'a>, id: &str) -> Option<u64>
    ensures { IsGivenSeed (one_of id.now (rows_of (found_of given.now))) result }
{
    given.get_one::<u64>(id)
}

/// What was asked of `generate`.
fn generate_asked<'a>(given: &ArgMatches<'a>) -> Asked<'a>
    ensures { Asks (codes "generate") (rows_of (found_of given.now)) result }
{
    Asked::Generate(Generate {
        product: product(given),
        seed: seed(given),
        mix: Mix::named(text(given, "mix")),
        base: text(given, "base"),
        hart: given_first(given, "hart"),
        events: given_long(given, "events", u64::from(MOST_LONG_ROWS)),
        harts: given_up_to(given, "harts", MOST_HARTS),
        messages: given_long(given, "messages", MOST_MESSAGES),
        period: given_up_to(given, "period", LONGEST_PERIOD),
        mode: mode(given),
        version: version(given),
        burst: given_up_to(given, "burst", LONGEST_BURST),
    })
}

/// What was asked of the subcommand with this name.
fn asked_of<'a>(alloc: Global, name: &str, given: &ArgMatches<'a>) -> Result<Asked<'a>, AllocError>
    requires { IsSubcommand name.now }
    ensures { IfOk result (Asks name.now (rows_of (found_of given.now))) }
{
    match name {
        "check" => check_asked(alloc, given),
        "encode" => encode_asked(alloc, given),
        "dump" => Ok(dump_asked(given)),
        "decode" => decode_asked(alloc, given),
        "replay" => replay_asked(alloc, given),
        "bench" => bench_asked(alloc, given),
        "audit" => Ok(audit_asked(given)),
        "measure" => measure_asked(alloc, given),
        "list" => list_asked(alloc, given),
        "salvage" => salvage_asked(alloc, given),
        "capture" => Ok(capture_asked(given)),
        "compare" => compare_asked(alloc, given),
        "generate" => Ok(generate_asked(given)),
        _ => unreachable!("clap knows no other subcommand"),
    }
}

/// Reads the arguments of a command line, the program's name first, and returns what they ask for.
///
/// `Ok` comes where `clap` finds no fault in them by the program's grammar. It holds the texts of the subcommand's
/// arguments as they are given: a base is not yet a number, and no file was looked at. A period is a number from 1 to
/// 65535, a count of harts one from 1 to 1024, a first hart one from 0 to 1023, a capacity one from 1 to 65536, a
/// window one from 1 to 16777216, and a count of low bits one from 4 to 32; a seed is any number of 64 bits, a count of events one from 1 to 4294967295, and
/// one of messages from 1 to 2^40. Where no such number is given, a period is 1024, the count of harts of `decode` and
/// `compare` 1, a capacity 16, and a seed 1; other counts, a first hart and all numbers of `generate` but the seed are
/// none then. A capture is of version 1 with `--v1`, and else of version 2.
///
/// An error is `clap`'s own. A call for help or for the version is one. Its `Display` is the text for the user, and its
/// kind is `ErrorKind::OutOfMemory` where an allocation failed.
pub fn asked<'a>(alloc: Global, words: &'a [String]) -> Result<Asked<'a>, Error>
    ensures found { IfOk result (WordsAsk (map string_bytes words.now)) }
    ensures limits { IfOk result IsWithinLimits }
    ensures refused { FailsBy (fault_of program_app (map string_bytes words.now)) result }
    // When an error comes, said without `clap`.
    ensures fault { IfErr result
        (λ error. (kind_of error ≡ kind.OutOfMemory) ⊎ AreRefused (map string_bytes words.now)) }
{
    let matches = program(alloc)?.try_get_matches_from(words)?;
    match matches.subcommand() {
        Some((name, given)) => Ok(asked_of(alloc, name, given)?),
        None => unreachable!("clap requires a subcommand"),
    }
}
