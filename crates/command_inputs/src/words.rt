//! What a command line may ask for.

use message::Version;
use payload::Mode;
use stimulus::Mix;

/// `--base B [--also B2=FILE]... IMAGE`: a program, as the bytes of an image and of its further pieces.
#[derive(Drop)]
pub struct ProgramArgs<'a> {
    /// The address of the image's first byte, not yet read as a number.
    pub base: &'a str,
    /// The further pieces of the image, each as `B2=FILE`, not yet taken apart, in the order of the arguments.
    pub also: Vec<&'a str>,
    /// The path of the image.
    pub image: &'a str,
}

/// `check --base B [--also B2=FILE]... [--explain] [--symbols FILE] [--long] [--progress] IMAGE LOG...`: whether the log
/// of each hart is legal.
#[derive(Drop)]
pub struct Check<'a> {
    /// The program.
    pub program: ProgramArgs<'a>,
    /// Whether a line is wanted that explains an illegal row.
    pub explain: bool,
    /// The path of the program's symbols, where they are given.
    pub symbols: Option<&'a str>,
    /// Whether a log may have up to 4,294,967,295 rows. Where this is false, it may have up to 16,777,216.
    pub long: bool,
    /// Whether a terminal is shown how far the logs are read.
    pub progress: bool,
    /// The paths of the logs, at least one, in the order of the arguments.
    pub logs: Vec<&'a str>,
}

/// `encode --base B [--also B2=FILE]... [--period N] [--full] [--v1] [--hex] [--mixed S] [--first H] [--of N] [--long]
/// [--progress] IMAGE LOG...`: the messages of the log of each hart.
#[derive(Drop)]
pub struct Encode<'a> {
    /// The program.
    pub program: ProgramArgs<'a>,
    /// How many retirements there are from one periodic synchronisation to the next, 1 to 65535.
    pub period: u16,
    /// Whether packets name addresses by differences or in full.
    pub mode: Mode,
    /// The version of the capture. It limits the count of logs, also where lines of hexadecimal are wanted.
    pub version: Version,
    /// Whether the messages are wanted as lines of hexadecimal.
    pub hex: bool,
    /// The number that decides how the messages of the logs are mixed, where they are not wanted one log after another.
    pub mixed: Option<u64>,
    /// The hart of the first log, 0 to 1023, where it is given.
    pub first: Option<u16>,
    /// Of how many harts the logs are a part, 1 to 1024, where that is given.
    pub of: Option<u16>,
    /// Whether a log may have up to 4,294,967,295 rows. Where this is false, it may have up to 16,777,216.
    pub long: bool,
    /// Whether a terminal is shown how far the logs are read.
    pub progress: bool,
    /// The paths of the logs, at least one, in the order of the arguments.
    pub logs: Vec<&'a str>,
}

/// `dump [--search] [--only A-B] [--symbols FILE] [--progress] CAPTURE`: the messages of a capture, as text.
#[derive(Drop)]
pub struct Dump<'a> {
    /// Whether messages are looked for where bytes are none.
    pub search: bool,
    /// The harts whose messages are wanted, not yet read as `A-B` or `A`, where not all are.
    pub only: Option<&'a str>,
    /// The path of the program's symbols, where they are given.
    pub symbols: Option<&'a str>,
    /// Whether a terminal is shown how far the capture is worked through.
    pub progress: bool,
    /// The path of the capture.
    pub capture: &'a str,
}

/// `decode --base B [--also B2=FILE]... [--harts N] [--only A-B] [--lossy] [--progress] IMAGE CAPTURE`: the logs that the
/// messages of a capture describe.
#[derive(Drop)]
pub struct Decode<'a> {
    /// The program.
    pub program: ProgramArgs<'a>,
    /// The count of harts of a capture with no header, 1 to 1024.
    pub harts: u16,
    /// The harts whose messages are wanted, not yet read as `A-B` or `A`, where not all are.
    pub only: Option<&'a str>,
    /// Whether messages of the capture may be lost.
    pub lossy: bool,
    /// Whether a terminal is shown how far the capture is worked through.
    pub progress: bool,
    /// The path of the capture.
    pub capture: &'a str,
}

/// `replay --base B [--also B2=FILE]... [--period N] [--full] [--capacity N] [--progress] IMAGE SCHEDULE LOG...`: what
/// is decoded of the log of each hart that is sent through the funnel.
#[derive(Drop)]
pub struct Replay<'a> {
    /// The program.
    pub program: ProgramArgs<'a>,
    /// How many retirements there are from one periodic synchronisation to the next, 1 to 65535.
    pub period: u16,
    /// Whether packets name addresses by differences or in full.
    pub mode: Mode,
    /// How many messages the funnel holds, 1 to 65536.
    pub capacity: u32,
    /// Whether a terminal is shown how far the logs are read.
    pub progress: bool,
    /// The path of the schedule.
    pub schedule: &'a str,
    /// The paths of the logs, at least one, in the order of the arguments.
    pub logs: Vec<&'a str>,
}

/// `bench --base B [--also B2=FILE]... [--period N] [--full] [--capacity N] [--progress] IMAGE LOG...`: what is decoded
/// of the log of each hart that is sent through the funnel from a thread of its own.
#[derive(Drop)]
pub struct Bench<'a> {
    /// The program.
    pub program: ProgramArgs<'a>,
    /// How many retirements there are from one periodic synchronisation to the next, 1 to 65535.
    pub period: u16,
    /// Whether packets name addresses by differences or in full.
    pub mode: Mode,
    /// How many messages the funnel holds, 1 to 65536.
    pub capacity: u32,
    /// Whether a terminal is shown how far the logs are read.
    pub progress: bool,
    /// The paths of the logs, at least one, in the order of the arguments.
    pub logs: Vec<&'a str>,
}

/// The form in which a subcommand prints what it found.
#[derive(Clone, Copy)]
pub enum Format {
    /// Lines of text.
    Text,
    /// A table, as CSV.
    Csv,
    /// The argument is the name of neither.
    Other,
}

/// `audit [--packets] [--unnumbered] [--live] [--window N] [--only A-B] [--summary] [--format FORMAT] [--progress] SENT
/// RECEIVED`: what became of the messages of one capture, by another capture of what arrived.
#[derive(Drop)]
pub struct Audit<'a> {
    /// Whether a message is compared by the packet that its payload unpacks to, and not by its bytes.
    pub packets: bool,
    /// Whether the numbers of what arrived are not looked at.
    pub unnumbered: bool,
    /// Whether both captures are read side by side, as they come, by a window of the one that was sent.
    pub live: bool,
    /// How many messages that were sent may be in view before the front and after it, 1 to 16,777,216, where it is given.
    pub window: Option<u64>,
    /// The harts whose messages are wanted, not yet read as `A-B` or `A`, where not all are.
    pub only: Option<&'a str>,
    /// Whether the lines of single messages, of bytes that are no message and of lost numbers are left out.
    pub summary: bool,
    /// Whether lines of text or a table are wanted.
    pub format: Format,
    /// Whether a terminal is shown how far the capture is worked through.
    pub progress: bool,
    /// The path of the capture that was sent.
    pub sent: &'a str,
    /// The path of the capture that came.
    pub received: &'a str,
}

/// `measure --base B [--also B2=FILE]... [--period N] [--full] [--long] [--progress] IMAGE LOG...`: how many packets
/// and bytes the log of each hart takes.
#[derive(Drop)]
pub struct Measure<'a> {
    /// The program.
    pub program: ProgramArgs<'a>,
    /// How many retirements there are from one periodic synchronisation to the next, 1 to 65535.
    pub period: u16,
    /// Whether packets name addresses by differences or in full.
    pub mode: Mode,
    /// Whether a log may have up to 4,294,967,295 rows. Where this is false, it may have up to 16,777,216.
    pub long: bool,
    /// Whether a terminal is shown how far the logs are read.
    pub progress: bool,
    /// The paths of the logs, at least one, in the order of the arguments.
    pub logs: Vec<&'a str>,
}

/// `list --base B [--also B2=FILE]... [--harts N] [--only A-B] [--symbols FILE] [--rows] [--salvage] [--format FORMAT]
/// [--progress] IMAGE CAPTURE`: what each message of a capture says and settles.
#[derive(Drop)]
pub struct Listing<'a> {
    /// The program.
    pub program: ProgramArgs<'a>,
    /// The count of harts of a capture with no header, 1 to 1024, where it is given.
    pub harts: Option<u16>,
    /// The harts whose messages are wanted, not yet read as `A-B` or `A`, where not all are.
    pub only: Option<&'a str>,
    /// The path of the program's symbols, where they are given.
    pub symbols: Option<&'a str>,
    /// Whether lines of text say which rows each message settles. A table without salvaging says it always.
    pub rows: bool,
    /// Whether every message that is found is wanted, and what `salvage` does with it.
    pub salvage: bool,
    /// Whether lines of text or a table are wanted.
    pub format: Format,
    /// Whether a terminal is shown how far the capture is worked through.
    pub progress: bool,
    /// The path of the capture.
    pub capture: &'a str,
}

/// `salvage --base B [--also B2=FILE]... [--harts N] [--only A-B] [--symbols FILE] [--summary] [--format FORMAT]
/// [--progress] IMAGE CAPTURE`: what is left of the log of each hart after any damage to a capture.
#[derive(Drop)]
pub struct Salvage<'a> {
    /// The program.
    pub program: ProgramArgs<'a>,
    /// The count of harts of a capture with no valid header, 1 to 1024, where it is given.
    pub harts: Option<u16>,
    /// The harts whose messages are wanted, not yet read as `A-B` or `A`, where not all are.
    pub only: Option<&'a str>,
    /// The path of the program's symbols, where they are given.
    pub symbols: Option<&'a str>,
    /// Whether the texts of the logs are left out.
    pub summary: bool,
    /// Whether lines of text or a table are wanted.
    pub format: Format,
    /// Whether a terminal is shown how far the capture is worked through.
    pub progress: bool,
    /// The path of the capture.
    pub capture: &'a str,
}

/// `capture [--v1] [--full] [--period N] [--harts N] [--number-bits W] [--skip] LINES`: the capture of a text of lines,
/// each of one message.
#[derive(Drop)]
pub struct Capture<'a> {
    /// The version of the capture. It limits the count of harts.
    pub version: Version,
    /// The mode that the capture's header has.
    pub mode: Mode,
    /// The period that the capture's header has, 1 to 65535.
    pub period: u16,
    /// The count of harts that the capture's header has, 1 to 1024, where it is given. Else they are those up to the
    /// highest of a line.
    pub harts: Option<u16>,
    /// How many low bits of a message's number the lines have, 4 to 32, where they have not the number itself.
    pub number_bits: Option<u16>,
    /// Whether a line that has a fault is counted and passed over.
    pub skip: bool,
    /// The path of the lines.
    pub lines: &'a str,
}

/// `compare --base B [--also B2=FILE]... [--harts N] [--only A-B] [--explain] [--symbols FILE] [--long] [--progress]
/// IMAGE CAPTURE LOG...`: whether a capture describes just these logs.
#[derive(Drop)]
pub struct Compare<'a> {
    /// The program.
    pub program: ProgramArgs<'a>,
    /// The count of harts of a capture with no header, 1 to 1024.
    pub harts: u16,
    /// The harts whose messages are wanted, not yet read as `A-B` or `A`, where not all are.
    pub only: Option<&'a str>,
    /// Whether the rows before the first difference are wanted.
    pub explain: bool,
    /// The path of the program's symbols, where they are given.
    pub symbols: Option<&'a str>,
    /// Whether a log may have up to 4,294,967,295 rows. Where this is false, it may have up to 16,777,216.
    pub long: bool,
    /// Whether a terminal is shown how far the capture is worked through and the logs are read.
    pub progress: bool,
    /// The path of the capture.
    pub capture: &'a str,
    /// The paths of the logs, at least one, in the order of the arguments.
    pub logs: Vec<&'a str>,
}

/// What `generate` makes.
#[derive(Clone, Copy)]
pub enum Product {
    /// The image of a program.
    Image,
    /// The log of a hart that runs it.
    Log,
    /// A capture of harts that run it.
    Capture,
    /// The argument is the name of none.
    Other,
}

/// `generate WHAT [--seed S] [--mix MIX] [--base B] [--hart H] [--events N] [--harts N] [--messages N] [--period N]
/// [--full] [--v1] [--burst N]`: an image, a log or a capture that a seed decides.
///
/// `hart` and `events` go with a log alone, and all from `harts` on with a capture alone.
#[derive(Drop)]
pub struct Generate<'a> {
    /// WHAT: what is made.
    pub product: Product,
    /// The number that decides all draws.
    pub seed: u64,
    /// What the program does, where the argument names it.
    pub mix: Option<Mix>,
    /// The address of the image's first byte, not yet read as a number.
    pub base: &'a str,
    /// The hart whose log is made, 0 to 1023, where it is given.
    pub hart: Option<u16>,
    /// How many rows the log has, 1 to 4,294,967,295, where that is given.
    pub events: Option<u64>,
    /// How many harts the capture has, 1 to 1024, where that is given.
    pub harts: Option<u16>,
    /// How many messages the capture has, but for those that close the traces, 1 to 2^40, where that is given.
    pub messages: Option<u64>,
    /// How many retirements there are from one periodic synchronisation to the next, 1 to 65535, where that is given.
    pub period: Option<u16>,
    /// Whether packets name addresses by differences or in full.
    pub mode: Mode,
    /// The version of the capture. It limits the count of harts.
    pub version: Version,
    /// How many messages of one hart come one after another at most, 1 to 65535, where that is given.
    pub burst: Option<u16>,
}

/// A subcommand with its files and options, as texts of the arguments.
#[derive(Drop)]
pub enum Asked<'a> {
    /// A run of `check`.
    Check(Check<'a>),
    /// A run of `encode`.
    Encode(Encode<'a>),
    /// A run of `dump`.
    Dump(Dump<'a>),
    /// A run of `decode`.
    Decode(Decode<'a>),
    /// A run of `replay`.
    Replay(Replay<'a>),
    /// A run of `bench`.
    Bench(Bench<'a>),
    /// A run of `audit`.
    Audit(Audit<'a>),
    /// A run of `measure`.
    Measure(Measure<'a>),
    /// A run of `list`.
    Listing(Listing<'a>),
    /// A run of `salvage`.
    Salvage(Salvage<'a>),
    /// A run of `capture`.
    Capture(Capture<'a>),
    /// A run of `compare`.
    Compare(Compare<'a>),
    /// A run of `generate`.
    Generate(Generate<'a>),
}
