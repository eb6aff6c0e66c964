//! Transcripts, played.

use crate::calls::add_shown;
use crate::content::run_over_none;
use crate::failing::FailsAt;
use crate::parts::{range_of, words_of};
use crate::reading::{Page, Run, WAYS, Way, ends_run};
use crate::requests::put_asked;
use crate::shelf::Shelf;
use crate::verdict::{Outcome, Verdict};
use cases::{Case, DataFile, Tally, data_files};
use cli::asked;
use commands::{Files, command};
use std::io::ErrorKind;
use std::process::ExitCode;
use std::rt::{Env, Files as Host};
use std::sync::Wait;
use std::thread::Threads;
use std::{fs, io};

/// The subcommands that read a capture and show how far they are.
const READERS: [&str; 6] = ["dump", "decode", "list", "salvage", "audit", "compare"];

/// Those of them that work through all messages, also where one of them is not good. So does `list` with `--salvage`.
const TO_THE_END: [&str; 3] = ["dump", "salvage", "audit"];

/// What is reported where the output fails.
const FAILED: &[u8] = b"tracebench: output cannot be written\n";

/// Plays the transcripts that the program's arguments name, each in its ways. The files of the machine are these.
///
/// The status is a failure's if a run failed. It is an error where an argument or a transcript is not read, the output
/// is not written, or allocation fails.
pub(crate) fn play<
    R: Env + Host + Print + Eprint + AllocGlobal + Threads + Wait + Sync,
    D: Files + Sync,
>(rt: &R, disk: &mut D) -> io::Result<ExitCode>
where
    D::Reader: Send,
{
    let mut tally = Tally::new();
    for file in &data_files(rt)? {
        for way in WAYS {
            // In the first way each line is read, so that none is passed over.
            if matches!(way, Way::Whole) || way.is_in(file.text.as_str()) {
                play_file(rt, disk, &mut tally, file, way)?;
            }
        }
    }
    tally.end(rt, "runs")
}

/// Plays a transcript in one way.
fn play_file<R: Host + Eprint + AllocGlobal + Threads + Wait + Sync, D: Files + Sync>(
    rt: &R,
    disk: &mut D,
    tally: &mut Tally,
    file: &DataFile,
    way: Way,
) -> io::Result<()>
where
    D::Reader: Send,
{
    let name = file.name.as_str();
    let mut page = Page::new(rt.alloc());
    for (i, line) in file.text.lines().enumerate() {
        if ends_run(line) {
            end_run(rt, disk, tally, name, &mut page, way)?;
        }
        read_line(rt, tally, (name, i.saturating_add(1)), line, &mut page)?;
    }
    end_run(rt, disk, tally, name, &mut page, way)
}

/// Reads a line of a transcript.
fn read_line<'a, R: Eprint + AllocGlobal>(
    rt: &R,
    tally: &mut Tally,
    place: (&str, usize),
    line: &'a str,
    page: &mut Page<'a>,
) -> io::Result<()> {
    let notes = Case::new(rt.alloc(), "");
    page.read_line(&notes, place.1, line);
    count_malformed(rt, tally, place, line, &notes)
}

/// Counts a line that has no meaning as a run that failed.
fn count_malformed(
    rt: &impl Eprint,
    tally: &mut Tally,
    place: (&str, usize),
    line: &str,
    notes: &Case,
) -> io::Result<()> {
    if notes.is_read()? {
        return Ok(());
    }
    tally.count(rt, place, "a line with a meaning", line)
}

/// Plays the run that is under way, if it is played in this way. No run is under way then.
fn end_run<R: Host + Eprint + AllocGlobal + Threads + Wait + Sync, D: Files + Sync>(
    rt: &R,
    disk: &mut D,
    tally: &mut Tally,
    name: &str,
    page: &mut Page<'_>,
    way: Way,
) -> io::Result<()>
where
    D::Reader: Send,
{
    if !page.run.line.is_empty() && way.is_among(page.ways) {
        let place = (name, page.run.number);
        let notes = Case::new(rt.alloc(), "");
        play_run(rt, disk, tally, place, page, way, &notes)?;
        count_malformed(rt, tally, place, page.run.line, &notes)?;
    }
    page.run = Run::new(rt.alloc(), 0, "");
    Ok(())
}

/// Plays a run with each number of its range, and counts each.
fn play_run<R: Host + Eprint + AllocGlobal + Threads + Wait + Sync, D: Files + Sync>(
    rt: &R,
    disk: &mut D,
    tally: &mut Tally,
    place: (&str, usize),
    page: &mut Page<'_>,
    way: Way,
    notes: &Case,
) -> io::Result<()>
where
    D::Reader: Send,
{
    let (first, last) = range_of(notes, page.run.line);
    for number in first..last.saturating_add(1) {
        let mut verdict = Verdict::new(rt.alloc());
        play_number(rt, disk, page, way, number, notes, &mut verdict);
        let Verdict { wanted, came } = verdict;
        notes.join(&wanted);
        notes.join(&came);
        let (wanted, came) = (wanted.taken(), came.taken());
        tally.count(rt, place, wanted.as_str(), came.as_str())?;
    }
    Ok(())
}

/// Plays a run with this number for its range.
fn play_number<R: Host + AllocGlobal + Threads + Wait + Sync, D: Files + Sync>(
    rt: &R,
    disk: &mut D,
    page: &mut Page<'_>,
    way: Way,
    number: u64,
    notes: &Case,
    verdict: &mut Verdict,
)
where
    D::Reader: Send,
{
    let line = page.run.line;
    if let Some(text) = line.strip_prefix("& ") {
        return is_called(rt, disk, page, text, notes, verdict);
    }
    let words = line.strip_prefix(['$', '%']).unwrap_or("");
    let words = words_of(notes, words, number);
    if line.starts_with('%') {
        return is_asked(notes, words.as_slice(), &page.run, verdict);
    }
    is_played(rt, disk, page, way, words, notes, verdict);
}

/// A run with these arguments has the result that it must have in this way.
fn is_played<R: Host + AllocGlobal + Threads + Wait + Sync, D: Files + Sync>(
    rt: &R,
    disk: &mut D,
    page: &mut Page<'_>,
    way: Way,
    mut words: Vec<String>,
    notes: &Case,
    verdict: &mut Verdict,
)
where
    D::Reader: Send,
{
    if matches!(way, Way::Shown) && is_among(words.as_slice(), &READERS) {
        let word = notes.over("");
        word.put("--progress");
        notes.push(&mut words, word.taken());
    }
    let words = words.as_slice();
    let Page { shelf, run, .. } = page;
    for word in words {
        notes.note(shelf.cut(word.as_str()));
    }
    match way {
        Way::Whole | Way::Shown => is_run(rt, shelf, words, run, verdict),
        Way::Failing => fails_at_each_call(rt, shelf, words, run, verdict),
        Way::Bare => is_run_over_none(rt, words, run, verdict),
        Way::Disk => is_run_on(rt, disk, shelf, words, run, notes, verdict),
    }
}

/// Makes a call of what shows progress, or of the machine's files.
fn is_called<R: Host + AllocGlobal, D: Files>(
    rt: &R,
    disk: &D,
    page: &mut Page<'_>,
    text: &str,
    notes: &Case,
    verdict: &mut Verdict,
) {
    let mut out = Vec::new(rt.alloc());
    match text.strip_prefix("regular ") {
        Some(path) => {
            put_file(rt, &page.shelf, path, notes);
            add_shown(notes, &mut out, disk.is_regular(path));
        }
        None => page.progress.call(notes, text, &mut out),
    }
    let came = (0, out.as_slice(), b"".as_slice());
    verdict.ends(0, page.run.outcome(), came);
}

/// The arguments ask for what is printed, or they are refused with what is reported.
fn is_asked(notes: &Case, words: &[String], run: &Run<'_>, verdict: &mut Verdict) {
    let (out, err) = (notes.over(""), notes.over(""));
    match asked(notes.alloc, words) {
        Ok(request) => put_asked(&out, &request),
        Err(error) => err.put_shown(error),
    }
    notes.join(&out);
    notes.join(&err);
    let (out, err) = (out.taken(), err.taken());
    verdict.ends(0, run.outcome(), (0, out.as_bytes(), err.as_bytes()));
}

/// Whether the subcommand of a line is one of these.
fn is_among(words: &[String], subcommands: &[&str]) -> bool {
    match words.get(1) {
        Some(word) => subcommands.contains(&word.as_str()),
        None => false,
    }
}

/// The path that an argument is, or the one in the argument of a further piece, after its first equals sign.
fn path_in(word: &str) -> &str {
    let piece = word.strip_prefix("--also=").unwrap_or(word);
    match piece.split_once('=') {
        Some((_, path)) => path,
        None => word,
    }
}

/// How often a path is among these.
fn times(path: &str, paths: &[String]) -> u64 {
    let mut times = 0u64;
    for each in paths {
        if path_in(each.as_str()) == path {
            times = times.saturating_add(1);
        }
    }
    times
}

/// No file was read more often than the arguments name it, and where all is done, each was read as often.
fn each_is_read_once(shelf: &Shelf, words: &[String], is_done: bool, verdict: &mut Verdict) {
    let mut last = "";
    for word in words {
        let path = path_in(word.as_str());
        if path != last && shelf.content(path).is_some() {
            let named = times(path, words);
            let least = if is_done { named } else { 0 };
            verdict.counts(path, (least, named), shelf.reads(path));
        }
        last = path;
    }
}

/// Progress was begun once at most, where the arguments ask for it, and where all is done just once; of `compare` twice,
/// for the capture and then for the logs. What was begun was ended.
fn progress_is_as_asked(shelf: &Shelf, words: &[String], is_done: bool, verdict: &mut Verdict) {
    let (begun, ended) = shelf.progress();
    let rounds = if is_among(words, &["compare"]) { 2 } else { 1 };
    let asked = times("--progress", words).saturating_mul(rounds);
    let least = if is_done { asked } else { 0 };
    verdict.counts("ends of progress", (begun, begun), ended);
    verdict.counts("begins of progress", (least, asked), begun);
}

/// No more messages were noted than were announced, and where all are worked through, as many. Each was noted between
/// the begin and the end, and the end came once.
fn messages_are_noted(shelf: &Shelf, words: &[String], status: u8, verdict: &mut Verdict) {
    let (messages, noted) = shelf.messages();
    let goes_on = is_among(words, &TO_THE_END) || times("--salvage", words) > 0;
    let to_the_end = status == 0 || (status < 2 && goes_on);
    let least = if to_the_end { messages } else { 0 };
    verdict.counts("messages out of time", (0, 0), shelf.strays());
    verdict.counts("messages noted", (least, messages), noted);
}

/// The run has the result that it must have, also where what it reports is not taken.
fn is_run<R: AllocGlobal + Threads + Wait + Sync>(
    rt: &R,
    shelf: &mut Shelf,
    words: &[String],
    run: &Run<'_>,
    verdict: &mut Verdict,
) {
    let mut out = Vec::new(rt.alloc());
    let mut err = Vec::new(rt.alloc());
    shelf.forget_reads();
    let status = command(rt.alloc(), rt, shelf, words, &mut out, &mut err);
    let came = (u64::from(status), out.as_slice(), err.as_slice());
    verdict.ends(0, run.outcome(), came);
    each_is_read_once(shelf, words, status < 2, verdict);
    progress_is_as_asked(shelf, words, status < 2, verdict);
    messages_are_noted(shelf, words, status, verdict);
    line_fails_at(
        rt,
        shelf,
        words,
        run,
        (ErrorKind::TimedOut, 1),
        &[],
        verdict,
    );
}

/// The output fails at this one of its calls, so the run ends with this status, having printed and reported this.
fn output_fails_at<R: AllocGlobal + Threads + Wait + Sync>(
    rt: &R,
    shelf: &mut Shelf,
    words: &[String],
    call: usize,
    wanted: Outcome<'_>,
    verdict: &mut Verdict,
) {
    let mut out = FailsAt::new(rt.alloc(), ErrorKind::TimedOut, call);
    let mut err = Vec::new(rt.alloc());
    shelf.forget_reads();
    let status = command(rt.alloc(), rt, shelf, words, &mut out, &mut err);
    let came = (u64::from(status), out.bytes.as_slice(), err.as_slice());
    verdict.ends(call, wanted, came);
    progress_is_as_asked(shelf, words, status < 2, verdict);
}

/// The standard error fails at this one of its calls and in this way, so that it takes this much; nothing else changes.
fn line_fails_at<R: AllocGlobal + Threads + Wait + Sync>(
    rt: &R,
    shelf: &mut Shelf,
    words: &[String],
    run: &Run<'_>,
    (kind, call): (ErrorKind, usize),
    reported: &[u8],
    verdict: &mut Verdict,
) {
    let mut out = Vec::new(rt.alloc());
    let mut err = FailsAt::new(rt.alloc(), kind, call);
    let status = command(rt.alloc(), rt, shelf, words, &mut out, &mut err);
    let came = (u64::from(status), out.as_slice(), err.bytes.as_slice());
    let wanted = (run.status, run.written.as_slice(), reported);
    verdict.ends(call, wanted, came);
}

/// The output fails at each of its calls in turn, at each byte's and at that of the flush after them: what was printed
/// is a prefix of the text. The standard error fails at each of its calls; an interrupted write is made again.
fn fails_at_each_call<R: AllocGlobal + Threads + Wait + Sync>(
    rt: &R,
    shelf: &mut Shelf,
    words: &[String],
    run: &Run<'_>,
    verdict: &mut Verdict,
) {
    for taken in 0..run.written.len().saturating_add(1) {
        let begun = (3, run.written.get(..taken).unwrap_or(&[]), FAILED);
        output_fails_at(rt, shelf, words, taken.saturating_add(1), begun, verdict);
    }
    let behind = run.written.len().saturating_add(2);
    output_fails_at(rt, shelf, words, behind, run.outcome(), verdict);
    for taken in 0..run.reported.len() {
        let call = taken.saturating_add(1);
        let begun = run.reported.get(..taken).unwrap_or(&[]);
        let whole = run.reported.as_slice();
        for (kind, reported) in [
            (ErrorKind::TimedOut, begun),
            (ErrorKind::Interrupted, whole),
        ] {
            line_fails_at(rt, shelf, words, run, (kind, call), reported, verdict);
        }
    }
}

/// The run has the result that it must have where there is no file.
fn is_run_over_none<R: AllocGlobal + Threads + Wait + Sync>(
    rt: &R,
    words: &[String],
    run: &Run<'_>,
    verdict: &mut Verdict,
) {
    let mut out = Vec::new(rt.alloc());
    let mut err = Vec::new(rt.alloc());
    let status = run_over_none(rt, words, &mut out, &mut err);
    let came = (u64::from(status), out.as_slice(), err.as_slice());
    verdict.ends(0, run.outcome(), came);
}

/// Writes a file of the shelf to the folder where this program runs, if it is there.
fn put_file<R: Host>(rt: &R, shelf: &Shelf, path: &str, notes: &Case) {
    if let Some(bytes) = shelf.content(path) {
        notes.read(fs::write(rt, path, bytes));
    }
}

/// The run has the result that it must have over the machine's files.
fn is_run_on<R: Host + AllocGlobal + Threads + Wait + Sync, D: Files + Sync>(
    rt: &R,
    disk: &mut D,
    shelf: &Shelf,
    words: &[String],
    run: &Run<'_>,
    notes: &Case,
    verdict: &mut Verdict,
)
where
    D::Reader: Send,
{
    for word in words {
        put_file(rt, shelf, path_in(word.as_str()), notes);
    }
    let mut out = Vec::new(rt.alloc());
    let mut err = Vec::new(rt.alloc());
    let status = command(rt.alloc(), rt, disk, words, &mut out, &mut err);
    let came = (u64::from(status), out.as_slice(), err.as_slice());
    verdict.ends(0, run.outcome(), came);
}
