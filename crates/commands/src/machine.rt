//! The program over the machine's own arguments, files and streams.

ghost use Rattle.std.specs.Prelude.{◌≤◌, IfOk, length};

use crate::program::command;
use crate::progress_line::ProgressLine;
use crate::{CommandReason, Fault, FileFault, FileReader, Files, report_error};
use retire::Given;
use std::io::{BufWriter, ErrorKind, IsTerminal, Read, Write};
use std::rt::{Clock, Env, Files as Host};
use std::sync::Wait;
use std::thread::Threads;
use std::{env, fs, io};

/// The machine's terminal, with a line that says how far files are read or messages are worked through.
#[derive(Drop)]
pub struct Terminal<'a, R, E> {
    rt: &'a R,
    err: E,
    line: ProgressLine,
}

impl<'a, R, E> Terminal<'a, R, E> {
    /// The line is for this stream.
    pub fn new(rt: &'a R, err: E) -> Terminal<'a, R, E> {
        Terminal {
            rt,
            err,
            line: ProgressLine::new(),
        }
    }
}

/// The files of the machine. Its terminal may show how far they are read, or how far their messages are worked through.
#[derive(Drop)]
pub struct Disk<'a, R, E> {
    terminal: &'a Terminal<'a, R, E>,
}

impl<'a, R, E> Disk<'a, R, E> {
    /// The files of the machine with this terminal.
    pub fn new(terminal: &'a Terminal<'a, R, E>) -> Disk<'a, R, E> {
        Disk { terminal }
    }
}

/// A file of the machine that is open.
#[derive(Drop)]
pub struct DiskFile<H> {
    handle: H,
    given: Given,
}

impl<H: Read> FileReader for DiskFile<H> {
    ghost given = { λ file. file.given.bytes };

    fn read(&mut self, buffer: &mut [u8]) -> Result<usize, FileFault> {
        let count = read_some(&mut self.handle, buffer)?;
        self.given.put(&buffer[..count]);
        Ok(count)
    }
}

/// Reads the next bytes into the front of a buffer, and returns how many they are. A call that a signal interrupts is
/// made again.
fn read_some<H: Read>(handle: &mut H, buffer: &mut [u8]) -> Result<usize, FileFault>
    ensures { IfOk result (λ count. count ≤ length buffer.new) }
{
    for _ in 0..u64::MAX {
        match handle.read(buffer) {
            Ok(count) => return Ok(count),
            Err(error) if error.kind() == ErrorKind::Interrupted => {}
            Err(error) => return Err(file_fault(&error)),
        }
    }
    Err(FileFault::CannotRead)
}

/// A file of which only some bytes are read.
#[derive(Drop)]
struct Limited<H> {
    handle: H,
    left: usize,
}

impl<H: Read> Read for Limited<H> {
    fn read(&mut self, buffer: &mut [u8]) -> io::Result<usize> {
        let most = buffer.len().min(self.left);
        let count = self.handle.read(&mut buffer[..most])?;
        self.left -= count;
        Ok(count)
    }
}

/// The first bytes of the file at a path: all that it has, or `most` where it has more. No more bytes are read.
fn first_bytes<R: Host + AllocGlobal>(rt: &R, path: &str, most: usize) -> io::Result<Vec<u8>> {
    let mut file = Limited {
        handle: fs::open(rt, path)?,
        left: most,
    };
    let mut bytes = Vec::new(rt.alloc());
    file.read_to_end(&mut bytes)?;
    Ok(bytes)
}

/// How many bytes the files at these paths have together, or 0 where that is not known.
fn total_of<R: Host + AllocGlobal>(rt: &R, paths: &[&str]) -> u64 {
    let mut total = 0u64;
    for path in paths {
        match fs::metadata(rt, *path) {
            Ok(about) if about.is_file() => total = total.saturating_add(about.len()),
            _ => return 0,
        }
    }
    total
}

impl<R: Host + Clock + AllocGlobal, E: Write + IsTerminal + Copy> Files for Disk<'_, R, E> {
    type Reader = DiskFile<R::File>;

    fn read(&mut self, path: &str, most: Option<usize>) -> Result<Vec<u8>, FileFault> {
        first_bytes(self.terminal.rt, path, most.unwrap_or(usize::MAX)).map_err(|error| file_fault(
            &error,
        ))
    }

    fn open_file(&self, path: &str) -> Result<DiskFile<R::File>, FileFault> {
        let handle = fs::open(self.terminal.rt, path).map_err(|error| file_fault(&error))?;
        Ok(DiskFile {
            handle,
            given: Given::new(),
        })
    }

    fn is_regular(&self, path: &str) -> bool {
        match fs::metadata(self.terminal.rt, path) {
            Ok(about) => about.is_file(),
            Err(_) => false,
        }
    }

    fn begin_progress(&self, paths: &[&str]) {
        let Terminal { rt, err, line } = self.terminal;
        if err.is_terminal() {
            line.begin(*rt, total_of(*rt, paths));
        }
    }

    fn note_read(&self, _: &str, count: usize) {
        let Terminal { rt, err, line } = self.terminal;
        let mut err = *err;
        line.add(*rt, rt.alloc(), &mut err, count);
    }

    fn begin_messages(&self, total: u64) {
        let Terminal { rt, err, line } = self.terminal;
        if err.is_terminal() {
            line.begin(*rt, total);
        }
    }

    fn note_messages(&self, count: u64) {
        let Terminal { rt, err, line } = self.terminal;
        let mut err = *err;
        line.add_messages(*rt, rt.alloc(), &mut err, count);
    }

    fn end_progress(&self) {
        let mut err = self.terminal.err;
        self.terminal.line.end(&mut err);
    }
}

/// Why a file gives no bytes.
fn file_fault(error: &io::Error) -> FileFault {
    if error.kind() == ErrorKind::OutOfMemory {
        FileFault::Memory
    } else {
        FileFault::CannotRead
    }
}

/// The machine's arguments.
fn words_of<R: Env + AllocGlobal>(rt: &R) -> io::Result<Vec<String>> {
    Ok(env::args(rt)?.collect(rt.alloc())?)
}

/// Why the arguments were not read.
fn words_fault(error: &io::Error) -> Fault<'static> {
    if error.kind() == ErrorKind::OutOfMemory {
        Fault::Memory
    } else {
        Fault::Own(CommandReason::Words)
    }
}

/// The status of the command with the machine's arguments, over these files. It is a fault where the arguments were not
/// read or allocation of the output's buffer failed.
fn run_words<R: Env + Print + AllocGlobal + Threads + Wait + Sync, F: Files + Sync, E: Write>(
    rt: &R,
    files: &mut F,
    err: &mut E,
) -> Result<u8, Fault<'static>>
where
    F::Reader: Send,
{
    let words = words_of(rt).map_err(|error| words_fault(&error))?;
    let mut out = BufWriter::new(rt.alloc(), io::writer(rt)).map_err(|_| Fault::Memory)?;
    Ok(command(rt.alloc(), rt, files, words.as_slice(), &mut out, err))
}

/// Runs the command with the machine's arguments over these files, with its standard output, and returns the exit status.
pub fn run<R: Env + Print + AllocGlobal + Threads + Wait + Sync, F: Files + Sync, E: Write>(
    rt: &R,
    files: &mut F,
    err: &mut E,
) -> u8
where
    F::Reader: Send,
{
    match run_words(rt, files, err) {
        Ok(status) => status,
        Err(fault) => report_error(err, &fault).code(),
    }
}
