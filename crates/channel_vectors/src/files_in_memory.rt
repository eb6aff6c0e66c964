//! Files in memory that count how they are opened. The path of a file is its number, from 0 on.

use cases::Case;
use log_streams::{FileFault, FileReader, Files};
use retire::Given;
use std::alloc::Global;
use std::io::{Cursor, Read};
use std::sync::atomic::{AtomicBool, AtomicU64, Ordering};

/// What a file is.
#[derive(Clone, Copy, PartialEq, Eq)]
pub(crate) enum Kind {
    /// A regular file.
    Regular,
    /// A pipe.
    Pipe,
    /// A regular file whose device fails after its bytes.
    Failing,
    /// A regular file for which an allocation fails.
    Refused,
    /// A regular file that may not be opened.
    Locked,
    /// No file.
    Lacking,
}

impl Kind {
    /// Whether a file of this kind is a regular one.
    pub(crate) fn is_regular(self) -> bool {
        self != Kind::Pipe && self != Kind::Lacking
    }
}

/// A file.
#[derive(Drop)]
pub(crate) struct File {
    pub(crate) kind: Kind,
    text: String,
    /// How often it was opened.
    pub(crate) opens: AtomicU64,
    /// How many files were opened before it was opened last.
    pub(crate) place: AtomicU64,
}

/// Files, by their numbers.
#[derive(Drop)]
pub(crate) struct Table {
    alloc: Global,
    pub(crate) files: Vec<File>,
    /// Whether a pipe is open that was not read to its end.
    is_pipe_open: AtomicBool,
    /// How often a pipe was opened before the one that was opened last was read to its end.
    pub(crate) early: AtomicU64,
    /// How many files were opened.
    opened: AtomicU64,
}

impl Table {
    /// No file.
    pub(crate) fn new(alloc: Global) -> Table {
        Table {
            alloc,
            files: Vec::new(alloc),
            is_pipe_open: AtomicBool::new(false),
            early: AtomicU64::new(0),
            opened: AtomicU64::new(0),
        }
    }

    /// Adds a file.
    pub(crate) fn put(&mut self, case: &Case, kind: Kind, text: String) {
        let file = File {
            kind,
            text,
            opens: AtomicU64::new(0),
            place: AtomicU64::new(0),
        };
        case.push(&mut self.files, file);
    }

    /// The file at this path.
    fn file(&self, path: &str) -> Option<&File> {
        match path.parse::<usize>() {
            Ok(number) => self.files.get(number),
            Err(_) => None,
        }
    }

    /// Notes that a pipe is opened.
    fn open_pipe(&self) {
        if self.is_pipe_open.swap(true, Ordering::SeqCst) {
            self.early.fetch_add(1, Ordering::SeqCst);
        }
    }
}

/// A file that is open.
#[derive(Drop)]
pub(crate) struct Opened {
    rest: Cursor<Vec<u8>>,
    given: Given,
    /// Whether the device fails after the bytes.
    fails: bool,
}

impl FileReader for Opened {
    ghost given = { λ file. file.given.bytes };

    fn read(&mut self, buffer: &mut [u8]) -> Result<usize, FileFault> {
        match self.rest.read(buffer) {
            Ok(0) if self.fails => Err(FileFault::CannotRead),
            Ok(count) => {
                self.given.put(&buffer[..count]);
                Ok(count)
            }
            Err(_) => Err(FileFault::CannotRead),
        }
    }
}

impl Files for Table {
    type Reader = Opened;

    fn read(&mut self, path: &str, most: Option<usize>) -> Result<Vec<u8>, FileFault> {
        let _ = path;
        let _ = most;
        Err(FileFault::CannotRead)
    }

    fn open_file(&self, path: &str) -> Result<Opened, FileFault> {
        let Some(file) = self.file(path) else {
            return Err(FileFault::CannotRead);
        };
        file.opens.fetch_add(1, Ordering::SeqCst);
        let place = self.opened.fetch_add(1, Ordering::SeqCst);
        file.place.store(place, Ordering::SeqCst);
        match file.kind {
            Kind::Refused => return Err(FileFault::Memory),
            Kind::Locked | Kind::Lacking => return Err(FileFault::CannotRead),
            Kind::Pipe => self.open_pipe(),
            Kind::Regular | Kind::Failing => {}
        }
        let Ok(bytes) = Vec::from_slice(self.alloc, file.text.as_bytes()) else {
            return Err(FileFault::Memory);
        };
        Ok(Opened {
            rest: Cursor::new(bytes),
            given: Given::new(),
            fails: file.kind == Kind::Failing,
        })
    }

    fn note_read(&self, path: &str, count: usize) {
        let Some(file) = self.file(path) else {
            return;
        };
        if count == 0 && file.kind == Kind::Pipe {
            self.is_pipe_open.store(false, Ordering::SeqCst);
        }
    }

    fn is_regular(&self, path: &str) -> bool {
        match self.file(path) {
            Some(file) => file.kind.is_regular(),
            None => false,
        }
    }
}
