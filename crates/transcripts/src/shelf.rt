//! Files in memory.

ghost use Rattle.std.specs.Prelude.{◌≡◌, ◌⊎◌, [], MatchOption, MatchResult, map, string_bytes};
ghost use Rattle.log_streams.specs.Known.{Absent, Present, content_in};

use commands::{FileFault, FileReader, Files};
use retire::Given;
use std::alloc::{AllocError, Global};
use std::io::{Cursor, Read};
use std::sync::atomic::{AtomicU64, Ordering};

/// A file in memory.
#[derive(Drop)]
struct File {
    name: String,
    bytes: Vec<u8>,
    /// How often it was read or opened.
    reads: AtomicU64,
}

/// Files, the newest first: where two have one name, the newest counts.
#[derive(Drop)]
pub(crate) struct Shelf {
    alloc: Global,
    files: Vec<File>,
    /// How often progress was begun.
    begun: AtomicU64,
    /// How often it had been begun when it was last ended.
    ended: AtomicU64,
    /// How many messages were announced where progress was begun.
    messages: AtomicU64,
    /// How many of them were noted.
    noted: AtomicU64,
    /// How often messages were noted, or the progress of messages was ended, where nothing was under way.
    strays: AtomicU64,
}

impl Shelf {
    /// No file.
    pub(crate) fn new(alloc: Global) -> Shelf
        ensures { result.files.items ≡ [] }
    {
        Shelf {
            alloc,
            files: Vec::new(alloc),
            begun: AtomicU64::new(0),
            ended: AtomicU64::new(0),
            messages: AtomicU64::new(0),
            noted: AtomicU64::new(0),
            strays: AtomicU64::new(0),
        }
    }

    /// Adds a file of this name, with nothing in it.
    pub(crate) fn begin(&mut self, name: &str) -> Result<(), AllocError> {
        let file = File {
            name: String::from_str(self.alloc, name)?,
            bytes: Vec::new(self.alloc),
            reads: AtomicU64::new(0),
        };
        Ok(self.files.insert(0, file)?)
    }

    /// The content of the newest file, if there is one.
    pub(crate) fn newest(&mut self) -> Option<&mut Vec<u8>> {
        Some(&mut self.files.first_mut()?.bytes)
    }

    /// Adds the file that a path `NAME:COUNT` names: this count of the first bytes of the file `NAME`. Any other path
    /// adds none.
    pub(crate) fn cut(&mut self, path: &str) -> Result<(), AllocError> {
        let mut file = File {
            name: String::from_str(self.alloc, path)?,
            bytes: Vec::new(self.alloc),
            reads: AtomicU64::new(0),
        };
        match self.beginning(path) {
            Some(bytes) => file.bytes.extend_from_slice(bytes)?,
            None => return Ok(()),
        }
        Ok(self.files.insert(0, file)?)
    }

    /// The bytes that a path `NAME:COUNT` means.
    fn beginning(&self, path: &str) -> Option<&[u8]> {
        let (name, count) = path.split_once(':')?;
        let count = count.parse().ok()?;
        self.content(name)?.get(..count)
    }

    /// The content of the file of this name.
    pub(crate) fn content(&self, name: &str) -> Option<&[u8]>
        ensures { let files = map (λ file. (string_bytes file.name, file.bytes.items)) self.now.files.items in
            MatchOption result (content_in files name.now ≡ Absent) (λ bytes. content_in files name.now
            ≡ Present bytes.now) }
    {
        for file in &self.files {
            if file.name.as_str() == name {
                return Some(file.bytes.as_slice());
            }
        }
        None
    }

    /// Forgets how often files were read, that progress was begun, and of how many messages.
    pub(crate) fn forget_reads(&self) {
        self.messages.store(0, Ordering::Relaxed);
        self.noted.store(0, Ordering::Relaxed);
        self.strays.store(0, Ordering::Relaxed);
        self.begun.store(0, Ordering::Relaxed);
        self.ended.store(0, Ordering::Relaxed);
        for file in &self.files {
            file.reads.store(0, Ordering::Relaxed);
        }
    }

    /// How often the file of this name was read or opened.
    pub(crate) fn reads(&self, name: &str) -> u64 {
        for file in &self.files {
            if file.name.as_str() == name {
                return file.reads.load(Ordering::Relaxed);
            }
        }
        0
    }

    /// How often progress was begun, and how often it had been begun when it was last ended.
    pub(crate) fn progress(&self) -> (u64, u64) {
        (
            self.begun.load(Ordering::Relaxed),
            self.ended.load(Ordering::Relaxed),
        )
    }

    /// How often messages were noted, or the progress of messages was ended, where nothing was under way.
    pub(crate) fn strays(&self) -> u64 {
        self.strays.load(Ordering::Relaxed)
    }

    /// Counts a stray where nothing is under way.
    fn count_stray(&self) {
        if self.ended.load(Ordering::Relaxed) == self.begun.load(Ordering::Relaxed) {
            self.strays.fetch_add(1, Ordering::Relaxed);
        }
    }

    /// How many messages were announced where progress was begun, and how many were noted.
    pub(crate) fn messages(&self) -> (u64, u64) {
        (
            self.messages.load(Ordering::Relaxed),
            self.noted.load(Ordering::Relaxed),
        )
    }

    /// Counts a read of the file of this name.
    fn count_read(&self, name: &str) {
        for file in &self.files {
            if file.name.as_str() == name {
                file.reads.fetch_add(1, Ordering::Relaxed);
                return;
            }
        }
    }

    /// A copy of the content of the file of this name. The allocation for the file `full` fails.
    fn copy(&self, name: &str) -> Result<Vec<u8>, FileFault>
        ensures { let files = map (λ file. (string_bytes file.name, file.bytes.items)) self.now.files.items in
            MatchResult result (λ bytes. content_in files name.now ≡ Present bytes.items)
            (λ why. (why ≡ FileFault.Memory) ⊎ (content_in files name.now ≡ Absent)) }
    {
        self.count_read(name);
        if name == "full" {
            return Err(FileFault::Memory);
        }
        match self.content(name) {
            Some(bytes) => Vec::from_slice(self.alloc, bytes).map_err(|_| FileFault::Memory),
            None => Err(FileFault::CannotRead),
        }
    }
}

impl Files for Shelf {
    ghost content = { λ shelf path.
        content_in (map (λ file. (string_bytes file.name, file.bytes.items)) shelf.files.items) path };

    type Reader = Opened;

    fn read(&mut self, path: &str, most: Option<usize>) -> Result<Vec<u8>, FileFault> {
        let mut bytes = self.copy(path)?;
        if let Some(most) = most {
            bytes.truncate(most);
        }
        Ok(bytes)
    }

    fn open_file(&self, path: &str) -> Result<Opened, FileFault> {
        match self.copy(path) {
            Ok(bytes) => Ok(Opened {
                rest: Cursor::new(bytes),
                given: Given::new(),
            }),
            Err(why) => Err(why),
        }
    }

    fn begin_progress(&self, paths: &[&str]) {
        let _ = paths;
        self.begun.fetch_add(1, Ordering::Relaxed);
    }

    fn begin_messages(&self, total: u64) {
        self.begun.fetch_add(1, Ordering::Relaxed);
        self.messages.fetch_add(total, Ordering::Relaxed);
    }

    fn note_messages(&self, count: u64) {
        self.noted.fetch_add(count, Ordering::Relaxed);
        self.count_stray();
    }

    fn end_progress(&self) {
        if self.messages.load(Ordering::Relaxed) > 0 {
            self.count_stray();
        }
        self.ended
            .store(self.begun.load(Ordering::Relaxed), Ordering::Relaxed);
    }
}

/// A file that is open.
#[derive(Drop)]
pub(crate) struct Opened {
    rest: Cursor<Vec<u8>>,
    given: Given,
}

impl FileReader for Opened {
    ghost given = { λ file. file.given.bytes };

    ghost left = { λ file. ⟦<Cursor<Vec<u8>> as Read>⟧.remaining file.rest };

    fn read(&mut self, buffer: &mut [u8]) -> Result<usize, FileFault> {
        match self.rest.read(buffer) {
            Ok(count) => {
                self.given.put(&buffer[..count]);
                Ok(count)
            }
            Err(_) => Err(FileFault::Memory),
        }
    }
}
