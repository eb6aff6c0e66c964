//! The messages of a file that is open.

ghost use Rattle.std.specs.Prelude.{◌≡◌, ◌≤◌, ℕ, [], IfOk, List, None, drop, false, length, take};

use command_inputs::{FileFault, FileReader};
use frames::{first_place, start_of};
use live::{SentSource, SourceFault};
use message::{HEADER_SIZE, Header, Message, MessageFault, Messages};
use std::alloc::{AllocError, Global};
use std::marker::Model;

/// How many bytes are held at most.
const BLOCK_BYTES: usize = 65_536;

/// The bytes of a file that were read and are not passed yet. A clause sees these.
#[derive(Drop)]
struct Block {
    /// Bytes that were read.
    bytes: Vec<u8>,
    /// Where those begin that are not passed yet.
    from: usize,
    /// Where they end.
    to: usize,
}

impl Model for Block {
    ghost Value = { List ℕ };

    ghost view = { λ own. drop own.from (take own.to own.bytes.items) };

    ghost invariant = { λ own. (own.from ≤ own.to) × (own.to ≤ length own.bytes.items) };
}

impl Block {
    /// Before the first byte is read. Memory is taken once.
    fn new(alloc: Global) -> Result<Block, AllocError>
        ensures { IfOk result (λ own. own ≡ []) }
    {
        Ok(Block {
            bytes: vec![in alloc; 0; BLOCK_BYTES]?,
            from: 0,
            to: 0,
        })
    }

    /// The bytes.
    fn held(&self) -> &[u8]
        ensures { result.now ≡ self.now }
    {
        &self.bytes[self.from..self.to]
    }

    /// Passes over so many of them.
    fn pass(&mut self, count: usize)
        requires { count ≤ length self.old }
        ensures { self.new ≡ drop count self.old }
    {
        self.from += count;
    }

    /// Moves them to the front of the memory.
    fn move_to_front(&mut self)
        ensures { self.new ≡ self.old }
    {
        self.bytes.copy_within(self.from..self.to, 0);
        self.to -= self.from;
        self.from = 0;
    }

    /// Reads more bytes after them. Returns whether there were any.
    fn read<R: FileReader>(&mut self, reader: &mut R) -> Result<bool, SourceFault> {
        self.move_to_front();
        match reader.read(&mut self.bytes[self.to..]) {
            Ok(count) => {
                self.to += count;
                Ok(count > 0)
            }
            Err(FileFault::CannotRead) => Err(SourceFault::Read),
            Err(FileFault::Memory) => Err(SourceFault::Memory),
        }
    }
}

/// The messages of a file that is open, which are read as the file gives its bytes. No more is held than a block.
#[derive(Drop)]
pub(crate) struct MessageStream<R> {
    /// The file.
    reader: R,
    /// The bytes that were read last.
    block: Block,
    /// How many messages were passed.
    messages: u64,
}

impl<R: FileReader + Drop> MessageStream<R> {
    /// Before the first byte is read. Memory is taken once.
    pub(crate) fn new(alloc: Global, reader: R) -> Result<MessageStream<R>, AllocError> {
        Ok(MessageStream {
            reader,
            block: Block::new(alloc)?,
            messages: 0,
        })
    }

    /// How many messages were passed.
    pub(crate) fn messages(&self) -> u64 {
        self.messages
    }

    /// The header that the file begins with, or `None` where it does not begin as a capture of version 2 does. Only a
    /// header is passed.
    pub(crate) fn header(&mut self) -> Result<Option<Header>, SourceFault> {
        self.read_start()?;
        let start = start_of(self.block.held());
        if let Some(why) = start.fault {
            return Err(SourceFault::Unread(why));
        }
        self.block.pass(first_place(start.header));
        Ok(start.header)
    }

    /// Reads as many bytes as a header has, or to the end.
    fn read_start(&mut self) -> Result<(), SourceFault> {
        for _ in 0..u64::MAX {
            if self.block.held().len() >= HEADER_SIZE || !self.block.read(&mut self.reader)? {
                return Ok(());
            }
        }
        // No file is read so often.
        Err(SourceFault::Memory)
    }

    /// The next message, `None` at the end of the file.
    pub(crate) fn next_message(&mut self) -> Result<Option<Message>, SourceFault> {
        for _ in 0..u64::MAX {
            let at_end = match Messages::new(self.block.held()).next() {
                Ok(Some(message)) => {
                    self.block.pass(message.size());
                    self.messages = self.messages.saturating_add(1);
                    return Ok(Some(message));
                }
                Ok(None) => Ok(None),
                Err(MessageFault::Short) => Err(SourceFault::Unread(MessageFault::Short)),
                Err(why) => return Err(SourceFault::Unread(why)),
            };
            if !self.block.read(&mut self.reader)? {
                return at_end;
            }
        }
        // No file is read so often.
        Err(SourceFault::Memory)
    }
}

impl<R: FileReader + Drop> SentSource for MessageStream<R> {
    ghost left = { λ _. record { known = false; messages = []; ending = None } };

    fn next(&mut self) -> Result<Option<Message>, SourceFault> {
        self.next_message()
    }
}
