//! Reading a log a piece at a time.

ghost use Rattle.std.specs.Prelude.{◌≡◌, ◌⊎◌, ◌≤◌, ◌<◌, ◌++◌, ℕ, List, [], length, take, drop, vec_len, true, false};
ghost use Rattle.std.specs.Prelude.{Ok};
ghost use Rattle.std.specs.Prelude.{IfOk, IfErr, OnOk};
ghost use Rattle.std.specs.Io.KnownBytes.{IsAtEnd, Keeps, prepend_known};
ghost use Rattle.csv.specs.declared.parser.State.TheVariants.{StartRecord};
ghost use Rattle.retire.specs.HasRead.{GoesOn, HasFailed, HasRead, IsFirstFault, content_of, given_to, left_to};
ghost use Rattle.retire.specs.Log.{IsReadOrMemory, log_up_to, records_of};
ghost use Rattle.retire.specs.steps.RowsLeft.{MayFollow, records_left};
ghost use Rattle.retire.specs.declared.event.Event.{Event as AnyEvent};

use crate::boundary::boundary;
use crate::event::Event;
use crate::fault::LogFault;
use crate::fill::{drop_front, fill, keep};
use crate::mark::mark_length;
use crate::piece::{read_first, read_rows};
use crate::piece_buffer::PieceBuffer;
use crate::plain::{after_header, plain_rows};
use crate::source::Source;
use std::alloc::{Allocator, Global};
use std::mem;

/// What was read of a log so far.
#[derive(Clone, Copy)]
pub(crate) enum Stage {
    /// Nothing.
    Start,
    /// A byte order mark or none, and no record.
    Header,
    /// The header and rows.
    Rows,
    /// A fault.
    Failed(LogFault),
}

/// Reads the events of a log from a source, a piece at a time, so that no list holds all of them and no buffer all of
/// the text: a piece has about 32,768 bytes, or the longest record if that is longer.
#[derive(Drop)]
pub struct LogReader<S> {
    source: S,
    global: Global,
    /// What a call of the source gives.
    room: Vec<u8>,
    /// What the source gave and was not read yet.
    held: Vec<u8>,
    spare: Vec<u8>,
    /// How many bytes are held before rows are read of them.
    size: usize,
    most: u32,
    rows: u32,
    is_ended: bool,
    stage: Stage,
}

impl<S: Source> LogReader<S> {
    /// The reader of a log that may have so many rows, before its first piece.
    pub fn new(buffer: PieceBuffer, global: Global, most: u32, source: S) -> LogReader<S>
        ensures read { S.given source ≡ [] → HasRead S.given S.left most [] result }
        ensures content { content_of S.given S.left result ≡ prepend_known (S.given source) (S.left source) }
    {
        let PieceBuffer {
            room,
            mut held,
            spare,
            size,
        } = buffer;
        held.clear();
        LogReader {
            source,
            global,
            room,
            held,
            spare,
            size,
            most,
            rows: 0,
            is_ended: false,
            stage: Stage::Start,
        }
    }

    /// Holds enough bytes for a piece, or all that are left.
    fn fill_up(&mut self) -> Result<(), LogFault>
        ensures goes_on { (most : ℕ) (seen : List AnyEvent) → HasRead S.given S.left most seen self.old
            → OnOk result (HasRead S.given S.left most seen self.new) }
        ensures faults { (most : ℕ) (seen : List AnyEvent) → HasRead S.given S.left most seen self.old
            → IfErr result (HasFailed S.given S.left most self.new) }
        ensures kept { Keeps (content_of S.given S.left self.old) (content_of S.given S.left self.new) }
    {
        if self.is_ended || matches!(self.stage, Stage::Failed(_)) {
            return Ok(());
        }
        let room = self.room.as_mut_slice();
        match fill(&mut self.source, room, &mut self.held, self.size) {
            Ok(is_ended) => {
                self.is_ended = is_ended;
                Ok(())
            }
            Err(fault) => Err(fault),
        }
    }

    /// The end of the piece that is read next: that of what is held once the source has ended, or else a place where a
    /// record starts. It is 0 if the record at hand is longer than what is held.
    fn cut(&self) -> usize
        ensures within { result ≤ vec_len self.now.held }
        ensures splits { (more : List ℕ) → MayFollow self.now.is_ended more
            → records_left StartRecord (self.now.held.items ++ more)
            ≡ records_left StartRecord (take result self.now.held.items)
            ++ records_left StartRecord (drop result self.now.held.items ++ more) }
    {
        if self.is_ended {
            self.held.len()
        } else {
            boundary(&self.held)
        }
    }

    /// Drops a byte order mark, once so many bytes are held that it is known whether there is one.
    fn begin(&mut self) -> Result<(), LogFault>
        requires start { self.old.stage ≡ Stage.Start }
        ensures goes_on { (most : ℕ) (seen : List AnyEvent) → HasRead S.given S.left most seen self.old
            → OnOk result (HasRead S.given S.left most seen self.new) }
        ensures faults { (most : ℕ) (seen : List AnyEvent) → HasRead S.given S.left most seen self.old
            → IfErr result (HasFailed S.given S.left most self.new) }
        ensures source { self.new.source ≡ self.old.source }
    {
        if self.held.len() < 3 && !self.is_ended {
            self.size = self.size.max(3);
            return Ok(());
        }
        let mark = mark_length(&self.held);
        match drop_front(&mut self.held, &mut self.spare, mark) {
            Ok(()) => {
                self.stage = Stage::Header;
                Ok(())
            }
            Err(fault) => Err(fault),
        }
    }

    /// Reads the header's line at the front of what is held, and returns whether it is there.
    fn read_names(&mut self) -> Result<bool, LogFault>
        requires header { self.old.stage ≡ Stage.Header }
        ensures goes_on { (most : ℕ) (seen : List AnyEvent) → HasRead S.given S.left most seen self.old
            → OnOk result (HasRead S.given S.left most seen self.new) }
        ensures some { result ≡ Ok true → self.new.stage ≡ Stage.Rows }
        ensures still { result ≡ Ok false → self.new.stage ≡ Stage.Header }
        ensures faults { (most : ℕ) (seen : List AnyEvent) → HasRead S.given S.left most seen self.old
            → IfErr result (HasFailed S.given S.left most self.new) }
        ensures source { self.new.source ≡ self.old.source }
    {
        let Some(rest) = after_header(&self.held, self.is_ended) else {
            return Ok(false);
        };
        match keep(&mut self.spare, rest) {
            Ok(()) => {
                mem::swap(&mut self.held, &mut self.spare);
                self.stage = Stage::Rows;
                Ok(true)
            }
            Err(fault) => Err(fault),
        }
    }

    /// Reads the rows at the front of what is held, straight from their bytes, and returns whether there was one.
    fn read_front<E: Allocator>(&mut self, events: &mut Vec<Event, E>) -> Result<bool, LogFault>
        requires rows { self.old.stage ≡ Stage.Rows }
        ensures goes_on { (most : ℕ) (seen : List AnyEvent) → HasRead S.given S.left most seen self.old
            → OnOk result (GoesOn S.given S.left most seen events.old.items events.new.items self.new) }
        ensures still { result ≡ Ok false → (self.new.stage ≡ Stage.Rows) × (events.new.items ≡ events.old.items) }
        ensures faults { (most : ℕ) (seen : List AnyEvent) → HasRead S.given S.left most seen self.old
            → IfErr result (HasFailed S.given S.left most self.new) }
        ensures source { self.new.source ≡ self.old.source }
    {
        let rows = self.rows.min(self.most);
        let read = match plain_rows(events, self.most, rows, &self.held, self.is_ended) {
            Ok(read) => read,
            Err(fault) => return Err(fault),
        };
        if read.rows == rows {
            return Ok(false);
        }
        self.rows = read.rows;
        match keep(&mut self.spare, read.rest) {
            Ok(()) => {
                mem::swap(&mut self.held, &mut self.spare);
                Ok(true)
            }
            Err(fault) => Err(fault),
        }
    }

    /// Reads a piece before which no record was read, by `csv`.
    fn header_piece<E: Allocator>(&mut self, events: &mut Vec<Event, E>) -> Result<(), LogFault>
        requires header { self.old.stage ≡ Stage.Header }
        ensures goes_on { (most : ℕ) (seen : List AnyEvent) → HasRead S.given S.left most seen self.old
            → OnOk result (GoesOn S.given S.left most seen events.old.items events.new.items self.new) }
        ensures faults { (most : ℕ) (seen : List AnyEvent) → HasRead S.given S.left most seen self.old
            → IfErr result (HasFailed S.given S.left most self.new) }
        ensures source { self.new.source ≡ self.old.source }
    {
        let cut = self.cut();
        if cut == 0 {
            self.size = self.size.saturating_mul(2);
            return Ok(());
        }
        let (piece, _) = self.held.split_at(cut);
        let found = match read_first(events, self.global, self.most, piece) {
            Ok(found) => found,
            Err(fault) => return Err(fault),
        };
        let Some(rows) = found else {
            return drop_front(&mut self.held, &mut self.spare, cut);
        };
        self.rows = rows;
        self.stage = Stage::Rows;
        drop_front(&mut self.held, &mut self.spare, cut)
    }

    /// Reads a piece of rows, by `csv`.
    fn rows_piece<E: Allocator>(&mut self, events: &mut Vec<Event, E>) -> Result<(), LogFault>
        requires rows { self.old.stage ≡ Stage.Rows }
        ensures goes_on { (most : ℕ) (seen : List AnyEvent) → HasRead S.given S.left most seen self.old
            → OnOk result (GoesOn S.given S.left most seen events.old.items events.new.items self.new) }
        ensures faults { (most : ℕ) (seen : List AnyEvent) → HasRead S.given S.left most seen self.old
            → IfErr result (HasFailed S.given S.left most self.new) }
        ensures source { self.new.source ≡ self.old.source }
    {
        let cut = self.cut();
        if cut == 0 {
            self.size = self.size.saturating_mul(2);
            return Ok(());
        }
        let (piece, _) = self.held.split_at(cut);
        let rows = self.rows.min(self.most);
        let count = match read_rows(events, self.global, self.most, rows, piece) {
            Ok(count) => count,
            Err(fault) => return Err(fault),
        };
        self.rows = count;
        drop_front(&mut self.held, &mut self.spare, cut)
    }

    /// Reads rows: those at the front of what is held, or else a piece by `csv`.
    fn read_on<E: Allocator>(&mut self, events: &mut Vec<Event, E>) -> Result<(), LogFault>
        requires rows { self.old.stage ≡ Stage.Rows }
        ensures goes_on { (most : ℕ) (seen : List AnyEvent) → HasRead S.given S.left most seen self.old
            → OnOk result (GoesOn S.given S.left most seen events.old.items events.new.items self.new) }
        ensures faults { (most : ℕ) (seen : List AnyEvent) → HasRead S.given S.left most seen self.old
            → IfErr result (HasFailed S.given S.left most self.new) }
        ensures source { self.new.source ≡ self.old.source }
    {
        match self.read_front(events) {
            Ok(true) => Ok(()),
            Ok(false) => self.rows_piece(events),
            Err(fault) => Err(fault),
        }
    }

    /// Reads the header's line and rows, or else a piece by `csv`.
    fn read_header<E: Allocator>(&mut self, events: &mut Vec<Event, E>) -> Result<(), LogFault>
        requires header { self.old.stage ≡ Stage.Header }
        ensures goes_on { (most : ℕ) (seen : List AnyEvent) → HasRead S.given S.left most seen self.old
            → OnOk result (GoesOn S.given S.left most seen events.old.items events.new.items self.new) }
        ensures faults { (most : ℕ) (seen : List AnyEvent) → HasRead S.given S.left most seen self.old
            → IfErr result (HasFailed S.given S.left most self.new) }
        ensures source { self.new.source ≡ self.old.source }
    {
        match self.read_names() {
            Ok(true) => self.read_on(events),
            Ok(false) => self.header_piece(events),
            Err(fault) => Err(fault),
        }
    }

    /// Reads on by a piece, and returns whether the log ended before it. There may be no row in a piece.
    fn turn<E: Allocator>(&mut self, events: &mut Vec<Event, E>) -> Result<bool, LogFault>
        ensures goes_on { (most : ℕ) (seen : List AnyEvent) → HasRead S.given S.left most seen self.old
            → OnOk result (GoesOn S.given S.left most seen events.old.items events.new.items self.new) }
        ensures end { (most : ℕ) (seen : List AnyEvent) → HasRead S.given S.left most seen self.old
            → result ≡ Ok true
            → IsAtEnd (left_to S.left self.new)
            × (log_up_to most (records_of (given_to S.given self.new)) ≡ Ok seen) }
        ensures end_same { result ≡ Ok true → events.new ≡ events.old }
        ensures faults { (most : ℕ) (seen : List AnyEvent) → HasRead S.given S.left most seen self.old
            → IfErr result (HasFailed S.given S.left most self.new) }
        ensures kept { Keeps (content_of S.given S.left self.old) (content_of S.given S.left self.new) }
    {
        if let Err(fault) = self.fill_up() {
            return Err(fault);
        }
        match self.stage {
            Stage::Start => match self.begin() {
                Ok(()) => Ok(false),
                Err(fault) => Err(fault),
            },
            Stage::Header => {
                if self.is_ended && self.held.is_empty() {
                    return Err(LogFault::Header);
                }
                match self.read_header(events) {
                    Ok(()) => Ok(false),
                    Err(fault) => Err(fault),
                }
            }
            Stage::Rows => {
                if self.is_ended && self.held.is_empty() {
                    return Ok(true);
                }
                match self.read_on(events) {
                    Ok(()) => Ok(false),
                    Err(fault) => Err(fault),
                }
            }
            Stage::Failed(fault) => Err(fault),
        }
    }

    /// Appends the events of the next piece to a list, and returns whether there was one: a piece has a row at least,
    /// and `false` means that the log has ended.
    ///
    /// The fault is the one that [`read_log`](crate::read_log) returns, and comes with the piece that has its row. Which
    /// of the events before it the list has then is not said. [`LogFault::Read`] and [`LogFault::Memory`] say nothing about the log. After a
    /// fault each call returns it again.
    pub fn next<E: Allocator>(&mut self, events: &mut Vec<Event, E>) -> Result<bool, LogFault>
        ensures goes_on { (most : ℕ) (seen : List AnyEvent) → HasRead S.given S.left most seen self.old
            → OnOk result (GoesOn S.given S.left most seen events.old.items events.new.items self.new) }
        ensures some { result ≡ Ok true → length events.old.items < length events.new.items }
        ensures end { (most : ℕ) (seen : List AnyEvent) → HasRead S.given S.left most seen self.old
            → result ≡ Ok false
            → (events.new.items ≡ events.old.items) × IsAtEnd (left_to S.left self.new)
            × (log_up_to most (records_of (given_to S.given self.new)) ≡ Ok seen) }
        ensures faults { (most : ℕ) (seen : List AnyEvent) → HasRead S.given S.left most seen self.old
            → IfErr result (λ why. IsReadOrMemory why
            ⊎ IsFirstFault most (given_to S.given self.new) (left_to S.left self.new) why) }
        ensures kept { Keeps (content_of S.given S.left self.old) (content_of S.given S.left self.new) }
    {
        let before = events.len();
        for _ in 0..u64::MAX {
            match self.turn(events) {
                Ok(true) => return Ok(false),
                Ok(false) => {}
                Err(fault) => {
                    self.stage = Stage::Failed(fault);
                    return Err(fault);
                }
            }
            if events.len() > before {
                return Ok(true);
            }
        }
        Err(LogFault::Memory)
    }

    /// The source, which has given the bytes up to those that are held.
    pub fn source(&self) -> &S
        ensures given { S.given result.now ≡ given_to S.given self.now }
        ensures left { S.left result.now ≡ left_to S.left self.now }
    {
        &self.source
    }
}
