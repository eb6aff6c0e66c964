//! How a hart walks through a program: what it draws where the program leaves it open.

ghost use Rattle.std.specs.Prelude.{◌≡◌, ◌%◌, ◌/◌, ◌==◌, ◌&&◌, if◌then◌else◌, nat_le, nat_lt};
ghost use Rattle.retire.specs.Is64Bit.{Is64Bit};
ghost use Rattle.rvclass.specs.Fetch.{words_of};
ghost use Rattle.rvclass.specs.Image.{IsImage};
ghost use Rattle.legalpath.specs.Allowed.{may_retire_at};
ghost use Rattle.stimulus.specs.Walk.{branches, comes_at, draws_trap, epc_by, excepts, extent_of, first_walk, handles};
ghost use Rattle.stimulus.specs.Walk.{lands, level_of, levels, number, retires_free, retires_to, returns_by, steps};
ghost use Rattle.stimulus.specs.WalkKept.{state_of, walk_of};

use crate::mix::{Habits, Mix, habits_of};
use legalpath::{greatest_after, may_retire_at};
use rand_core::utils::NextWord;
use rand_pcg::Pcg32;
use retire::{
    Event, ITYPE_NOT_TAKEN, ITYPE_OTHER, ITYPE_TAKEN, ITYPE_TRAP_RETURN, ITYPE_UNINFERABLE,
};
use rvclass::{Class, ProgramOver};

/// The generator's stream of hart 0. Lower streams are those of the slots of the program.
const FIRST_STREAM: u64 = 0x1_0000;

/// The cause of an exception at an address without an instruction, of one at an instruction that does not retire at the
/// privilege, and the first of those of calls, which are numbered by the privilege (the Privileged Architecture,
/// "Machine Cause Register").
const ACCESS_FAULT: u8 = 1;

const ILLEGAL: u8 = 2;

const CALL: u8 = 8;

/// Where the slots of a program are.
#[derive(Clone, Copy)]
pub(crate) struct Extent {
    base: u64,
    /// How many bytes there are.
    size: u64,
}

impl Extent {
    /// The extent of this program, whose pieces are taken for one from the lowest base on.
    pub(crate) fn of(program: &ProgramOver) -> Extent
        ensures extent { result ≡ extent_of program.now }
        ensures image { IsImage program.now }
    {
        Extent {
            base: program.base(),
            size: program.byte_count() as u64,
        }
    }
}

/// What a walk keeps between two events. [`Walk::state`] gives it, and [`Walk::of`] goes on from it.
#[derive(Clone, Copy)]
pub struct WalkState {
    /// The state of the generator that the hart draws from.
    pub random: u64,
    /// Where the next instruction is, if no trap comes before it.
    pub at: u64,
    /// The hart's privilege level.
    pub privilege: u8,
    /// Whether the next event may be anywhere.
    pub is_free: bool,
}

/// Where a hart is, and what it draws from. A [`Hart`](crate::Hart) counts its events too, and ends.
#[derive(Drop)]
pub struct Walk {
    extent: Extent,
    habits: Habits,
    random: Pcg32,
    /// Where the next instruction is, if no trap comes before it.
    at: u64,
    privilege: u8,
    /// Whether the next event may be anywhere.
    is_free: bool,
}

impl Walk {
    /// The walk of a hart before its first event.
    pub(crate) fn new(extent: Extent, mix: Mix, seed: u64, hart: u16) -> Walk
        ensures { result ≡ first_walk extent mix seed hart }
    {
        let mut walk = Walk {
            extent,
            habits: habits_of(mix),
            random: Pcg32::new(seed, FIRST_STREAM + u64::from(hart)),
            at: 0,
            privilege: 3,
            is_free: true,
        };
        walk.land();
        walk.level_up_to(3);
        walk
    }

    /// The walk of the hart of this number, which runs this program and kept this; or before its first event, where it
    /// kept nothing.
    pub fn of(
        program: &ProgramOver,
        mix: Mix,
        seed: u64,
        hart: u16,
        kept: Option<WalkState>,
    ) -> Walk
        ensures walk { result ≡ walk_of program.now mix seed hart kept }
        ensures image { IsImage program.now }
    {
        let extent = Extent::of(program);
        let Some(kept) = kept else {
            return Walk::new(extent, mix, seed, hart);
        };
        Walk {
            extent,
            habits: habits_of(mix),
            random: Pcg32::from_state(kept.random, FIRST_STREAM + u64::from(hart)),
            at: kept.at,
            privilege: kept.privilege,
            is_free: kept.is_free,
        }
    }

    /// What the walk keeps, from which [`Walk::of`] makes the same walk.
    pub fn state(&self) -> WalkState
        ensures { result ≡ state_of self.now }
    {
        WalkState {
            random: self.random.state(),
            at: self.at,
            privilege: self.privilege,
            is_free: self.is_free,
        }
    }

    /// The hart's next event.
    #[inline]
    #[tactic(auto, unfolding(crate::specs::Walk::steps))]
    pub fn step(&mut self, program: &ProgramOver) -> Event
        ensures event { (result, self.new) ≡ steps (words_of program.now) self.old }
        ensures numbers { Is64Bit result }
    {
        let of_65536 = if self.is_free {
            self.habits.nested
        } else {
            self.habits.traps
        };
        if self.random.next_word() % 65_536 < of_65536 {
            let event = self.trap();
            self.handle();
            return event;
        }
        let at = self.at;
        match program.at(at) {
            Some((class, length)) => self.come_at(program, class, at + u64::from(length)),
            None => self.except(ACCESS_FAULT, at),
        }
    }

    /// What comes at an instruction of this class, by the address after it.
    #[inline]
    fn come_at(&mut self, program: &ProgramOver, class: Class, behind: u64) -> Event
        ensures { (result, self.new) ≡ comes_at (words_of program.now) class behind self.old }
    {
        match class {
            Class::Plain => self.retire_to(ITYPE_OTHER, behind),
            Class::Jump(to) => self.retire_to(ITYPE_OTHER, to),
            Class::Branch(to) => self.branch(program, to, behind),
            Class::Uninferable => self.retire_free(ITYPE_UNINFERABLE),
            Class::TrapReturn(_) => self.come_back(class),
            Class::NotRetirable => self.except(CALL + self.privilege % 4, 0),
        }
    }

    /// The instruction at the place retires, and leads to this address alone.
    fn retire_to(&mut self, itype: u8, to: u64) -> Event
        ensures { (result, self.new) ≡ retires_to itype to self.old }
    {
        let addr = self.at;
        self.at = to;
        self.is_free = false;
        Event::Retire {
            addr,
            itype,
            privilege: self.privilege,
        }
    }

    /// The instruction at the place retires, and leads anywhere.
    fn retire_free(&mut self, itype: u8) -> Event
        ensures { (result, self.new) ≡ retires_free itype self.old }
    {
        let event = Event::Retire {
            addr: self.at,
            itype,
            privilege: self.privilege,
        };
        self.land();
        event
    }

    /// A branch retires, taken or not.
    #[tactic(auto, unfolding(crate::specs::Walk::branches))]
    fn branch(&mut self, program: &ProgramOver, to: u64, behind: u64) -> Event
        ensures { (result, self.new) ≡ branches (words_of program.now) to behind self.old }
    {
        let draw = self.random.next_word();
        if takes(to, self.at, draw) || program.at(behind).is_none() {
            return self.retire_to(ITYPE_TAKEN, to);
        }
        self.retire_to(ITYPE_NOT_TAKEN, behind)
    }

    /// A return from a trap retires, or is an illegal instruction at the hart's level.
    fn come_back(&mut self, class: Class) -> Event
        ensures { (result, self.new) ≡ returns_by (may_retire_at class self.old.privilege) class self.old }
    {
        if !may_retire_at(class, self.privilege) {
            return self.except(ILLEGAL, 0);
        }
        let greatest = greatest_after(class, self.privilege);
        let event = self.retire_free(ITYPE_TRAP_RETURN);
        self.level_up_to(greatest);
        event
    }

    /// A trap that the program does not call for. Where the hart may be anywhere, each second is at any address.
    #[tactic(auto, unfolding(crate::specs::Walk::draws_trap))]
    fn trap(&mut self) -> Event
        ensures { (result, self.new) ≡ draws_trap self.old }
    {
        let draw = self.random.next_word();
        let epc = self.epc(draw);
        if draw % 256 < self.habits.interrupts {
            return Event::Trap {
                epc,
                privilege: self.privilege,
                interrupt: true,
                cause: (draw / 1024 % 16) as u8,
                tval: 0,
            };
        }
        let tval = self.number(self.habits.shortened);
        Event::Trap {
            epc,
            privilege: self.privilege,
            interrupt: false,
            cause: (draw / 1024 % 64) as u8,
            tval,
        }
    }

    /// The exception program counter of a trap, by the draw that describes it.
    fn epc(&mut self, draw: u32) -> u64
        ensures { (result, self.new) ≡ epc_by (self.old.is_free && (draw / 256 % 2 == 0)) self.old }
    {
        if self.is_free && draw / 256 % 2 == 0 {
            return self.number(63) / 2 * 2;
        }
        self.at
    }

    /// An exception at the next instruction.
    #[tactic(auto, unfolding(crate::specs::Walk::excepts))]
    fn except(&mut self, cause: u8, tval: u64) -> Event
        ensures { (result, self.new) ≡ excepts cause tval self.old }
    {
        let event = Event::Trap {
            epc: self.at,
            privilege: self.privilege,
            interrupt: false,
            cause,
            tval,
        };
        self.handle();
        event
    }

    /// A number of 64 bits, shortened by a drawn count of bits, at most this many.
    #[tactic(auto, unfolding(crate::specs::Walk::number))]
    fn number(&mut self, shortened: u32) -> u64
        ensures { (result, self.new) ≡ number shortened self.old }
    {
        let low = u64::from(self.random.next_word());
        let high = u64::from(self.random.next_word());
        let by = self.random.next_word() % (shortened % 64 + 1);
        (high * 0x1_0000_0000 + low) >> by
    }

    /// Goes to a slot of the program.
    #[tactic(auto, unfolding(crate::specs::Walk::lands))]
    fn land(&mut self)
        ensures { self.new ≡ lands self.old }
    {
        let size = self.extent.size.max(4);
        let far = u64::from(self.random.next_word()) % size / 4 * 4;
        self.at = self.extent.base.wrapping_add(far);
        self.is_free = true;
    }

    /// Goes to a trap's handler: at machine level, or at supervisor level for half of the traps from below.
    #[tactic(auto, unfolding(crate::specs::Walk::handles))]
    fn handle(&mut self)
        ensures { self.new ≡ handles self.old }
    {
        self.land();
        if self.privilege == 3 {
            return;
        }
        let draw = self.random.next_word();
        self.privilege = if draw % 2 == 0 { 3 } else { 1 };
    }

    /// Draws a privilege that is not greater than this one.
    #[tactic(auto, unfolding(crate::specs::Walk::levels))]
    fn level_up_to(&mut self, greatest: u8)
        ensures { self.new ≡ levels greatest self.old }
    {
        let draw = self.random.next_word();
        self.privilege = level_of(greatest, draw);
    }
}

/// Whether a branch to this address is taken, if there is an instruction after it: of 256 backward branches 240 are, and
/// half of the others.
fn takes(to: u64, at: u64, draw: u32) -> bool
    ensures { result ≡ nat_lt (draw % 256) (if nat_le to at then 240 else 128) }
{
    let of_256 = if to <= at { 240 } else { 128 };
    draw % 256 < of_256
}

/// The privilege that a draw says, which is not greater than this one.
#[tactic(auto, unfolding(crate::specs::Walk::level_of))]
fn level_of(greatest: u8, draw: u32) -> u8
    ensures { result ≡ level_of greatest draw }
{
    if greatest < 3 {
        return (draw % 2) as u8;
    }
    let level = draw % 3;
    if level == 2 {
        return 3;
    }
    level as u8
}
