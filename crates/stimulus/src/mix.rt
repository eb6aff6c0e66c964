//! What a program and its harts do, as numbers.

ghost use Rattle.std.specs.Prelude.{◌≡◌};
ghost use Rattle.stimulus.specs.Mix.{IsNamed, bounds_of, habits_of, habits_with};

/// What the program of a stimulus does, and how the harts that run it behave.
#[derive(Clone, Copy, Debug)]
pub enum Mix {
    /// Loops, calls, computed jumps, branches of both outcomes, all levels, interrupts and exceptions.
    Mixed,
    /// Branches alone, so that full branch maps come one after another.
    Branches,
    /// A computed jump at every second instruction.
    Jumps,
    /// Traps at a third of all events, also one after another.
    Traps,
    /// Traps with values of 57 to 64 bits, at three quarters of all events.
    Longest,
    /// Plain instructions, and few traps.
    Straight,
}

impl Mix {
    /// The mix of this name: that of the variant, in lower case. There is none of any other name.
    pub fn named(name: &str) -> Option<Mix>
        ensures { IsNamed name.now result }
    {
        match name {
            "mixed" => Some(Mix::Mixed),
            "branches" => Some(Mix::Branches),
            "jumps" => Some(Mix::Jumps),
            "traps" => Some(Mix::Traps),
            "longest" => Some(Mix::Longest),
            "straight" => Some(Mix::Straight),
            _ => None,
        }
    }
}

/// Where each kind of instruction ends among the 256 values that choose the kind of a slot, in the order of the kinds.
#[derive(Clone, Copy)]
pub(crate) struct Bounds {
    pub(crate) short_plain: u32,
    pub(crate) plain: u32,
    pub(crate) branch: u32,
    pub(crate) short_branch: u32,
    pub(crate) jump: u32,
    pub(crate) short_jump: u32,
    pub(crate) computed: u32,
    pub(crate) short_computed: u32,
    pub(crate) mret: u32,
    pub(crate) sret: u32,
}

/// How harts behave.
#[derive(Clone, Copy)]
pub(crate) struct Habits {
    /// How many of 65,536 events are traps that the program does not call for.
    pub(crate) traps: u32,
    /// The same of the events that may be anywhere: those after computed jumps, returns from traps, and traps.
    pub(crate) nested: u32,
    /// How many of 256 such traps are interrupts.
    pub(crate) interrupts: u32,
    /// By how many bits at most a trap value of 64 bits is shortened.
    pub(crate) shortened: u32,
}

/// The kinds of instructions of a mix.
pub(crate) fn bounds_of(mix: Mix) -> Bounds
    ensures { result ≡ bounds_of mix }
{
    match mix {
        Mix::Branches => only_branches(),
        Mix::Jumps => only_jumps(),
        Mix::Straight => only_plain(),
        _ => all_kinds(),
    }
}

/// Branches of 4 bytes.
fn only_branches() -> Bounds
    ensures { result ≡ bounds_of Mix.Branches }
{
    Bounds {
        short_plain: 0,
        plain: 0,
        branch: 256,
        short_branch: 256,
        jump: 256,
        short_jump: 256,
        computed: 256,
        short_computed: 256,
        mret: 256,
        sret: 256,
    }
}

/// Pairs of a plain instruction and a computed jump.
fn only_jumps() -> Bounds
    ensures { result ≡ bounds_of Mix.Jumps }
{
    Bounds {
        short_plain: 0,
        plain: 0,
        branch: 0,
        short_branch: 0,
        jump: 0,
        short_jump: 0,
        computed: 0,
        short_computed: 256,
        mret: 256,
        sret: 256,
    }
}

/// Plain instructions of both lengths.
fn only_plain() -> Bounds
    ensures { result ≡ bounds_of Mix.Straight }
{
    Bounds {
        short_plain: 128,
        plain: 256,
        branch: 256,
        short_branch: 256,
        jump: 256,
        short_jump: 256,
        computed: 256,
        short_computed: 256,
        mret: 256,
        sret: 256,
    }
}

/// All kinds.
fn all_kinds() -> Bounds
    ensures { result ≡ bounds_of Mix.Mixed }
{
    Bounds {
        short_plain: 56,
        plain: 112,
        branch: 160,
        short_branch: 184,
        jump: 196,
        short_jump: 208,
        computed: 220,
        short_computed: 238,
        mret: 246,
        sret: 252,
    }
}

/// How harts behave that run a program of this mix.
pub(crate) fn habits_of(mix: Mix) -> Habits
    ensures { result ≡ habits_of mix }
{
    match mix {
        Mix::Mixed => habits_with(512, 16_384, 128, 63),
        Mix::Branches => habits_with(0, 0, 0, 63),
        Mix::Jumps => habits_with(0, 0, 0, 63),
        Mix::Traps => habits_with(21_845, 21_845, 128, 63),
        Mix::Longest => habits_with(49_152, 49_152, 0, 7),
        Mix::Straight => habits_with(16, 16, 128, 63),
    }
}

/// The habits with these numbers.
fn habits_with(traps: u32, nested: u32, interrupts: u32, shortened: u32) -> Habits
    ensures { result ≡ habits_with traps nested interrupts shortened }
{
    Habits {
        traps,
        nested,
        interrupts,
        shortened,
    }
}
