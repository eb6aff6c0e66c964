//! The order in which harts send, as a path sees it.

ghost use Rattle.std.specs.Prelude.{◌≡◌, ◌==◌, ◌%◌, ◌++◌, IfOk, OnOk, get_or, length, max, not, replicate};
ghost use Rattle.std.specs.List.{filter};
ghost use Rattle.stimulus.specs.Order.{begins_burst, drawn_of, first_drawn, leaves, leaving, next_turn, weighed};

use rand_core::utils::NextWord;
use rand_pcg::Pcg32;
use std::alloc::{AllocError, Allocator};

/// The generator's stream of the order. Those of harts are above it, and those of the slots of the program below.
const STREAM: u64 = 0x8000;

/// What comes next.
#[derive(Clone, Copy)]
pub(crate) struct Turn {
    /// A hart that closes its trace before.
    pub(crate) closing: Option<u16>,
    /// The hart that sends a message.
    pub(crate) hart: u16,
}

/// How the turns of an order are drawn.
#[derive(Clone, Copy)]
pub(crate) struct Bursts {
    /// How many turns of one hart come one after another at most.
    pub(crate) longest: u32,
    /// Of so many bursts one ends a trace, as long as harts may end theirs.
    pub(crate) ending: u32,
    /// How many harts may still end theirs.
    pub(crate) ends: u16,
}

/// Draws which hart sends next. Harts send in bursts. A hart of more weight comes more often, and a hart may end before
/// the others.
#[derive(Drop)]
pub(crate) struct Order<A: Allocator> {
    random: Pcg32,
    /// The harts that may send, each as often as it weighs.
    listed: Vec<u16, A>,
    bursts: Bursts,
    /// The hart that sends.
    hart: u16,
    /// How many turns of its burst are left.
    left: u32,
}

impl<A: Allocator> Order<A> {
    /// The order of so many harts. A hart weighs 1 to 4.
    pub(crate) fn new(
        alloc: A,
        seed: u64,
        harts: u16,
        bursts: Bursts,
    ) -> Result<Order<A>, AllocError>
        ensures { IfOk result (λ order. drawn_of order ≡ first_drawn seed harts bursts.longest bursts.ending bursts.ends) }
    {
        let mut random = Pcg32::new(seed, STREAM);
        let listed = weighed(alloc, &mut random, harts)?;
        Ok(Order {
            random,
            listed,
            bursts,
            hart: 0,
            left: 0,
        })
    }

    /// Whether no hart may send.
    pub(crate) fn is_over(&self) -> bool
        ensures { result ≡ (length (drawn_of self.now).listed == 0) }
    {
        self.listed.is_empty()
    }

    /// What comes next. After a burst the hart may close its trace, as long as harts may.
    #[tactic(auto, unfolding(crate::specs::Order::next_turn))]
    pub(crate) fn next(&mut self) -> Turn
        ensures { (result, drawn_of self.new) ≡ next_turn (drawn_of self.old) }
    {
        if self.left > 0 {
            self.left -= 1;
            return Turn {
                closing: None,
                hart: self.hart,
            };
        }
        let closing = self.leaving();
        self.begin_burst();
        Turn {
            closing,
            hart: self.hart,
        }
    }

    /// A hart sends no more, and the burst is over.
    #[tactic(auto, unfolding(crate::specs::Order::leaves))]
    pub(crate) fn leave(&mut self, hart: u16)
        ensures { drawn_of self.new ≡ leaves hart (drawn_of self.old) }
    {
        remove_hart(&mut self.listed, hart);
        self.left = 0;
    }

    /// The hart whose burst has ended, if one more may close its trace and it is drawn that this one does.
    #[tactic(auto, unfolding(crate::specs::Order::leaving))]
    fn leaving(&mut self) -> Option<u16>
        ensures { (result, drawn_of self.new) ≡ leaving (drawn_of self.old) }
    {
        if self.bursts.ends > 0 {
            let draw = self.random.next_word();
            if draw % self.bursts.ending.max(1) == 0 {
                let hart = self.hart;
                self.bursts.ends -= 1;
                self.leave(hart);
                return Some(hart);
            }
        }
        None
    }

    /// Draws which hart sends, and how many turns it has.
    #[tactic(auto, unfolding(crate::specs::Order::begins_burst))]
    fn begin_burst(&mut self)
        ensures { drawn_of self.new ≡ begins_burst (drawn_of self.old) }
    {
        let which = self.random.next_word();
        let count = self.random.next_word();
        self.hart = hart_at(self.listed.as_slice(), which);
        self.left = count % self.bursts.longest.max(1);
    }
}

/// The harts below this count, each as often as it weighs, by draws of the generator.
fn weighed<A: Allocator>(
    alloc: A,
    random: &mut Pcg32,
    harts: u16,
) -> Result<Vec<u16, A>, AllocError>
    ensures { IfOk result (λ listed. (listed.items, random.new) ≡ weighed random.old harts) }
{
    let mut listed = Vec::new(alloc);
    for hart in 0..harts {
        let weight = random.next_word() % 4 + 1;
        add_hart(&mut listed, hart, weight)?;
    }
    Ok(listed)
}

/// Adds a hart to a list, so many times.
fn add_hart<A: Allocator>(
    listed: &mut Vec<u16, A>,
    hart: u16,
    weight: u32,
) -> Result<(), AllocError>
    ensures { OnOk result (listed.new.items ≡ listed.old.items ++ replicate weight hart) }
{
    for _ in 0..weight {
        listed.push(hart)?;
    }
    Ok(())
}

/// Takes a hart out of a list.
fn remove_hart<A: Allocator>(listed: &mut Vec<u16, A>, hart: u16)
    ensures { listed.new.items ≡ filter (λ other. not (other == hart)) listed.old.items }
{
    listed.retain(|other| *other != hart);
}

/// The hart of a list that a draw says.
fn hart_at(listed: &[u16], draw: u32) -> u16
    ensures { result ≡ get_or listed.now (draw % max (length listed.now) 1) 0 }
{
    let count = listed.len().max(1) as u64;
    let place = (u64::from(draw) % count) as usize;
    match listed.get(place) {
        Some(hart) => *hart,
        None => 0,
    }
}
