// The rule that names the slot to evict.
ghost use Rattle.std.specs.Prelude.{◌≡◌, ◌<◌, ◌≤◌, ℕ, length};
ghost use Rattle.std.specs.Fn.{FnReturnsAt};
ghost use Rattle.mem_slots.specs.Choices.{NamesPosition, uses_at};

use crate::slot_use::SlotUse;
use std::marker::Model;

/// A rule that names the slot to evict: a closure from the mounted zones, in order of mounting, to a position among
/// them. Contracts see the closure.
#[derive(Drop)]
pub struct Choice<F> {
    rule: F,
}

impl<F> Model for Choice<F> {
    ghost Value = { F };

    ghost view = { λ choice. choice.rule };
}

impl<F> Choice<F> {
    /// The closure again.
    pub fn into_rule(self) -> F
        ensures { result ≡ self }
    {
        let Choice { rule } = self;
        rule
    }
}

impl<F: Fn(&[SlotUse]) -> usize> Choice<F> {
    /// The rule of a closure that answers a position on every list of 1 to 64 slots.
    pub fn new(rule: F) -> Choice<F>
        requires { NamesPosition F.Fn rule }
        ensures { result ≡ rule }
    {
        Choice { rule }
    }

    /// What the closure answers on these slots.
    pub fn pick(&self, slots: &[SlotUse]) -> usize
        requires rule { NamesPosition F.Fn self.now }
        requires some { 0 < length slots.now }
        requires most { length slots.now ≤ 64 }
        ensures answer { FnReturnsAt F.Fn self.now slots.now result }
        ensures position { result < length slots.now }
    {
        (self.rule)(slots)
    }
}

/// The slot that was mounted first.
pub fn first_mounted(_slots: &[SlotUse]) -> usize
    requires { 0 < length _slots.now }
    ensures { result ≡ 0 }
{
    0
}

/// The first slot of the fewest uses.
pub fn fewest_uses(slots: &[SlotUse]) -> usize
    requires { 0 < length slots.now }
    ensures position { result < length slots.now }
    ensures least { (k : ℕ) → k < length slots.now → uses_at slots.now result ≤ uses_at slots.now k }
    ensures first { (k : ℕ) → k < result → uses_at slots.now result < uses_at slots.now k }
{
    let mut best = 0;
    let mut least = slots[0].uses;
    for (i, slot) in slots.iter().enumerate() {
        if slot.uses < least {
            best = i;
            least = slot.uses;
        }
    }
    best
}
