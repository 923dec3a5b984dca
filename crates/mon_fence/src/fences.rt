// The fences of all harts.
ghost use Rattle.std.specs.Prelude.{◌≡◌, ◌≤◌, ◌<◌, length, replicate, option_map, position, slice_set, IfSome, IsTrue, None, Some};
ghost use Rattle.std.specs.List.{list_any};
ghost use Rattle.std.specs.Option.{IsSomeAnd};
ghost use Rattle.mon_fence.specs.Fences.{covers, needs};

use arrayvec::ArrayVec;
use pl_base::{HartNo, HartSet, Space, Vpn};
use std::marker::Model;

// How many harts there are at most.
const MOST_HARTS: usize = 8;

/// A mapping that is taken away, and the harts whose acknowledgement is lacking.
#[derive(Clone, Copy, PartialEq, Eq, Debug, Default)]
pub struct Fence {
    pub space: Space,
    /// The page of the space, or none where all of the space is taken away.
    pub vpn: Option<Vpn>,
    pub need: HartSet,
}

/// The fence of each hart, which has at most one. Contracts see a list, with the fence of hart `h` at place `h`.
///
/// A fence needs only harts that there are, and never the one that posted it.
#[derive(Debug, Drop)]
pub struct Fences {
    fences: ArrayVec<Option<Fence>, MOST_HARTS>,
}

impl Model for Fences {
    ghost use Rattle.std.specs.Prelude.{List, Option};
    ghost use Rattle.mon_fence.specs.declared.fences.Fence.{Fence};
    ghost use Rattle.mon_fence.specs.Fences.{AreFences};

    ghost Value = { List (Option Fence) };

    ghost view = { λ f. f.fences.items };

    ghost invariant = { λ f. AreFences f.fences.items };
}

impl Fences {
    ghost use Rattle.mon_fence.specs.Fences.{AreFences, acked, covers, fence_of, lacking, needs, posted};

    /// No fence, for so many harts.
    pub fn new(harts: u8) -> Fences
        requires { harts ≤ 8 }
        ensures { result ≡ replicate harts None }
    {
        let mut fences = ArrayVec::new();
        for _ in 0..harts {
            fences.push(None);
        }
        Fences { fences }
    }

    /// Posts the fence of a hart that has none. It needs all other harts.
    pub fn post(&mut self, h: HartNo, space: Space, vpn: Option<Vpn>)
        requires hart { h.0 < length self.old }
        requires none { fence_of self.old h.0 ≡ None }
        ensures { self.new ≡ posted self.old h.0 space vpn }
    {
        let need = HartSet::below(self.fences.len() as u8).without(h);
        self.set(h, Some(Fence { space, vpn, need }));
    }

    /// The lowest hart whose fence needs this one.
    pub fn owed(&self, h: HartNo) -> Option<HartNo>
        requires { h.0 < length self.now }
        ensures lowest { result ≡ option_map (λ requester. record { 0 = requester }) (position (λ fence. needs fence h.0) self.now) }
        ensures needed { IfSome result (λ requester. IsTrue (needs (fence_of self.now requester.0) h.0)) }
        ensures kept { AreFences self.now }
    {
        let _ = &self.fences;
        match self.first_needing(h) {
            Some(place) => Some(HartNo(place as u8)),
            None => None,
        }
    }

    fn first_needing(&self, h: HartNo) -> Option<usize>
        requires { h.0 < length self.now }
        ensures { result ≡ position (λ fence. needs fence h.0) self.now }
    {
        self.fences
            .as_slice()
            .iter()
            .position(|fence| has_need(fence, h))
    }

    /// A hart acknowledges a fence that needs it. The answer is the fence as it was.
    pub fn ack(&mut self, h: HartNo, requester: HartNo) -> Fence
        requires hart { h.0 < length self.old }
        requires needed { IsTrue (needs (fence_of self.old requester.0) h.0) }
        ensures fence { Some result ≡ fence_of self.old requester.0 }
        ensures acked { self.new ≡ acked self.old h.0 requester.0 }
    {
        let _ = &self.fences;
        let fence = self.needing(h, requester);
        let need = fence.need.without(h);
        self.set(requester, Some(Fence { need, ..fence }));
        fence
    }

    fn needing(&self, h: HartNo, requester: HartNo) -> Fence
        requires { IsTrue (needs (fence_of self.now requester.0) h.0) }
        ensures fence { Some result ≡ fence_of self.now requester.0 }
        ensures there { requester.0 < length self.now }
    {
        match self.fences[usize::from(requester.0)] {
            Some(fence) => fence,
            None => unreachable!(),
        }
    }

    /// The harts whose acknowledgement a hart's own fence lacks. None where it has no fence or nobody is lacking.
    pub fn waits(&self, h: HartNo) -> Option<HartSet>
        requires { h.0 < length self.now }
        ensures { result ≡ lacking (fence_of self.now h.0) }
    {
        let fence = self.fences[usize::from(h.0)]?;
        if fence.need.is_empty() {
            None
        } else {
            Some(fence.need)
        }
    }

    /// Whether some hart has a fence of this space that is of this page or of the whole space, whatever it needs.
    pub fn covers(&self, space: Space, vpn: Vpn) -> bool
        ensures { result ≡ list_any (covers space vpn) self.now }
    {
        self.fences
            .as_slice()
            .iter()
            .any(|fence| is_over(fence, space, vpn))
    }

    /// A hart leaves its fence, where nobody is lacking.
    pub fn leave(&mut self, h: HartNo)
        requires { IsSomeAnd (fence_of self.old h.0) (λ fence. fence.need.0 ≡ 0) }
        ensures { self.new ≡ slice_set self.old h.0 None }
    {
        let _ = &self.fences;
        self.set(h, None);
    }

    fn set(&mut self, at: HartNo, fence: Option<Fence>)
        requires hart { at.0 < length self.old }
        requires fits { AreFences (slice_set self.old at.0 fence) }
        ensures { self.new ≡ slice_set self.old at.0 fence }
    {
        self.fences[usize::from(at.0)] = fence;
    }
}

// Whether a fence needs a hart.
fn has_need(fence: &Option<Fence>, h: HartNo) -> bool
    requires { h.0 < 8 }
    ensures { result ≡ needs fence.now h.0 }
{
    match fence {
        Some(fence) => fence.need.has(h),
        None => false,
    }
}

// Whether a fence is of this page of this space, or of the whole space.
fn is_over(fence: &Option<Fence>, space: Space, vpn: Vpn) -> bool
    ensures { result ≡ covers space vpn fence.now }
{
    match fence {
        Some(fence) if fence.space == space => match fence.vpn {
            Some(page) => page == vpn,
            None => true,
        },
        _ => false,
    }
}
