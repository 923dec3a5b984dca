// The translations of all harts.
ghost use Rattle.std.specs.Prelude.{◌≡◌, ◌<◌, [], IfOk, length, replicate, slice_set};
ghost use Rattle.rv_hart.specs.Learning.{learned, tlb_after};
ghost use Rattle.rv_hart.specs.Seeking.{IsTable, sought};
ghost use Rattle.rv_hart.specs.Walks.{IsWalk};
ghost use Rattle.world_machine.specs.Acknowledging.{without_covered};
ghost use Rattle.world_machine.specs.Worlds.{tlb_at};

use crate::translating::Request;
use pl_base::{HartNo, Space, Vpn};
use rv_hart::{PageFault, Walk, learn};
use rv_tlb::Tlb;
use std::alloc::{AllocError, Global};
use std::marker::Model;

/// The TLB of each hart. Contracts see a list, with the translations of hart `h` at place `h`.
#[derive(Drop)]
pub(crate) struct Tlbs {
    tlbs: Vec<Tlb>,
}

impl Model for Tlbs {
    ghost use Rattle.std.specs.Prelude.{List};
    ghost use Rattle.rv_tlb.specs.declared.tlb.TlbEntry.{TlbEntry};

    ghost Value = { List (List TlbEntry) };

    ghost view = { λ t. t.tlbs.items };
}

impl Tlbs {
    /// No translations, for so many harts.
    pub(crate) fn new(alloc: Global, harts: u8) -> Result<Tlbs, AllocError>
        ensures { IfOk result (λ tlbs. tlbs ≡ replicate harts []) }
    {
        let mut tlbs = Vec::with_capacity(alloc, usize::from(harts))?;
        for _ in 0..harts {
            tlbs.push(Tlb::new())?;
        }
        Ok(Tlbs { tlbs })
    }

    /// The translations of a hart.
    pub(crate) fn of(&self, hart: HartNo) -> &Tlb
        requires { hart.0 < length self.now }
        ensures { result.now ≡ tlb_at self.now hart.0 }
    {
        &self.tlbs[usize::from(hart.0)]
    }

    /// What the word of a table teaches the walk of a request. Its hart has the page then, where the word is its leaf.
    pub(crate) fn learn(
        &mut self,
        request: Request,
        walk: Walk,
        word: u64,
    ) -> Result<Walk, PageFault>
        requires hart { request.hart.0 < length self.old }
        requires walk { IsWalk walk }
        requires asked { IsTable (sought walk request.va request.kind (tlb_at self.old request.hart.0) request.view) }
        ensures learned { result ≡ learned walk word request.va request.kind request.view }
        ensures tlb { self.new ≡ slice_set self.old request.hart.0 (tlb_after walk word request.va request.kind request.view (tlb_at self.old request.hart.0)) }
    {
        learn(
            walk,
            word,
            request.va,
            request.kind,
            &mut self.tlbs[usize::from(request.hart.0)],
            &request.view,
        )
    }

    /// A hart drops its translation of a page of a space, or those of the whole space.
    pub(crate) fn drop_from(&mut self, hart: HartNo, space: Space, vpn: Option<Vpn>)
        requires { hart.0 < length self.old }
        ensures { self.new ≡ slice_set self.old hart.0 (without_covered (tlb_at self.old hart.0) space vpn) }
    {
        let tlb = &mut self.tlbs[usize::from(hart.0)];
        match vpn {
            Some(vpn) => tlb.drop_page(space, vpn),
            None => tlb.drop_space(space),
        }
    }
}
