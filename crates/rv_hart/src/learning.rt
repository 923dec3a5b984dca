// What a table word teaches a translation.
ghost use Rattle.std.specs.Prelude.{◌≡◌, ◌<◌, IfOk};
ghost use Rattle.pl_base.specs.Address.{IsPpn};
ghost use Rattle.rv_hart.specs.Seeking.{sought, IsTable};
ghost use Rattle.rv_hart.specs.Learning.{learned, tlb_after};
ghost use Rattle.rv_hart.specs.Walks.{IsWalk, level_of};

use crate::walks::{PageFault, View, Walk};
use pl_base::{Kind, Va};
use rv_sv39::{Walked, walk_step};
use rv_tlb::{Tlb, TlbEntry};

/// What the word that `seek` asked for teaches the walk of an address.
///
/// A pointer leads to the next table; a leaf is the page that is sought, and goes into the TLB last. A word that does neither is a page
/// fault, and puts nothing into the TLB.
pub fn learn(
    walk: Walk,
    word: u64,
    va: Va,
    kind: Kind,
    tlb: &mut Tlb,
    view: &View,
) -> Result<Walk, PageFault>
    requires walk { IsWalk walk }
    requires asked { IsTable (sought walk va kind tlb.old view.now) }
    ensures learned { result ≡ learned walk word va kind view.now }
    ensures tlb { tlb.new ≡ tlb_after walk word va kind view.now tlb.old }
    ensures kept { IfOk result IsWalk }
{
    let level = level_of(&walk);
    match walk_step(level, word, va.vpn(), kind, view.mode) {
        Walked::Next(table) => Ok(Walk::Level {
            level: level - 1,
            table,
        }),
        Walked::Leaf(ppn, perms) => {
            tlb.put(TlbEntry {
                space: view.space,
                vpn: va.vpn(),
                ppn,
                perms,
            });
            Ok(Walk::Found { ppn, perms })
        }
        Walked::PageFault => Err(PageFault),
    }
}

// The level of the table that a walk stands at.
fn level_of(walk: &Walk) -> u8
    requires { IsWalk walk.now }
    ensures level { result ≡ level_of walk.now }
    ensures three { result < 3 }
{
    match *walk {
        Walk::Start => 2,
        Walk::Level { level, .. } => level,
        Walk::Found { .. } => 0,
    }
}
