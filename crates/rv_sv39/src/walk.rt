// One step of a page walk.
ghost use Rattle.std.specs.Prelude.{◌≡◌, ◌<◌};
ghost use Rattle.pl_base.specs.Address.{IsPpn};
ghost use Rattle.rv_sv39.specs.Step.{step, FitsAccess, GivesPpn};
ghost use Rattle.rv_sv39.specs.Walk.{entry_address};

use crate::word::{
    A, D, U, has, has_a_and_d, is_accessible, is_aligned, is_pointer, is_valid_entry, page_of,
    perms_of, ppn_of,
};
use pl_base::{Kind, Mode, PAGE_BYTES, Pa, Perms, Ppn, Vpn};

/// What one table word says of an access.
#[derive(Clone, Copy, PartialEq, Eq, Debug)]
pub enum Walked {
    /// The walk goes on in the table at this page, one level lower.
    Next(Ppn),
    /// The page, and what may be done with it.
    Leaf(Ppn, Perms),
    /// No translation serves the access.
    PageFault,
}

// The bytes of a word of a table.
const ENTRY_BYTES: u64 = 8;

/// The address of the word that a page number selects in a table at `level` (2, 1 or 0).
pub fn entry_address(vpn: Vpn, level: u8, table: Ppn) -> Pa
    requires level { level < 3 }
    requires table { IsPpn table }
    ensures { result.0 ≡ entry_address vpn level table.0 }
{
    let field = (vpn.0 >> (9 * level)) & 0x1ff;
    Pa(PAGE_BYTES * table.0 + ENTRY_BYTES * field)
}

/// One step of a walk: what the word that a page number selects in a table at `level` (2, 1 or 0) says.
pub fn walk_step(level: u8, word: u64, vpn: Vpn, kind: Kind, mode: Mode) -> Walked
    requires { level < 3 }
    ensures step { result ≡ step level word vpn kind mode }
    ensures ppn { GivesPpn result }
    ensures fits { FitsAccess level kind result }
{
    if !is_valid_entry(word) {
        return Walked::PageFault;
    }
    if is_pointer(word) {
        if has(word, U) || has(word, A) || has(word, D) || level == 0 {
            return Walked::PageFault;
        }
        return Walked::Next(Ppn(ppn_of(word)));
    }
    if !is_aligned(level, word) || !is_accessible(word, mode) {
        return Walked::PageFault;
    }
    let perms = perms_of(word);
    if !perms.grants(kind) || !has_a_and_d(word, kind) {
        return Walked::PageFault;
    }
    Walked::Leaf(page_of(level, word, vpn), perms)
}
