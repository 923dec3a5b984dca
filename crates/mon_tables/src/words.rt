// The words of page tables (RISC-V Privileged Architecture, Sv39 page table entry).
ghost use Rattle.std.specs.Prelude.{◌≡◌, ◌+◌, ◌<◌, ◌^◌, IsTrue};
ghost use Rattle.pl_base.specs.Perms.{are_page_perms};
ghost use Rattle.mon_tables.specs.Words.{leaf_word, pointer_word, ppn_of_page};

use mem_geom::MEMORY_START;
use pl_base::{Kind, Mode, PAGE_BYTES, Perms};
use rv_sv39::{A, D, U, V};

/// The bytes of a word.
pub(crate) const WORD_BYTES: u16 = 8;

// The physical page number of page 0 of off-chip memory.
const FIRST_PPN: u64 = MEMORY_START / PAGE_BYTES;

// The page number stands from bit 10 on.
const PPN_UNIT: u64 = 1 << 10;

/// The physical page number of a page.
pub(crate) fn ppn_of_page(page: u32) -> u64
    ensures value { result ≡ ppn_of_page page }
    ensures small { result < 2 ^ 33 }
{
    FIRST_PPN + u64::from(page)
}

/// The word that points to the table in a page.
pub(crate) fn pointer_word(page: u32) -> u64
    ensures { result ≡ pointer_word page }
{
    ppn_of_page(page) * PPN_UNIT + (1 << V)
}

/// The word that maps a page with permissions `r`, `rw`, `rx` or `rwx`, for accesses in a mode. A is set, D with W, and U for `User`.
pub fn leaf_word(page: u32, perms: Perms, mode: Mode) -> u64
    requires { IsTrue (are_page_perms perms) }
    ensures { result ≡ leaf_word page perms mode }
{
    let dirty = if perms.grants(Kind::Store) { 1 << D } else { 0 };
    let user = match mode {
        Mode::User => 1 << U,
        Mode::Super => 0,
    };
    ppn_of_page(page) * PPN_UNIT + dirty + (1 << A) + user + 2 * u64::from(perms.0) + (1 << V)
}
