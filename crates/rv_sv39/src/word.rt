// The fields of a table word.
ghost use Rattle.std.specs.Prelude.{◌≡◌, ◌<◌, ◌*◌, ◌^◌};
ghost use Rattle.pl_base.specs.Address.{IsPpn};
ghost use Rattle.rv_sv39.specs.Word.{has, ppn_of, perms_of, is_valid_entry, is_pointer, is_accessible, is_aligned, has_a_and_d, page_of};

use pl_base::{Kind, Mode, Perms, Ppn, Vpn};

// The bits of a table word. G (5) and RSW (9:8) are ignored.

/// The entry is valid.
pub const V: u32 = 0;

pub(crate) const R: u32 = 1;

pub(crate) const W: u32 = 2;

pub(crate) const X: u32 = 3;

/// The page is accessible in the mode `User`, and in no other.
pub const U: u32 = 4;

/// The page was accessed.
pub const A: u32 = 6;

/// The page was written.
pub const D: u32 = 7;

// The lowest bit of the page number.
const PPN: u32 = 10;

// The numbers of 44 bits end here.
const PPN_END: u64 = 1 << 44;

// The bits of the page number end here, and those above are zero.
const RESERVED: u32 = 54;

/// Whether a word has a bit.
pub fn has(word: u64, bit: u32) -> bool
    requires { bit < 64 }
    ensures { result ≡ has word bit }
{
    word >> bit & 1 == 1
}

/// Whether V is set, W does not stand without R, and bits 63:54 are zero.
pub fn is_valid_entry(word: u64) -> bool
    ensures { result ≡ is_valid_entry word }
{
    has(word, V) && (has(word, R) || !has(word, W)) && word >> RESERVED == 0
}

/// Whether the word names a table: neither R nor X.
pub fn is_pointer(word: u64) -> bool
    ensures { result ≡ is_pointer word }
{
    !has(word, R) && !has(word, X)
}

/// Whether U is as the mode reaches it.
pub fn is_accessible(word: u64, mode: Mode) -> bool
    ensures { result ≡ is_accessible word mode }
{
    match mode {
        Mode::User => has(word, U),
        Mode::Super => !has(word, U),
    }
}

/// Whether the fields of the page number below the level are zero.
pub fn is_aligned(level: u8, word: u64) -> bool
    requires { level < 3 }
    ensures { result ≡ is_aligned level word }
{
    ppn_of(word) % span_of(level) == 0
}

/// Whether A is set, and D for a store.
pub fn has_a_and_d(word: u64, kind: Kind) -> bool
    ensures { result ≡ has_a_and_d word kind }
{
    match kind {
        Kind::Store => has(word, A) && has(word, D),
        Kind::Fetch | Kind::Load => has(word, A),
    }
}

/// The page number in a word.
pub fn ppn_of(word: u64) -> u64
    ensures { result ≡ ppn_of word }
{
    (word >> PPN) % PPN_END
}

/// The permissions of a leaf.
pub fn perms_of(word: u64) -> Perms
    ensures { result ≡ perms_of word }
{
    Perms((word >> R & 7) as u8)
}

/// The page of a leaf: below its level the fields are those of the virtual page number.
pub fn page_of(level: u8, word: u64, vpn: Vpn) -> Ppn
    requires { level < 3 }
    ensures page { result ≡ page_of level word vpn }
    ensures ppn { IsPpn result }
{
    let span = span_of(level);
    Ppn(ppn_of(word) / span * span + vpn.0 % span)
}

// How many pages a word of the level spans.
fn span_of(level: u8) -> u64
    requires { level < 3 }
    ensures { result ≡ 2 ^ (9 * level) }
{
    1 << (9 * level)
}
