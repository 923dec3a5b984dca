// The three tables of an enclave number.
ghost use Rattle.std.specs.Prelude.{◌≡◌, ◌<◌, ◌≤◌, IsTrue, All, length};
ghost use Rattle.pl_base.specs.Perms.{are_page_perms};
ghost use Rattle.mon_tables.specs.Space.{vpn_of_page};
ghost use Rattle.mon_tables.specs.Tables.{leaf_words, number_slot, number_table_bytes, pointing_words, table_number, table_words};

use crate::words::{WORD_BYTES, leaf_word, pointer_word};
use byteorder::{ByteOrder, LittleEndian};
use pl_base::{EncNo, IMAGE_START, Mode, PAGE_BYTES, Perms, Vpn};

// The word of an image's first page: its virtual page number.
const FIRST_LEAF: usize = (IMAGE_START / PAGE_BYTES) as usize;

/// The virtual page number of page `index` of an image.
pub fn vpn_of_page(index: u32) -> Vpn
    ensures { result ≡ vpn_of_page index }
{
    Vpn(IMAGE_START / PAGE_BYTES + u64::from(index))
}

/// The page of one page of an image, and what may be done with it.
#[derive(Clone, Copy, PartialEq, Eq, Debug, Default)]
pub struct Leaf {
    pub page: u32,
    pub perms: Perms,
}

/// Writes the bytes of a number's table of a level: 2 the root, 1 the middle, 0 the last, with a leaf for each page of the image, at most 256.
pub fn table_page(tables: u8, e: EncNo, level: u8, leaves: &[Leaf], into: &mut [u8; 4096])
    requires level { level < 3 }
    requires few { length leaves.now ≤ 256 }
    requires perms { All (λ leaf. IsTrue (are_page_perms leaf.perms)) leaves.now }
    ensures { into.new ≡ number_table_bytes tables e.0 level leaves.now }
{
    let words = table_words(tables, e, level, leaves);
    LittleEndian::write_u64_into(&words, into);
}

fn table_words(tables: u8, e: EncNo, level: u8, leaves: &[Leaf]) -> [u64; 512]
    requires level { level < 3 }
    requires few { length leaves.now ≤ 256 }
    requires perms { All (λ leaf. IsTrue (are_page_perms leaf.perms)) leaves.now }
    ensures { result ≡ table_words tables e.0 level leaves.now }
{
    if level == 0 {
        leaf_words(leaves)
    } else {
        pointing_words(table_number(tables, e, level - 1))
    }
}

// The words of a table whose first word points to the table in a page.
fn pointing_words(page: u32) -> [u64; 512]
    ensures { result ≡ pointing_words page }
{
    let mut words = [0; 512];
    words[0] = pointer_word(page);
    words
}

/// The page of a number's table of a level: 2 the root, 1 the middle, 0 the last.
pub fn table_number(tables: u8, e: EncNo, level: u8) -> u32
    requires { level < 3 }
    ensures { result ≡ table_number tables e.0 level }
{
    2 + u32::from(tables) + 3 * u32::from(e.0) + u32::from(2 - level)
}

/// Page and offset of the leaf's word of a page of the image, by its place there, in a number's last table.
pub fn number_slot(tables: u8, e: EncNo, index: u32) -> (u32, u16)
    requires { index < 256 }
    ensures { result ≡ number_slot tables e.0 index }
{
    let word = FIRST_LEAF as u16 + index as u16;
    (table_number(tables, e, 0), WORD_BYTES * word)
}

// The words of a last table: the leaves stand from word 16 on, the page number of an image's first page.
fn leaf_words(leaves: &[Leaf]) -> [u64; 512]
    requires few { length leaves.now ≤ 256 }
    requires perms { All (λ leaf. IsTrue (are_page_perms leaf.perms)) leaves.now }
    ensures { result ≡ leaf_words leaves.now }
{
    let mut words = [0; 512];
    for (i, leaf) in leaves.iter().enumerate() {
        words[FIRST_LEAF + i] = leaf_word(leaf.page, leaf.perms, Mode::User);
    }
    words
}
