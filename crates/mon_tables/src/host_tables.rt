// The host's tables, and the roots of all spaces.
ghost use Rattle.std.specs.Prelude.{◌≡◌, ◌≤◌};
ghost use Rattle.pl_base.specs.ListedWords.{AreWordsOf};
ghost use Rattle.mon_tables.specs.Tables.{host_slot, root_of, start_words};

use crate::words::{WORD_BYTES, pointer_word, ppn_of_page};
use arrayvec::ArrayVec;
use pl_base::{Ppn, Space, Vpn};

// How many words of a table there are.
const TABLE_WORDS: u64 = 512;

// How many words the guarded pages have at the start, at most: one for the middle table, and one for each last-level table.
const MOST_START_WORDS: usize = 33;

/// Page and offset of the host's leaf word of a virtual page number, where there are so many last-level tables. None exactly where the number
/// isn't below 512 for each of them.
pub fn host_slot(tables: u8, vpn: Vpn) -> Option<(u32, u16)>
    ensures { result ≡ host_slot tables vpn.0 }
{
    if vpn.0 >= TABLE_WORDS * u64::from(tables) {
        return None;
    }
    let page = 2 + (vpn.0 / TABLE_WORDS) as u32;
    Some((page, WORD_BYTES * (vpn.0 % TABLE_WORDS) as u16))
}

/// The words that stand in the guarded pages at the start, each with its page and offset: those that point to the host's tables. All others
/// are zero.
pub fn start_words(tables: u8) -> ArrayVec<(u32, u16, u64), MOST_START_WORDS>
    requires { tables ≤ 32 }
    ensures list { result.items ≡ start_words tables }
    ensures words { AreWordsOf 2 result.items }
{
    let mut words = ArrayVec::new();
    words.push((0, 0, pointer_word(1)));
    for i in 0..tables {
        words.push((1, WORD_BYTES * u16::from(i), pointer_word(2 + u32::from(i))));
    }
    words
}

/// The root table of a space.
pub fn root_of(tables: u8, space: Space) -> Ppn
    ensures { result ≡ root_of tables space.0 }
{
    if space == Space::HOST {
        return Ppn(ppn_of_page(0));
    }
    let first = 2 + u32::from(tables);
    Ppn(ppn_of_page(first + 3 * u32::from(space.0 - 1)))
}
