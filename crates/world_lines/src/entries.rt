// A protection entry: its number, its configuration and its address register.
ghost use Rattle.std.specs.Prelude.{◌≡◌};
ghost use Rattle.world_lines.specs.Entries.{cfg_of, entry_of_three, entry_of};

use crate::arguments::within;
use crate::words::{FewWords, few_words};
use pl_io::{read_dec, read_hex};
use rv_pmp::Rule;

// Two hexadecimal digits.
fn cfg_of(text: &[u8]) -> Option<u32>
    ensures { result ≡ cfg_of text.now }
{
    if text.len() != 2 {
        return None;
    }
    within(0, 255, read_hex(text))
}

#[tactic(auto, unfolding(crate::specs::Entries::entry_of_three))]
fn entry_of_three(number: &[u8], cfg: &[u8], addr: &[u8]) -> Option<(u8, Rule)>
    ensures { result ≡ entry_of_three number.now cfg.now addr.now }
{
    let number = within(2, 12, read_dec(number))?;
    let cfg = cfg_of(cfg)?;
    let addr = read_hex(addr)?;
    let rule = Rule {
        cfg: cfg as u8,
        addr,
    };
    if !rule.valid() {
        return None;
    }
    Some((number as u8, rule))
}

/// The protection entry that a text is, with its number, 2 to 12; none where its rule isn't valid.
#[tactic(auto, unfolding(crate::specs::Entries::entry_of))]
pub fn entry_of(text: &[u8]) -> Option<(u8, Rule)>
    ensures { result ≡ entry_of text.now }
{
    let words = few_words(text);
    match words {
        FewWords::Three(number, cfg, addr) => entry_of_three(number, cfg, addr),
        _ => None,
    }
}
