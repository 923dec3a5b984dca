// The forms of lines: a word, and its arguments.
ghost use Rattle.std.specs.Prelude.{◌≡◌, IfOk};
ghost use Rattle.pl_io.specs.Numbers.{hex_value};
ghost use Rattle.world_lines.specs.Arguments.{address_of, budget_of, enclave_of, short_of, small_number_of};
ghost use Rattle.world_lines.specs.Forms.{both, all_three, line_of_one, line_of_two, map_line_of, line_of_pages, line_of_three, line_of, attack_line_of_one, after_line_of, attack_line_of_two, attack_line_of_three, attack_line_of};

use crate::arguments::{
    address_of, budget_of, enclave_of, hex_bytes_of, length_of, name_of, perms_of_text, short_of,
    small_number_of,
};
use crate::page_lists::page_list_of;
use crate::words::{FewWords, few_words};
use pl_base::{Listed, Memory};
use pl_history::{AttackLine, Line};
use pl_io::read_hex;
use std::alloc::Global;

#[tactic(auto, unfolding(crate::specs::Forms::line_of_one))]
fn line_of_one(word: &[u8], a: &[u8]) -> Option<Line>
    ensures { result ≡ line_of_one word.now a.now }
{
    if word == b"load".as_slice() {
        return Some(Line::Load { va: address_of(a)? });
    }
    if word == b"unmap".as_slice() {
        return Some(Line::Unmap { va: address_of(a)? });
    }
    if word == b"take".as_slice() {
        return Some(Line::Take { e: enclave_of(a)? });
    }
    if word == b"destroy".as_slice() {
        return Some(Line::Destroy { e: enclave_of(a)? });
    }
    if word == b"drop".as_slice() {
        return Some(Line::Drop { s: enclave_of(a)? });
    }
    None
}

fn store_line_of(a: &[u8], b: &[u8]) -> Option<Line>
    ensures { result ≡ both (λ va word. Line.Store va word) (address_of a.now) (hex_value b.now) }
{
    Some(Line::Store {
        va: address_of(a)?,
        word: read_hex(b)?,
    })
}

fn grant_line_of(a: &[u8], b: &[u8]) -> Option<Line>
    ensures { result ≡ both (λ e page. Line.Grant e page) (enclave_of a.now) (small_number_of b.now) }
{
    Some(Line::Grant {
        e: enclave_of(a)?,
        page: small_number_of(b)?,
    })
}

fn run_line_of(a: &[u8], b: &[u8]) -> Option<Line>
    ensures { result ≡ both (λ e budget. Line.Run e budget) (enclave_of a.now) (budget_of b.now) }
{
    Some(Line::Run {
        e: enclave_of(a)?,
        budget: budget_of(b)?,
    })
}

fn resume_line_of(a: &[u8], b: &[u8]) -> Option<Line>
    ensures { result ≡ both (λ e budget. Line.Resume e budget) (enclave_of a.now) (budget_of b.now) }
{
    Some(Line::Resume {
        e: enclave_of(a)?,
        budget: budget_of(b)?,
    })
}

fn send_line_of(a: &[u8], b: &[u8]) -> Option<Line>
    ensures { result ≡ both (λ e word. Line.Send e word) (enclave_of a.now) (hex_value b.now) }
{
    Some(Line::Send {
        e: enclave_of(a)?,
        word: read_hex(b)?,
    })
}

// A hart's `after`.
fn wait_line_of(a: &[u8], b: &[u8]) -> Option<Line>
    ensures { result ≡ both (λ actor count. Line.After actor count) (short_of a.now) (small_number_of b.now) }
{
    Some(Line::After {
        actor: short_of(a)?,
        count: small_number_of(b)?,
    })
}

#[tactic(auto, unfolding(crate::specs::Forms::line_of_two))]
fn line_of_two(word: &[u8], a: &[u8], b: &[u8]) -> Option<Line>
    ensures { result ≡ line_of_two word.now a.now b.now }
{
    if word == b"store".as_slice() {
        return store_line_of(a, b);
    }
    if word == b"grant".as_slice() {
        return grant_line_of(a, b);
    }
    if word == b"run".as_slice() {
        return run_line_of(a, b);
    }
    if word == b"resume".as_slice() {
        return resume_line_of(a, b);
    }
    if word == b"send".as_slice() {
        return send_line_of(a, b);
    }
    if word == b"after".as_slice() {
        return wait_line_of(a, b);
    }
    None
}

fn create_line_of(a: &[u8], b: &[u8], pages: Option<Listed<u32>>) -> Option<Line>
    ensures { result ≡ all_three (λ e image pages. Line.Create e image pages) (enclave_of a.now) (short_of b.now) pages }
{
    Some(Line::Create {
        e: enclave_of(a)?,
        image: short_of(b)?,
        pages: pages?,
    })
}

fn shadow_line_of(a: &[u8], b: &[u8], pages: Option<Listed<u32>>) -> Option<Line>
    ensures { result ≡ all_three (λ e image pages. Line.Shadow e image pages) (enclave_of a.now) (short_of b.now) pages }
{
    Some(Line::Shadow {
        e: enclave_of(a)?,
        image: short_of(b)?,
        pages: pages?,
    })
}

fn fork_line_of(a: &[u8], b: &[u8], pages: Option<Listed<u32>>) -> Option<Line>
    ensures { result ≡ all_three (λ s e pages. Line.Fork s e pages) (enclave_of a.now) (enclave_of b.now) pages }
{
    Some(Line::Fork {
        s: enclave_of(a)?,
        e: enclave_of(b)?,
        pages: pages?,
    })
}

// A line that names pages of the host.
fn line_of_pages(word: &[u8], a: &[u8], b: &[u8], pages: Option<Listed<u32>>) -> Option<Line>
    ensures { result ≡ line_of_pages word.now a.now b.now pages }
{
    if word == b"create".as_slice() {
        return create_line_of(a, b, pages);
    }
    if word == b"shadow".as_slice() {
        return shadow_line_of(a, b, pages);
    }
    if word == b"fork".as_slice() {
        return fork_line_of(a, b, pages);
    }
    None
}

fn map_line_of(a: &[u8], b: &[u8], c: &[u8]) -> Option<Line>
    ensures { result ≡ map_line_of a.now b.now c.now }
{
    Some(Line::Map {
        va: address_of(a)?,
        page: small_number_of(b)?,
        perms: perms_of_text(c)?,
    })
}

#[tactic(auto, unfolding(crate::specs::Forms::line_of_three))]
fn line_of_three(
    alloc: Global,
    word: &[u8],
    a: &[u8],
    b: &[u8],
    c: &[u8],
) -> Result<Option<Line>, Memory>
    ensures { IfOk result (λ found. found ≡ line_of_three word.now a.now b.now c.now) }
{
    if word == b"map".as_slice() {
        return Ok(map_line_of(a, b, c));
    }
    let pages = page_list_of(alloc, c)?;
    Ok(line_of_pages(word, a, b, pages))
}

/// The line of a hart that a text is, or none where it has no form of one.
#[tactic(auto, unfolding(crate::specs::Forms::line_of))]
pub fn line_of(alloc: Global, text: &[u8]) -> Result<Option<Line>, Memory>
    ensures { IfOk result (λ found. found ≡ line_of text.now) }
{
    let words = few_words(text);
    match words {
        FewWords::Two(word, a) => Ok(line_of_one(word, a)),
        FewWords::Three(word, a, b) => Ok(line_of_two(word, a, b)),
        FewWords::Four(word, a, b, c) => line_of_three(alloc, word, a, b, c),
        FewWords::Other => Ok(None),
    }
}

fn back_line_of(alloc: Global, word: &[u8], a: &[u8]) -> Result<Option<AttackLine>, Memory>
    ensures { IfOk result (λ found. found ≡ attack_line_of_one word.now a.now) }
{
    if word != b"back".as_slice() {
        return Ok(None);
    }
    let Some(name) = name_of(alloc, a)? else {
        return Ok(None);
    };
    Ok(Some(AttackLine::Back { name }))
}

fn after_line_of(a: &[u8], b: &[u8]) -> Option<AttackLine>
    ensures { result ≡ after_line_of a.now b.now }
{
    Some(AttackLine::After {
        actor: short_of(a)?,
        count: small_number_of(b)?,
    })
}

fn attack_line_of_two(
    alloc: Global,
    word: &[u8],
    a: &[u8],
    b: &[u8],
) -> Result<Option<AttackLine>, Memory>
    ensures { IfOk result (λ found. found ≡ attack_line_of_two word.now a.now b.now) }
{
    if word == b"after".as_slice() {
        return Ok(after_line_of(a, b));
    }
    if word != b"write".as_slice() {
        return Ok(None);
    }
    let Some(pa) = read_hex(a) else {
        return Ok(None);
    };
    let Some(bytes) = hex_bytes_of(alloc, b)? else {
        return Ok(None);
    };
    Ok(Some(AttackLine::Write { pa, bytes }))
}

fn attack_line_of_three(
    alloc: Global,
    word: &[u8],
    a: &[u8],
    b: &[u8],
    c: &[u8],
) -> Result<Option<AttackLine>, Memory>
    ensures { IfOk result (λ found. found ≡ attack_line_of_three word.now a.now b.now c.now) }
{
    if word != b"keep".as_slice() {
        return Ok(None);
    }
    let Some(name) = name_of(alloc, a)? else {
        return Ok(None);
    };
    let Some(pa) = read_hex(b) else {
        return Ok(None);
    };
    let Some(len) = length_of(c) else {
        return Ok(None);
    };
    Ok(Some(AttackLine::Keep { name, pa, len }))
}

/// The line of the attacker that a text is, or none where it has no form of one.
#[tactic(auto, unfolding(crate::specs::Forms::attack_line_of))]
pub fn attack_line_of(alloc: Global, text: &[u8]) -> Result<Option<AttackLine>, Memory>
    ensures { IfOk result (λ found. found ≡ attack_line_of text.now) }
{
    let words = few_words(text);
    match words {
        FewWords::Two(word, a) => back_line_of(alloc, word, a),
        FewWords::Three(word, a, b) => attack_line_of_two(alloc, word, a, b),
        FewWords::Four(word, a, b, c) => attack_line_of_three(alloc, word, a, b, c),
        FewWords::Other => Ok(None),
    }
}
