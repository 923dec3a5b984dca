// The setup of the generated load, by its number.
ghost use Rattle.std.specs.Prelude.{◌≡◌, ◌<◌, ◌≤◌, ◌/◌, ◌^◌, ◌++◌, IfOk, OnOk};
ghost use Rattle.world_setup.specs.Generating.{creation, creations, destructions, entering, first_page, generated, next_state, number_of, page_with, round_lines, rounds_lines, hart_script, scripts_of, sends, state_after, summing_image, takes, number_round};

use crate::images::page_of_bytes;
use mon_image::{Image, ImagePage, ImagePages};
use pl_base::{EncNo, IMAGE_START, Listed, Memory, Perms};
use pl_history::{ChoiceName, Line, Setup, SetupParts};
use std::alloc::Global;

const HARTS: u8 = 4;

// The enclave numbers of a hart.
const NUMBERS: u8 = 4;

const ROUNDS: u32 = 25;

// The words to a number in a round.
const WORDS: u32 = 8;

// The lines of a hart.
const LINES: usize = 1708;

const BUDGET: u32 = 1000;

// RECV into x10; LD x8, -8(x2); ADD x8, x8, x10; SD x8, -8(x2); ADDI x10, x8, 0; SEND; and back to the first word.
const CODE: [u8; 36] = [
    0x93, 0x08, 0x20, 0x00, 0x73, 0x00, 0x00, 0x00, 0x03, 0x34, 0x81, 0xff, 0x33, 0x04, 0xa4, 0x00,
    0x23, 0x3c, 0x81, 0xfe, 0x13, 0x05, 0x04, 0x00, 0x93, 0x08, 0x30, 0x00, 0x73, 0x00, 0x00, 0x00,
    0x6f, 0xf0, 0x1f, 0xfe,
];

// ---- the words

// The words that a hart sends: the upper halves of states, each of which gives the next.
#[derive(Drop)]
struct Words {
    state: u64,
}

#[tactic(auto, unfolding(crate::specs::Generating::next_state))]
fn next_state(state: u64) -> u64
    ensures { result ≡ next_state state }
{
    state
        .wrapping_mul(6_364_136_223_846_793_005)
        .wrapping_add(1_442_695_040_888_963_407)
}

impl Words {
    fn draw(&mut self) -> u64
        ensures state { self.new.state ≡ next_state self.old.state }
        ensures word { result ≡ self.new.state / 2 ^ 32 }
    {
        self.state = next_state(self.state);
        self.state >> 32
    }
}

// ---- the lines of a number

fn first_page(e: EncNo) -> u32
    ensures { result ≡ first_page e.0 }
{
    64 * (1 + u32::from(e.0 % 3)) + 2 * u32::from(e.0)
}

fn creation(alloc: Global, e: EncNo) -> Result<Line, Memory>
    ensures { IfOk result (λ line. line ≡ creation e) }
{
    let page = first_page(e);
    let pages = Vec::from_array(alloc, [page, page + 1])?;
    Ok(Line::Create {
        e,
        image: 0,
        pages: Listed::from_vec(pages),
    })
}

fn entering(round: u32, e: EncNo) -> Line
    ensures { result ≡ entering round e }
{
    if round == 0 {
        Line::Run { e, budget: BUDGET }
    } else {
        Line::Resume { e, budget: BUDGET }
    }
}

fn push_sends(lines: &mut Vec<Line>, e: EncNo, words: &mut Words) -> Result<(), Memory>
    ensures lines { OnOk result (lines.new.items ≡ lines.old.items ++ sends e words.old.state) }
    ensures words { OnOk result (words.new.state ≡ state_after words.old.state 8) }
{
    for _ in 0..WORDS {
        let word = words.draw();
        lines.push(Line::Send { e, word })?;
    }
    Ok(())
}

fn push_takes(lines: &mut Vec<Line>, e: EncNo) -> Result<(), Memory>
    ensures { OnOk result (lines.new.items ≡ lines.old.items ++ takes e) }
{
    for _ in 0..WORDS {
        lines.push(Line::Take { e })?;
    }
    Ok(())
}

// A number's lines in a round.
#[tactic(auto, unfolding(crate::specs::Generating::number_round))]
fn push_number_round(
    lines: &mut Vec<Line>,
    round: u32,
    e: EncNo,
    words: &mut Words,
) -> Result<(), Memory>
    ensures lines { OnOk result (lines.new.items ≡ lines.old.items ++ number_round round e words.old.state) }
    ensures words { OnOk result (words.new.state ≡ state_after words.old.state 8) }
{
    push_sends(lines, e, words)?;
    lines.push(entering(round, e))?;
    push_takes(lines, e)
}

// ---- the lines of a hart

fn number_of(hart: u8, i: u8) -> EncNo
    requires hart { hart < 4 }
    requires place { i < 4 }
    ensures { result ≡ number_of hart i }
{
    EncNo(hart + HARTS * i)
}

fn push_creations(alloc: Global, lines: &mut Vec<Line>, hart: u8) -> Result<(), Memory>
    requires { hart < 4 }
    ensures { OnOk result (lines.new.items ≡ lines.old.items ++ creations hart) }
{
    for i in 0..NUMBERS {
        lines.push(creation(alloc, number_of(hart, i))?)?;
    }
    Ok(())
}

fn push_round(lines: &mut Vec<Line>, hart: u8, round: u32, words: &mut Words) -> Result<(), Memory>
    requires { hart < 4 }
    ensures lines { OnOk result (lines.new.items ≡ lines.old.items ++ round_lines hart round words.old.state) }
    ensures words { OnOk result (words.new.state ≡ state_after words.old.state 32) }
{
    for i in 0..NUMBERS {
        push_number_round(lines, round, number_of(hart, i), words)?;
    }
    Ok(())
}

fn push_rounds(lines: &mut Vec<Line>, hart: u8, words: &mut Words) -> Result<(), Memory>
    requires { hart < 4 }
    ensures { OnOk result (lines.new.items ≡ lines.old.items ++ rounds_lines hart words.old.state) }
{
    for round in 0..ROUNDS {
        push_round(lines, hart, round, words)?;
    }
    Ok(())
}

fn push_destructions(lines: &mut Vec<Line>, hart: u8) -> Result<(), Memory>
    requires { hart < 4 }
    ensures { OnOk result (lines.new.items ≡ lines.old.items ++ destructions hart) }
{
    for i in 0..NUMBERS {
        let e = number_of(hart, i);
        lines.push(Line::Destroy { e })?;
    }
    Ok(())
}

#[tactic(auto, unfolding(crate::specs::Generating::hart_script))]
fn hart_script(alloc: Global, n: u32, hart: u8) -> Result<Listed<Line>, Memory>
    requires { hart < 4 }
    ensures { IfOk result (λ lines. lines ≡ hart_script n hart) }
{
    let mut lines = Vec::with_capacity(alloc, LINES)?;
    push_creations(alloc, &mut lines, hart)?;
    let mut words = Words {
        state: u64::from(n) * 8 + u64::from(hart),
    };
    push_rounds(&mut lines, hart, &mut words)?;
    push_destructions(&mut lines, hart)?;
    Ok(Listed::from_vec(lines))
}

fn scripts_of(alloc: Global, n: u32) -> Result<Listed<Listed<Line>>, Memory>
    ensures { IfOk result (λ scripts. scripts ≡ scripts_of n) }
{
    let mut scripts = Vec::new(alloc);
    for hart in 0..HARTS {
        scripts.push(hart_script(alloc, n, hart)?)?;
    }
    Ok(Listed::from_vec(scripts))
}

// ---- the image

// A page that begins with these bytes and is then zero.
#[tactic(auto, unfolding(crate::specs::Generating::page_with))]
fn page_with(perms: u8, bytes: Vec<u8>) -> Result<ImagePage, Memory>
    ensures { IfOk result (λ page. page ≡ page_with perms bytes.items) }
{
    Ok(ImagePage {
        perms: Perms(perms),
        bytes: page_of_bytes(bytes)?,
    })
}

fn summing_image(alloc: Global) -> Result<Image, Memory>
    ensures { IfOk result (λ image. image ≡ summing_image) }
{
    let code = page_with(5, Vec::from_slice(alloc, &CODE)?)?;
    let data = page_with(3, Vec::new(alloc))?;
    Ok(Image {
        entry: IMAGE_START,
        pages: ImagePages::new(Vec::from_array(alloc, [code, data])?),
    })
}

// ---- all of it

/// The setup of the generated load with this number: four harts send words to four enclave numbers each, whose image sums them, run them, and
/// take the sums. The words are those of one generator for each hart, which begins with the number.
pub fn generate(alloc: Global, n: u32) -> Result<Setup, Memory>
    requires { n ≤ 65535 }
    ensures { IfOk result (λ setup. setup ≡ generated n) }
{
    let images = Vec::from_array(alloc, [summing_image(alloc)?])?;
    let lines = scripts_of(alloc, n)?;
    Ok(Setup::new(SetupParts {
        harts: HARTS,
        zones: 4,
        slots: 2,
        tables: 1,
        enclaves: HARTS * NUMBERS,
        choice: ChoiceName::Oldest,
        pmp: Listed::new(alloc),
        order: Listed::new(alloc),
        images: Listed::from_vec(images),
        lines,
        attacker: Listed::new(alloc),
    }))
}
