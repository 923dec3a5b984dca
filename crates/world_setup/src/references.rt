// The first line that names what isn't there, waits for too much, or has no place in memory.
ghost use Rattle.std.specs.Prelude.{◌≡◌, ◌≤◌, ◌-◌, ◌&&◌, None, List, ◌∷◌, nat_le, not, length, sum_by, position, Some, IfOk, OnOk, if◌then◌else◌};
ghost use Rattle.pl_history.specs.declared.line.AttackLine.{AttackLine};
ghost use Rattle.pl_history.specs.Rules.{names_known, after_known, waits_known, counts_of, is_place, kept_length, attack_length, attack_known};
ghost use Rattle.world_setup.specs.References.{first_unknown, first_wait, first_attack, KeepsLengths};

use mem_geom::{MEMORY_START, memory_end};
use pl_base::{Listed, Memory};
use pl_history::{AttackLine, Line};
use std::alloc::Global;
use std::collections::HashMap;

// ---- what a line names

// Whether each enclave number is below `enclaves`, and the image is there.
fn names_known(enclaves: u8, images: u8, line: &Line) -> bool
    ensures { result ≡ names_known enclaves images line.now }
{
    match line {
        Line::Create { e, image, .. } => e.0 < enclaves && *image < images,
        Line::Shadow { e, image, .. } => e.0 < enclaves && *image < images,
        Line::Fork { s, e, .. } => s.0 < enclaves && e.0 < enclaves,
        Line::Grant { e, .. } => e.0 < enclaves,
        Line::Run { e, .. } => e.0 < enclaves,
        Line::Resume { e, .. } => e.0 < enclaves,
        Line::Send { e, .. } => e.0 < enclaves,
        Line::Take { e } => e.0 < enclaves,
        Line::Destroy { e } => e.0 < enclaves,
        Line::Drop { s } => s.0 < enclaves,
        _ => true,
    }
}

fn unknown_at(enclaves: u8, images: u8, lines: &[Line]) -> Option<usize>
    ensures { result ≡ position (λ line. not (names_known enclaves images line)) lines.now }
{
    lines
        .iter()
        .position(|line| !names_known(enclaves, images, line))
}

/// The position, over the lines of hart 0, hart 1 and so on, of the first that names an enclave or an image that isn't there.
#[tactic(auto, unfolding(crate::specs::References::first_unknown))]
pub(crate) fn first_unknown(enclaves: u8, images: u8, scripts: &[Listed<Line>]) -> Option<u32>
    requires { sum_by length scripts.now ≤ 65536 }
    ensures { result ≡ first_unknown enclaves images scripts.now }
{
    let mut before = 0;
    for lines in scripts {
        if let Some(at) = unknown_at(enclaves, images, lines.as_slice()) {
            return Some((before + at) as u32);
        }
        before += lines.len();
    }
    None
}

// ---- what a line waits for

/// How many lines each hart has, and then the attacker.
pub(crate) fn counts_of(
    alloc: Global,
    scripts: &[Listed<Line>],
    attacker: &[AttackLine],
) -> Result<Vec<usize>, Memory>
    ensures { IfOk result (λ counts. counts.items ≡ counts_of scripts.now attacker.now) }
{
    let mut counts = Vec::new(alloc);
    for lines in scripts {
        counts.push(lines.len())?;
    }
    counts.push(attacker.len())?;
    Ok(counts)
}

// Whether it is another actor, with so many lines.
fn after_known(counts: &[usize], me: u8, actor: u8, count: u32) -> bool
    ensures { result ≡ after_known counts.now me actor count }
{
    if actor == me {
        return false;
    }
    match counts.get(actor as usize) {
        Some(lines) => count as usize <= *lines,
        None => false,
    }
}

fn waits_known(counts: &[usize], me: u8, line: &Line) -> bool
    ensures { result ≡ waits_known counts.now me line.now }
{
    match line {
        Line::After { actor, count } => after_known(counts, me, *actor, *count),
        _ => true,
    }
}

fn wait_at(counts: &[usize], me: u8, lines: &[Line]) -> Option<usize>
    ensures { result ≡ position (λ line. not (waits_known counts.now me line)) lines.now }
{
    lines.iter().position(|line| !waits_known(counts, me, line))
}

/// The position, as before, of the first line that waits for no other actor, or for more lines than it has.
#[tactic(auto, unfolding(crate::specs::References::first_wait))]
pub(crate) fn first_wait(counts: &[usize], scripts: &[Listed<Line>]) -> Option<u32>
    requires lines { sum_by length scripts.now ≤ 65536 }
    requires harts { length scripts.now ≤ 8 }
    ensures { result ≡ first_wait counts.now scripts.now }
{
    let mut before = 0;
    let mut hart = 0;
    for lines in scripts {
        if let Some(at) = wait_at(counts, hart, lines.as_slice()) {
            return Some((before + at) as u32);
        }
        before += lines.len();
        hart += 1;
    }
    None
}

// ---- what the attacker names

// The most bytes of all lines that write, keep or write back.
const MOST_BYTES: u64 = 4_194_304;

// Whether each byte from a place on is off chip.
fn is_place(zones: u8, pa: u64, len: u64) -> bool
    ensures { result ≡ is_place zones pa len }
{
    MEMORY_START <= pa && u128::from(pa) + u128::from(len) <= u128::from(memory_end(zones))
}

// The lengths that were kept, by their names.
type Lengths<'a> = HashMap<&'a [u8], u32>;

// What was kept under a name.
fn kept_length(kept: &Lengths<'_>, name: &[u8]) -> Option<u32>
    ensures { (earlier : List AttackLine) → KeepsLengths kept.now earlier → result ≡ kept_length name.now earlier }
{
    kept.get(name).copied()
}

// The bytes of a line that writes or keeps some; of one that writes back those that were kept. `None` where the place isn't
// off chip, the name wasn't kept, or the actor isn't there.
fn known_length(
    zones: u8,
    counts: &[usize],
    me: u8,
    kept: &Lengths<'_>,
    line: &AttackLine,
) -> Option<u64>
    ensures { (earlier : List AttackLine) → KeepsLengths kept.now earlier → result ≡ (if attack_known zones counts.now me earlier line.now then Some (attack_length earlier line.now) else None) }
{
    match line {
        AttackLine::Write { pa, bytes } => {
            let length = bytes.len() as u64;
            is_place(zones, *pa, length).then_some(length)
        }
        AttackLine::Keep { pa, len, .. } => {
            let length = u64::from(*len);
            is_place(zones, *pa, length).then_some(length)
        }
        AttackLine::Back { name } => Some(u64::from(kept_length(kept, name.as_slice())?)),
        AttackLine::After { actor, count } => {
            after_known(counts, me, *actor, *count).then_some(0)
        }
    }
}

// Notes what a line keeps.
fn keep_length<'a>(kept: &mut Lengths<'a>, line: &'a AttackLine) -> Result<(), Memory>
    ensures { (earlier : List AttackLine) → KeepsLengths kept.old earlier → OnOk result (KeepsLengths kept.new (line.now ∷ earlier)) }
{
    if let AttackLine::Keep { name, len, .. } = line {
        kept.insert(name.as_slice(), *len)?;
    }
    Ok(())
}

// How many bytes may still follow a line, where so many may stand in it and after it. `None` where it isn't known, or has more.
fn left_after(
    zones: u8,
    counts: &[usize],
    me: u8,
    kept: &Lengths<'_>,
    left: u64,
    line: &AttackLine,
) -> Option<u64>
    ensures { (earlier : List AttackLine) → KeepsLengths kept.now earlier → result ≡ (if attack_known zones counts.now me earlier line.now && nat_le (attack_length earlier line.now) left then Some (left - attack_length earlier line.now) else None) }
{
    let length = known_length(zones, counts, me, kept, line)?;
    left.checked_sub(length)
}

/// The position of the first of the attacker's lines that has no place in memory, names what wasn't kept, waits for no
/// other actor or too many lines, or with which the bytes of all lines pass 4 MiB. The attacker is actor number `me`.
#[tactic(auto, unfolding(crate::specs::References::first_attack))]
pub(crate) fn first_attack(
    alloc: Global,
    zones: u8,
    counts: &[usize],
    me: u8,
    lines: &[AttackLine],
) -> Result<Option<u32>, Memory>
    requires { length lines.now ≤ 65536 }
    ensures { IfOk result (λ found. found ≡ first_attack zones counts.now me lines.now) }
{
    let mut kept = HashMap::new(alloc);
    let mut left = MOST_BYTES;
    for (at, line) in lines.iter().enumerate() {
        let Some(rest) = left_after(zones, counts, me, &kept, left, line) else {
            return Ok(Some(at as u32));
        };
        keep_length(&mut kept, line)?;
        left = rest;
    }
    Ok(None)
}
