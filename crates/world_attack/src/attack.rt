// A line of the attacker that isn't `after`.
ghost use Rattle.std.specs.Prelude.{◌≡◌, ◌<◌, ◌≤◌, ◌+◌, true, [], ◌∷◌, ◌++◌, length, slice_get, Some, IfSome, IsSomeAnd};
ghost use Rattle.mem_geom.specs.Layout.{memory_size};
ghost use Rattle.mem_ctl.specs.Data.{with_off_chip};
ghost use Rattle.pl_history.specs.Attacking.{latest_kept};
ghost use Rattle.pl_history.specs.History.{part_end};
ghost use Rattle.pl_history.specs.Rules.{IsSetup};
ghost use Rattle.world_attack.specs.Attacks.{entry_of, exposed, wrote_at, kept_at, attacked_by, attacked_line};
ghost use Rattle.world_attack.specs.Lines.{is_attack, line_bytes, range_of, IsInside, KeepsAnsweredFor};

use crate::kept::latest_kept;
use mem_ctl::Ctl;
use pl_digest::Digester;
use pl_history::{Answer, AttackLine, Entry, History, Setup, SetupParts};

// The most bytes that a line writes or keeps.
const MOST_BYTES: usize = 4096;

// Adds the answer to a line, whose bytes the history has.
fn answer(history: &mut History, setup: &SetupParts, at: u32, answer: Answer)
    requires room { 0 < history.old.entry_room }
    requires part { part_end answer ≤ length history.old.bytes }
    ensures entries { history.new.entries ≡ history.old.entries ++ entry_of setup.now at answer ∷ [] }
    ensures entry_room { history.new.entry_room + 1 ≡ history.old.entry_room }
    ensures bytes { history.new.bytes ≡ history.old.bytes }
    ensures byte_room { history.new.byte_room ≡ history.old.byte_room }
{
    history.add(Entry {
        actor: setup.harts,
        line: at,
        answer,
    });
}

// Writes bytes off chip, and answers the line.
fn write<D: Digester, F>(
    ctl: &mut Ctl<D, F>,
    history: &mut History,
    setup: &SetupParts,
    at: u32,
    pa: u64,
    bytes: &[u8],
)
    requires size { length ctl.old.0.off_chip ≡ memory_size setup.now.zones }
    requires inside { IsInside setup.now.zones (record { address = pa; count = length bytes.now }) }
    requires entry_room { 0 < history.old.entry_room }
    requires byte_room { length bytes.now ≤ history.old.byte_room }
    ensures history { history.new ≡ (wrote_at setup.now at (exposed history.old ctl.old.0.off_chip) (record { address = pa; bytes = bytes.now })).history }
    ensures ctl { ctl.new ≡ (with_off_chip ctl.old.0 (wrote_at setup.now at (exposed history.old ctl.old.0.off_chip) (record { address = pa; bytes = bytes.now })).off_chip, ctl.old.1) }
{
    let changed = ctl.attack(pa, bytes);
    let from = history.add_bytes(bytes);
    let len = bytes.len() as u32;
    let wrote = Answer::Wrote {
        changed,
        pa,
        from,
        len,
    };
    answer(history, setup, at, wrote);
}

// Adds bytes off chip to the history, and answers the line.
fn keep<D: Digester, F>(
    ctl: &Ctl<D, F>,
    history: &mut History,
    setup: &SetupParts,
    at: u32,
    pa: u64,
    len: u32,
)
    requires size { length ctl.now.0.off_chip ≡ memory_size setup.now.zones }
    requires inside { IsInside setup.now.zones (record { address = pa; count = len }) }
    requires entry_room { 0 < history.old.entry_room }
    requires byte_room { len ≤ history.old.byte_room }
    ensures { history.new ≡ (kept_at setup.now at (exposed history.old ctl.now.0.off_chip) pa len).history }
{
    let mut buffer = [0; MOST_BYTES];
    let bytes = &mut buffer[..len as usize];
    ctl.peek(pa, bytes);
    let from = history.add_bytes(bytes);
    answer(history, setup, at, Answer::Kept { pa, from, len });
}

// Writes the bytes back that the latest `keep` of a name kept, and answers the line.
fn back<D: Digester, F>(
    ctl: &mut Ctl<D, F>,
    history: &mut History,
    setup: &SetupParts,
    at: u32,
    name: &[u8],
)
    requires size { length ctl.old.0.off_chip ≡ memory_size setup.now.zones }
    requires kept { IsSomeAnd (latest_kept setup.now history.old.bytes name.now history.old.entries) (λ what. IsInside setup.now.zones (range_of what)) }
    requires entry_room { 0 < history.old.entry_room }
    requires byte_room { IfSome (latest_kept setup.now history.old.bytes name.now history.old.entries) (λ what. length what.bytes ≤ history.old.byte_room) }
    ensures history { history.new ≡ (attacked_by setup.now at (exposed history.old ctl.old.0.off_chip) (AttackLine.Back name.now)).history }
    ensures ctl { ctl.new ≡ (with_off_chip ctl.old.0 (attacked_by setup.now at (exposed history.old ctl.old.0.off_chip) (AttackLine.Back name.now)).off_chip, ctl.old.1) }
{
    let kept = latest_kept(setup, history, name).unwrap();
    let pa = kept.pa;
    let mut buffer = [0; MOST_BYTES];
    let bytes = &mut buffer[..kept.bytes.len()];
    bytes.copy_from_slice(kept.bytes);
    write(ctl, history, setup, at, pa, bytes);
}

// Does a line that isn't `after`.
fn attack<D: Digester, F>(
    ctl: &mut Ctl<D, F>,
    history: &mut History,
    setup: &SetupParts,
    at: u32,
    line: &AttackLine,
)
    requires here { slice_get setup.now.attacker at ≡ Some line.now }
    requires line { is_attack (Some line.now) ≡ true }
    requires rules { IsSetup setup.now }
    requires size { length ctl.old.0.off_chip ≡ memory_size setup.now.zones }
    requires kept { KeepsAnsweredFor setup.now history.old at }
    requires entry_room { 0 < history.old.entry_room }
    requires byte_room { line_bytes setup.now at ≤ history.old.byte_room }
    ensures history { history.new ≡ (attacked_by setup.now at (exposed history.old ctl.old.0.off_chip) line.now).history }
    ensures ctl { ctl.new ≡ (with_off_chip ctl.old.0 (attacked_by setup.now at (exposed history.old ctl.old.0.off_chip) line.now).off_chip, ctl.old.1) }
{
    match line {
        AttackLine::Write { pa, bytes } => write(ctl, history, setup, at, *pa, bytes.as_slice()),
        AttackLine::Keep { pa, len, .. } => keep(ctl, history, setup, at, *pa, *len),
        AttackLine::Back { name } => back(ctl, history, setup, at, name.as_slice()),
        AttackLine::After { .. } => unreachable!(),
    }
}

/// Does the attacker's line `at`, from 0, which isn't `after`: writes or keeps its bytes, and answers it. It takes no memory.
///
/// The history has room for one entry and for the line's bytes. Where the line is `back`, it has the answer of the latest `keep`
/// of that name before it.
pub fn attack_line<D: Digester, F>(
    ctl: &mut Ctl<D, F>,
    history: &mut History,
    setup: &Setup,
    at: u32,
)
    requires line { is_attack (slice_get setup.now.attacker at) ≡ true }
    requires zones { ctl.old.0.zones ≡ setup.now.zones }
    requires kept { KeepsAnsweredFor setup.now history.old at }
    requires entry_room { 0 < history.old.entry_room }
    requires byte_room { line_bytes setup.now at ≤ history.old.byte_room }
    ensures history { history.new ≡ (attacked_line setup.now at (exposed history.old ctl.old.0.off_chip)).history }
    ensures ctl { ctl.new ≡ (with_off_chip ctl.old.0 (attacked_line setup.now at (exposed history.old ctl.old.0.off_chip)).off_chip, ctl.old.1) }
{
    let parts = setup.parts();
    ctl.trees_hold();
    let line = &parts.attacker.as_slice()[at as usize];
    attack(ctl, history, parts, at, line);
}
