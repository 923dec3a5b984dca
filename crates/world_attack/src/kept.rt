// What the history has as kept under a name.
ghost use Rattle.std.specs.Prelude.{◌≡◌, Option, option_map, slice_get, All};
ghost use Rattle.std.specs.Option.{option_copied};
ghost use Rattle.pl_history.specs.Attacking.{keeps_name, kept_by, latest_kept};
ghost use Rattle.pl_history.specs.History.{NamesPart};
ghost use Rattle.world_attack.specs.Kept.{placed};

use pl_history::{Answer, AttackLine, Entry, History, SetupParts};

/// Bytes that were kept, and the address of the first.
#[derive(Clone, Copy)]
pub(crate) struct Kept<'a> {
    pub(crate) pa: u64,
    pub(crate) bytes: &'a [u8],
}

// Whether a line keeps bytes under this name.
fn keeps_name(line: Option<&AttackLine>, name: &[u8]) -> bool
    ensures { result ≡ keeps_name name.now (option_copied line.entry) }
{
    match line {
        Some(AttackLine::Keep { name: other, .. }) => other.as_slice() == name,
        _ => false,
    }
}

// What an entry kept under this name.
fn kept_by<'a>(setup: &SetupParts, bytes: &'a [u8], name: &[u8], entry: Entry) -> Option<Kept<'a>>
    requires { NamesPart bytes.now entry }
    ensures { option_map placed result ≡ kept_by setup.now bytes.now name.now entry }
{
    let line = setup.attacker.get(entry.line as usize);
    if entry.actor != setup.harts || !keeps_name(line, name) {
        return None;
    }
    match entry.answer {
        Answer::Kept { pa, from, len } => Some(Kept {
            pa,
            bytes: &bytes[from as usize..from as usize + len as usize],
        }),
        _ => None,
    }
}

/// What the latest entry with this name kept.
pub(crate) fn latest_kept<'a>(
    setup: &SetupParts,
    history: &'a History,
    name: &[u8],
) -> Option<Kept<'a>>
    ensures { option_map placed result ≡ latest_kept setup.now history.now.bytes name.now history.now.entries }
{
    let entries = history.entries();
    let bytes = history.bytes();
    for at in (0..entries.len()).rev() {
        let kept = kept_by(setup, bytes, name, entries[at]);
        if kept.is_some() {
            return kept;
        }
    }
    None
}
