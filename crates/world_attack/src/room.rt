// How much room a history needs.
ghost use Rattle.std.specs.Prelude.{◌≡◌, ◌≤◌, ◌+◌, ◌*◌, length, min, sum_by};
ghost use Rattle.pl_history.specs.History.{HistoryData};
ghost use Rattle.pl_history.specs.Monitor.{opening};
ghost use Rattle.pl_history.specs.Rules.{IsSetup};
ghost use Rattle.world_attack.specs.Room.{HasRoom};

use pl_base::Listed;
use pl_history::{Line, Setup};

// The most bytes of all the attacker's lines, 4 MiB.
const MOST_ATTACK_BYTES: usize = 4_194_304;

// How many lines the harts have.
fn line_count(scripts: &[Listed<Line>]) -> usize
    requires { sum_by length scripts.now ≤ 65536 }
    ensures { result ≡ sum_by length scripts.now }
{
    let mut count = 0;
    for lines in scripts {
        count += lines.len();
    }
    count
}

/// How many entries and how many bytes a history has to have room for, so that all lines of a setup can be answered: two entries
/// for each line, and 4,096 bytes for each line of the attacker, but no more than all of them may have.
pub fn room_for(setup: &Setup) -> (usize, usize)
    ensures entries { result.0 ≡ 2 * (sum_by length setup.now.lines + length setup.now.attacker) }
    ensures bytes { result.1 ≡ min (4096 * length setup.now.attacker) 4194304 }
    ensures enough { (h : HistoryData) → result.0 ≤ h.entry_room → result.1 ≤ h.byte_room → HasRoom setup.now (opening setup.now) h }
{
    let parts = setup.parts();
    let lines = line_count(parts.lines.as_slice()) + parts.attacker.len();
    let bytes = 4096 * parts.attacker.len();
    (2 * lines, bytes.min(MOST_ATTACK_BYTES))
}
