// The first event of `run` and `resume`.
ghost use Rattle.std.specs.Prelude.{◌≡◌, ◌<◌, length};
ghost use Rattle.std.specs.Result.{result_err};
ghost use Rattle.mon_life.specs.Running.{may_run, run_begun};

use mon_enclave::Enclaves;
use pl_base::{EncNo, HartNo, No, State};

/// Enters an enclave on a hart, for its first run (`first`) or for a later one.
///
/// Refused with `NoEnclave` where the number is free or sealed, and then with `WrongState` where it isn't fresh, for a later run not paused.
#[tactic(auto, unfolding(crate::specs::Running::run_begun))]
pub fn run_begin(enclaves: &mut Enclaves, h: HartNo, e: EncNo, first: bool) -> Result<(), No>
    requires { e.0 < length enclaves.old }
    ensures refusal { result_err result ≡ (run_begun enclaves.old h e.0 first).refusal }
    ensures enclaves { enclaves.new ≡ (run_begun enclaves.old h e.0 first).enclaves }
{
    let state = enclaves.get(e).state;
    if state.is_absent() {
        return Err(No::NoEnclave);
    }
    if !may_run(first, state) {
        return Err(No::WrongState(state));
    }
    enclaves.enter(e, h);
    Ok(())
}

fn may_run(first: bool, state: State) -> bool
    ensures { result ≡ may_run first state }
{
    if first {
        state.is_fresh()
    } else {
        state.is_paused()
    }
}
