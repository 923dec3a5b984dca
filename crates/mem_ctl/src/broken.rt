// Why an access through the trees is refused, and why a step of the monitor stops its line.
ghost use Rattle.std.specs.Prelude.{◌≡◌};
ghost use Rattle.mem_ctl.specs.Stops.{stop_of};

use arrayvec::ArrayVec;
use pl_base::{No, Place};

/// The bytes of a place as taken and as last written, unequal and of one digest.
#[derive(Clone, PartialEq, Eq, Debug, Drop)]
pub struct Collision {
    pub place: Place,
    pub held: ArrayVec<u8, 256>,
    pub written: ArrayVec<u8, 256>,
}

/// Why an access through the trees is refused.
#[derive(Clone, PartialEq, Eq, Debug, Drop)]
pub enum Broken {
    /// The digest of this place isn't the one held above it.
    Fault(Place),
    /// Other bytes than the written ones stand at a place, and have their digest.
    Collision(Collision),
}

/// Why a step of the monitor stops its line.
#[derive(Clone, PartialEq, Eq, Debug, Drop)]
pub enum Stop {
    /// The line is refused.
    No(No),
    /// Other bytes than the written ones stand at a place, and have their digest.
    Collision(Collision),
}

impl From<Broken> for Stop {
    ghost from_gives = { λ broken stop. stop ≡ stop_of broken };

    fn from(broken: Broken) -> Stop {
        match broken {
            Broken::Fault(place) => Stop::No(No::Fault(place)),
            Broken::Collision(collision) => Stop::Collision(collision),
        }
    }
}
