//! One line of the attacker: it writes bytes off chip, keeps some, or writes back what it kept.
#![tactic(auto)]

mod attack;
mod kept;
mod laws;
mod room;

pub use attack::attack_line;
pub use laws::{attacks_are_off_chip, attacks_leave, histories_have_room, keeps_are_answered};
pub use room::room_for;
