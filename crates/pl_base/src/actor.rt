// Who acts in a turn.
use crate::number::HartNo;

/// Who makes the next event: a hart with its script, a hart that acknowledges a fence, or the attacker.
#[derive(Clone, Copy, PartialEq, Eq, Debug)]
pub enum Actor {
    Hart(HartNo),
    Ack(HartNo),
    Attacker,
}
