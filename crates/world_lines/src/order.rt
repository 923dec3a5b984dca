// The order of the first turns.
ghost use Rattle.std.specs.Prelude.{◌≡◌, IfOk};
ghost use Rattle.pl_io.specs.Numbers.{dec_value};
ghost use Rattle.world_lines.specs.Order.{hart_below, actor_of, order_of};

use crate::words::first_word;
use pl_base::{Actor, HartNo, Listed, Memory};
use pl_io::read_dec;
use std::alloc::Global;

// The most words of an order.
const MOST_WORDS: usize = 100_000;

fn hart_of(harts: u8, digits: &[u8]) -> Option<HartNo>
    ensures { result ≡ hart_below harts (dec_value digits.now) }
{
    match read_dec(digits) {
        Some(number) if number < u64::from(harts) => Some(HartNo(number as u8)),
        _ => None,
    }
}

// `hN`, `aN` or `x`.
fn actor_of(harts: u8, word: &[u8]) -> Option<Actor>
    ensures { result ≡ actor_of harts word.now }
{
    match word {
        [b'h', digits @ ..] => Some(Actor::Hart(hart_of(harts, digits)?)),
        [b'a', digits @ ..] => Some(Actor::Ack(hart_of(harts, digits)?)),
        [b'x'] => Some(Actor::Attacker),
        _ => None,
    }
}

/// The actors of an order, of so many harts, or the position of the first bad word, from 0. The word at position 100,000 is bad.
#[tactic(auto, unfolding(crate::specs::Order::order_of))]
pub fn order_of(alloc: Global, harts: u8, text: &[u8]) -> Result<Result<Listed<Actor>, u32>, Memory>
    ensures { IfOk result (λ found. found ≡ order_of harts text.now) }
{
    let mut actors = Listed::new(alloc);
    let mut rest = if text.is_empty() { None } else { Some(text) };
    while let Some(left) = rest {
        let first = first_word(left);
        if actors.len() >= MOST_WORDS {
            return Ok(Err(actors.len() as u32));
        }
        let Some(actor) = actor_of(harts, first.part) else {
            return Ok(Err(actors.len() as u32));
        };
        actors.push(actor)?;
        rest = first.rest;
    }
    Ok(Ok(actors))
}
