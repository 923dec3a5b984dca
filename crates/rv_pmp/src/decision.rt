// Which entry matches an access first, and what it allows.
ghost use Rattle.std.specs.Prelude.{◌≡◌, ◌+◌, ◌*◌, ◌%◌, ◌<◌, ◌≤◌, ◌^◌, ◌&&◌, ◌↔◌, IsTrue, IsFalse, IfNone, IfSome, ℕ};
ghost use Rattle.std.specs.List.{AllPass};
ghost use Rattle.rv_pmp.specs.Rule.{perms_of, grants_each, is_valid};
ghost use Rattle.pl_base.specs.Span.{span, overlaps, covers};
ghost use Rattle.rv_pmp.specs.Decision.{PermitsEach, IsOpen, PiecesOpen, LeavesFree};
ghost use Rattle.rv_pmp.specs.Pmp.{permits_after};

use crate::rule::Rule;
use pl_base::{Kind, PAGE_BYTES, Span};

// The bytes of the pieces that a page is looked at in.
const PIECE: u64 = 8;

/// Whether the rules let an access through.
pub fn decides(rules: &[Rule], access: Span, kind: Kind) -> bool
    requires { AllPass is_valid rules.now }
    ensures { result ≡ permits_after 0 rules.now access kind }
{
    let mut before = 0;
    for rule in rules {
        let span = rule.span(before);
        if span.overlaps(access) {
            return span.covers(access) && rule.perms().grants(kind);
        }
        before = rule.addr;
    }
    false
}

/// Whether the rules let each aligned piece of the page at `start` through for all three kinds.
pub fn page_is_open(rules: &[Rule], start: u64) -> bool
    requires valid { AllPass is_valid rules.now }
    requires aligned { start % 8 ≡ 0 }
    requires fits { start + 4096 < 2 ^ 64 }
    ensures { IsTrue result ↔ PiecesOpen rules.now start }
{
    let end = start + PAGE_BYTES;
    let mut at = start;
    while at < end {
        match open_until(rules, at, end) {
            Some(next) => at = next,
            None => return false,
        }
    }
    true
}

// Up to where one rule lets all accesses through, from the piece at `at` on; `None` where it bars that piece.
fn open_until(rules: &[Rule], at: u64, end: u64) -> Option<u64>
    requires valid { AllPass is_valid rules.now }
    requires aligned { (at % 8 ≡ 0) × (end % 8 ≡ 0) }
    requires piece { at + 8 ≤ end }
    ensures barred { IfNone result (¬ (PermitsEach rules.now (span at (at + 8)))) }
    ensures further { IfSome result (λ next. (at + 8 ≤ next) × (next ≤ end) × (next % 8 ≡ 0)) }
    ensures open { IfSome result (λ next. IsOpen rules.now (span at next)) }
{
    let piece = Span {
        start: at,
        stop: at + PIECE,
    };
    let mut before = 0;
    let mut free = end;
    for rule in rules {
        let span = rule.span(before);
        if span.overlaps(piece) {
            if opens(rule, span, piece) {
                return Some(free.min(span.stop) / PIECE * PIECE);
            }
            return None;
        }
        free = free_until(span, at, free);
        before = rule.addr;
    }
    None
}

// Up to where a range that leaves the piece at `at` free leaves the addresses from there on free, at most to `end`.
fn free_until(range: Span, at: u64, end: u64) -> u64
    requires apart { IsFalse (overlaps range (span at (at + 8))) }
    requires piece { at + 8 ≤ end }
    ensures further { at + 8 ≤ result }
    ensures within { result ≤ end }
    ensures free { LeavesFree range at result }
{
    if range.start < range.stop && at < range.start {
        end.min(range.start)
    } else {
        end
    }
}

// Whether a rule that decides on a piece by this range lets it through for all three kinds.
fn opens(rule: &Rule, range: Span, piece: Span) -> bool
    ensures { result ≡ (covers range piece && grants_each (perms_of rule.now)) }
{
    let perms = rule.perms();
    range.covers(piece)
        && perms.grants(Kind::Fetch)
        && perms.grants(Kind::Load)
        && perms.grants(Kind::Store)
}
