// The printed text of answers and histories.
ghost use Rattle.std.specs.Prelude.{◌≡◌, ◌<◌, ◌≤◌, ◌+◌, ◌++◌, length, slice_get, IfSome, codes};
ghost use Rattle.std.specs.List.{All, flat_map, slice_range};
ghost use Rattle.pl_io.specs.Puts.{Puts};
ghost use Rattle.pl_io.specs.Numbers.{hex_text};
ghost use Rattle.pl_history.specs.History.{part_end, NamesPart};
ghost use Rattle.pl_history.specs.Text.{line_end, last_decimal, left_text, place_text, state_text, why_text, no_text, wrote_head, place_bytes_text, answer_text, head_text, entry_text, text_of};

use crate::answer::{Answer, Entry};
use crate::history::History;
use pl_base::{EncNo, Failed, No, Place, State, Why};
use pl_io::{Piece, Sink, put_pieces};

fn put_text<K: Sink>(sink: &mut K, text: &[u8]) -> Result<(), Failed>
    ensures { Puts (K.written sink.old) (K.written sink.new) (K.faults sink.old) (K.faults sink.new) text.now result }
{
    sink.put(text)
}

// A number, and the end of the line.
fn put_last<K: Sink>(sink: &mut K, name: &[u8], number: u32) -> Result<(), Failed>
    ensures { Puts (K.written sink.old) (K.written sink.new) (K.faults sink.old) (K.faults sink.new) (name.now ++ last_decimal number) result }
{
    put_pieces(
        sink,
        &[
            Piece::Text(name),
            Piece::Dec(u64::from(number)),
            Piece::Text(b"\n"),
        ],
    )
}

/// Writes a place, without the end of the line.
pub fn put_place<K: Sink>(sink: &mut K, place: &Place) -> Result<(), Failed>
    ensures { Puts (K.written sink.old) (K.written sink.new) (K.faults sink.old) (K.faults sink.new) (place_text place.now) result }
{
    match *place {
        Place::Block { page, block } => put_pieces(
            sink,
            &[
                Piece::Text(b"block "),
                Piece::Dec(u64::from(page)),
                Piece::Text(b" "),
                Piece::Dec(u64::from(block)),
            ],
        ),
        Place::Node { level, zone, index } => put_pieces(
            sink,
            &[
                Piece::Text(b"node "),
                Piece::Dec(u64::from(level)),
                Piece::Text(b" "),
                Piece::Dec(u64::from(zone)),
                Piece::Text(b" "),
                Piece::Dec(u64::from(index)),
            ],
        ),
        Place::RootNode { level, index } => put_pieces(
            sink,
            &[
                Piece::Text(b"root-node "),
                Piece::Dec(u64::from(level)),
                Piece::Text(b" "),
                Piece::Dec(u64::from(index)),
            ],
        ),
    }
}

// A place, and the end of the line.
fn put_last_place<K: Sink>(sink: &mut K, place: &Place) -> Result<(), Failed>
    ensures { Puts (K.written sink.old) (K.written sink.new) (K.faults sink.old) (K.faults sink.new) (place_text place.now ++ line_end) result }
{
    put_place(sink, place)?;
    put_text(sink, b"\n")
}

fn state_name(state: &State) -> &'static [u8]
    ensures { result.now ≡ state_text state.now }
{
    match state {
        State::Free => b"free",
        State::Building => b"building",
        State::Fresh => b"fresh",
        State::On => b"on",
        State::Paused => b"paused",
        State::Ended => b"ended",
        State::Trapped => b"trapped",
        State::Faulted => b"faulted",
        State::Dying => b"dying",
        State::Sealed => b"sealed",
    }
}

// A name, a place, and the end of the line.
fn put_named_place<K: Sink>(sink: &mut K, name: &[u8], place: &Place) -> Result<(), Failed>
    ensures { Puts (K.written sink.old) (K.written sink.new) (K.faults sink.old) (K.faults sink.new) (name.now ++ (place_text place.now ++ line_end)) result }
{
    put_text(sink, name)?;
    put_last_place(sink, place)
}

fn put_why<K: Sink>(sink: &mut K, why: &Why) -> Result<(), Failed>
    ensures { Puts (K.written sink.old) (K.written sink.new) (K.faults sink.old) (K.faults sink.new) (why_text why.now) result }
{
    match *why {
        Why::Ended(code) => put_pieces(
            sink,
            &[Piece::Text(b"ended "), Piece::Hex(code), Piece::Text(b"\n")],
        ),
        Why::Budget => put_text(sink, b"budget\n"),
        Why::Waiting => put_text(sink, b"waiting\n"),
        Why::OutFull => put_text(sink, b"out-full\n"),
        Why::NeedPage => put_text(sink, b"need-page\n"),
        Why::Trapped { cause, value } => put_pieces(
            sink,
            &[
                Piece::Text(b"trapped "),
                Piece::Dec(u64::from(cause)),
                Piece::Text(b" "),
                Piece::Hex(value),
                Piece::Text(b"\n"),
            ],
        ),
        Why::Fault(place) => put_named_place(sink, b"fault ", &place),
    }
}

fn put_count<K: Sink>(sink: &mut K, count: u32) -> Result<(), Failed>
    ensures { Puts (K.written sink.old) (K.written sink.new) (K.faults sink.old) (K.faults sink.new) (left_text count) result }
{
    put_pieces(
        sink,
        &[
            Piece::Text(b"left "),
            Piece::Dec(u64::from(count)),
            Piece::Text(b" "),
        ],
    )
}

fn put_left<K: Sink>(sink: &mut K, count: u32, why: &Why) -> Result<(), Failed>
    ensures { Puts (K.written sink.old) (K.written sink.new) (K.faults sink.old) (K.faults sink.new) (left_text count ++ why_text why.now) result }
{
    if put_count(sink, count).is_err() {
        return Err(Failed);
    }
    put_why(sink, why)
}

fn put_refusal<K: Sink>(sink: &mut K, cause: &No) -> Result<(), Failed>
    ensures { Puts (K.written sink.old) (K.written sink.new) (K.faults sink.old) (K.faults sink.new) (no_text cause.now) result }
{
    match *cause {
        No::Misaligned => put_text(sink, b"no 2 misaligned\n"),
        No::PageFault => put_text(sink, b"no 3 page-fault\n"),
        No::AccessFault => put_text(sink, b"no 4 access-fault\n"),
        No::Fault(place) => put_named_place(sink, b"no 5 fault ", &place),
        No::BadAddress => put_text(sink, b"no 6 bad-address\n"),
        No::Busy => put_text(sink, b"no 7 busy\n"),
        No::Mapped => put_text(sink, b"no 8 mapped\n"),
        No::NotYours(page) => put_last(sink, b"no 9 not-yours ", page),
        No::NotMapped => put_text(sink, b"no 10 not-mapped\n"),
        No::Exists => put_text(sink, b"no 11 exists\n"),
        No::Count => put_text(sink, b"no 12 count\n"),
        No::Twice(page) => put_last(sink, b"no 13 twice ", page),
        No::StillMapped(page) => put_last(sink, b"no 14 still-mapped ", page),
        No::Barred(page) => put_last(sink, b"no 15 barred ", page),
        No::NoEnclave => put_text(sink, b"no 16 no-enclave\n"),
        No::WrongState(state) => put_pieces(
            sink,
            &[
                Piece::Text(b"no 17 wrong-state "),
                Piece::Text(state_name(&state)),
                Piece::Text(b"\n"),
            ],
        ),
        No::Full => put_text(sink, b"no 18 full\n"),
        No::Empty => put_text(sink, b"no 19 empty\n"),
        No::TooMany => put_text(sink, b"no 20 too-many\n"),
        No::InUse(EncNo(e)) => put_last(sink, b"no 21 in-use ", u32::from(e)),
    }
}

fn wrote_head(changed: bool) -> &'static [u8]
    ensures { result.now ≡ wrote_head changed }
{
    if changed { b"wrote 1 " } else { b"wrote 0 " }
}

// A head, and then an address with the bytes at it.
fn put_bytes_at<'a, K: Sink>(
    sink: &mut K,
    head: &'a [u8],
    pa: u64,
    part: &'a [u8],
) -> Result<(), Failed>
    ensures { Puts (K.written sink.old) (K.written sink.new) (K.faults sink.old) (K.faults sink.new) (head.now ++ place_bytes_text pa part.now) result }
{
    put_pieces(
        sink,
        &[
            Piece::Text(head),
            Piece::Short(pa),
            Piece::Text(b" "),
            Piece::Bytes(part),
            Piece::Text(b"\n"),
        ],
    )
}

// The part of the bytes that an answer names.
fn named_part(bytes: &[u8], from: u32, len: u32) -> &[u8]
    requires { from + len ≤ length bytes.now }
    ensures { result.now ≡ slice_range bytes.now from (from + len) }
{
    let start = from as usize;
    &bytes[start..start + len as usize]
}

// A name, and 16 digits.
fn put_word<K: Sink>(sink: &mut K, name: &[u8], word: u64) -> Result<(), Failed>
    ensures { Puts (K.written sink.old) (K.written sink.new) (K.faults sink.old) (K.faults sink.new) (name.now ++ (hex_text word ++ line_end)) result }
{
    put_pieces(
        sink,
        &[Piece::Text(name), Piece::Hex(word), Piece::Text(b"\n")],
    )
}

fn put_answer<K: Sink>(sink: &mut K, bytes: &[u8], answer: &Answer) -> Result<(), Failed>
    requires { part_end answer.now ≤ length bytes.now }
    ensures { Puts (K.written sink.old) (K.written sink.new) (K.faults sink.old) (K.faults sink.new) (answer_text bytes.now answer.now) result }
{
    match *answer {
        Answer::Begun => put_text(sink, b"begun\n"),
        Answer::Ok => put_text(sink, b"ok\n"),
        Answer::Value(value) => put_word(sink, b"value ", value),
        Answer::Word(word) => put_word(sink, b"word ", word),
        Answer::Left { count, why } => put_left(sink, count, &why),
        Answer::No(cause) => put_refusal(sink, &cause),
        Answer::Wrote {
            changed,
            pa,
            from,
            len,
        } => put_bytes_at(sink, wrote_head(changed), pa, named_part(bytes, from, len)),
        Answer::Kept { pa, from, len } => {
            put_bytes_at(sink, b"kept ", pa, named_part(bytes, from, len))
        }
    }
}

// The actor, and the number of its line.
fn put_head<K: Sink>(sink: &mut K, harts: u8, entry: &Entry) -> Result<(), Failed>
    ensures { Puts (K.written sink.old) (K.written sink.new) (K.faults sink.old) (K.faults sink.new) (head_text harts entry.now) result }
{
    if entry.actor == harts {
        put_pieces(
            sink,
            &[
                Piece::Text(b"x "),
                Piece::Dec(u64::from(entry.line)),
                Piece::Text(b" "),
            ],
        )
    } else {
        put_pieces(
            sink,
            &[
                Piece::Text(b"h"),
                Piece::Dec(u64::from(entry.actor)),
                Piece::Text(b" "),
                Piece::Dec(u64::from(entry.line)),
                Piece::Text(b" "),
            ],
        )
    }
}

fn put_one<K: Sink>(sink: &mut K, harts: u8, bytes: &[u8], entry: &Entry) -> Result<(), Failed>
    requires { NamesPart bytes.now entry.now }
    ensures { Puts (K.written sink.old) (K.written sink.new) (K.faults sink.old) (K.faults sink.new) (entry_text harts bytes.now entry.now) result }
{
    put_head(sink, harts, entry)?;
    put_answer(sink, bytes, &entry.answer)
}

fn put_entries<K: Sink>(
    sink: &mut K,
    harts: u8,
    bytes: &[u8],
    entries: &[Entry],
) -> Result<(), Failed>
    requires { All (NamesPart bytes.now) entries.now }
    ensures { Puts (K.written sink.old) (K.written sink.new) (K.faults sink.old) (K.faults sink.new) (flat_map (entry_text harts bytes.now) entries.now) result }
{
    for entry in entries {
        if put_one(sink, harts, bytes, entry).is_err() {
            return Err(Failed);
        }
    }
    Ok(())
}

/// Writes the entry with this number, from 0, as a line. An actor with the number `harts` is the attacker, `x`; any other is a hart.
pub fn put_entry<K: Sink>(sink: &mut K, harts: u8, history: &History, at: u32) -> Result<(), Failed>
    requires { at < length history.now.entries }
    ensures { IfSome (slice_get history.now.entries at) (λ entry. Puts (K.written sink.old) (K.written sink.new) (K.faults sink.old) (K.faults sink.new) (entry_text harts history.now.bytes entry) result) }
{
    let entry = &history.entries()[at as usize];
    put_one(sink, harts, history.bytes(), entry)
}

/// Writes the entries, one line each.
pub fn put_history<K: Sink>(sink: &mut K, harts: u8, history: &History) -> Result<(), Failed>
    ensures { Puts (K.written sink.old) (K.written sink.new) (K.faults sink.old) (K.faults sink.new) (text_of harts history.now) result }
{
    put_entries(sink, harts, history.bytes(), history.entries())
}
