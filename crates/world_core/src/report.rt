// The printed report of a run: the root on chip, the mounted zones, and how the run ended.
ghost use Rattle.std.specs.Prelude.{◌++◌, map, option_map};
ghost use Rattle.std.specs.List.{flat_map};
ghost use Rattle.pl_io.specs.Puts.{Puts};
ghost use Rattle.pl_history.specs.Text.{line_end};
ghost use Rattle.world_events.specs.Parts.{collision_data};
ghost use Rattle.world_core.specs.Report.{collision_text, ending_text, mounted_text, report_text, root_text, zone_text};

use mem_ctl::Collision;
use mem_slots::SlotUse;
use pl_base::Failed;
use pl_history::put_place;
use pl_io::{Piece, Sink, put_pieces};
use world_machine::Finished;

fn put_text<K: Sink>(sink: &mut K, text: &[u8]) -> Result<(), Failed>
    ensures { Puts (K.written sink.old) (K.written sink.new) (K.faults sink.old) (K.faults sink.new) text.now result }
{
    sink.put(text)
}

// The root, two digits a byte.
fn put_root<K: Sink>(sink: &mut K, root: &[u8; 32]) -> Result<(), Failed>
    ensures { Puts (K.written sink.old) (K.written sink.new) (K.faults sink.old) (K.faults sink.new) (root_text root.now) result }
{
    put_pieces(
        sink,
        &[
            Piece::Text(b"root "),
            Piece::Bytes(root),
            Piece::Text(b"\n"),
        ],
    )
}

// A space, and a zone.
fn put_zone<K: Sink>(sink: &mut K, zone: u8) -> Result<(), Failed>
    ensures { Puts (K.written sink.old) (K.written sink.new) (K.faults sink.old) (K.faults sink.new) (zone_text zone) result }
{
    put_pieces(sink, &[Piece::Text(b" "), Piece::Dec(u64::from(zone))])
}

// The zones of slots, one after the other.
fn put_zones<K: Sink>(sink: &mut K, mounted: &[SlotUse]) -> Result<(), Failed>
    ensures { Puts (K.written sink.old) (K.written sink.new) (K.faults sink.old) (K.faults sink.new) (flat_map (λ s. zone_text s.zone) mounted.now) result }
{
    for slot in mounted {
        if put_zone(sink, slot.zone).is_err() {
            return Err(Failed);
        }
    }
    Ok(())
}

// The zones of slots, and the end of the line.
fn put_zone_line<K: Sink>(sink: &mut K, mounted: &[SlotUse]) -> Result<(), Failed>
    ensures { Puts (K.written sink.old) (K.written sink.new) (K.faults sink.old) (K.faults sink.new) (flat_map (λ s. zone_text s.zone) mounted.now ++ line_end) result }
{
    put_zones(sink, mounted)?;
    put_text(sink, b"\n")
}

// The line of the mounted zones, in order of mounting.
fn put_mounted<K: Sink>(sink: &mut K, mounted: &[SlotUse]) -> Result<(), Failed>
    ensures { Puts (K.written sink.old) (K.written sink.new) (K.faults sink.old) (K.faults sink.new) (mounted_text (map (λ s. s.zone) mounted.now)) result }
{
    if put_text(sink, b"mounted").is_err() {
        return Err(Failed);
    }
    put_zone_line(sink, mounted)
}

// The place of a collision, its bytes as taken and as last written, and the end of the line.
fn put_collision<K: Sink>(sink: &mut K, collision: &Collision) -> Result<(), Failed>
    ensures { Puts (K.written sink.old) (K.written sink.new) (K.faults sink.old) (K.faults sink.new) (collision_text (collision_data collision.now)) result }
{
    put_place(sink, &collision.place)?;
    put_pieces(
        sink,
        &[
            Piece::Text(b" "),
            Piece::Bytes(collision.held.as_slice()),
            Piece::Text(b" "),
            Piece::Bytes(collision.written.as_slice()),
            Piece::Text(b"\n"),
        ],
    )
}

// A name, and a collision.
fn put_named_collision<K: Sink>(
    sink: &mut K,
    name: &[u8],
    collision: &Collision,
) -> Result<(), Failed>
    ensures { Puts (K.written sink.old) (K.written sink.new) (K.faults sink.old) (K.faults sink.new) (name.now ++ collision_text (collision_data collision.now)) result }
{
    put_text(sink, name)?;
    put_collision(sink, collision)
}

// How a run ended. A run that ended by a collision has kept one.
fn put_end<K: Sink>(
    sink: &mut K,
    collision: Option<&Collision>,
    end: Finished,
) -> Result<(), Failed>
    ensures { Puts (K.written sink.old) (K.written sink.new) (K.faults sink.old) (K.faults sink.new) (ending_text end (option_map (λ c. collision_data c.now) collision.entry)) result }
{
    match (end, collision) {
        (Finished::Done, _) => put_text(sink, b"end done\n"),
        (Finished::Stuck, _) => put_text(sink, b"end stuck\n"),
        (Finished::Collision, Some(kept)) => put_named_collision(sink, b"end collision ", kept),
        (Finished::Collision, None) => Ok(()),
    }
}

/// Writes the three lines of a report: the root on chip, the mounted zones in order of mounting, and how the run ended.
pub(crate) fn put_report<K: Sink>(
    sink: &mut K,
    root: &[u8; 32],
    mounted: &[SlotUse],
    collision: Option<&Collision>,
    end: Finished,
) -> Result<(), Failed>
    ensures { Puts (K.written sink.old) (K.written sink.new) (K.faults sink.old) (K.faults sink.new) (report_text root.now (map (λ s. s.zone) mounted.now) (option_map (λ c. collision_data c.now) collision.entry) end) result }
{
    if put_root(sink, root).is_err() {
        return Err(Failed);
    }
    if put_mounted(sink, mounted).is_err() {
        return Err(Failed);
    }
    put_end(sink, collision, end)
}
