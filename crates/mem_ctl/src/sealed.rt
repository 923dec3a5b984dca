// The check of a sealed path against the mirror.
ghost use Rattle.std.specs.Prelude.{◌≡◌, ◌≤◌, ◌<◌, ◌*◌, true, length};
ghost use Rattle.mem_geom.specs.Layout.{Exists, memory_size, place_bytes, place_length};
ghost use Rattle.mem_geom.specs.PathPlaces.{word_places};
ghost use Rattle.mem_tree.specs.Checks.{check};
ghost use Rattle.mem_tree.specs.Words.{part_bytes, parts_of, taken_path};
ghost use Rattle.mem_ctl.specs.Results.{checked_of, is_break, is_of_zone, part_checked};

use crate::broken::Broken;
use crate::check::check_written;
use mem_geom::Dram;
use mem_tree::{Sealed, Taken, Verdict};
use pl_base::Place;
use pl_digest::Digester;

/// The four nodes over a block, and the block.
pub(crate) fn word_places(page: u32, block: u8) -> [Place; 5]
    requires page { page < 4096 }
    requires block { block < 64 }
    ensures { result ≡ word_places page block }
{
    let zone = (page / 64) as u8;
    let within = (page % 64) as u16;
    [
        Place::Node {
            level: 4,
            zone,
            index: 0,
        },
        Place::Node {
            level: 3,
            zone,
            index: within / 8,
        },
        Place::Node {
            level: 2,
            zone,
            index: within,
        },
        Place::Node {
            level: 1,
            zone,
            index: 8 * within + u16::from(block) / 8,
        },
        Place::Block { page, block },
    ]
}

/// The check of a sealed path. Its digests are not computed again, but for those of bytes that differ from the written
/// ones.
pub(crate) fn check_sealed<D: Digester>(
    zones: u8,
    mirror: &Dram,
    sealed: &Sealed<D>,
) -> Result<(), Broken>
    requires few { zones ≤ 64 }
    requires mirror { length mirror.now ≡ memory_size zones }
    requires page { sealed.now.page < 64 * zones }
    ensures { checked_of result ≡ check D.digest_of (taken_path sealed.now) (place_bytes zones mirror.now) }
{
    let verdict = sealed.verdict();
    let taken = sealed.taken();
    let places = word_places(taken.page, taken.block_no);
    for i in 0..places.len() {
        let bytes = part(taken, &places[i]);
        if let Err(broken) = check_part::<D>(zones, mirror, &verdict, &places[i], bytes) {
            return Err(broken);
        }
    }
    Ok(())
}

// The bytes of a place of the path.
fn part<'a, D>(taken: &'a Taken<D>, place: &Place) -> &'a [u8]
    requires { is_of_zone place.now ≡ true }
    ensures bytes { result.now ≡ part_bytes (parts_of taken.now) place.now }
    ensures size { length result.now ≡ place_length place.now }
{
    match *place {
        Place::Block { .. } => &taken.block,
        Place::Node { level: 1, .. } => &taken.level1,
        Place::Node { level: 2, .. } => &taken.level2,
        Place::Node { level: 3, .. } => &taken.level3,
        Place::Node { .. } => &taken.level4,
        Place::RootNode { .. } => unreachable!(),
    }
}

// The check of one place of it.
fn check_part<D: Digester>(
    zones: u8,
    mirror: &Dram,
    verdict: &Verdict,
    place: &Place,
    bytes: &[u8],
) -> Result<(), Broken>
    requires exists { Exists zones place.now }
    requires mirror { length mirror.now ≡ memory_size zones }
    requires length { length bytes.now ≡ place_length place.now }
    ensures { checked_of result ≡ part_checked D.digest_of (is_break verdict.now place.now) place.now bytes.now (place_bytes zones mirror.now place.now) }
{
    if is_break(verdict, place) {
        return Err(Broken::Fault(*place));
    }
    check_written::<D>(zones, mirror, place, bytes)
}

// Whether the path breaks at this place.
fn is_break(verdict: &Verdict, place: &Place) -> bool
    ensures { result ≡ is_break verdict.now place.now }
{
    match verdict {
        Verdict::Holds => false,
        Verdict::Breaks(broken) => *broken == *place,
    }
}
