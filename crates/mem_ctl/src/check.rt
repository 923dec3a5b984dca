// Places of off-chip memory, and the check of a path of them.
ghost use Rattle.std.specs.Prelude.{◌≡◌, ◌≤◌, ◌<◌, ◌/◌, [], length, All, Some, None, slice_index_or};
ghost use Rattle.std.specs.Option.{option_map_or};
ghost use Rattle.mem_geom.specs.Layout.{Exists, memory_size, place_bytes, place_length};
ghost use Rattle.mem_geom.specs.Tree.{parent, entry_number};
ghost use Rattle.pl_digest.specs.Nodes.{entry};
ghost use Rattle.mem_tree.specs.Changes.{at_place};
ghost use Rattle.mem_tree.specs.Checks.{IsTopDown, check};
ghost use Rattle.mem_tree.specs.Paths.{held, path_of};
ghost use Rattle.mem_ctl.specs.Results.{checked_of, place_checked, written_checked};
ghost use Rattle.mem_ctl.specs.Writes.{with_place};

use crate::broken::{Broken, Collision};
use arrayvec::ArrayVec;
use mem_geom::{Dram, place_range};
use pl_base::Place;
use pl_digest::{Digester, entry};

/// The top node of the root table.
pub(crate) const TOP: Place = Place::RootNode { level: 2, index: 0 };

/// The node of the root table that has a zone's root.
pub(crate) fn node_over(zone: u8) -> Place
    ensures { result ≡ Place.RootNode 1 (zone / 8) }
{
    Place::RootNode {
        level: 1,
        index: zone / 8,
    }
}

/// Reads the bytes of a place.
pub(crate) fn read_place(memory: &Dram, zones: u8, place: &Place, into: &mut [u8])
    requires exists { Exists zones place.now }
    requires size { length memory.now ≡ memory_size zones }
    requires length { length into.old ≡ place_length place.now }
    ensures { into.new ≡ place_bytes zones memory.now place.now }
{
    let (start, _) = place_range(zones, place);
    memory.read(start, into);
}

/// Writes the bytes of a place.
pub(crate) fn write_place(memory: &mut Dram, zones: u8, place: &Place, bytes: &[u8])
    requires exists { Exists zones place.now }
    requires size { length memory.old ≡ memory_size zones }
    requires length { length bytes.now ≡ place_length place.now }
    ensures bytes { memory.new ≡ with_place zones memory.old (at_place place.now bytes.now) }
    ensures size { length memory.new ≡ length memory.old }
{
    let (start, _) = place_range(zones, place);
    memory.write(start, bytes);
}

/// The check of a path of places.
pub(crate) fn check_places<D: Digester>(
    zones: u8,
    root: &[u8; 32],
    off_chip: &Dram,
    mirror: &Dram,
    places: &[Place],
) -> Result<(), Broken>
    requires few { zones ≤ 64 }
    requires exist { All (λ p. Exists zones p) places.now }
    requires off_chip { length off_chip.now ≡ memory_size zones }
    requires mirror { length mirror.now ≡ memory_size zones }
    requires top_down { IsTopDown places.now }
    ensures { checked_of result ≡ check D.digest_of (path_of root.now places.now (place_bytes zones off_chip.now)) (place_bytes zones mirror.now) }
{
    for i in 0..places.len() {
        let held = held_at(zones, root, off_chip, places, i);
        if let Err(broken) = check_place::<D>(zones, &held, off_chip, mirror, &places[i]) {
            return Err(broken);
        }
    }
    Ok(())
}

// The digest held for a place of a path.
fn held_at(zones: u8, root: &[u8; 32], off_chip: &Dram, places: &[Place], i: usize) -> [u8; 32]
    requires few { zones ≤ 64 }
    requires exist { All (λ p. Exists zones p) places.now }
    requires off_chip { length off_chip.now ≡ memory_size zones }
    requires top_down { IsTopDown places.now }
    requires there { i < length places.now }
    ensures { result ≡ held (path_of root.now places.now (place_bytes zones off_chip.now)) (slice_index_or places.now i (Place.Block 0 0)) }
{
    if i == 0 {
        return *root;
    }
    held_for(zones, off_chip, &places[i])
}

// The check of one place.
fn check_place<D: Digester>(
    zones: u8,
    held: &[u8; 32],
    off_chip: &Dram,
    mirror: &Dram,
    place: &Place,
) -> Result<(), Broken>
    requires exists { Exists zones place.now }
    requires off_chip { length off_chip.now ≡ memory_size zones }
    requires mirror { length mirror.now ≡ memory_size zones }
    ensures { checked_of result ≡ place_checked D.digest_of held.now place.now (place_bytes zones off_chip.now place.now) (place_bytes zones mirror.now place.now) }
{
    let (_, size) = place_range(zones, place);
    let mut taken = [0; 256];
    let taken = &mut taken[..size as usize];
    read_place(off_chip, zones, place, taken);
    if D::digest(taken) != *held {
        return Err(Broken::Fault(*place));
    }
    check_written::<D>(zones, mirror, place, taken)
}

/// The check of a place's bytes, which don't break, against the written ones.
pub(crate) fn check_written<D: Digester>(
    zones: u8,
    mirror: &Dram,
    place: &Place,
    taken: &[u8],
) -> Result<(), Broken>
    requires exists { Exists zones place.now }
    requires mirror { length mirror.now ≡ memory_size zones }
    requires length { length taken.now ≡ place_length place.now }
    ensures { checked_of result ≡ written_checked D.digest_of place.now taken.now (place_bytes zones mirror.now place.now) }
{
    let (_, size) = place_range(zones, place);
    let mut written = [0; 256];
    let written = &mut written[..size as usize];
    read_place(mirror, zones, place, written);
    if taken == &*written {
        return Ok(());
    }
    if D::digest(taken) != D::digest(written) {
        return Ok(());
    }
    Err(Broken::Collision(collision(place, taken, written)))
}

fn collision(place: &Place, taken: &[u8], written: &[u8]) -> Collision
    requires taken { length taken.now ≤ 256 }
    requires written { length written.now ≤ 256 }
    ensures place { result.place ≡ place.now }
    ensures held { result.held.items ≡ taken.now }
    ensures written { result.written.items ≡ written.now }
{
    let mut held = ArrayVec::new();
    let _fits = held.try_extend_from_slice(taken);
    let mut other = ArrayVec::new();
    let _fits = other.try_extend_from_slice(written);
    Collision {
        place: *place,
        held,
        written: other,
    }
}

// The digest that the node above a place has for it.
fn held_for(zones: u8, off_chip: &Dram, place: &Place) -> [u8; 32]
    requires exists { Exists zones place.now }
    requires few { zones ≤ 64 }
    requires below { parent place.now ≡ None → ⊥ }
    requires size { length off_chip.now ≡ memory_size zones }
    ensures { result ≡ option_map_or (λ above. entry (entry_number place.now) (place_bytes zones off_chip.now above)) (parent place.now) [] }
{
    let (above, number) = above(place);
    let mut node = [0; 256];
    read_place(off_chip, zones, &above, &mut node);
    entry(&node, u16::from(number))
}

// The node above a place, and the number of its entry there.
fn above(place: &Place) -> (Place, u8)
    requires below { parent place.now ≡ None → ⊥ }
    requires exists { Exists 64 place.now }
    ensures above { parent place.now ≡ Some result.0 }
    ensures number { result.1 ≡ entry_number place.now }
{
    match *place {
        Place::Block { page, block } => (
            Place::Node {
                level: 1,
                zone: (page / 64) as u8,
                index: 8 * (page % 64) as u16 + u16::from(block) / 8,
            },
            block % 8,
        ),
        Place::Node { level, zone, index } => {
            if level == 4 {
                (node_over(zone), zone % 8)
            } else {
                (
                    Place::Node {
                        level: level + 1,
                        zone,
                        index: index / 8,
                    },
                    (index % 8) as u8,
                )
            }
        }
        Place::RootNode { index, .. } => (TOP, index),
    }
}
