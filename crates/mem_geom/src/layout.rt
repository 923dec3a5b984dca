// Where each place of off-chip memory stands.
ghost use Rattle.std.specs.Prelude.{◌≡◌, ◌+◌, ◌≤◌, ◌<◌};
ghost use Rattle.mem_geom.specs.Layout.{Exists, place_start, place_length, memory_end, page_start, nodes_start, nodes_of_level, nodes_before_level, root_nodes_of_level, root_nodes_before_level};

use pl_base::{PAGE_BYTES, Place};

/// The address of the first byte of off-chip memory.
pub const MEMORY_START: u64 = 0x8000_0000;

/// The bytes of a block.
pub(crate) const BLOCK_BYTES: u32 = 64;

/// The bytes of a node: eight digests.
pub(crate) const NODE_BYTES: u32 = 256;

/// The bytes of a zone's 64 pages.
pub(crate) const ZONE_BYTES: u64 = 64 * PAGE_BYTES;

/// The bytes of a zone's 585 nodes.
pub(crate) const ZONE_NODE_BYTES: u64 = 585 * NODE_BYTES as u64;

/// The bytes of the root table's nine nodes.
pub(crate) const TABLE_BYTES: u64 = 9 * NODE_BYTES as u64;

/// Where a place stands, where there are so many zones: the address of its first byte, and its bytes.
pub fn place_range(zones: u8, place: &Place) -> (u64, u32)
    requires { Exists zones place.now }
    ensures start { result.0 ≡ place_start zones place.now }
    ensures length { result.1 ≡ place_length place.now }
    ensures from { 0x80000000 ≤ result.0 }
    ensures to { result.0 + result.1 ≤ memory_end zones }
{
    match *place {
        Place::Block { page, block } => {
            let at = BLOCK_BYTES * u32::from(block);
            (page_start(page) + u64::from(at), BLOCK_BYTES)
        }
        Place::Node { level, zone, index } => {
            let at = NODE_BYTES * node_number(level, index);
            (nodes_start(zones, zone) + u64::from(at), NODE_BYTES)
        }
        Place::RootNode { level, index } => {
            let at = NODE_BYTES * root_node_number(level, index);
            (nodes_start(zones, zones) + u64::from(at), NODE_BYTES)
        }
    }
}

/// The address of a page's first byte.
pub fn page_start(page: u32) -> u64
    ensures { result ≡ page_start page }
{
    MEMORY_START + PAGE_BYTES * u64::from(page)
}

// The address of a zone's first node, or of the root table for a zone past the last.
fn nodes_start(zones: u8, zone: u8) -> u64
    ensures { result ≡ nodes_start zones zone }
{
    MEMORY_START + ZONE_BYTES * u64::from(zones) + ZONE_NODE_BYTES * u64::from(zone)
}

/// The address after the last byte of off-chip memory, where there are so many zones.
pub fn memory_end(zones: u8) -> u64
    ensures { result ≡ memory_end zones }
{
    nodes_start(zones, zones) + TABLE_BYTES
}

// The number of a node among those of its zone.
fn node_number(level: u8, index: u16) -> u32
    requires { index < nodes_of_level level }
    ensures { result ≡ nodes_before_level level + index }
{
    let before = match level {
        1 => 0,
        2 => 512,
        3 => 576,
        _ => 584,
    };
    before + u32::from(index)
}

// The number of a node among those of the root table.
fn root_node_number(level: u8, index: u8) -> u32
    requires { index < root_nodes_of_level level }
    ensures { result ≡ root_nodes_before_level level + index }
{
    let before = if level == 1 { 0 } else { 8 };
    before + u32::from(index)
}
