// A path as it was taken, and the first place where it breaks.
ghost use Rattle.std.specs.Prelude.{◌≡◌, ◌<◌};
ghost use Rattle.mem_tree.specs.Paths.{first_break};
ghost use Rattle.mem_tree.specs.Words.{taken_path};

use pl_base::Place;
use pl_digest::{Digester, has_digest_of};

/// A block and the four nodes over it, as taken from off-chip memory, and the root of the zone.
#[derive(Clone, Copy)]
pub struct Taken<D> {
    /// The digest function of the tree.
    pub digester: D,
    /// The page of the block, below 4,096 where it is to be sealed.
    pub page: u32,
    /// The number of the block in its page, below 64 where it is to be sealed.
    pub block_no: u8,
    pub block: [u8; 64],
    /// The node over the block, with the digests of eight blocks.
    pub level1: [u8; 256],
    /// The node over the page.
    pub level2: [u8; 256],
    /// The node over eight pages.
    pub level3: [u8; 256],
    /// The node over the zone.
    pub level4: [u8; 256],
    /// The root of the zone, as its slot had it.
    pub root: [u8; 32],
}

/// The first place from the top that breaks.
pub(crate) fn first_break<D: Digester>(taken: &Taken<D>) -> Option<Place>
    requires page { taken.now.page < 4096 }
    requires block { taken.now.block_no < 64 }
    ensures { result ≡ first_break D.digest_of (taken_path taken.now) }
{
    let zone = (taken.page / 64) as u8;
    let page = (taken.page % 64) as u16;
    let block = u16::from(taken.block_no);
    if D::digest(&taken.level4) != taken.root {
        return node(4, zone, 0);
    }
    if !has_digest_of::<D>(&taken.level4, page / 8, &taken.level3) {
        return node(3, zone, page / 8);
    }
    if !has_digest_of::<D>(&taken.level3, page % 8, &taken.level2) {
        return node(2, zone, page);
    }
    if !has_digest_of::<D>(&taken.level2, block / 8, &taken.level1) {
        return node(1, zone, 8 * page + block / 8);
    }
    if !has_digest_of::<D>(&taken.level1, block % 8, &taken.block) {
        return Some(Place::Block {
            page: taken.page,
            block: taken.block_no,
        });
    }
    None
}

fn node(level: u8, zone: u8, index: u16) -> Option<Place>
    ensures { result ≡ Some (Place.Node level zone index) }
{
    Some(Place::Node { level, zone, index })
}
