// The nodes of a page's tree, from its bytes.
ghost use Rattle.std.specs.Prelude.{◌≡◌, ◌*◌, length, map};
ghost use Rattle.std.specs.List.{concat};
ghost use Rattle.pl_digest.specs.Trees.{pieces, lower_nodes, upper_node, block_digests};

use pl_digest::{DIGEST_BYTES, Digester};

/// The digests of so many pieces of one size, one after another.
pub fn digest_pieces<D: Digester>(bytes: &[u8], size: usize, count: usize, into: &mut [u8])
    requires pieces { length bytes.now ≡ size * count }
    requires digests { length into.old ≡ 32 * count }
    ensures { into.new ≡ concat (map D.digest_of (pieces size count bytes.now)) }
{
    for k in 0..count {
        let digest = D::digest(&bytes[size * k..size * k + size]);
        into[DIGEST_BYTES * k..DIGEST_BYTES * k + DIGEST_BYTES].copy_from_slice(&digest);
    }
}

/// The nodes over a page: the eight of level 1, one after another, and the one of level 2. This computes 64 digests and
/// then eight.
pub fn page_nodes<D: Digester>(page: &[u8; 4096], level1: &mut [u8; 2048], level2: &mut [u8; 256])
    ensures level1 { level1.new ≡ concat (lower_nodes (block_digests D.digest_of page.now)) }
    ensures level2 { level2.new ≡ upper_node D.digest_of (block_digests D.digest_of page.now) }
{
    digest_pieces::<D>(page, 64, 64, level1);
    digest_pieces::<D>(level1, 256, 8, level2);
}
