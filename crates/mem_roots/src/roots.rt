// The check of a zone's root in the root table, and its replacement.
ghost use Rattle.std.specs.Prelude.{◌≡◌, ◌/◌, ◌%◌, ◌<◌, IfOk};
ghost use Rattle.std.specs.Result.{result_err};
ghost use Rattle.pl_digest.specs.Nodes.{entry, with_entry};
ghost use Rattle.mem_roots.specs.Roots.{root_break};

use pl_base::Place;
use pl_digest::{Digester, entry, has_digest_of, set_entry, with_digest_of};

/// A zone's root, as the node of level 1 has it, where the two nodes hold under the root on chip. The zone is below 64.
pub fn check_root<D: Digester>(
    top: &[u8; 256],
    node: &[u8; 256],
    zone: u8,
    root: &[u8; 32],
) -> Result<[u8; 32], Place>
    requires { zone < 64 }

    // It is refused with the first of the two that breaks.
    ensures refused { result_err result ≡ root_break D.digest_of top.now node.now zone root.now }
    ensures entry { IfOk result (λ digest. digest ≡ entry (zone % 8) node.now) }
{
    if D::digest(top) != *root {
        return Err(Place::RootNode { level: 2, index: 0 });
    }
    if !has_digest_of::<D>(top, u16::from(zone / 8), node) {
        return Err(Place::RootNode {
            level: 1,
            index: zone / 8,
        });
    }
    Ok(entry(node, u16::from(zone % 8)))
}

/// Puts another root of a zone into the node of level 1, and the digest of that into the top node. The result is the new
/// root on chip. The zone is below 64.
pub fn replace_root<D: Digester>(
    top: &mut [u8; 256],
    node: &mut [u8; 256],
    zone: u8,
    new: &[u8; 32],
) -> [u8; 32]
    requires { zone < 64 }
    ensures node { node.new ≡ with_entry (zone % 8) new.now node.old }
    ensures top { top.new ≡ with_entry (zone / 8) (D.digest_of node.new) top.old }
    ensures root { result ≡ D.digest_of top.new }
{
    set_entry(node, u16::from(zone % 8), new);
    *top = with_digest_of::<D>(top, u16::from(zone / 8), node);
    D::digest(top)
}
