// Nodes of a hash tree: eight digests of 32 bytes, one after another.
ghost use Rattle.std.specs.Prelude.{◌≡◌, ◌<◌};
ghost use Rattle.std.specs.Str.{bytes_eq};
ghost use Rattle.pl_digest.specs.Nodes.{entry, with_entry};

use crate::digester::Digester;

/// The bytes of a digest.
pub const DIGEST_BYTES: usize = 32;

/// The digest of this number in a node, from 0 to 7.
pub fn entry(node: &[u8; 256], number: u16) -> [u8; 32]
    requires { number < 8 }
    ensures { result ≡ entry number node.now }
{
    let from = DIGEST_BYTES * usize::from(number);
    let mut digest = [0; 32];
    digest.copy_from_slice(&node[from..from + DIGEST_BYTES]);
    digest
}

/// Puts a digest into a node as this number, from 0 to 7.
pub fn set_entry(node: &mut [u8; 256], number: u16, digest: &[u8; 32])
    requires { number < 8 }
    ensures { node.new ≡ with_entry number digest.now node.old }
{
    let from = DIGEST_BYTES * usize::from(number);
    node[from..from + DIGEST_BYTES].copy_from_slice(digest);
}

/// Whether a node has the digest of some bytes as this number, from 0 to 7.
pub fn has_digest_of<D: Digester>(node: &[u8; 256], number: u16, below: &[u8]) -> bool
    requires { number < 8 }
    ensures { result ≡ bytes_eq (D.digest_of below.now) (entry number node.now) }
{
    let from = DIGEST_BYTES * usize::from(number);
    D::digest(below).as_slice() == &node[from..from + DIGEST_BYTES]
}

/// The node with the digest of some bytes as this number, from 0 to 7.
pub fn with_digest_of<D: Digester>(node: &[u8; 256], number: u16, below: &[u8]) -> [u8; 256]
    requires { number < 8 }
    ensures { result ≡ with_entry number (D.digest_of below.now) node.now }
{
    let mut changed = *node;
    set_entry(&mut changed, number, &D::digest(below));
    changed
}
