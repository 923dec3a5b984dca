// Nodes of trees by their digests.

/// Eight times one digest.
pub(crate) fn eight(digest: &[u8; 32]) -> [u8; 256] {
    let mut node = [0; 256];
    for k in 0..8usize {
        node[32 * k..32 * k + 32].copy_from_slice(digest);
    }
    node
}
