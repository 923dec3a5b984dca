// What the events of the host's mappings come to. Each law is the contract of a function that does nothing.
ghost use Rattle.std.specs.Prelude.{List, ℕ};
ghost use Rattle.mem_tree.specs.Trees.{HasDigests};
ghost use Rattle.mon_host.specs.Laws.{MapsTell, SpacesHaveLeaves, StartsInEmptySpace, UnmapsTell};

use mon_tables::host_tables_walk;

/// For every digest function with digests of 32 bytes, and any positions: an early refusal changes nothing, and `Busy` comes exactly where a
/// fence covers the address; else what the leaf's word says, and what is left of memory. Where the host's tables stand for a space, `map` is
/// refused as the space says, or its mapping is the last of the space that the host's root then walks to.
pub fn maps_tell()
    ensures { (digest_of : List ℕ → List ℕ) → HasDigests digest_of → MapsTell digest_of }
{
    host_tables_walk();
}

/// The same of `unmap`: it is refused as the space says, or the host's root then walks to the space without the address, and the answer is the
/// page that was mapped there.
pub fn unmaps_tell()
    ensures { (digest_of : List ℕ → List ℕ) → HasDigests digest_of → UnmapsTell digest_of }
{
    host_tables_walk();
}

/// Tables that stand for a space in which each mapping leads to one of the pages have such leaves.
pub fn spaces_have_leaves()
    ensures { SpacesHaveLeaves }
{}

/// Memory that has the start words of the host's tables stands for the empty space.
pub fn starts_in_empty_space()
    ensures { StartsInEmptySpace }
{
    host_tables_walk();
}
