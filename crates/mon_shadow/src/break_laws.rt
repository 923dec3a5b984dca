// What the copy of a page leaves and tells. The law is the contract of a function that does nothing.
ghost use Rattle.std.specs.Prelude.{List, ℕ};
ghost use Rattle.mem_tree.specs.Trees.{HasDigests};
ghost use Rattle.mon_shadow.specs.BreakLaws.{CopiesSetLeaf, CopiesTell};

use mon_tables::number_tables_walk;

/// For every digest function with digests of 32 bytes, and any positions: a copy leaves trees that hold, and bytes that were as written. Where
/// it is done, the spare has the shared page's bytes and the leaf's word is set; where it is refused by the leaf's path, the spare alone has
/// changed, and else all pages stay. A number's tables then have the new leaf, or stay.
pub fn breaks_tell()
    ensures copies { (digest_of : List ℕ → List ℕ) → HasDigests digest_of → CopiesTell digest_of }
    ensures tables { (digest_of : List ℕ → List ℕ) → HasDigests digest_of → CopiesSetLeaf digest_of }
{
    number_tables_walk();
}
