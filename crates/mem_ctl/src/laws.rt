// What holds of every call as such. Each law is the contract of a function that does nothing.
ghost use Rattle.std.specs.Prelude.{List, ℕ};
ghost use Rattle.mem_tree.specs.Trees.{HasDigests};
ghost use Rattle.mem_ctl.specs.Kept.{TreesAreKept};
ghost use Rattle.mem_ctl.specs.Laws.{CallsTell};
ghost use Rattle.mem_ctl.specs.Threading.{CallsThread};

/// For every digest function with digests of 32 bytes, and any positions: a call leaves trees that hold, and bytes that
/// were as written; a word or page that is read is the one that was written; a write changes its own page alone; a
/// refusal changes no page, and names a place whose bytes off chip aren't the written ones.
pub fn calls_tell()
    ensures { (digest_of : List ℕ → List ℕ) → HasDigests digest_of → CallsTell digest_of }
{}

/// For every digest function with digests of 32 bytes: where a controller's rule holds, the root on chip is that of the
/// tree over the 64 entries of the mirror's root table; the rule hangs on no byte off chip, so a raw write leaves it; the
/// check of a zone's root is that of its path; and a byte that differs after a call from the written one did so before.
pub fn trees_are_kept()
    ensures { (digest_of : List ℕ → List ℕ) → HasDigests digest_of → TreesAreKept digest_of }
{}

/// Each call takes its positions from the front of those that are left, one for each list of slots that it shows, and
/// hangs on no others.
pub fn calls_thread()
    ensures { (digest_of : List ℕ → List ℕ) → CallsThread digest_of }
{}
