// What holds of paths and trees as such. Each law is the contract of a function that does nothing.
ghost use Rattle.std.specs.Prelude.{List, ℕ};
ghost use Rattle.mem_tree.specs.Changes.{TreesChange};
ghost use Rattle.mem_tree.specs.Checks.{ChecksTell, DifferencesCollide, OwnBytesMatter};
ghost use Rattle.mem_tree.specs.Trees.{HasDigests, PathsAreOfTree, PathsAreTopDown, PathsHold};
ghost use Rattle.mem_tree.specs.Words.{PartsAnswerAlike};

/// For every digest function, where the written bytes hold under a path's root: its check finds the first place that
/// breaks or was written otherwise, and what it finds tells how taken and written bytes stand to one another.
pub fn checks_tell()
    ensures differences_collide { (digest_of : List ℕ → List ℕ) → DifferencesCollide digest_of }
    ensures checks_tell { (digest_of : List ℕ → List ℕ) → ChecksTell digest_of }
{}

/// The answers for a path hang on its root and the bytes of its own places alone; so those for the parts of a word's
/// path are those for the bytes that they came from.
pub fn own_bytes_matter()
    ensures own_bytes_matter { (digest_of : List ℕ → List ℕ) → OwnBytesMatter digest_of }
    ensures parts_answer_alike { (digest_of : List ℕ → List ℕ) → PartsAnswerAlike digest_of }
{}

/// The paths of a word, of a page, of a page that is replaced, and of a mounting or an eviction go from the top down,
/// and each holds in its tree, for every digest function with digests of 32 bytes.
pub fn paths_hold()
    ensures top_down { PathsAreTopDown }
    ensures hold { (digest_of : List ℕ → List ℕ) → HasDigests digest_of → PathsHold digest_of }
    ensures of_tree { (digest_of : List ℕ → List ℕ) (pages_of : ℕ → List (List ℕ)) (entries : List (List ℕ)) → PathsAreOfTree digest_of pages_of entries }
{}

/// What of a tree changes with a part of a block, with a page, and with an entry of the root table, for every digest
/// function with digests of 32 bytes.
pub fn trees_change()
    ensures { (digest_of : List ℕ → List ℕ) → HasDigests digest_of → TreesChange digest_of }
{}
