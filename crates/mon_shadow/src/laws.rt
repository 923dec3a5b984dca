// When a fork, a grant and a drop are refused, and what they leave. Each law is the contract of a function that does nothing.
ghost use Rattle.std.specs.Prelude.{List, ℕ};
ghost use Rattle.mon_shadow.specs.Laws.{DropsAreRefused, ForkedHolds, ForksAreRefused, ForksShare, GrantsAreRefused, ForkedAnew, ShadowsAreGivenBack};

/// A fork, a grant and a drop are refused exactly where they may not be made.
pub fn forks_are_refused()
    ensures fork { ForksAreRefused }
    ensures grant { GrantsAreRefused }
    ensures drop { DropsAreRefused }
{}

/// A number that is forked shares the shadow's pages, and holds just its spares. Nothing of the old number is left in it.
pub fn forks_share_pages()
    ensures shared { ForksShare }
    ensures holds { ForkedHolds }
    ensures anew { ForkedAnew }
{}

/// For every digest function: after a drop that isn't refused, the shadow's pages are zeroed pages of the host, and no other page, node, owner
/// or number changes; the mirror stays, and the trees hold.
pub fn shadows_are_given_back()
    ensures { (digest_of : List ℕ → List ℕ) → ShadowsAreGivenBack digest_of }
{}
