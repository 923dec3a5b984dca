// What the steps of a line make, and what it leaves to give a number back. Each law is the contract of a function that does nothing.
ghost use Rattle.std.specs.Prelude.{List, ℕ};
ghost use Rattle.mon_life.specs.Laws.{BegunIsMaking, BuiltHolds, DestroysBegin, ImageStands, NothingIsLeft, NumbersAreGivenBack, OthersAreRefused, StepsApart, StepsAreWhole, StepsInside, TablesWalk};

use mon_tables::number_tables_walk;

/// A number is refused exactly where it may not be made; where it may, its line's steps can follow.
pub fn creates_are_refused()
    ensures refused { OthersAreRefused }
    ensures making { BegunIsMaking }
{}

/// A step below the image's length puts the image's page. No two steps put the same page, each puts one that is there, and all of its bytes.
pub fn steps_put_pages()
    ensures image { ImageStands }
    ensures inside { StepsInside }
    ensures apart { StepsApart }
    ensures whole { StepsAreWhole }
{}

/// Where the last three steps stand, the number's root walks to exactly the space of its leaves.
pub fn steps_put_tables()
    ensures { TablesWalk }
{
    number_tables_walk();
}

/// A number is refused exactly where it may not be given back; where it may, it is dying, and a fence covers each page of its space.
pub fn destroys_begin()
    ensures { DestroysBegin }
{}

/// For every digest function: a number's pages are zeroed pages of the host, and no other page, node, owner, number or fence changes; the
/// mirror stays, and the trees hold. Nothing of the old number is left in one that is built again, which holds just the pages that it is built
/// in.
pub fn numbers_are_given_back()
    ensures back { (digest_of : List ℕ → List ℕ) → NumbersAreGivenBack digest_of }
    ensures anew { NothingIsLeft }
    ensures holds { BuiltHolds }
{}
