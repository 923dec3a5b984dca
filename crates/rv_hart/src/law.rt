// Asking and learning in turn is the page walk.
ghost use Rattle.rv_hart.specs.Translation.{AsksWhereItStands, LearnsTheWalk, WalksWithoutEntry, UsesTheEntry};

use rv_sv39::steps_give_walks;

/// Laws of `seek` and `learn`, over the words of memory. A walk that stands where the words lead from the root asks for the table there,
/// and learns what the page walk is. Asking and learning from the start on, for a canonical address: without an entry of the space and
/// page in the TLB they give the page walk, and its page goes into the TLB last; with one they give the entry, or a page fault where it
/// lacks the permission.
pub fn repeated_steps_translate()
    ensures asks { AsksWhereItStands }
    ensures learns { LearnsTheWalk }
    ensures walks { WalksWithoutEntry }
    ensures entry { UsesTheEntry }
{
    steps_give_walks();
}
