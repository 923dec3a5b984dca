// What holds of the layout as a whole. Each law is the contract of a function that does nothing.
ghost use Rattle.mem_geom.specs.Laws.{RangesAreApart, BytesHaveOnePlace, NodesFollowOneAnother, WritesChangeOnePlace, WritesChangeRange, PartsArePlaces};

/// Two places that exist are one place or stand apart.
pub fn ranges_are_apart()
    ensures { RangesAreApart }
{}

/// Each byte of off-chip memory belongs to exactly one place, and no place has a byte outside it.
pub fn bytes_have_one_place()
    ensures { BytesHaveOnePlace }
{}

/// The nodes of a zone stand one after another without a gap.
pub fn nodes_follow_one_another()
    ensures { NodesFollowOneAnother }
{}

/// Other bytes at a place are that place's bytes from then on, and no other place's bytes change.
pub fn writes_change_one_place()
    ensures { WritesChangeOnePlace }
{}

/// Bytes that are written over any range leave all bytes and places outside it as they were.
pub fn writes_change_range()
    ensures { WritesChangeRange }
{}

/// The blocks of a page are the pieces of its bytes, and the nodes over them stand one after another.
pub fn parts_are_places()
    ensures { PartsArePlaces }
{}
