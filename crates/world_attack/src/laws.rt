// What holds of the attacker's lines, over plain data. Each law is the contract of a function that does nothing.
ghost use Rattle.world_attack.specs.Laws.{WritesLeave, KeepsLeave, SetupLinesAreInside, BacksHaveBytes, LegalKeepsAreAnswered, MoreBytesLeaveKept};
ghost use Rattle.world_attack.specs.Room.{SetupsNeedRoom, RoomForLines, RoomStays};

/// What a write and a keeping leave: their answer names their bytes, and off chip only the bytes of the write are others.
pub fn attacks_leave()
    ensures writes { WritesLeave }
    ensures keeps { KeepsLeave }
{}

/// The bytes of each line of a setup are off chip, and at most 4,096. So are those that a `back` writes.
#[tactic(auto, using(crate::proofs::LineLemmas::lines_inside, crate::proofs::LineLemmas::backs_have_bytes))]
pub fn attacks_are_off_chip()
    ensures lines { SetupLinesAreInside }
    ensures backs { BacksHaveBytes }
{}

/// In a legal history each `keep` before the attacker's next line is answered, and bytes that are added change nothing of it.
#[tactic(auto, using(crate::proofs::LegalLemmas::keeps_answered, crate::proofs::KeptLemmas::more_bytes_leave_kept))]
pub fn keeps_are_answered()
    ensures legal { LegalKeepsAreAnswered }
    ensures more { MoreBytesLeaveKept }
{}

/// How much room a history needs for the lines of a setup, and that a history with it has room for each line and after each entry.
pub fn histories_have_room()
    ensures start { SetupsNeedRoom }
    ensures lines { RoomForLines }
    ensures stays { RoomStays }
{}
