// What holds of fences as lists. Each law is the contract of a function that does nothing.
ghost use Rattle.mon_fence.specs.Fences.{FencesNeedOthers};

/// A posted fence needs exactly the other harts; a fence needs only harts that there are, and never its own, after each call.
pub fn fences_need_others()
    ensures { FencesNeedOthers }
{}
