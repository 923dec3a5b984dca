// What holds of every enclave number, in every world that is reached. A law is the contract of a function that does nothing.
ghost use Rattle.world_machine.specs.NumberLaws.{DyingNumbersHaveFences, NumbersAreTheirImages};

/// In every world that is reached, each number that is being given back has its fence: a hart's first line without an answer is the `destroy` of it,
/// begun, and the fence of that hart is of the whole space of the number. Each fence is of a removal that its hart has open, or of such a number that
/// its hart gives back, or of a page that its hart's enclave broke.
pub fn dying_numbers_have_fences()
    ensures { DyingNumbersHaveFences }
{}

/// A number that is used again is its new image alone. In every world that is reached, a number that is free has nothing: no pages or spares, no
/// words sent to it, and no translations. One that is neither live nor given back has no translations on any hart, so neither has one that is being
/// made. One that isn't free is the image of the newest line that makes it run alone, with the words sent since that began, for the instructions that
/// retired since; while it is live or a sealed shadow, the bytes of its pages are those of that too.
pub fn numbers_are_their_images()
    ensures { NumbersAreTheirImages }
{}
