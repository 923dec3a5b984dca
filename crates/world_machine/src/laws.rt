// What holds of every world that is reached, and of every legal history. A law is the contract of a function that does nothing.
ghost use Rattle.world_machine.specs.Laws.{AccessesReachOwnPages, HartsWaitForFences, MovesLessen, ReachedWorldsStand, RemovedMappingsStayUnused, RootsWalkToSpaces, UnattackedIsUndisturbed};

/// For every setup that can be run, every order of turns of harts, acknowledgements and the attacker, and whatever slots were evicted:
/// the world that is reached has a legal history, and stands to the abstract monitor's state that this history gives.
pub fn reached_worlds_stand()
    ensures { ReachedWorldsStand }
{}

/// No run goes on for ever: in every world that is reached, a turn that moves leaves fewer events to make.
pub fn moves_lessen()
    ensures { MovesLessen }
{}

/// In every world that is reached, where no collision is kept, a hart has to wait for acknowledgements exactly where its own fence still needs
/// these harts.
pub fn harts_wait_for_fences()
    ensures { HartsWaitForFences }
{}

/// Nothing goes wrong without an attack: in every world that is reached, where the attacker changed no byte, no answer is a fault, and no
/// collision is kept.
pub fn faults_need_an_attack()
    ensures { UnattackedIsUndisturbed }
{}

/// The page tables mean the spaces: in every world that is reached, the words in checked memory walk from the host's root to the host's space,
/// and from the root of each live number to the space of that number, by the pages that it broke so far, for every page, mode and kind of access.
pub fn roots_walk_to_spaces()
    ensures { RootsWalkToSpaces }
{}

/// Nobody reaches a page of another: in every world that is reached, on every hart, whatever its TLB has, a walk under way, or one that begins,
/// asks for words of guarded pages alone, which the protection entries let be read. An access of an enclave goes to its own page, or but for a store
/// to one of the shadow that it was forked from, that with the image's page at that address; or it has none exactly where the image has none that
/// lets it through, or a store's page is shared. So it is on each hart that has acknowledged the pages that the number broke, as one that runs it has.
/// An access of the host goes by a mapping that the hart may use, to a page of the host: never to a guarded page, nor to one that an enclave number
/// took.
pub fn accesses_reach_own_pages()
    ensures { AccessesReachOwnPages }
{}

/// No access of the host uses a mapping whose removal was answered: in every legal history, a load that was answered by a value, and a store that
/// was answered `ok`, went by a mapping that was there; after the `ok` of an `unmap` none of its page is, until a `map` of it is answered `ok`.
pub fn removed_mappings_stay_unused()
    ensures { RemovedMappingsStayUnused }
{}
