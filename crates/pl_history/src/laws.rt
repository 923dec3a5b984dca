// Laws of histories.
ghost use Rattle.pl_history.specs.HostMappings.{LegalMappings};
ghost use Rattle.pl_history.specs.OwnedPages.{LegalPages};
ghost use Rattle.pl_history.specs.Protection.{GuardedAreRead};
ghost use Rattle.pl_history.specs.ShadowPages.{LegalShadows};
ghost use Rattle.pl_history.specs.Laws.{OneMoreIsLegal, OneMoreGives, MoreBytesLeaveLegal, MoreBytesLeaveState, AnswersMoveOneActor, LinesBeginOnce, UnattackedIsFaultless};

/// A history grows by one entry at a time: it stays legal where that entry is allowed, and the state that it gives is the one after it.
#[tactic(auto, using(crate::proofs::HistoryLemmas::one_more_is_legal, crate::proofs::HistoryLemmas::one_more_gives))]
pub fn histories_grow_by_entries()
    ensures legal { OneMoreIsLegal }
    ensures state { OneMoreGives }
{}

/// Bytes that are added change nothing: a history stays legal, and gives the same state.
#[tactic(auto, using(crate::proofs::HistoryLemmas::more_bytes_leave_legal, crate::proofs::HistoryLemmas::more_bytes_leave_state))]
pub fn added_bytes_leave_histories()
    ensures legal { MoreBytesLeaveLegal }
    ensures state { MoreBytesLeaveState }
{}

/// An entry moves its actor on by one answer, and no other. A line begins once at most, and no line of the attacker begins.
#[tactic(auto, using(crate::proofs::ProgressLemmas::answers_move, crate::proofs::ProgressLemmas::lines_begin_once))]
pub fn answers_move_one_actor()
    ensures moves { AnswersMoveOneActor }
    ensures begins { LinesBeginOnce }
{}

/// Where the attacker changed no byte, no answer is a fault.
#[tactic(auto, using(crate::proofs::Unattacked::unattacked_is_faultless))]
pub fn faults_need_an_attack()
    ensures { UnattackedIsFaultless }
{}

/// In a legal history each page that the host maps, or whose mapping it is removing, is the host's, and each page that a number took is
/// this number's and open to every access by the protection entries: no page belongs to two numbers, and no access of the host reaches a
/// number's page.
#[tactic(auto, using(crate::proofs::OwnedPages::legal_pages))]
pub fn pages_have_one_owner()
    ensures { LegalPages }
{}

/// In a legal history a number is what its state says: a free one has nothing; one that wasn't forked has as many pages as its image; one
/// that was forked has none of its own, and its shadow is sealed, wasn't forked itself and has the same image. So a shadow stays as it is, and
/// isn't given back, while a number that was forked from it is there. No page stands in a number twice, and it has at most 256 spares.
#[tactic(auto, using(crate::proofs::ShadowPages::legal_shadows))]
pub fn shadows_keep_their_forks()
    ensures { LegalShadows }
{}

/// In a legal history the host's mappings, and those that it is removing, stand at addresses of their own, which its tables have words for:
/// a page is mapped at most as often as there are such words.
#[tactic(auto, using(crate::proofs::HostMappings::legal_mappings))]
pub fn mappings_have_their_words()
    ensures { LegalMappings }
{}

/// The protection entries let the guarded pages be read, and refuse every other access to them, whatever the setup's own entries are.
#[tactic(auto, using(crate::proofs::GuardedPages::guarded_are_read))]
pub fn guarded_pages_are_read()
    ensures { GuardedAreRead }
{}
