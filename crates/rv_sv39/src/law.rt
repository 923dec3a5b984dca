// Steps in turn are the page walk.
ghost use Rattle.rv_sv39.specs.Step.{StepsFit};
ghost use Rattle.rv_sv39.specs.Walk.{StepsWalk, WalksOnce, WalksBySteps, WalksOnward, StepsSay};

/// Laws of walks: a step answers a pointer above level 0 alone, and a leaf that permits the kind; steps from level 2 on give the walk, a walk has one answer, and so it is from each table on; from a table at which
/// the walk stands it is the walk from the root, and a step there says what the walk comes to.
pub fn steps_give_walks()
    ensures fits { StepsFit }
    ensures walk { StepsWalk }
    ensures once { WalksOnce }
    ensures by_steps { WalksBySteps }
    ensures onward { WalksOnward }
    ensures says { StepsSay }
{}
