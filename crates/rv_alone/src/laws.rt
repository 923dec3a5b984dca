// Laws of an image that runs alone.
ghost use Rattle.rv_alone.specs.Laws.{SentLater, WrittenLater, PermissionsStay, UnwrittenStay, WrittenOnce, WrittenWritable};

/// Laws of an image that is run alone. Words that are sent later change nothing in a run so far, nor in the pages
/// written so far and by the next instruction. Pages keep their permissions, and those that no instruction stored to their bytes. Each page that was stored to is listed once,
/// and may be written.
#[tactic(auto, using(crate::proofs::Pages::laws))]
pub fn run_laws()
    ensures sent_later { SentLater }
    ensures written_later { WrittenLater }
    ensures permissions { PermissionsStay }
    ensures unwritten { UnwrittenStay }
    ensures once { WrittenOnce }
    ensures writable { WrittenWritable }
{}
