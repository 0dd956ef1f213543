//! Watermarks: what actors know is final, and stays final.
ghost use Rattle.std.specs.Prelude.{ℕ, ◌≤◌, ◌++◌};
ghost use Rattle.ov_topology.specs.Shape.{IsShape};
ghost use Rattle.ov_topology.specs.declared.actor.Actor.{Actor};
ghost use Rattle.ov_gossip.specs.Marks.{low_of, full_of, done_of};
ghost use Rattle.ov_history.specs.Past.{History};
ghost use Rattle.ov_history.specs.Marks.{mark, visible, replicated, watermark};
ghost use Rattle.ov_history.specs.May.{Setting, Lawful};
ghost use Rattle.ov_laws.specs.Runs.{IsRun};
ghost use Rattle.ov_laws.specs.Final.{IsClosed, Final, FinalAll, NoLaterDrawBelow, SameUpTo, AllReplied, MarkGrows};

/// The visibility watermark that any actor knows is final, its replica watermark is final for all copies and is not above it, no full
/// mark is above the low mark beside it, each version below its least done mark is replied, and no version that is drawn later is
/// below its visibility watermark.
pub fn final_watermark()
    ensures low { (t : Setting) (h : History) (a : Actor) → IsRun t h → Final t.topology h (visible t.topology a h) }
    ensures full { (t : Setting) (h : History) (a : Actor) → IsRun t h → FinalAll t.topology h (replicated t.topology a h) }
    ensures order { (t : Setting) (h : History) (a : Actor) → IsRun t h → replicated t.topology a h ≤ visible t.topology a h }
    ensures marks { (t : Setting) (h : History) (a : Actor) (g : ℕ) → IsRun t h → mark full_of a g h ≤ mark low_of a g h }
    ensures done { (t : Setting) (h : History) (a : Actor) → IsRun t h → AllReplied t.topology h (watermark done_of t.topology a h) }
    ensures later { (t : Setting) (h : History) (a : Actor) → IsShape t.topology → NoLaterDrawBelow t h (visible t.topology a h) }
{}

/// No mark that a gateway publishes of its own versions is smaller than one that any actor knows of it by then.
pub fn growing_marks()
    ensures low { (t : Setting) (h : History) (a : Actor) (g : ℕ) → MarkGrows low_of t h a g }
    ensures full { (t : Setting) (h : History) (a : Actor) (g : ℕ) → MarkGrows full_of t h a g }
    ensures done { (t : Setting) (h : History) (a : Actor) (g : ℕ) → MarkGrows done_of t h a g }
{}

/// What is final stays final, no version below a closed watermark is drawn later, and the serial map up to it stays.
pub fn final_stays()
    ensures low { (t : Setting) (h more : History) (w : ℕ) → Final t.topology h w → Lawful t (more ++ h) → Final t.topology (more ++ h) w }
    ensures full { (t : Setting) (h more : History) (w : ℕ) → FinalAll t.topology h w → Lawful t (more ++ h) → FinalAll t.topology (more ++ h) w }
    ensures later { (t : Setting) (h : History) (w : ℕ) → IsClosed t.topology h w → NoLaterDrawBelow t h w }
    ensures serial { (t : Setting) (h more : History) (w : ℕ) → IsClosed t.topology h w → Lawful t (more ++ h) → SameUpTo w (more ++ h) h }
{}
