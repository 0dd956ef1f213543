//! Times and versions: how far clocks go, and that each version is drawn once.
ghost use Rattle.std.specs.Prelude.{◌≡◌, ℕ, ◌≤◌};
ghost use Rattle.ov_base.specs.Version.{time_of, gate_of};
ghost use Rattle.ov_topology.specs.Shape.{gates};
ghost use Rattle.ov_topology.specs.declared.actor.Actor.{Actor};
ghost use Rattle.ov_history.specs.Past.{History};
ghost use Rattle.ov_history.specs.Draws.{Drawn, last};
ghost use Rattle.ov_history.specs.Marks.{top_time};
ghost use Rattle.ov_history.specs.May.{Setting, Lawful};
ghost use Rattle.ov_laws.specs.Runs.{IsRun};
ghost use Rattle.ov_laws.specs.Entries.{DrawnAt, PublishedAt};
ghost use Rattle.ov_laws.specs.Draws.{Drew, DrawsOnce, time_bound};

/// Each time of a lawful history is within the range of clocks, or above it by at most one for each entry that begins a command or
/// publishes: the last time of each gateway, the greatest time of a low mark that an actor knows, and the time of each drawn version
/// and of each publication.
pub fn bounded_times()
    ensures times { (t : Setting) (h : History) (g : ℕ) → IsRun t h → last g h ≤ time_bound h }
    ensures marks { (t : Setting) (h : History) (a : Actor) → IsRun t h → top_time a (gates t.topology) h ≤ time_bound h }
    ensures drawn { (t : Setting) (h : History) (k v : ℕ) → IsRun t h → DrawnAt h k v → time_of v ≤ time_bound h }
    ensures published { (t : Setting) (h : History) (k time : ℕ) → IsRun t h → PublishedAt h k time → time ≤ time_bound h }
{}

/// In a lawful history each version is drawn once: two draws of one version are one draw of one gateway, which the version names,
/// and stand in one entry.
pub fn drawn_once()
    ensures once { (t : Setting) (h : History) → Lawful t h → DrawsOnce h }
    ensures entry { (t : Setting) (h : History) (k j v : ℕ) → Lawful t h → DrawnAt h k v → DrawnAt h j v → k ≡ j }
    ensures gate { (t : Setting) (h : History) (g : ℕ) (drawn : Drawn) → Lawful t h → Drew g drawn h → gate_of drawn.version ≡ g }
{}
