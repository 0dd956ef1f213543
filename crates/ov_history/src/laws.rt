//! The laws of entries that may follow, each the contract of a function that does nothing.
ghost use Rattle.std.specs.Prelude.{◌≡◌, ℕ, false, Some, ◌∷◌, ◌++◌};
ghost use Rattle.ov_topology.specs.Shape.{IsShape};
ghost use Rattle.ov_topology.specs.declared.actor.Actor.{Actor};
ghost use Rattle.ov_event.specs.declared.entry.Entry.{Entry};
ghost use Rattle.ov_history.specs.Past.{History, at, before, same_actor, acted};
ghost use Rattle.ov_history.specs.May.{Setting, May, MayBy, Lawful};
ghost use Rattle.ov_history.specs.Gives.{Act, gives, act_of};

/// Each entry of a lawful history could follow what stood before it, and that was lawful.
pub fn past_is_lawful()
    ensures followed { (t : Setting) (h : History) (k : ℕ) (e : Entry) → Lawful t h → at h k ≡ Some e → May t (before k h) e }
    ensures lawful { (t : Setting) (h : History) (k : ℕ) → Lawful t h → Lawful t (before k h) }
{}

/// An entry that may follow may still follow after an entry of another actor.
pub fn guard_stays()
    ensures { (t : Setting) (h : History) (e other : Entry) → same_actor e.actor other.actor ≡ false → May t h e → May t (other ∷ h) e }
{}

/// An entry that may follow may still follow after any entries of other actors.
pub fn guard_stays_after()
    ensures { (t : Setting) (h more : History) (e : Entry) → acted e.actor more ≡ false → May t h e → May t (more ++ h) e }
{}

/// What an actor gives for an act may follow, and it is the actor's own entry.
pub fn given_may_follow()
    ensures { (t : Setting) (h : History) (a : Actor) (act : Act) (e : Entry) → IsShape t.topology → gives t h a act ≡ Some e → MayBy t h a e }
{}

/// What may follow is given by its actor, for the act to which such an entry belongs.
pub fn may_is_given()
    ensures { (t : Setting) (h : History) (e : Entry) → IsShape t.topology → May t h e → gives t h e.actor (act_of e.kind) ≡ Some e }
{}
