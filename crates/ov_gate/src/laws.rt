//! The laws of standing cores, each the contract of a function that does nothing.
ghost use Rattle.std.specs.Prelude.{◌≡◌, ℕ, false, None, List, ◌∷◌};
ghost use Rattle.ov_gossip.specs.declared.marks.Marks.{Marks};
ghost use Rattle.ov_topology.specs.declared.actor.Actor.{Actor};
ghost use Rattle.ov_event.specs.declared.entry.Entry as entries;
ghost use Rattle.ov_event.specs.declared.kind.Kind.TheVariants.{Began, Published};
ghost use Rattle.ov_event.specs.declared.start.Start.{Start};
ghost use Rattle.ov_history.specs.Past.{History, same_actor};
ghost use Rattle.ov_history.specs.May.{Setting, May};
ghost use Rattle.ov_history.specs.Gives.{Begin, Publish};
ghost use Rattle.ov_history.specs.Cores.{Steps};
ghost use Rattle.ov_gate.specs.Gate.{GateState, IsGate, is_begun, is_published};

/// An entry of another actor leaves a core standing: what it stood for it stands for with that entry.
pub fn gate_stays()
    ensures { (t : Setting) (h : History) (actor : Actor) (gate : GateState) (e : entries.Entry) → IsGate t h actor gate → same_actor actor e.actor ≡ false → IsGate t (e ∷ h) actor gate }
{}

/// Where `begin` or `publish` returns None at one reading of the clock, no such entry may follow, whatever its time.
pub fn none_at_any_clock()
    ensures begins { (t : Setting) (h : History) (actor : Actor) (gate : GateState) (s clock c : ℕ) (start : Start) → Steps IsGate is_begun t h actor (Begin s clock) None gate → May t h (record { actor = actor; kind = Began s c start }) → ⊥ }
    ensures publishes { (t : Setting) (h : History) (actor : Actor) (gate : GateState) (clock time : ℕ) (vector : List Marks) → Steps IsGate is_published t h actor (Publish clock) None gate → May t h (record { actor = actor; kind = Published time vector }) → ⊥ }
{}
