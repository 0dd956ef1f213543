//! The law of standing cores, as the contract of a function that does nothing.
ghost use Rattle.std.specs.Prelude.{◌≡◌, false, ◌∷◌};
ghost use Rattle.ov_topology.specs.declared.actor.Actor.{Actor};
ghost use Rattle.ov_event.specs.declared.entry.Entry as entries;
ghost use Rattle.ov_history.specs.Past.{History, same_actor};
ghost use Rattle.ov_history.specs.May.{Setting};
ghost use Rattle.ov_node.specs.Node.{NodeState, IsNode};

/// An entry of another actor leaves a core standing: what it stood for it stands for with that entry.
pub fn node_stays()
    ensures { (t : Setting) (h : History) (actor : Actor) (node : NodeState) (e : entries.Entry) → IsNode t h actor node → same_actor actor e.actor ≡ false → IsNode t (e ∷ h) actor node }
{}
