//! The laws of standing cores, each the contract of a function that does nothing.
ghost use Rattle.std.specs.Prelude.{◌≡◌, ℕ, false, ◌∷◌};
ghost use Rattle.ov_topology.specs.declared.actor.Actor.{Actor};
ghost use Rattle.ov_event.specs.declared.entry.Entry as entries;
ghost use Rattle.ov_history.specs.Past.{History, same_actor};
ghost use Rattle.ov_history.specs.May.{Setting};
ghost use Rattle.ov_history.specs.Settlers.{known_below};
ghost use Rattle.ov_window.specs.Plan.{map_below};
ghost use Rattle.ov_settler.specs.Settler.{IsSettler, SettlerState};

/// An entry of another actor leaves a core standing: what it stood for it stands for with that entry.
pub fn settler_stays()
    ensures { (t : Setting) (h : History) (actor : Actor) (s : SettlerState) (e : entries.Entry) → IsSettler t h actor s → same_actor actor e.actor ≡ false → IsSettler t (e ∷ h) actor s }
{}

/// What a core keeps just below each number is what its settler knows there, of which `settled_values` of `ov_laws` says that in a
/// lawful history it is the serial map, up to where it has settled.
pub fn settler_knows()
    ensures { (t : Setting) (h : History) (actor : Actor) (s : SettlerState) (number : ℕ) → IsSettler t h actor s → map_below number s.values ≡ known_below s.centre h number }
{}
