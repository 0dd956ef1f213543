//! Windows: what a settler gathers in a round is the window that it asked for.
ghost use Rattle.std.specs.Prelude.{◌≡◌, ℕ, Some};
ghost use Rattle.ov_functor.specs.Unions.{IsSorted};
ghost use Rattle.ov_history.specs.Past.{History};
ghost use Rattle.ov_history.specs.Settlers.{Round, open_round, harvest};
ghost use Rattle.ov_history.specs.May.{Setting};
ghost use Rattle.ov_laws.specs.Runs.{IsRun};
ghost use Rattle.ov_laws.specs.Harvests.{IsOnceEach, IsGathered, HasWindow, HasOnlyWindow, WindowStays};

/// Where the open round of a settler has answers enough to be settled, the items of its answers are exactly the window that it
/// asked for: the items of the begun transactions from its lower end up to and without its upper end. And that window stays.
pub fn harvest_window()
    ensures window { (t : Setting) (h : History) (s : ℕ) (round : Round) → IsRun t h → IsGathered t h s round → HasWindow h s round }
    ensures stays { (t : Setting) (h : History) (s : ℕ) (round : Round) → open_round s h ≡ Some round → WindowStays t h round }
{}

/// The harvest of a round is sorted: by version and then key, none twice. Where the open round of a settler has answers enough to be
/// settled, in either mode, the harvest is the window as a list: each item of the window is there and none besides, and it is the one
/// sorted list of which that holds.
pub fn harvest_list()
    ensures sorted { (s n : ℕ) (h : History) → IsSorted (harvest s n h) }
    ensures once { (s n : ℕ) (h : History) → IsOnceEach (harvest s n h) }
    ensures window { (t : Setting) (h : History) (s : ℕ) (round : Round) → IsRun t h → IsGathered t h s round → HasWindow h s round }
    ensures only { (t : Setting) (h : History) (s : ℕ) (round : Round) → IsRun t h → IsGathered t h s round → HasOnlyWindow h s round }
{}
