//! Laws: statements about harvests over links, proved. They do nothing when they are called.
ghost use Rattle.std.specs.Prelude.{◌≡◌, ℕ, Option, List};
ghost use Rattle.ov_functor.specs.Unions.{union};
ghost use Rattle.ov_functor.specs.declared.item.Item.{Item};
ghost use Rattle.ov_window.specs.Harvest.{Gathered, IsMarked, IsWhole};
ghost use Rattle.ov_history.specs.Past.{History};
ghost use Rattle.ov_history.specs.May.{Setting};
ghost use Rattle.ov_laws.specs.Runs.{IsRun};
ghost use Rattle.ov_laws.specs.Harvests.{IsWindow};
ghost use Rattle.ov_link.specs.Gathering.{IsUnionOf};
ghost use Rattle.ov_link.specs.Histories.{AreNodesOf, IsAsked};

/// Over the nodes of a lawful history a whole harvest of a round that one of its settlers asked for is exactly the window of that
/// round, whichever nodes answered; and so is its union, by version and then key, of which a plan is made.
pub fn nodes_give_window()
    ensures items { (t : Setting) (h : History) (told : ℕ → ℕ → Option (List Item)) (g : Gathered) → IsRun t h → AreNodesOf t h told → IsAsked t h g.round → g.topology ≡ t.topology → IsMarked g.topology g.answered → IsWhole g → IsUnionOf told g → IsWindow h g.round.from g.round.below g.items }
    ensures union { (t : Setting) (h : History) (told : ℕ → ℕ → Option (List Item)) (g : Gathered) → IsRun t h → AreNodesOf t h told → IsAsked t h g.round → g.topology ≡ t.topology → IsMarked g.topology g.answered → IsWhole g → IsUnionOf told g → IsWindow h g.round.from g.round.below (union g.items) }
{}
