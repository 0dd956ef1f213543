//! What schedules and calm rounds make is lawful, as the contract of a function that does nothing.
ghost use Rattle.std.specs.Prelude.{◌≡◌, ℕ, ◌+◌, ◌≤◌, List};
ghost use Rattle.ov_topology.specs.Shape.{IsShape};
ghost use Rattle.ov_script.specs.declared.step.Step.{Step};
ghost use Rattle.ov_history.specs.Past.{History};
ghost use Rattle.ov_history.specs.May.{Setting, Lawful};
ghost use Rattle.ov_follow.specs.Lines.{drive};
ghost use Rattle.ov_follow.specs.Calm.{calm_round, calm_rounds, calm, commands, replies};

/// What a schedule, a calm round and calm rounds make of a lawful history is lawful.
pub fn what_is_followed_is_lawful()
    ensures drive { (t : Setting) (h : History) (schedule : List Step) → IsShape t.topology → Lawful t h → Lawful t (drive t h schedule) }
    ensures round { (t : Setting) (h : History) → IsShape t.topology → Lawful t h → Lawful t (calm_round t h) }
    ensures calm { (t : Setting) (h : History) → IsShape t.topology → Lawful t h → Lawful t (calm t h) }
{}

/// Calm rounds need no more rounds than they are given: in a lawful history there are no more replies than commands, and each round
/// that is not the last makes one.
pub fn calm_has_rounds_enough()
    ensures replies { (t : Setting) (h : History) → Lawful t h → replies h ≤ commands t }
    ensures rounds { (t : Setting) (h : History) (n : ℕ) → IsShape t.topology → Lawful t h → commands t + 1 ≤ n → calm_rounds n t h ≡ calm t h }
{}
