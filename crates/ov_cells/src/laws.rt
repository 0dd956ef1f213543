//! Laws: statements about cells, proved. They do nothing when they are called.
ghost use Rattle.std.specs.Prelude.{◌≡◌, ℕ, ◌<◌, true, List, length, map, Some};
ghost use Rattle.ov_window.specs.Evaluation.{values_of};
ghost use Rattle.ov_window.specs.declared.plan.Task.{Task};
ghost use Rattle.ov_cells.specs.Seats.{SeenSeat, known_by, shown_by};

/// Where each place is known to one of the seats, closing gives the value of each place of the plan, as its sequential evaluation does.
pub fn known_values()
    ensures { (seats : List SeenSeat) (tasks : List Task) → ((place : ℕ) → place < length tasks → known_by seats place ≡ true) → shown_by seats tasks ≡ map Some (values_of tasks) }
{}
