//! The cells of a plan and their seats.
ghost use Rattle.std.specs.Prelude.{◌≡◌, ℕ, ◌+◌, ◌<◌, ◌/◌, ◌||◌, [], ◌↔◌, IfOk, IsErr, OnErr};
ghost use Rattle.ov_cells.specs.Rules.{all_parts, has};
ghost use Rattle.ov_cells.specs.Seats.{IsSeatOf, KnowsMore};

use crate::rule::{Both, Count, Halves, Kept, View};
use atomic_table::{Seat, Table};
use ov_base::Memory;
use ov_window::Plan;
use std::alloc::Global;
use std::marker::Model;

/// All parts of the right to close.
const ALL_PARTS: u64 = 1 << 62;

/// One word for each place of a plan, which holds nothing or the one value of that place. Threads share them by reference, each with a
/// seat of its own. Contracts see the tasks of the plan, and which table the words are.
#[derive(Drop)]
pub struct Cells {
    pub(crate) plan: Plan,
    pub(crate) table: Table<(), View, Plan, Kept, Global>,
}

impl Model for Cells {
    ghost use Rattle.std.specs.Prelude.{◌≡◌, ◌+◌, ◌<◌, ◌^◌, length};
    ghost use Rattle.ov_cells.specs.Seats.{SeenCells};

    ghost Value = { SeenCells };

    ghost view = { λ c. record { tasks = c.plan; table = c.table.shared.table_id } };

    ghost invariant = { λ c. (c.table.shared.key ≡ c.plan) × (c.table.shared.table_id.words ≡ length c.plan + 1) × (c.table.shared.table_id.slots ≡ 0) × (length c.plan < 2 ^ 63) };
}

/// What one evaluator steps with: it knows that some places are set. Contracts see what it knows, and its parts of the right to close,
/// which add up to all of them over the seats of the same cells.
#[derive(Drop)]
pub struct CellSeat {
    pub(crate) seat: Seat<(), View>,
    pub(crate) parts: u64,
}

impl Model for CellSeat {
    ghost use Rattle.std.specs.Prelude.{◌≡◌, ◌<◌, []};
    ghost use Rattle.ov_cells.specs.Seats.{SeenSeat};

    ghost Value = { SeenSeat };

    ghost view = { λ s. record { table = s.seat.table_id; values = s.seat.me.0.values; known = s.seat.me.0.known; parts = s.parts } };

    ghost invariant = { λ s. (s.seat.me.1 ≡ []) × (s.seat.me.0.parts ≡ s.parts) × (0 < s.parts) };
}

impl Cells {
    /// The cells of a plan, none of them set, and their first seat, which has all parts. The only error is out of memory, and then the
    /// plan is dropped.
    pub fn new(alloc: Global, plan: Plan) -> Result<(Cells, CellSeat), Memory>
        ensures { IfOk result (λ made. (made.0.tasks ≡ plan) × IsSeatOf made.0 made.1 × (made.1.known ≡ []) × (made.1.parts ≡ all_parts)) }
    {
        let words = vec![in alloc; 0u64; plan.tasks().len() + 1]?;
        let (table, seat) = Table::of_words(alloc, words.as_slice(), &plan)?;
        let cells = Cells { plan, table };
        let seat = CellSeat {
            seat,
            parts: ALL_PARTS,
        };
        Ok((cells, seat))
    }

    /// The plan. Does not allocate.
    pub fn plan(&self) -> &Plan
        ensures { result.now ≡ self.now.tasks }
    {
        &self.plan
    }

    /// A new seat, which knows what this one knows; half of the parts go to it. `Memory` comes exactly where fewer than 2 parts are
    /// left, and then nothing has changed. Does not allocate.
    pub fn split(&self, seat: &mut CellSeat) -> Result<CellSeat, Memory>
        requires { IsSeatOf self.now seat.old }
        ensures own { IsSeatOf self.now seat.new }
        ensures known { seat.new.known ≡ seat.old.known }
        ensures ok { IfOk result (λ other. IsSeatOf self.now other × (other.known ≡ seat.old.known) × (other.parts ≡ seat.old.parts / 2) × (seat.new.parts + other.parts ≡ seat.old.parts)) }
        ensures err { IsErr result ↔ (seat.old.parts < 2) }
        ensures unchanged { OnErr result (seat.new ≡ seat.old) }
    {
        if seat.parts < 2 {
            return Err(Memory);
        }
        let other = self.table.shared.split_seat::<Halves>(&mut seat.seat);
        let parts = seat.parts / 2;
        seat.parts -= parts;
        Ok(CellSeat { seat: other, parts })
    }

    /// Takes in another seat of these cells, with its parts: the seat then knows what either knew. Does not allocate.
    pub fn join(&self, seat: &mut CellSeat, other: CellSeat)
        requires own { IsSeatOf self.now seat.old }
        requires other { IsSeatOf self.now other }
        ensures own { IsSeatOf self.now seat.new }
        ensures known { (place : ℕ) → has seat.new.known place ≡ (has seat.old.known place || has other.known place) }
        ensures kept { KnowsMore seat.old seat.new }
        ensures taken { KnowsMore other seat.new }
        ensures parts { seat.new.parts ≡ seat.old.parts + other.parts }
    {
        let CellSeat {
            seat: theirs,
            parts,
        } = other;
        self.table.shared.join_seat::<Both>(&mut seat.seat, theirs);
        self.table.shared.load::<Count>(&mut seat.seat, 0);
        seat.parts += parts;
    }
}
