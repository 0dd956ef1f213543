//! The marks of all gateways.
ghost use Rattle.std.specs.Prelude.{◌≡◌, ◌<◌, ◌≤◌, ℕ, length, replicate};
ghost use Rattle.std.specs.Cmp.{partial_equiv_from_equiv};
ghost use Rattle.ov_gossip.specs.Marks.{no_marks, greater, mark_at, IsVector, Raised, Merged, IsLeast, IsGreatest, least, greatest, low_of, full_of, done_of, mark_of, low_time};
ghost use Rattle.ov_gossip.specs.Lemmas.{vector_eq, vector_eq-equiv, vector_eq-exact};

use crate::marks::Marks;
use ov_base::{GATE_LIMIT, Memory, Plain};
use std::marker::Model;

/// The marks of 1 to 8 gateways, by gateway, held in place (docs/STORE.md, Watermarks). Contracts see the list.
#[derive(Clone, Copy, Debug)]
pub struct Vector {
    marks: [Marks; 8],
    count: u32,
}

impl Model for Vector {
    ghost use Rattle.std.specs.Prelude.{List, take, length, ◌-◌, ◌++◌, replicate};
    ghost use Rattle.ov_gossip.specs.declared.marks.Marks.{Marks};
    ghost use Rattle.ov_gossip.specs.Marks.{no_marks};
    ghost use Rattle.ov_gossip.specs.Lemmas.{padded_marks, padded_count};
    ghost use Rattle.ov_gossip.specs.Padded.{vector_room, IsPadded};

    ghost Value = { List Marks };

    ghost view = { λ v. take v.count v.marks };

    ghost invariant = { λ v. IsPadded v.marks v.count };

    ghost inverse = { λ marks. record { marks = marks ++ replicate (vector_room - length marks) no_marks; count = length marks } };

    ghost inverse_ok = { λ v h i. record {
      marks = padded_marks v.marks v.count h i;
      count = padded_count v.marks v.count h i;
    } };
}

impl Vector {
    /// The vector of so many gateways, of which nothing is known. Condition: 1 to 8.
    pub fn new(gateways: u32) -> Vector
        requires { (1 ≤ gateways) × (gateways ≤ 8) }
        ensures { result ≡ replicate gateways no_marks }
    {
        let nothing = Marks {
            low: 0,
            full: 0,
            done: 0,
        };
        Vector {
            marks: [nothing; 8],
            count: gateways,
        }
    }

    /// The vector of these marks, by gateway. Condition: they are those of 1 to 8 gateways.
    pub fn of(marks: &[Marks]) -> Vector
        requires { IsVector marks.now }
        ensures { result ≡ marks.now }
    {
        let nothing = Marks {
            low: 0,
            full: 0,
            done: 0,
        };
        let mut places = [nothing; 8];
        places[..marks.len()].copy_from_slice(marks);
        Vector {
            marks: places,
            count: marks.len() as u32,
        }
    }

    /// How many gateways there are, 1 to 8.
    pub fn count(&self) -> u32
        ensures count { result ≡ length self.now }
        ensures form { IsVector self.now }
    {
        self.count
    }

    /// The marks of a gateway. Condition: there is that gateway.
    pub fn mark(&self, gate: u32) -> Marks
        requires { gate < length self.now }
        ensures { result ≡ mark_at self.now gate }
    {
        self.marks[gate as usize]
    }

    /// Raises the marks of a gateway to these where they are greater; all other places stay. Condition: there is
    /// that gateway.
    pub fn raise(&mut self, gate: u32, marks: Marks)
        requires { gate < length self.old }
        ensures { Raised self.old self.new gate marks }
    {
        let place = gate as usize;
        self.marks[place] = self.marks[place].greater(marks);
    }

    /// Takes the greater mark at each place. Condition: both have as many gateways.
    pub fn merge(&mut self, other: &Vector)
        requires { length self.old ≡ length other.now }
        ensures { Merged self.old self.new other.now }
    {
        for gate in 0..other.count() {
            self.raise(gate, other.mark(gate));
        }
    }

    /// Hears another vector: takes the greater mark at each place. Where the other has no such place the marks stay.
    pub fn hear(&mut self, other: &Vector)
        ensures width { length self.new ≡ length self.old }
        ensures marks { (k : ℕ) → k < length self.old → mark_at self.new k ≡ greater (mark_at self.old k) (mark_at other.now k) }
    {
        for gate in 0..self.count() {
            self.raise(gate, other.marks_or_none(gate));
        }
    }

    /// The marks of a gateway, and no marks where the vector has no such place.
    fn marks_or_none(&self, gate: u32) -> Marks
        ensures { result ≡ mark_at self.now gate }
    {
        if gate < self.count() {
            self.mark(gate)
        } else {
            Marks {
                low: 0,
                full: 0,
                done: 0,
            }
        }
    }

    /// The visibility watermark: the least `low`.
    pub fn visible(&self) -> u64
        ensures value { result ≡ least low_of self.now }
        ensures least { IsLeast low_of self.now result }
    {
        least_of(self.listed(), Which::Low)
    }

    /// The replica watermark: the least `full`.
    pub fn replicated(&self) -> u64
        ensures value { result ≡ least full_of self.now }
        ensures least { IsLeast full_of self.now result }
    {
        least_of(self.listed(), Which::Full)
    }

    /// Below it all is replied: the least `done`.
    pub fn finished(&self) -> u64
        ensures value { result ≡ least done_of self.now }
        ensures least { IsLeast done_of self.now result }
    {
        least_of(self.listed(), Which::Done)
    }

    /// The greatest time of a `low`.
    pub fn top_time(&self) -> u64
        ensures value { result ≡ greatest low_time self.now }
        ensures greatest { IsGreatest low_time self.now result }
    {
        greatest_time(self.listed())
    }

    /// The marks of all gateways, by gateway.
    pub fn listed(&self) -> &[Marks]
        ensures marks { result.now ≡ self.now }
        ensures form { IsVector self.now }
    {
        &self.marks[..self.count as usize]
    }
}

/// One of the three marks.
#[derive(Clone, Copy, Debug)]
pub enum Which {
    Low,
    Full,
    Done,
}

impl Which {
    /// That mark of a gateway.
    fn of(self, marks: Marks) -> u64
        ensures { result ≡ mark_of self marks }
    {
        match self {
            Which::Low => marks.low,
            Which::Full => marks.full,
            Which::Done => marks.done,
        }
    }
}

/// The least of this mark of all.
fn least_of(marks: &[Marks], which: Which) -> u64
    requires { 0 < length marks.now }
    ensures { result ≡ least (mark_of which) marks.now }
{
    let mut least = which.of(marks[0]);
    for mark in marks {
        least = which.of(*mark).min(least);
    }
    least
}

fn greatest_time(marks: &[Marks]) -> u64
    ensures { result ≡ greatest low_time marks.now }
{
    let mut greatest = 0;
    for mark in marks {
        greatest = (mark.low / GATE_LIMIT).max(greatest);
    }
    greatest
}

impl PartialEq for Vector {
    ghost eq = { vector_eq };

    ghost laws = { partial_equiv_from_equiv vector_eq-equiv };

    #[tactic(auto, unfolding(crate::specs::Lemmas::vector_eq))]
    fn eq(&self, other: &Self) -> bool {
        self.listed() == other.listed()
    }
}

impl Eq for Vector {
    ghost laws = { vector_eq-equiv };
}

impl Plain for Vector {
    ghost exact = { vector_eq-exact };

    fn copy(&self) -> Result<Vector, Memory> {
        Ok(*self)
    }
}
