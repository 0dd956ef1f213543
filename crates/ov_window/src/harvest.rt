//! The harvest of a round.
ghost use Rattle.std.specs.Prelude.{◌≡◌, ◌<◌, ◌≤◌, not, true, false, IfOk, OnOk, OnErr, IsTrue, ◌↔◌, Ok, get_or, length, map, replicate};
ghost use Rattle.ov_window.specs.Harvest.{IsComplete, IsEnough, IsWhole, fresh, has_answered, joined, with_answer};

use crate::round::Round;
use ov_base::{Memory, Shared, copied};
use ov_functor::Item;
use ov_topology::{Mode, Topology};
use std::alloc::Global;
use std::marker::Model;

/// The answers that a settler has taken in a round, the first of each node alone (docs/STORE.md, Rounds). Contracts see which nodes
/// have answered, and the items of their answers, one answer behind the other.
#[derive(Drop)]
pub struct Harvest {
    topology: Topology,
    round: Round,
    answered: Vec<Vec<bool>>,
    answers: Vec<Shared<Item>>,
}

impl Model for Harvest {
    ghost use Rattle.std.specs.Prelude.{map};
    ghost use Rattle.ov_window.specs.Harvest.{Gathered, IsMarked, joined};

    ghost Value = { Gathered };

    ghost view = { λ h. record { topology = h.topology; round = h.round; answered = map (λ v. v.items) h.answered.items; items = joined h.answers.items } };

    ghost invariant = { λ h. IsMarked h.topology (map (λ v. v.items) h.answered.items) };
}

impl Harvest {
    /// The harvest of a round that no node has answered.
    pub fn new(alloc: Global, topology: &Topology, round: Round) -> Result<Harvest, Memory>
        ensures { IfOk result (λ harvest. harvest ≡ fresh topology.now round) }
    {
        Ok(Harvest {
            topology: topology.copy()?,
            round,
            answered: unmarked(alloc, topology.partitions(), topology.centres())?,
            answers: Vec::new(alloc),
        })
    }

    /// Adds the answer of a node. False exactly where the node has answered already, and then nothing has changed; on an error nothing
    /// has changed. Condition: the node is in the topology.
    pub fn add(&mut self, centre: u32, part: u32, items: &[Item]) -> Result<bool, Memory>
        requires centre { centre < self.old.topology.centres }
        requires part { part < self.old.topology.partitions }
        ensures first { IfOk result (λ is_first. is_first ≡ not (has_answered self.old centre part)) }
        ensures added { result ≡ Ok true → self.new ≡ with_answer self.old centre part items.now }
        ensures again { result ≡ Ok false → self.new ≡ self.old }
        ensures err { OnErr result (self.new ≡ self.old) }
    {
        if self.has_answered(centre, part) {
            return Ok(false);
        }
        let copies = copied(*self.answers.allocator(), items)?;
        self.take_answer(centre, part, Shared::of(copies)?)?;
        Ok(true)
    }

    /// The same with an answer that is handed over, of which nothing is copied. The only error is out of memory.
    pub fn add_shared(
        &mut self,
        centre: u32,
        part: u32,
        items: Shared<Item>,
    ) -> Result<bool, Memory>
        requires centre { centre < self.old.topology.centres }
        requires part { part < self.old.topology.partitions }
        ensures first { IfOk result (λ is_first. is_first ≡ not (has_answered self.old centre part)) }
        ensures added { result ≡ Ok true → self.new ≡ with_answer self.old centre part items }
        ensures again { result ≡ Ok false → self.new ≡ self.old }
        ensures err { OnErr result (self.new ≡ self.old) }
    {
        if self.has_answered(centre, part) {
            return Ok(false);
        }
        self.take_answer(centre, part, items)?;
        Ok(true)
    }

    /// Whether the partition gave answers enough: of a read quorum of centres, or in a round of mode `one` of the settler's own centre.
    /// Does not allocate.
    pub fn complete(&self, part: u32) -> bool
        ensures { IsTrue result ↔ IsComplete self.now part }
    {
        if part >= self.topology.partitions() {
            return false;
        }
        self.is_enough(self.answered[part as usize].as_slice())
    }

    /// Whether each partition gave answers enough. Does not allocate.
    pub fn whole(&self) -> bool
        ensures { IsTrue result ↔ IsWhole self.now }
    {
        for part in 0..self.topology.partitions() {
            if !self.complete(part) {
                return false;
            }
        }
        true
    }

    /// Its round.
    pub fn round(&self) -> Round
        ensures { result ≡ self.now.round }
    {
        self.round
    }

    /// Its answers, in the order in which they were taken.
    pub(crate) fn answers(&self) -> &[Shared<Item>]
        ensures { joined result.now ≡ self.now.items }
    {
        self.answers.as_slice()
    }

    /// Whether the node has answered. Condition: the node is in the topology.
    fn has_answered(&self, centre: u32, part: u32) -> bool
        requires centre { centre < self.now.topology.centres }
        requires part { part < self.now.topology.partitions }
        ensures { result ≡ has_answered self.now centre part }
    {
        self.answered[part as usize][centre as usize]
    }

    /// Marks the node, and puts its answer behind the held ones. On an error nothing has changed.
    fn take_answer(&mut self, centre: u32, part: u32, items: Shared<Item>) -> Result<(), Memory>
        requires centre { centre < self.old.topology.centres }
        requires part { part < self.old.topology.partitions }
        ensures ok { OnOk result (self.new ≡ with_answer self.old centre part items) }
        ensures err { OnErr result (self.new ≡ self.old) }
    {
        self.answers.push(items)?;
        self.answered[part as usize][centre as usize] = true;
        Ok(())
    }

    /// Whether these marks of a partition are enough. Condition: there is no more than one for each centre.
    fn is_enough(&self, marks: &[bool]) -> bool
        requires { length marks.now ≤ self.now.topology.centres }
        ensures { IsTrue result ↔ IsEnough self.now.topology self.now.round.settler marks.now self.now.round.mode }
    {
        match self.round.mode {
            Mode::Quorum => self.topology.votes_of(marks) >= self.topology.read_quorum(),
            Mode::One => is_marked(marks, self.round.settler),
        }
    }
}

fn is_marked(marks: &[bool], centre: u32) -> bool
    ensures { result ≡ get_or marks.now centre false }
{
    match marks.get(centre as usize) {
        Some(mark) => *mark,
        None => false,
    }
}

/// The marks of partitions of which no node has answered.
fn unmarked(alloc: Global, partitions: u32, centres: u32) -> Result<Vec<Vec<bool>>, Memory>
    ensures { IfOk result (λ marks. map (λ v. v.items) marks.items ≡ replicate partitions (replicate centres false)) }
{
    let mut marks = Vec::new(alloc);
    for _ in 0..partitions {
        let mut centre_marks = Vec::new(alloc);
        centre_marks.resize(centres as usize, false)?;
        marks.push(centre_marks)?;
    }
    Ok(marks)
}
