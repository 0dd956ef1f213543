//! One version that the gateway has drawn, and what it still lacks.
ghost use Rattle.std.specs.Prelude.{◌≡◌, ◌<◌, ◌+◌, ◌*◌, ◌≤◌, ◌&&◌, not, nat_lt, ℕ, false, true};
ghost use Rattle.ov_functor.specs.declared.part.Part as parts;
ghost use Rattle.ov_topology.specs.Shape.{IsShape};
ghost use Rattle.ov_event.specs.Letters.{touches};
ghost use Rattle.ov_history.specs.Counts.{any_below, all_below, weight};
ghost use Rattle.ov_base.specs.Small.{has, empty_set};
ghost use Rattle.ov_gate.specs.Tracked.{is_acked, few_acks, some_copy_lacks, lacks_quorum_of, lacks_copies_of, recounted, with_ack, with_reply, lacks, IsNew};

use ov_base::{SmallSet, Version};
use ov_event::touched_parts;
use ov_functor::Part;
use ov_topology::Topology;

/// A version that the gateway has drawn: for which command, which partitions its transaction touches, which nodes have acknowledged
/// it, and whether it still lacks a write quorum, a copy, or its reply.
#[derive(Clone, Copy, Debug)]
pub struct Tracked {
    pub version: Version,
    pub session: u32,
    pub seq: u32,
    pub touched: SmallSet,
    pub acked: SmallSet,
    pub lacks_quorum: bool,
    pub lacks_copies: bool,
    pub lacks_reply: bool,
}

/// The three marks of a gateway, each of which some versions hold down.
#[derive(Clone, Copy, Debug)]
pub enum Mark {
    Low,
    Full,
    Done,
}

impl Tracked {
    /// A version that no node has acknowledged, and whose command is not replied.
    pub fn new(
        topology: &Topology,
        version: Version,
        session: u32,
        seq: u32,
        parts: &[Part],
    ) -> Tracked
        ensures { IsNew topology.now version session seq parts.now result }
    {
        let mut tracked = Tracked {
            version,
            session,
            seq,
            touched: touched_parts(topology, parts),
            acked: SmallSet::empty(),
            lacks_quorum: true,
            lacks_copies: true,
            lacks_reply: true,
        };
        tracked.recount(topology);
        tracked
    }

    /// Whether it holds the mark down.
    pub fn lacks(&self, mark: Mark) -> bool
        ensures { result ≡ lacks mark self.now }
    {
        match mark {
            Mark::Low => self.lacks_quorum,
            Mark::Full => self.lacks_copies,
            Mark::Done => self.lacks_reply,
        }
    }

    /// Takes the acknowledgement of a node. One of a node that the topology does not have changes nothing.
    pub fn take_ack(&mut self, topology: &Topology, centre: u32, part: u32)
        ensures { self.new ≡ with_ack topology.now centre part self.old }
    {
        if centre < topology.centres() && part < topology.partitions() {
            self.acked.add(centre * 8 + part);
            self.recount(topology);
        }
    }

    /// Takes the reply to a command, where it is that of this version.
    pub fn take_reply(&mut self, session: u32, seq: u32)
        ensures { self.new ≡ with_reply session seq self.old }
    {
        if self.session == session && self.seq == seq {
            self.lacks_reply = false;
        }
    }

    /// Finds anew which of the acknowledgements that it lacked it still lacks.
    fn recount(&mut self, topology: &Topology)
        ensures { self.new ≡ recounted topology.now self.old }
    {
        self.lacks_quorum = self.lacks_quorum && self.some_quorum_lacks(topology);
        self.lacks_copies = self.lacks_copies && self.some_copy_lacks(topology);
    }

    /// Whether some touched partition has acknowledged it from fewer than a write quorum.
    fn some_quorum_lacks(&self, topology: &Topology) -> bool
        ensures { result ≡ lacks_quorum_of topology.now self.now.touched self.now.acked }
    {
        for part in 0..topology.partitions() {
            if self.touched.has(part) && self.votes(topology, part) < topology.write() {
                return true;
            }
        }
        false
    }

    /// Whether some touched partition has not acknowledged it from all its nodes.
    fn some_copy_lacks(&self, topology: &Topology) -> bool
        ensures { result ≡ lacks_copies_of topology.now self.now.touched self.now.acked }
    {
        for part in 0..topology.partitions() {
            if self.touched.has(part) && !self.is_acked_by_all(topology, part) {
                return true;
            }
        }
        false
    }

    /// The votes of the centres whose nodes of the partition have acknowledged it.
    fn votes(&self, topology: &Topology, part: u32) -> u32
        requires { part < 8 }
        ensures { result ≡ weight topology.now (is_acked self.now.acked part) }
    {
        let mut marks = [false; 5];
        let centres = topology.centres();
        for centre in 0..centres {
            marks[centre as usize] = self.acked.has(centre * 8 + part);
        }
        topology.votes_of(&marks[..centres as usize])
    }

    /// Whether all nodes of the partition have acknowledged it.
    fn is_acked_by_all(&self, topology: &Topology, part: u32) -> bool
        requires { part < 8 }
        ensures { result ≡ all_below (is_acked self.now.acked part) topology.now.centres }
    {
        for centre in 0..topology.centres() {
            if !self.acked.has(centre * 8 + part) {
                return false;
            }
        }
        true
    }
}
