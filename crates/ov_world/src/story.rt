//! What a command read, made and did.
ghost use Rattle.std.specs.Prelude.{◌≡◌, [], None};

use ov_base::Sequence;
use ov_event::Entry;
use ov_script::Script;
use ov_topology::Topology;
use std::alloc::Global;

/// What a command read, made and did: the topology and the script where they were accepted, and the entries, the oldest first.
#[derive(Drop)]
pub struct Story {
    pub topology: Option<Topology>,
    pub script: Option<Script>,
    pub entries: Sequence<Entry>,
}

impl Story {
    /// Nothing read, made or done. Does not allocate.
    pub fn empty(alloc: Global) -> Story
        ensures { result ≡ record { topology = None; script = None; entries = [] } }
    {
        Story {
            topology: None,
            script: None,
            entries: Sequence::new(alloc),
        }
    }
}
