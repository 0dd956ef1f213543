//! What is done once and for all in a history, as calm rounds ask for it.
ghost use Rattle.std.specs.Prelude.{◌≡◌, ◌<◌, ◌∷◌, [], OnOk};
ghost use Rattle.ov_history.specs.Past.{History};
ghost use Rattle.ov_step.specs.Deeds.{AllDone, IsLookup, deed_of, is_done, number_of, numbers, subject_of, with_one};
ghost use Rattle.ov_step.specs.declared.deeds.Subject.{Subject};

use indexmap::IndexMap;
use ov_base::{Memory, SmallSet};
use ov_event::{Entry, Kind};
use ov_topology::Actor;
use std::alloc::Global;
use std::marker::Model;

/// What an entry does once and for all: where it is done, no calm round lists it again.
#[derive(Clone, Copy, Debug)]
pub(crate) enum Deed {
    /// The gateway was told that the command is replied.
    Told {
        gate: u32,
        session: u32,
        seq: u32,
    },
    /// The node stored the letter of this entry.
    Stored {
        entry: u64,
        letter: u32,
        centre: u32,
        part: u32,
    },
    /// The gateway took the node's acknowledgement of the version.
    Acked {
        gate: u32,
        version: u64,
        centre: u32,
        part: u32,
    },
    /// The command was replied.
    Replied {
        session: u32,
        seq: u32,
    },
}

/// What many deeds have in common: one deed of it for each of 32 gateways or centres, a block of them.
#[derive(Clone, Copy, Debug, PartialEq, Eq, Hash)]
enum Subject {
    /// The gateways of a block were told that the command is replied; in the first block, it was replied.
    Command {
        session: u32,
        seq: u32,
        block: u32,
    },
    /// The partition's nodes in the centres of a block stored the letter of this entry.
    Letter {
        entry: u64,
        letter: u32,
        part: u32,
        block: u32,
    },
    /// The gateway took the acknowledgements of the version by the partition's nodes in the centres of a block.
    Version {
        gate: u32,
        version: u64,
        part: u32,
        block: u32,
    },
}

impl Deed {
    /// What it is a deed of. Does not allocate.
    fn subject(self) -> Subject
        ensures { result ≡ subject_of self }
    {
        match self {
            Deed::Told { gate, session, seq } => Subject::Command {
                session,
                seq,
                block: gate / 32,
            },
            Deed::Stored {
                entry,
                letter,
                centre,
                part,
            } => Subject::Letter {
                entry,
                letter,
                part,
                block: centre / 32,
            },
            Deed::Acked {
                gate,
                version,
                centre,
                part,
            } => Subject::Version {
                gate,
                version,
                part,
                block: centre / 32,
            },
            Deed::Replied { session, seq } => Subject::Command {
                session,
                seq,
                block: 0,
            },
        }
    }

    /// Its number among the deeds of its subject. Does not allocate.
    fn number(self) -> u32
        ensures number { result ≡ number_of self }
        ensures small { result < 64 }
    {
        match self {
            Deed::Told { gate, .. } => gate % 32,
            Deed::Stored { centre, .. } => centre % 32,
            Deed::Acked { centre, .. } => centre % 32,
            Deed::Replied { .. } => 32,
        }
    }
}

/// The deeds of a history.
#[derive(Drop)]
pub(crate) struct Deeds {
    /// By subject the numbers of its deeds.
    known: IndexMap<Subject, SmallSet>,
}

/// What was looked up last: the numbers of a subject's deeds.
#[derive(Clone, Copy, Debug)]
pub(crate) struct Lookup {
    subject: Subject,
    numbers: SmallSet,
}

impl Model for Deeds {
    ghost use Rattle.std.specs.Prelude.{List};
    ghost use Rattle.ov_step.specs.declared.deeds.Subject.{Subject};
    ghost use Rattle.ov_base.specs.declared.small.SmallSet.{SmallSet};

    ghost Value = { List (Subject × SmallSet) };

    ghost view = { λ deeds. deeds.known.entries };
}

impl Deeds {
    /// Those of the empty history. Does not allocate.
    pub(crate) fn new(alloc: Global) -> Deeds
        ensures { AllDone [] result }
    {
        Deeds {
            known: IndexMap::new(alloc),
        }
    }

    /// Notes what one entry more does. The only error is out of memory.
    pub(crate) fn note(&mut self, entry: &Entry) -> Result<(), Memory>
        ensures { OnOk result ((h : History) → AllDone h self.old → AllDone (entry.now ∷ h) self.new) }
    {
        if let Some(deed) = deed_of(entry) {
            self.put(deed.subject(), deed.number())?;
        }
        Ok(())
    }

    /// Puts a number to those of a subject's deeds. The only error is out of memory.
    fn put(&mut self, subject: Subject, number: u32) -> Result<(), Memory>
        requires { number < 64 }
        ensures { OnOk result ((other : Subject) → numbers self.new other ≡ with_one subject number self.old other) }
    {
        let numbers = self.known.entry(subject)?.or_insert(SmallSet::empty());
        numbers.add(number);
        Ok(())
    }

    /// Whether it is done. Does not allocate.
    pub(crate) fn has(&self, deed: Deed) -> bool
        ensures { (h : History) → AllDone h self.now → result ≡ is_done deed h }
    {
        self.numbers(deed.subject()).has(deed.number())
    }

    /// Whether it is done, where another deed was looked up last; then this one was. So deeds of one subject that are asked for one after another
    /// are looked up once. Condition: that was looked up here. Does not allocate.
    pub(crate) fn has_next(&self, deed: Deed, last: &mut Lookup) -> bool
        requires { IsLookup self.now last.old }
        ensures done { (h : History) → AllDone h self.now → result ≡ is_done deed h }
        ensures last { IsLookup self.now last.new }
    {
        if deed.subject() != last.subject {
            *last = self.look_up(deed);
        }
        last.numbers.has(deed.number())
    }

    /// Looks a deed up. Does not allocate.
    pub(crate) fn look_up(&self, deed: Deed) -> Lookup
        ensures lookup { IsLookup self.now result }
        ensures subject { result.subject ≡ subject_of deed }
    {
        let subject = deed.subject();
        Lookup {
            subject,
            numbers: self.numbers(subject),
        }
    }

    /// The numbers of a subject's deeds. Does not allocate.
    fn numbers(&self, subject: Subject) -> SmallSet
        ensures { result ≡ numbers self.now subject }
    {
        match self.known.get(&subject) {
            Some(numbers) => *numbers,
            None => SmallSet::empty(),
        }
    }
}

/// What an entry does once and for all. Does not allocate.
fn deed_of(entry: &Entry) -> Option<Deed>
    ensures { result ≡ deed_of entry.now }
{
    match (&entry.kind, entry.actor) {
        (Kind::Told { session, seq, .. }, Actor::Gate(gate)) => Some(Deed::Told {
            gate,
            session: *session,
            seq: *seq,
        }),
        (Kind::Stored { place, .. }, Actor::Node { centre, part }) => Some(Deed::Stored {
            entry: place.entry,
            letter: place.letter,
            centre,
            part,
        }),
        (
            Kind::Acked {
                version,
                centre,
                part,
                ..
            },
            Actor::Gate(gate),
        ) => Some(Deed::Acked {
            gate,
            version: version.number(),
            centre: *centre,
            part: *part,
        }),
        (Kind::Replied { session, seq, .. }, _) => Some(Deed::Replied {
            session: *session,
            seq: *seq,
        }),
        _ => None,
    }
}
