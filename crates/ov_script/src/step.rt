//! The lines of a schedule.
ghost use Rattle.std.specs.Prelude.{◌≡◌, ◌++◌, ◌∷◌, codes, decimal};
ghost use Rattle.ov_base.specs.Lemmas.{exact_tests};
ghost use Rattle.ov_base.specs.Word.{Reads, Printed};
ghost use Rattle.ov_topology.specs.Actor.{IsActor, IsGate, IsSettler, actor_text, gate_text, settler_text};
ghost use Rattle.ov_topology.specs.Mode.{mode_text};
ghost use Rattle.ov_topology.specs.Place.{IsPlace, place_text};
ghost use Rattle.ov_script.specs.Step as spec;
ghost use Rattle.ov_script.specs.Step.{IsStep, step_of, step_text};

use ov_base::{Memory, Plain, parse_number, print_number, split_at_byte};
use ov_session::SessionName;
use ov_topology::{Actor, Mode, Place, parse_gate, parse_settler, print_gate, print_settler};

/// A line of a schedule: what is tried next (docs/FORMATS.md, Schedule). Clocks are any numbers.
#[derive(Clone, Copy, Debug, PartialEq, Eq)]
pub enum Step {
    /// The session's next command is begun, at this reading of its gateway's clock.
    Begin { session: SessionName, clock: u64 },
    /// The actor takes the letter at this place.
    Take { actor: Actor, place: Place },
    /// The gateway publishes, at this reading of its clock.
    Publish { gate: u32, clock: u64 },
    /// The settler opens a round.
    Ask { settler: u32, mode: Mode },
    /// The settler settles its open round.
    Settle { settler: u32 },
    /// The actor stops.
    Stop { actor: Actor },
}

impl Step {
    /// The step that the bytes spell, without its line feed. None exactly where they spell none. Does not
    /// allocate.
    pub fn parse(text: &[u8]) -> Option<Step>
        ensures exact { result ≡ step_of text.now }
        ensures reads { Reads step_text IsStep text.now result }
    {
        step_read(text)
    }

    /// Writes the one spelling at the end, without a line feed. On an error a prefix of it was written.
    pub fn print_to(&self, text: &mut Vec<u8>) -> Result<(), Memory>
        requires { IsStep self.now }
        ensures { Printed result text.old.items text.new.items (step_text self.now) }
    {
        match self {
            Step::Begin { session, clock } => print_begin(session, *clock, text),
            Step::Take { actor, place } => print_take(actor, place, text),
            Step::Publish { gate, clock } => print_publish(*gate, *clock, text),
            Step::Ask { settler, mode } => print_ask(*settler, *mode, text),
            Step::Settle { settler } => print_settle(*settler, text),
            Step::Stop { actor } => print_stop(actor, text),
        }
    }
}

#[tactic(auto, unfolding(crate::specs::Step::step_of))]
fn step_read(text: &[u8]) -> Option<Step>
    ensures { result ≡ step_of text.now }
{
    let (verb, rest) = split_at_byte(text, b' ')?;
    verb_read(verb, rest)
}

/// The step of a line by its first word.
fn verb_read(verb: &[u8], rest: &[u8]) -> Option<Step>
    ensures { result ≡ spec.verb_of verb.now rest.now }
{
    if verb == b"begin".as_slice() {
        begin_read(rest)
    } else if verb == b"take".as_slice() {
        take_read(rest)
    } else if verb == b"publish".as_slice() {
        publish_read(rest)
    } else if verb == b"ask".as_slice() {
        ask_read(rest)
    } else if verb == b"settle".as_slice() {
        settle_read(rest)
    } else if verb == b"stop".as_slice() {
        stop_read(rest)
    } else {
        None
    }
}

fn begin_read(rest: &[u8]) -> Option<Step>
    ensures { result ≡ spec.begin_of rest.now }
{
    let (session, clock) = split_at_byte(rest, b' ')?;
    let session = SessionName::from_bytes(session)?;
    let clock = parse_number(clock)?;
    Some(Step::Begin { session, clock })
}

fn take_read(rest: &[u8]) -> Option<Step>
    ensures { result ≡ spec.take_of rest.now }
{
    let (actor, place) = split_at_byte(rest, b' ')?;
    let actor = Actor::parse(actor)?;
    let place = Place::parse(place)?;
    Some(Step::Take { actor, place })
}

fn publish_read(rest: &[u8]) -> Option<Step>
    ensures { result ≡ spec.publish_of rest.now }
{
    let (gate, clock) = split_at_byte(rest, b' ')?;
    let gate = parse_gate(gate)?;
    let clock = parse_number(clock)?;
    Some(Step::Publish { gate, clock })
}

fn ask_read(rest: &[u8]) -> Option<Step>
    ensures { result ≡ spec.ask_of rest.now }
{
    let (settler, mode) = split_at_byte(rest, b' ')?;
    let settler = parse_settler(settler)?;
    let mode = Mode::parse(mode)?;
    Some(Step::Ask { settler, mode })
}

fn settle_read(rest: &[u8]) -> Option<Step>
    ensures { result ≡ spec.settle_of rest.now }
{
    let settler = parse_settler(rest)?;
    Some(Step::Settle { settler })
}

fn stop_read(rest: &[u8]) -> Option<Step>
    ensures { result ≡ spec.stop_of rest.now }
{
    let actor = Actor::parse(rest)?;
    Some(Step::Stop { actor })
}

fn print_begin(session: &SessionName, clock: u64, text: &mut Vec<u8>) -> Result<(), Memory>
    ensures { Printed result text.old.items text.new.items (codes "begin " ++ session.now ++ 32 ∷ decimal clock) }
{
    text.extend_from_slice(b"begin ")?;
    text.extend_from_slice(session.bytes())?;
    print_clock(clock, text)
}

fn print_take(actor: &Actor, place: &Place, text: &mut Vec<u8>) -> Result<(), Memory>
    requires actor { IsActor actor.now }
    requires place { IsPlace place.now }
    ensures { Printed result text.old.items text.new.items (codes "take " ++ actor_text actor.now ++ 32 ∷ place_text place.now) }
{
    text.extend_from_slice(b"take ")?;
    actor.print_to(text)?;
    text.push(b' ')?;
    place.print_to(text)
}

fn print_publish(gate: u32, clock: u64, text: &mut Vec<u8>) -> Result<(), Memory>
    requires { IsGate gate }
    ensures { Printed result text.old.items text.new.items (codes "publish " ++ gate_text gate ++ 32 ∷ decimal clock) }
{
    text.extend_from_slice(b"publish ")?;
    print_gate(gate, text)?;
    print_clock(clock, text)
}

fn print_ask(settler: u32, mode: Mode, text: &mut Vec<u8>) -> Result<(), Memory>
    requires { IsSettler settler }
    ensures { Printed result text.old.items text.new.items (codes "ask " ++ settler_text settler ++ 32 ∷ mode_text mode) }
{
    text.extend_from_slice(b"ask ")?;
    print_settler(settler, text)?;
    text.push(b' ')?;
    mode.print_to(text)
}

fn print_settle(settler: u32, text: &mut Vec<u8>) -> Result<(), Memory>
    requires { IsSettler settler }
    ensures { Printed result text.old.items text.new.items (codes "settle " ++ settler_text settler) }
{
    text.extend_from_slice(b"settle ")?;
    print_settler(settler, text)
}

fn print_stop(actor: &Actor, text: &mut Vec<u8>) -> Result<(), Memory>
    requires { IsActor actor.now }
    ensures { Printed result text.old.items text.new.items (codes "stop " ++ actor_text actor.now) }
{
    text.extend_from_slice(b"stop ")?;
    actor.print_to(text)
}

/// Writes the reading of a clock behind a space.
fn print_clock(clock: u64, text: &mut Vec<u8>) -> Result<(), Memory>
    ensures { Printed result text.old.items text.new.items (32 ∷ decimal clock) }
{
    text.push(b' ')?;
    print_number(clock, text)?;
    Ok(())
}

impl Plain for Step {
    ghost exact = { λ x y h. Prim.grind (exact_tests) };

    fn copy(&self) -> Result<Step, Memory> {
        Ok(*self)
    }
}
