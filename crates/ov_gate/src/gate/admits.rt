//! Which entries of a gateway may follow.
ghost use Rattle.std.specs.Prelude.{◌≡◌, Some, IsTrue, ◌↔◌};
ghost use Rattle.std.specs.Option.{option_map};
ghost use Rattle.ov_base.specs.Version.{gate_of};
ghost use Rattle.ov_functor.specs.declared.command.Command as commands;
ghost use Rattle.ov_event.specs.declared.letter.Letter.TheVariants.{Ack, Result};
ghost use Rattle.ov_topology.specs.declared.actor.Actor as actors;
ghost use Rattle.ov_session.specs.Standing.{IsRoster, IsOpen, Has};
ghost use Rattle.ov_history.specs.Past.{History};
ghost use Rattle.ov_history.specs.May.{Setting, MayDraw, StartsAs, MayStart, MayPublish, GateGuard, May};
ghost use Rattle.ov_history.specs.Gives.{act_of};
ghost use Rattle.ov_history.specs.Cores.{letter_for};
ghost use Rattle.ov_gate.specs.Gate.{IsGate};
ghost use Rattle.ov_gate.specs.Calls.{command_at, IsGossip, IsWord};

use super::GateCore;
use super::begin::command_at;
use super::times::is_time;
use ov_base::{Version, same};
use ov_event::{Entry, Kind, Letter, Start};
use ov_functor::{Command, Reply};
use ov_gossip::Vector;
use ov_session::Roster;

impl GateCore {
    /// Whether an entry of this gateway may follow: exactly then it is true. `letter` is the history's letter at the entry's place, and
    /// None where there is no such letter. Condition: the roster is the one that was handed to [`GateCore::new`], and it fits. Takes no
    /// memory.
    pub fn admits(&self, roster: &Roster, letter: Option<&Letter>, entry: &Entry) -> bool
        requires { IsRoster roster.now }
        ensures { (t : Setting) (h : History) (actor : actors.Actor) → t.roster ≡ roster.now → IsGate t h actor self.now → entry.now.actor ≡ actor → option_map (λ one. one.now) letter.entry ≡ letter_for t.topology h (act_of entry.now.kind) → IsTrue result ↔ May t h entry.now }
    {
        !self.stopped && self.admits_kind(roster, letter, &entry.kind)
    }

    /// Whether an entry of this kind may follow, where the gateway has not stopped.
    fn admits_kind(&self, roster: &Roster, letter: Option<&Letter>, kind: &Kind) -> bool
        requires { IsRoster roster.now }
        ensures { (t : Setting) (h : History) (actor : actors.Actor) → t.roster ≡ roster.now → IsGate t h actor self.now → option_map (λ one. one.now) letter.entry ≡ letter_for t.topology h (act_of kind.now) → IsTrue result ↔ GateGuard t h self.now.gate kind.now }
    {
        match kind {
            Kind::Began {
                session,
                seq,
                start,
            } => self.may_begin(roster, *session, *seq, start),
            Kind::Acked {
                version,
                centre,
                part,
                ..
            } => self.may_take(letter, *version, *centre, *part),
            Kind::Published { time, vector } => self.may_publish(*time, vector),
            Kind::Heard { vector, .. } => self.may_hear(letter, vector),
            Kind::Replied {
                session,
                seq,
                reply,
                ..
            } => self.may_reply(letter, *session, *seq, reply),
            Kind::Told { session, seq, .. } => self.may_tell(letter, *session, *seq),
            Kind::Stopped => true,
            _ => false,
        }
    }

    /// Whether the command may begin so.
    fn may_begin(&self, roster: &Roster, session: u32, seq: u32, start: &Start) -> bool
        requires { IsRoster roster.now }
        ensures { (t : Setting) (h : History) (actor : actors.Actor) → t.roster ≡ roster.now → IsGate t h actor self.now → IsTrue result ↔ MayStart t h self.now.gate session seq start.now }
    {
        match self.sessions.ready(roster, session) {
            None => false,
            Some(next) => next == seq && self.starts_next(roster, session, seq, start),
        }
    }

    /// Whether the session's command starts so.
    fn starts_next(&self, roster: &Roster, session: u32, seq: u32, start: &Start) -> bool
        requires { Has self.now.sessions session }
        ensures { (t : Setting) (h : History) (actor : actors.Actor) (command : commands.Command) → IsGate t h actor self.now → command_at roster.now session seq ≡ Some command → IsTrue result ↔ StartsAs h self.now.gate session command start.now }
    {
        match command_at(roster, session, seq) {
            None => false,
            Some(command) => self.starts_as(session, command, start),
        }
    }

    /// Whether the start is that of the command.
    fn starts_as(&self, session: u32, command: &Command, start: &Start) -> bool
        requires { Has self.now.sessions session }
        ensures { (t : Setting) (h : History) (actor : actors.Actor) → IsGate t h actor self.now → IsTrue result ↔ StartsAs h self.now.gate session command.now start.now }
    {
        match command {
            Command::Transact(planned) => match start {
                Start::Draw {
                    version,
                    transaction,
                } => same(transaction, planned) && self.may_draw(*version),
                Start::Look { .. } => false,
            },
            Command::Snap(planned) => match start {
                Start::Draw { .. } => false,
                Start::Look { floor, keys } => same(keys, planned)
                    && *floor == self.sessions.floor(session),
            },
        }
    }

    /// Whether it may draw the version.
    fn may_draw(&self, version: Version) -> bool
        ensures { (t : Setting) (h : History) (actor : actors.Actor) → IsGate t h actor self.now → IsTrue result ↔ MayDraw h self.now.gate version }
    {
        version.gate() == self.gate && is_time(self.last + 1, version.time())
    }

    /// Whether a letter acknowledges the version from this node to it.
    fn may_take(&self, letter: Option<&Letter>, version: Version, centre: u32, part: u32) -> bool
        ensures { IsTrue result ↔ ((option_map (λ one. one.now) letter.entry ≡ Some (Ack version centre part)) × (self.now.gate ≡ gate_of version)) }
    {
        match letter {
            Some(
                Letter::Ack {
                    version: sent,
                    centre: at,
                    part: of,
                },
            ) => {
                if *at != centre || *of != part {
                    return false;
                }
                same(sent, &version) && self.gate == version.gate()
            }
            _ => false,
        }
    }

    /// Whether it may publish the vector at this time.
    fn may_publish(&self, time: u64, vector: &Vector) -> bool
        ensures { (t : Setting) (h : History) (actor : actors.Actor) → IsGate t h actor self.now → IsTrue result ↔ MayPublish t.topology h self.now.gate time vector.now }
    {
        if !is_time(self.least_time(), time) {
            return false;
        }
        same(vector, &self.vector_at(time))
    }

    /// Whether a letter of another gateway has the vector.
    fn may_hear(&self, letter: Option<&Letter>, vector: &Vector) -> bool
        ensures { IsTrue result ↔ IsGossip self.now.gate (option_map (λ one. one.now) letter.entry) vector.now }
    {
        match letter {
            Some(Letter::Gossip { gate, vector: sent }) => {
                if *gate == self.gate {
                    return false;
                }
                same(sent, vector)
            }
            _ => false,
        }
    }

    /// Whether a letter has the reply to the command, which is begun and not replied.
    fn may_reply(&self, letter: Option<&Letter>, session: u32, seq: u32, reply: &Reply) -> bool
        ensures { IsTrue result ↔ ((option_map (λ one. one.now) letter.entry ≡ Some (Result session seq self.now.gate reply.now)) × IsOpen self.now.sessions session seq) }
    {
        match letter {
            Some(
                Letter::Result {
                    session: of,
                    seq: number,
                    gate,
                    reply: sent,
                },
            ) => {
                if *of != session || *number != seq || *gate != self.gate {
                    return false;
                }
                same(sent, reply) && self.sessions.is_open(session, seq)
            }
            _ => false,
        }
    }

    /// Whether a letter of another gateway tells of the command.
    fn may_tell(&self, letter: Option<&Letter>, session: u32, seq: u32) -> bool
        ensures { IsTrue result ↔ IsWord self.now.gate (option_map (λ one. one.now) letter.entry) session seq }
    {
        match letter {
            Some(
                Letter::Told {
                    session: of,
                    seq: number,
                    gate,
                },
            ) => *of == session && *number == seq && *gate != self.gate,
            _ => false,
        }
    }
}
