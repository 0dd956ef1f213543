//! What a gateway takes: acknowledgements, gossip, results, and what is told.
ghost use Rattle.std.specs.Prelude.{◌≡◌, ◌<◌, ℕ, ◌∷◌, List, length, get_or, Some, None, IfOk, OnErr};
ghost use Rattle.ov_gossip.specs.Marks.{mark_at, greater};
ghost use Rattle.ov_topology.specs.declared.actor.Actor as actors;
ghost use Rattle.ov_session.specs.Events.{Event, Told};
ghost use Rattle.ov_session.specs.Standing.{StandsFor, IsOpen};
ghost use Rattle.ov_session.specs.declared.roster.Roster as rosters;
ghost use Rattle.ov_event.specs.declared.letter.Letter.TheVariants.{Result as Answered};
ghost use Rattle.ov_history.specs.Past.{History};
ghost use Rattle.ov_history.specs.Letters.{letter as letter_at};
ghost use Rattle.ov_history.specs.May.{Setting};
ghost use Rattle.ov_history.specs.Gives.{Take};
ghost use Rattle.ov_history.specs.Cores.{IsSound, Steps};
ghost use Rattle.ov_gate.specs.Gate.{IsGate, is_taken, is_heard, is_replied, is_told};
ghost use Rattle.ov_gate.specs.Calls.{Replies};

use super::GateCore;
use ov_base::{Memory, Plain, Version};
use ov_event::{Entry, Kind, Letter};
use ov_functor::Reply;
use ov_gossip::{Marks, Vector};
use ov_session::Sessions;
use ov_topology::Place;

impl GateCore {
    /// Takes an `Ack` letter, with its `Acked` entry. None exactly where no such entry may follow: the gateway has stopped, or the
    /// letter is not an `Ack` to it. After None nothing has changed. The letter stands at the place in the history, and it is sound: its
    /// version has a time that is not after the gateway's last, as in every lawful history (`sound_letters` of `ov_laws`). Takes no
    /// memory, and one search.
    pub fn acked(&mut self, place: Place, letter: &Letter) -> Option<Entry>
        ensures steps { (t : Setting) (h : History) (actor : actors.Actor) → IsGate t h actor self.old → letter_at t.topology h place ≡ Some letter.now → IsSound t h self.old.gate letter.now → Steps IsGate is_taken t h actor (Take place) result self.new }
        ensures none { result ≡ None → self.new ≡ self.old }
    {
        let Letter::Ack {
            version,
            centre,
            part,
        } = letter
        else {
            return None;
        };
        if self.stopped || version.gate() != self.gate {
            return None;
        }
        self.tracked
            .take_ack(&self.topology, *version, *centre, *part);
        Some(self.entry(Kind::Acked {
            place,
            version: *version,
            centre: *centre,
            part: *part,
        }))
    }

    /// Hears a `Gossip` letter, with its `Heard` entry. None exactly where no such entry may follow: the gateway has stopped, or the
    /// letter is not a `Gossip` of another gateway. After None nothing has changed. The letter stands at the place in the history.
    /// Takes no memory.
    pub fn heard(&mut self, place: Place, letter: &Letter) -> Option<Entry>
        ensures steps { (t : Setting) (h : History) (actor : actors.Actor) → IsGate t h actor self.old → letter_at t.topology h place ≡ Some letter.now → Steps IsGate is_heard t h actor (Take place) result self.new }
        ensures none { result ≡ None → self.new ≡ self.old }
    {
        let Letter::Gossip { gate, vector } = letter else {
            return None;
        };
        if self.stopped || *gate == self.gate {
            return None;
        }
        self.vector.hear(vector);
        Some(self.entry(Kind::Heard {
            place,
            vector: *vector,
        }))
    }

    /// Takes a `Result` letter, with its `Replied` entry. None exactly where no such entry may follow: the gateway has stopped, the
    /// letter is not a `Result` to it, or the command is not one of its sessions that is begun and not replied. After None, and on an
    /// error, nothing has changed. The letter stands at the place in the history. Takes memory for a copy of the reply.
    pub fn replied(&mut self, place: Place, letter: &Letter) -> Result<Option<Entry>, Memory>
        ensures steps { IfOk result (λ answer. (t : Setting) (h : History) (actor : actors.Actor) → IsGate t h actor self.old → letter_at t.topology h place ≡ Some letter.now → Steps IsGate is_replied t h actor (Take place) answer self.new) }
        ensures none { IfOk result (λ answer. answer ≡ None → self.new ≡ self.old) }
        ensures err { OnErr result (self.new ≡ self.old) }
    {
        let Letter::Result {
            session,
            seq,
            gate,
            reply,
        } = letter
        else {
            return Ok(None);
        };
        Ok(self.reply_with(place, *session, *seq, *gate, reply.copy()?))
    }

    /// The same with what the letter says; it takes no memory.
    fn reply_with(
        &mut self,
        place: Place,
        session: u32,
        seq: u32,
        gate: u32,
        reply: Reply,
    ) -> Option<Entry>
        ensures steps { (t : Setting) (h : History) (actor : actors.Actor) → IsGate t h actor self.old → letter_at t.topology h place ≡ Some (Answered session seq gate reply) → Steps IsGate is_replied t h actor (Take place) result self.new }
        ensures none { result ≡ None → self.new ≡ self.old }
    {
        if self.stopped || gate != self.gate || !self.sessions.is_open(session, seq) {
            return None;
        }
        self.note_reply(session, seq, &reply);
        Some(self.entry(Kind::Replied {
            place,
            session,
            seq,
            reply,
        }))
    }

    /// Takes a `Told` letter, with its `Told` entry. None exactly where no such entry may follow: the gateway has stopped, or the
    /// letter is not a `Told` of another gateway. After None nothing has changed. The letter stands at the place in the history, and it
    /// is sound: it names a session of the roster, as in every lawful history (`sound_letters` of `ov_laws`). Takes no memory.
    pub fn told(&mut self, place: Place, letter: &Letter) -> Option<Entry>
        ensures steps { (t : Setting) (h : History) (actor : actors.Actor) → IsGate t h actor self.old → letter_at t.topology h place ≡ Some letter.now → IsSound t h self.old.gate letter.now → Steps IsGate is_told t h actor (Take place) result self.new }
        ensures none { result ≡ None → self.new ≡ self.old }
    {
        let Letter::Told { session, seq, gate } = letter else {
            return None;
        };
        if self.stopped || *gate == self.gate {
            return None;
        }
        tell(&mut self.sessions, *session, *seq);
        Some(self.entry(Kind::Told {
            place,
            session: *session,
            seq: *seq,
        }))
    }

    /// Notes the reply to a command that is begun and not replied.
    fn note_reply(&mut self, session: u32, seq: u32, reply: &Reply)
        requires { IsOpen self.old.sessions session seq }
        ensures { Replies self.old session seq reply.now self.new }
    {
        self.sessions.replied(session, seq, reply);
        match latest_of(self.latest.as_slice(), session) {
            None => {}
            Some(version) => self.tracked.take_reply(version, session, seq),
        }
    }
}

/// The version that a session drew last.
fn latest_of(latest: &[Option<Version>], session: u32) -> Option<Version>
    ensures { result ≡ get_or latest.now session None }
{
    let session = session as usize;
    if session < latest.len() {
        latest[session]
    } else {
        None
    }
}

/// Notes that a command of a session of the roster is replied elsewhere.
fn tell(sessions: &mut Sessions, session: u32, seq: u32)
    ensures { (roster : rosters.Roster) (gate : ℕ) (events : List Event) → session < length roster.sessions → StandsFor roster gate events sessions.old → StandsFor roster gate (Told session seq ∷ events) sessions.new }
{
    if sessions.has(session) {
        sessions.told(session, seq);
    }
}
