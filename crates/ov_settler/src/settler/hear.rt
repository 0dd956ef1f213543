//! What a settler hears of marks.
ghost use Rattle.std.specs.Prelude.{◌≡◌, None, Some};
ghost use Rattle.ov_topology.specs.declared.actor.Actor as actors;
ghost use Rattle.ov_history.specs.Past.{History};
ghost use Rattle.ov_history.specs.Letters.{letter as letter_at};
ghost use Rattle.ov_history.specs.May.{Setting};
ghost use Rattle.ov_history.specs.Gives.{Take};
ghost use Rattle.ov_history.specs.Cores.{Steps};
ghost use Rattle.ov_settler.specs.Settler.{IsSettler, is_heard};

use super::SettlerCore;
use ov_event::{Entry, Kind, Letter};
use ov_topology::Place;

impl SettlerCore {
    /// Hears a `Gossip` letter, with its `Heard` entry. None exactly where no such entry may follow: the settler has stopped, or the
    /// letter is not a `Gossip`. After None nothing has changed. The letter stands at the place in the history. Takes no memory.
    pub fn heard(&mut self, place: Place, letter: &Letter) -> Option<Entry>
        ensures steps { (t : Setting) (h : History) (actor : actors.Actor) → IsSettler t h actor self.old → letter_at t.topology h place ≡ Some letter.now → Steps IsSettler is_heard t h actor (Take place) result self.new }
        ensures none { result ≡ None → self.new ≡ self.old }
    {
        let Letter::Gossip { vector, .. } = letter else {
            return None;
        };
        if self.stopped {
            return None;
        }
        self.vector.hear(vector);
        Some(self.entry(Kind::Heard {
            place,
            vector: *vector,
        }))
    }
}
