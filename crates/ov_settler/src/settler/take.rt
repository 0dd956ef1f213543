//! The answers that a settler takes.
ghost use Rattle.std.specs.Prelude.{◌≡◌, ◌<◌, ◌↔◌, None, Some, IfOk, IsTrue, OnErr, OnOk};
ghost use Rattle.ov_topology.specs.declared.actor.Actor as actors;
ghost use Rattle.ov_event.specs.declared.letter.Letter.TheVariants.{Answer};
ghost use Rattle.ov_history.specs.Past.{History};
ghost use Rattle.ov_history.specs.Letters.{letter as letter_at};
ghost use Rattle.ov_history.specs.May.{Setting};
ghost use Rattle.ov_history.specs.Gives.{Take};
ghost use Rattle.ov_history.specs.Cores.{Steps};
ghost use Rattle.ov_settler.specs.Settler.{IsSettler, IsSound, is_taken};
ghost use Rattle.ov_settler.specs.Calls.{Awaits, answered_by, gathered_by};

use super::SettlerCore;
use ov_base::{Memory, Plain, Shared};
use ov_event::{Entry, Kind, Letter};
use ov_functor::Item;
use ov_topology::Place;
use ov_window::Harvest;

impl SettlerCore {
    /// Takes an `Answer` letter, with its `Taken` entry. None exactly where no such entry may follow: the settler has stopped, or the
    /// letter is not an answer to its open round. After None, and on an error, nothing has changed. The letter stands at the place in
    /// the history, and it is sound: an answer to the open round is of a node of the topology, and its items lie in the round's window,
    /// as in every lawful history (`sound_answers` of `ov_laws`). The entry and the harvest share the letter's items.
    pub fn take(&mut self, place: Place, letter: &Letter) -> Result<Option<Entry>, Memory>
        ensures steps { IfOk result (λ answer. (t : Setting) (h : History) (actor : actors.Actor) → IsSettler t h actor self.old → letter_at t.topology h place ≡ Some letter.now → IsSound self.old letter.now → Steps IsSettler is_taken t h actor (Take place) answer self.new) }
        ensures none { IfOk result (λ answer. answer ≡ None → self.new ≡ self.old) }
        ensures err { OnErr result (self.new ≡ self.old) }
    {
        let Letter::Answer {
            settler,
            round,
            centre,
            part,
            items,
        } = letter
        else {
            return Ok(None);
        };
        self.take_items(place, *settler, *round, *centre, *part, items.copy()?)
    }

    /// The same with what the letter says.
    fn take_items(
        &mut self,
        place: Place,
        settler: u32,
        round: u64,
        centre: u32,
        part: u32,
        items: Shared<Item>,
    ) -> Result<Option<Entry>, Memory>
        ensures steps { IfOk result (λ answer. (t : Setting) (h : History) (actor : actors.Actor) → IsSettler t h actor self.old → letter_at t.topology h place ≡ Some (Answer settler round centre part items) → IsSound self.old (Answer settler round centre part items) → Steps IsSettler is_taken t h actor (Take place) answer self.new) }
        ensures none { IfOk result (λ answer. answer ≡ None → self.new ≡ self.old) }
        ensures err { OnErr result (self.new ≡ self.old) }
    {
        if self.stopped || !self.awaits(settler, round, centre, part) {
            return Ok(None);
        }
        self.gather(centre, part, &items)?;
        Ok(Some(self.entry(Kind::Taken {
            place,
            round,
            centre,
            part,
            items,
        })))
    }

    /// Whether an answer of the node to this round of the settler is one to the open round, and the node is in the topology.
    fn awaits(&self, settler: u32, round: u64, centre: u32, part: u32) -> bool
        ensures { IsTrue result ↔ Awaits self.now settler round centre part }
    {
        let Some(_) = &self.harvest else {
            return false;
        };
        if settler != self.centre || round != self.rounds {
            return false;
        }
        centre < self.topology.centres() && part < self.topology.partitions()
    }

    /// Adds the answer of a node to the harvest of the open round. On an error nothing has changed.
    fn gather(&mut self, centre: u32, part: u32, items: &Shared<Item>) -> Result<(), Memory>
        requires centre { centre < self.old.topology.centres }
        requires part { part < self.old.topology.partitions }
        ensures ok { OnOk result (self.new ≡ gathered_by centre part items.now self.old) }
        ensures err { OnErr result (self.new ≡ self.old) }
    {
        if let Some(harvest) = &mut self.harvest {
            add_answer(harvest, centre, part, items)?;
        }
        Ok(())
    }
}

/// Adds the answer of a node to a harvest, of which its first alone counts. On an error nothing has changed.
fn add_answer(
    harvest: &mut Harvest,
    centre: u32,
    part: u32,
    items: &Shared<Item>,
) -> Result<(), Memory>
    requires centre { centre < harvest.old.topology.centres }
    requires part { part < harvest.old.topology.partitions }
    ensures ok { OnOk result (harvest.new ≡ answered_by centre part items.now harvest.old) }
    ensures err { OnErr result (harvest.new ≡ harvest.old) }
{
    harvest.add_shared(centre, part, items.copy()?)?;
    Ok(())
}
