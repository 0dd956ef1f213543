//! The passes of a calm round.
ghost use Rattle.std.specs.Prelude.{◌≡◌, ◌∷◌, [], map, OnOk, OnErr};
ghost use Rattle.ov_follow.specs.Calm.{round_passes};
ghost use Rattle.ov_follow.specs.Passes.{tolds, begins, writes, acks, publishes, hears, questions, answers, takes, settlements, results, replies_of};
ghost use Rattle.ov_world.specs.Acts.{line_in};
ghost use Rattle.ov_world.specs.World.{setting_of};
ghost use Rattle.ov_step.specs.Followed.{Followed, FollowedInPart};
ghost use Rattle.ov_step.specs.Outstanding.{IsOutstanding};
ghost use Rattle.ov_step.specs.Parts.{Passed, PassedInPart};

use crate::acknowledge::Acknowledging;
use crate::answer::list_answers;
use crate::ask::ask_all;
use crate::begin::begin_all;
use crate::gather::gather_lines;
use crate::harvest::list_takes;
use crate::hear::list_hears;
use crate::lines::follow_all;
use crate::outstanding::Outstanding;
use crate::publish::publish_all;
use crate::reply::Replying;
use crate::result::result_all;
use crate::settle::settle_all;
use crate::store::Storing;
use crate::tell::Telling;
use ov_base::Memory;
use ov_world::{Line, World};

// Each of these does some passes of a calm round, in order (docs/STORE.md, Calm rounds). Condition: what is kept is of the world's history; then it is
// again. On an error, which is always out of memory, the world has some first entries of what the passes add.
impl Outstanding {
    /// A whole round.
    pub(crate) fn round(&mut self, world: &mut World) -> Result<(), Memory>
        requires { IsOutstanding (setting_of world.old) world.old.history self.old }
        ensures done { OnOk result (Passed round_passes world.old world.new self.new) }
        ensures part { OnErr result (PassedInPart round_passes world.old world.new) }
    {
        self.write(world)?;
        self.gossip(world)?;
        self.settle(world)?;
        self.reply(world)
    }

    /// Replies are told, and commands begin, are stored and acknowledged: the passes 1 to 4.
    fn write(&mut self, world: &mut World) -> Result<(), Memory>
        requires { IsOutstanding (setting_of world.old) world.old.history self.old }
        ensures done { OnOk result (Passed (tolds ∷ begins ∷ writes ∷ acks ∷ []) world.old world.new self.new) }
        ensures part { OnErr result (PassedInPart (tolds ∷ begins ∷ writes ∷ acks ∷ []) world.old world.new) }
    {
        self.tell(world)?;
        self.begin(world)?;
        self.store(world)?;
        self.acknowledge(world)
    }

    /// Gateways publish and hear twice: the passes 5 to 8.
    fn gossip(&mut self, world: &mut World) -> Result<(), Memory>
        requires { IsOutstanding (setting_of world.old) world.old.history self.old }
        ensures done { OnOk result (Passed (publishes ∷ hears ∷ publishes ∷ hears ∷ []) world.old world.new self.new) }
        ensures part { OnErr result (PassedInPart (publishes ∷ hears ∷ publishes ∷ hears ∷ []) world.old world.new) }
    {
        self.publish(world)?;
        self.hear(world)?;
        self.publish(world)?;
        self.hear(world)
    }

    /// Settlers gather and settle a round: the passes 9 to 12.
    fn settle(&mut self, world: &mut World) -> Result<(), Memory>
        requires { IsOutstanding (setting_of world.old) world.old.history self.old }
        ensures done { OnOk result (Passed (questions ∷ answers ∷ takes ∷ settlements ∷ []) world.old world.new self.new) }
        ensures part { OnErr result (PassedInPart (questions ∷ answers ∷ takes ∷ settlements ∷ []) world.old world.new) }
    {
        self.ask(world)?;
        self.answer(world)?;
        self.take(world)?;
        self.settle_rounds(world)
    }

    /// Commands are replied: the passes 13 and 14.
    fn reply(&mut self, world: &mut World) -> Result<(), Memory>
        requires { IsOutstanding (setting_of world.old) world.old.history self.old }
        ensures done { OnOk result (Passed (results ∷ replies_of ∷ []) world.old world.new self.new) }
        ensures part { OnErr result (PassedInPart (results ∷ replies_of ∷ []) world.old world.new) }
    {
        self.compute(world)?;
        self.take_results(world)
    }

    /// Pass 1: what was replied is told.
    fn tell(&mut self, world: &mut World) -> Result<(), Memory>
        requires { IsOutstanding (setting_of world.old) world.old.history self.old }
        ensures done { OnOk result (Passed (tolds ∷ []) world.old world.new self.new) }
        ensures part { OnErr result (PassedInPart (tolds ∷ []) world.old world.new) }
    {
        let lines = gather_lines::<Telling>(world, &self.deeds, &mut self.told)?;
        self.follow(world, lines.as_slice())
    }

    /// Pass 2: commands begin.
    fn begin(&mut self, world: &mut World) -> Result<(), Memory>
        requires { IsOutstanding (setting_of world.old) world.old.history self.old }
        ensures done { OnOk result (Passed (begins ∷ []) world.old world.new self.new) }
        ensures part { OnErr result (PassedInPart (begins ∷ []) world.old world.new) }
    {
        begin_all(world)?;
        self.catch_up(world)
    }

    /// Pass 3: writes are stored.
    fn store(&mut self, world: &mut World) -> Result<(), Memory>
        requires { IsOutstanding (setting_of world.old) world.old.history self.old }
        ensures done { OnOk result (Passed (writes ∷ []) world.old world.new self.new) }
        ensures part { OnErr result (PassedInPart (writes ∷ []) world.old world.new) }
    {
        let lines = gather_lines::<Storing>(world, &self.deeds, &mut self.stored)?;
        self.follow(world, lines.as_slice())
    }

    /// Pass 4: stores are acknowledged.
    fn acknowledge(&mut self, world: &mut World) -> Result<(), Memory>
        requires { IsOutstanding (setting_of world.old) world.old.history self.old }
        ensures done { OnOk result (Passed (acks ∷ []) world.old world.new self.new) }
        ensures part { OnErr result (PassedInPart (acks ∷ []) world.old world.new) }
    {
        let lines = gather_lines::<Acknowledging>(world, &self.deeds, &mut self.acked)?;
        self.follow(world, lines.as_slice())
    }

    /// Passes 5 and 7: gateways publish.
    fn publish(&mut self, world: &mut World) -> Result<(), Memory>
        requires { IsOutstanding (setting_of world.old) world.old.history self.old }
        ensures done { OnOk result (Passed (publishes ∷ []) world.old world.new self.new) }
        ensures part { OnErr result (PassedInPart (publishes ∷ []) world.old world.new) }
    {
        publish_all(world)?;
        self.catch_up(world)
    }

    /// Passes 6 and 8: what was published last is heard.
    fn hear(&mut self, world: &mut World) -> Result<(), Memory>
        requires { IsOutstanding (setting_of world.old) world.old.history self.old }
        ensures done { OnOk result (Passed (hears ∷ []) world.old world.new self.new) }
        ensures part { OnErr result (PassedInPart (hears ∷ []) world.old world.new) }
    {
        let lines = list_hears(world, &self.publications)?;
        self.follow(world, lines.as_slice())
    }

    /// Pass 9: settlers ask.
    fn ask(&mut self, world: &mut World) -> Result<(), Memory>
        requires { IsOutstanding (setting_of world.old) world.old.history self.old }
        ensures done { OnOk result (Passed (questions ∷ []) world.old world.new self.new) }
        ensures part { OnErr result (PassedInPart (questions ∷ []) world.old world.new) }
    {
        ask_all(world)?;
        self.catch_up(world)
    }

    /// Pass 10: nodes answer.
    fn answer(&mut self, world: &mut World) -> Result<(), Memory>
        requires { IsOutstanding (setting_of world.old) world.old.history self.old }
        ensures done { OnOk result (Passed (answers ∷ []) world.old world.new self.new) }
        ensures part { OnErr result (PassedInPart (answers ∷ []) world.old world.new) }
    {
        let lines = list_answers(world, &self.rounds)?;
        self.follow(world, lines.as_slice())
    }

    /// Pass 11: settlers take the answers.
    fn take(&mut self, world: &mut World) -> Result<(), Memory>
        requires { IsOutstanding (setting_of world.old) world.old.history self.old }
        ensures done { OnOk result (Passed (takes ∷ []) world.old world.new self.new) }
        ensures part { OnErr result (PassedInPart (takes ∷ []) world.old world.new) }
    {
        let lines = list_takes(world, &self.rounds)?;
        self.follow(world, lines.as_slice())
    }

    /// Pass 12: settlers settle.
    fn settle_rounds(&mut self, world: &mut World) -> Result<(), Memory>
        requires { IsOutstanding (setting_of world.old) world.old.history self.old }
        ensures done { OnOk result (Passed (settlements ∷ []) world.old world.new self.new) }
        ensures part { OnErr result (PassedInPart (settlements ∷ []) world.old world.new) }
    {
        settle_all(world)?;
        self.catch_up(world)
    }

    /// Pass 13: wanted replies are computed.
    fn compute(&mut self, world: &mut World) -> Result<(), Memory>
        requires { IsOutstanding (setting_of world.old) world.old.history self.old }
        ensures done { OnOk result (Passed (results ∷ []) world.old world.new self.new) }
        ensures part { OnErr result (PassedInPart (results ∷ []) world.old world.new) }
    {
        self.wants.drop_replied(&self.deeds);
        result_all(world, &self.deeds, &self.wants)?;
        self.catch_up(world)
    }

    /// Pass 14: results are taken.
    fn take_results(&mut self, world: &mut World) -> Result<(), Memory>
        requires { IsOutstanding (setting_of world.old) world.old.history self.old }
        ensures done { OnOk result (Passed (replies_of ∷ []) world.old world.new self.new) }
        ensures part { OnErr result (PassedInPart (replies_of ∷ []) world.old world.new) }
    {
        let lines = gather_lines::<Replying>(world, &self.deeds, &mut self.answered)?;
        self.follow(world, lines.as_slice())
    }

    /// Follows the lines, and reads what they added.
    fn follow(&mut self, world: &mut World, lines: &[Line]) -> Result<(), Memory>
        requires { IsOutstanding (setting_of world.old) world.old.history self.old }
        ensures done { OnOk result (Followed (map line_in lines.now) world.old world.new) }
        ensures kept { OnOk result (IsOutstanding (setting_of world.new) world.new.history self.new) }
        ensures part { OnErr result (FollowedInPart (map line_in lines.now) world.old world.new) }
    {
        follow_all(world, lines)?;
        self.catch_up(world)
    }
}
