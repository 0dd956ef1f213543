//! Passes that list lines for each entry of a history.
ghost use Rattle.std.specs.Prelude.{◌≡◌, ◌++◌, map, IfOk, OnOk};
ghost use Rattle.ov_follow.specs.Passes.{gather};
ghost use Rattle.ov_world.specs.Acts.{line_in};
ghost use Rattle.ov_world.specs.World.{setting_of};
ghost use Rattle.ov_step.specs.Deeds.{AllDone};
ghost use Rattle.ov_step.specs.Gathered.{Lister, IsClear, Stays};

use crate::deeds::Deeds;
use crate::lines::allocator_of;
use ov_base::Memory;
use ov_event::Entry;
use ov_world::{Line, World};

/// A pass that lists lines for each entry of a history.
pub(crate) trait EntryPass {
    /// What it lists for an entry.
    ghost lister: { Lister };

    /// Lists the lines for the entry of a number, behind those that are there. Condition: these are the deeds of the world's history. The only
    /// error is out of memory.
    fn list(
        world: &World,
        deeds: &Deeds,
        number: u64,
        entry: &Entry,
        lines: &mut Vec<Line>,
    ) -> Result<(), Memory>
        requires { AllDone world.now.history deeds.now }
        ensures { OnOk result (map line_in lines.new.items ≡ map line_in lines.old.items ++ lister (setting_of world.now) world.now.history number entry.now) };

    /// What has no line once never has one again.
    ghost stays: { Stays lister };
}

/// Lists the lines of a pass, and moves on up to where it has none. Conditions: these are the deeds of the world's history, and up to that number
/// there is no line. The only error is out of memory.
pub(crate) fn gather_lines<P: EntryPass>(
    world: &World,
    deeds: &Deeds,
    clear: &mut u64,
) -> Result<Vec<Line>, Memory>
    requires deeds { AllDone world.now.history deeds.now }
    requires clear { IsClear P.lister (setting_of world.now) world.now.history clear.old }
    ensures lines { IfOk result (λ lines. map line_in lines.items ≡ gather (P.lister (setting_of world.now) world.now.history) world.now.history) }
    ensures clear { OnOk result (IsClear P.lister (setting_of world.now) world.now.history clear.new) }
{
    let entries = world.entries();
    let mut lines = Vec::new(allocator_of(world));
    for place in *clear as usize..entries.len() {
        let number = place as u64 + 1;
        P::list(world, deeds, number, &entries[place], &mut lines)?;
        if lines.is_empty() {
            *clear = number;
        }
    }
    Ok(lines)
}
