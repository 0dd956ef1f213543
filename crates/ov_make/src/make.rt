//! The whole script, part by part.
ghost use Rattle.std.specs.Prelude.{◌≡◌, ◌≤◌, [], ◌∷◌, ◌++◌, IfOk, OnOk};
ghost use Rattle.ov_session.specs.Standing.{most_commands};
ghost use Rattle.ov_script.specs.Written.{MayStand};
ghost use Rattle.ov_script.specs.declared.line.ScriptLine.TheVariants as lines;
ghost use Rattle.ov_make.specs.Made as spec;
ghost use Rattle.ov_make.specs.Made.{session_lines, puts_line, first_waits, made_topology, made_script};
ghost use Rattle.ov_make.specs.Progress.{holding, with_lines};

use crate::line::{add_line, gets, puts};
use crate::middle::add_middle;
use crate::names::session_name;
use crate::waits::{GATEWAYS, add_first_waits, add_last_waits, add_sessions};
use ov_base::{Memory, Sequence};
use ov_functor::Part;
use ov_script::{Script, ScriptLine};
use ov_topology::Topology;
use std::alloc::Global;

/// The made topology, and the made script of a number with so many commands: the first session puts, the others move amounts and take
/// snapshots, and the first gets (`specs/Made.antt`). The only error is out of memory. Condition: there are 2 to 4000 commands.
pub fn make_script(alloc: Global, number: u64, commands: u32) -> Result<(Topology, Script), Memory>
    requires { (2 ≤ commands) × (commands ≤ most_commands) }
    ensures topology { IfOk result (λ made. made.0 ≡ made_topology) }
    ensures script { IfOk result (λ made. made.1 ≡ made_script number commands) }
{
    let topology = topology(alloc)?;
    let mut script = opening(alloc)?;
    add_middle(alloc, &mut script, number, commands - 2)?;
    add_last_waits(&mut script)?;
    add_transaction(&mut script, gets(alloc)?)?;
    Ok((topology, script))
}

/// Three centres with a gateway in each, four partitions, and quorums of two.
fn topology(alloc: Global) -> Result<Topology, Memory>
    ensures { IfOk result (λ topology. topology ≡ made_topology) }
{
    Topology::of(alloc, 3, 4, &[0, 1, 2], 2, 2)
}

/// The script up to the first middle command: all sessions, the puts, and the waits for them.
fn opening(alloc: Global) -> Result<Script, Memory>
    ensures { IfOk result (λ script. script ≡ holding (session_lines ++ puts_line ∷ [] ++ first_waits)) }
{
    let mut script = Script::empty(alloc, GATEWAYS);
    add_sessions(&mut script)?;
    add_transaction(&mut script, puts(alloc)?)?;
    add_first_waits(&mut script)?;
    Ok(script)
}

/// Adds a transaction of the first session.
fn add_transaction(script: &mut Script, parts: Sequence<Part>) -> Result<(), Memory>
    requires { MayStand script.old (lines.Do (spec.session_name 0) parts) }
    ensures { OnOk result (script.new ≡ with_lines script.old (lines.Do (spec.session_name 0) parts ∷ [])) }
{
    let session = session_name(0);
    add_line(script, ScriptLine::Do { session, parts })
}
