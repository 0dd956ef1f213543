//! What is true of every made script, as the contract of a function that does nothing.
ghost use Rattle.std.specs.Prelude.{◌≡◌, ◌≤◌, ℕ, length};
ghost use Rattle.ov_topology.specs.Shape.{IsShape, gates};
ghost use Rattle.ov_session.specs.Standing.{most_commands};
ghost use Rattle.ov_script.specs.Script.{IsScript};
ghost use Rattle.ov_script.specs.Sessions.{order_of};
ghost use Rattle.ov_make.specs.Made.{made_topology, made_script};

/// The made topology is in its ranges, and the made script is a script for its gateways, with as many commands as were asked for.
pub fn made_scripts_are_scripts()
    ensures topology { IsShape made_topology }
    ensures gateways { (number commands : ℕ) → (made_script number commands).gateways ≡ gates made_topology }
    ensures script { (number commands : ℕ) → 2 ≤ commands → commands ≤ most_commands → IsScript (made_script number commands) }
    ensures count { (number commands : ℕ) → 2 ≤ commands → length (order_of (made_script number commands).lines) ≡ commands }
{}
