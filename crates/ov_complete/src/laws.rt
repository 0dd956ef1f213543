//! What calm rounds make of a whole world, each the contract of a function that does nothing.
ghost use Rattle.std.specs.Prelude.{◌≡◌, ℕ, ◌+◌, ◌^◌, ◌≤◌, ◌<◌, true, false, Some, List, [], ◌∷◌, ◌++◌, length, slice_get};
ghost use Rattle.ov_topology.specs.Shape.{IsShape};
ghost use Rattle.ov_topology.specs.declared.actor.Actor.{Actor};
ghost use Rattle.ov_session.specs.Standing.{IsRoster};
ghost use Rattle.ov_session.specs.declared.plan.SessionPlan.{SessionPlan};
ghost use Rattle.ov_script.specs.Script.{Content, IsScript};
ghost use Rattle.ov_script.specs.Sessions.{roster_of, order_of};
ghost use Rattle.ov_script.specs.declared.order.CommandAt.{CommandAt};
ghost use Rattle.ov_script.specs.declared.step.Step.{Step};
ghost use Rattle.ov_history.specs.Past.{History, stopped, tally};
ghost use Rattle.ov_history.specs.May.{Setting};
ghost use Rattle.ov_follow.specs.Lines.{drive};
ghost use Rattle.ov_follow.specs.Passes.{is_replied};
ghost use Rattle.ov_follow.specs.Calm.{calm_round, calm, commands};
ghost use Rattle.ov_follow.specs.Whole.{IsWhole};
ghost use Rattle.ov_laws.specs.Draws.{moves_clock};
ghost use Rattle.ov_complete.specs.Facts.{Runs};
ghost use Rattle.ov_complete.specs.Once.{OnceEach, Calms};
ghost use Rattle.ov_complete.specs.Order.{IsOrder, AllAnswered};

/// A calm round replies to the command that comes first. The sessions are a roster with a gateway in the topology for each; the world is
/// whole before the round, that is, no gateway and no settler has stopped, and of each partition nodes run in centres enough for the
/// greater of the two quorums; at most 600,000 entries have begun a command or published; and the history after the round has fewer than
/// 2^64 entries. Then, in whatever order of the commands in which each stands behind those of its session before it and behind all that it
/// waits for, the first that is not replied before the round is replied after it.
pub fn round_replies()
    ensures { (t : Setting) (h : History) (order before rest : List CommandAt) (one : CommandAt) → Runs t h → tally moves_clock h ≤ 600000 → length (calm_round t h) < 2 ^ 64 → IsOrder t.roster order → order ≡ before ++ one ∷ rest → AllAnswered h before → is_replied one.session one.seq h ≡ false → is_replied one.session one.seq (calm_round t h) ≡ true }
{}

/// The commands of a script, in the order of its lines, stand in an order in which they can come up for their replies: each behind those
/// of its session before it, and behind all that it waits for; and every command of its sessions is among them. There are at most 4,000.
/// Its sessions are a roster, each with a gateway that there is.
pub fn scripts_in_order()
    ensures order { (script : Content) → IsScript script → IsOrder (roster_of script.lines) (order_of script.lines) }
    ensures commands { (script : Content) (t : Setting) → IsScript script → t.roster ≡ roster_of script.lines → commands t ≤ 4000 }
    ensures roster { (script : Content) → IsScript script → IsRoster (roster_of script.lines) }
    ensures own { (script : Content) → IsScript script → (s : ℕ) (plan : SessionPlan) → slice_get (roster_of script.lines).sessions s ≡ Some plan → plan.gate < script.gateways }
{}

/// After calm rounds each command of each session has begun in exactly one entry, and is replied in exactly one. This holds of every run,
/// whatever was done in it before, whose sessions are a roster with a gateway in the topology for each, whose commands have an order in
/// which each stands behind those of its session before it and behind all that it waits for, and after whose calm rounds the world is
/// whole, at most 600,000 entries have begun a command or published, and there are fewer than 2^64 entries. With a gateway or a settler stopped, or with too few nodes of a partition, it is not promised that a command is replied.
pub fn all_replied()
    ensures { (t : Setting) (order : List CommandAt) (h : History) → Calms t order h → (s c : ℕ) (plan : SessionPlan) → slice_get t.roster.sessions s ≡ Some plan → c < length plan.planned → OnceEach (calm t h) s (c + 1) }
{}

/// After a schedule of at most 100,000 lines over at most 4,000 commands, and calm rounds to the end, at most 600,000 entries have begun
/// a command or published.
pub fn few_moves()
    ensures { (t : Setting) (schedule : List Step) → IsShape t.topology → length schedule ≤ 100000 → commands t ≤ 4000 → tally moves_clock (calm t (drive t [] schedule)) ≤ 600000 }
{}

/// Calm rounds stop nobody: each actor has stopped after them exactly where it had before, so a world that is whole before them is whole after
/// them. In a topology in form the world without an entry is whole, and so it is after calm rounds from there. Nothing is asked of the history.
pub fn whole_stays()
    ensures nobody { (t : Setting) (h : History) (actor : Actor) → stopped actor (calm t h) ≡ stopped actor h }
    ensures stays { (t : Setting) (h : History) → IsWhole t.topology h → IsWhole t.topology (calm t h) }
    ensures begins { (t : Setting) → IsShape t.topology → IsWhole t.topology [] }
    ensures made { (t : Setting) → IsShape t.topology → IsWhole t.topology (calm t []) }
{}
