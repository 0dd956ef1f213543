//! Sessions: the order of their commands and replies.
ghost use Rattle.std.specs.Prelude.{ℕ, ◌≤◌, ◌<◌};
ghost use Rattle.ov_functor.specs.declared.reply.Reply.{Reply};
ghost use Rattle.ov_session.specs.Events.{floor_of};
ghost use Rattle.ov_history.specs.Past.{History};
ghost use Rattle.ov_history.specs.May.{Setting, Lawful};
ghost use Rattle.ov_laws.specs.Runs.{IsRun};
ghost use Rattle.ov_laws.specs.Entries.{BeganAt, RepliedAt, LooksAfter, SnapsAfter};

/// The commands of a session begin, and are replied, in the order of their numbers, each at most once, whichever gateways say so; a
/// reply after the beginning of a command is one of that command or of a later one, and a beginning after a reply is one of a later
/// command; and a snapshot is not below what an earlier reply of its session reaches: its floor, and so its watermark, is above the
/// version of a transaction, and at least the watermark of a snapshot.
pub fn session_order()
    ensures begins { (t : Setting) (h : History) (i j s c d : ℕ) → Lawful t h → i < j → BeganAt h i s c → BeganAt h j s d → c < d }
    ensures replies { (t : Setting) (h : History) (i j s c d : ℕ) → Lawful t h → i < j → RepliedAt h i s c → RepliedAt h j s d → c < d }
    ensures replied { (t : Setting) (h : History) (i j s c d : ℕ) → Lawful t h → i < j → BeganAt h i s c → RepliedAt h j s d → c ≤ d }
    ensures begun { (t : Setting) (h : History) (i j s c d : ℕ) → Lawful t h → i < j → RepliedAt h i s c → BeganAt h j s d → c < d }
    ensures floors { (t : Setting) (h : History) (s floor : ℕ) (reply : Reply) → Lawful t h → LooksAfter h s reply floor → floor_of reply ≤ floor }
    ensures snaps { (t : Setting) (h : History) (s n : ℕ) (reply : Reply) → IsRun t h → SnapsAfter h s reply n → floor_of reply ≤ n }
{}
