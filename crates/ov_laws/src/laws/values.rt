//! Values and replies: they are what executing all begun transactions one at a time in version order gives.
ghost use Rattle.std.specs.Prelude.{◌≡◌, ℕ, ◌+◌, ◌≤◌, ◌^◌};
ghost use Rattle.ov_functor.specs.Serial.{folded, found, Falls};
ghost use Rattle.ov_functor.specs.declared.item.Valued.{Valued};
ghost use Rattle.ov_functor.specs.declared.reply.Reply.{Reply};
ghost use Rattle.ov_session.specs.Events.{floor_of};
ghost use Rattle.ov_history.specs.Past.{History};
ghost use Rattle.ov_history.specs.Settlers.{settled, known_below};
ghost use Rattle.ov_history.specs.May.{Setting, Lawful};
ghost use Rattle.ov_history.specs.Serial.{begun_at, begins, serial_at};
ghost use Rattle.ov_laws.specs.Runs.{IsRun};
ghost use Rattle.ov_laws.specs.Entries.{HasReply, IsSettled, DrawnAfter};
ghost use Rattle.ov_laws.specs.Values.{SettledAlike};
ghost use Rattle.ov_laws.specs.Replies.{Expected};

/// The begun transactions of a lawful history, as a list by version: the versions fall, the list has at each version what is begun
/// there, and the fold over it is the serial map just below each number.
pub fn serial_fold_of_history()
    ensures falls { (t : Setting) (h : History) → Lawful t h → Falls (2 ^ 63) (begins h) }
    ensures has { (h : History) (version : ℕ) → found (begins h) version ≡ begun_at h version }
    ensures fold { (t : Setting) (h : History) (n : ℕ) → Lawful t h → folded (begins h) n ≡ serial_at h n }
{}

/// What a settler knows just below each number up to which it has settled is the serial map, each settled value is that of its key
/// just after its version, and so two values of one version and key are equal, whichever settlers settled them.
pub fn settled_values()
    ensures known { (t : Setting) (h : History) (s n : ℕ) → IsRun t h → n ≤ settled s h → known_below s h n ≡ serial_at h n }
    ensures each { (t : Setting) (h : History) (x : Valued) → IsRun t h → IsSettled h x → x.value ≡ serial_at h (x.version + 1) x.key }
    ensures one { (t : Setting) (h : History) → IsRun t h → SettledAlike h }
{}

/// Each reply shows the serial map, for the command that began at the gateway that replies: a transaction what it shows on the map
/// just below its version, which is below a published watermark; a snapshot its keys at a published watermark, which is not below
/// its floor.
pub fn right_replies()
    ensures { (t : Setting) (h : History) (g s c : ℕ) (reply : Reply) → IsRun t h → HasReply h g s c reply → Expected h g s c reply }
{}

/// A draw that stands after a reply is not below what the reply reaches: its version is above that of a replied transaction, and at
/// least the watermark of a replied snapshot.
pub fn order()
    ensures { (t : Setting) (h : History) (reply : Reply) (v : ℕ) → IsRun t h → DrawnAfter h reply v → floor_of reply ≤ v }
{}
