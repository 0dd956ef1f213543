//! What reports show of a history, as the contract of a function that does nothing.
ghost use Rattle.std.specs.Prelude.{◌≡◌, ℕ, Some, is_some};
ghost use Rattle.ov_functor.specs.declared.reply.Reply.{Reply};
ghost use Rattle.ov_history.specs.Past.{History};
ghost use Rattle.ov_follow.specs.Passes.{is_replied};
ghost use Rattle.ov_report.specs.Report.{IsShown, reply_to};

/// Each reply that a report shows was given in the history, and it shows one for exactly the commands that are replied.
pub fn replies_are_there()
    ensures there { (h : History) (s c : ℕ) (reply : Reply) → reply_to s c h ≡ Some reply → IsShown h s c reply }
    ensures answered { (h : History) (s c : ℕ) → is_some (reply_to s c h) ≡ is_replied s c h }
{}
