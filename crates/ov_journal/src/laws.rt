//! What is true of the journals of lawful histories, as the contract of a function that does nothing.
ghost use Rattle.std.specs.Prelude.{◌≡◌, ◌<◌, ◌^◌, List, length, reverse, Ok};
ghost use Rattle.std.specs.List.{AllByRecursion};
ghost use Rattle.ov_topology.specs.Shape.{Shape};
ghost use Rattle.ov_script.specs.Script.{Content, IsScript};
ghost use Rattle.ov_event.specs.declared.entry.Entry as entries;
ghost use Rattle.ov_history.specs.Past.{History};
ghost use Rattle.ov_history.specs.May.{Lawful, Setting};
ghost use Rattle.ov_laws.specs.Runs.{IsRun};
ghost use Rattle.ov_world.specs.World.{setting_by};
ghost use Rattle.ov_journal.specs.Audit.{Judges};
ghost use Rattle.ov_journal.specs.Journal.{journal_of, journal_text};
ghost use Rattle.ov_journal.specs.Line.{HasLine};
ghost use Rattle.ov_journal.specs.declared.verdict.Verdict as verdicts;

use crate::verdict::Verdict;

/// Over a topology and a script in form each entry of a lawful history of fewer than 2^64 entries has a line; so its journal can be written, and is read
/// back as its entries. A right verdict on lawful entries is that they are lawful.
pub fn histories_have_journals()
    ensures lines { (topology : Shape) (script : Content) (h : History) → IsScript script → IsRun (setting_by topology script) h → length h < 2 ^ 64 → AllByRecursion HasLine (reverse h) }
    ensures again { (topology : Shape) (script : Content) (h : History) → IsScript script → IsRun (setting_by topology script) h → length h < 2 ^ 64
        → journal_of (journal_text (reverse h)) ≡ Ok (reverse h) }
    ensures lawful { (t : Setting) (judged : List entries.Entry) (verdict : verdicts.Verdict) → Lawful t (reverse judged) → Judges t judged verdict → verdict ≡ Verdict.Lawful }
{}
