//! Laws: statements about the definitions, proved. They do nothing when they are called.
ghost use Rattle.std.specs.Prelude.{◌≡◌, ◌≤◌, ◌+◌, ◌≤ℤ◌, ◌+ℤ◌, ◌-ℤ◌, ℕ, ℤ, pos, true, List, Option, Some, None, map};
ghost use Rattle.ov_base.specs.Value.{IsValue, or_zero};
ghost use Rattle.ov_base.specs.declared.value.Value.{Value};
ghost use Rattle.ov_base.specs.declared.value.Value.TheVariants.{Number};
ghost use Rattle.ov_functor.specs.declared.effect.Effect.TheVariants.{Out, In};
ghost use Rattle.ov_functor.specs.declared.item.Item.{Item};
ghost use Rattle.ov_functor.specs.declared.part.Part.{Part};
ghost use Rattle.ov_functor.specs.Execution.{Map, changed, covers, exec};
ghost use Rattle.ov_functor.specs.Functor.{functor_of, reads, apply};
ghost use Rattle.ov_functor.specs.Placeholder.{Placeholder};
ghost use Rattle.ov_functor.specs.Serial.{Begun, Falls, folded, found, serial};
ghost use Rattle.ov_functor.specs.Values.{evaluated, upto};
ghost use Rattle.ov_functor.specs.Windows.{Among, Covers, Descends, Fits};

/// The functor of a key, applied to the old values of the keys that it reads, gives what executing the whole
/// transaction makes of the key. And a key that has no functor keeps its value.
pub fn functor_agreement()
    ensures written { (old : Map) (transaction : List Part) (key : List ℕ) (functor : Placeholder) →
        functor_of transaction key ≡ Some functor → apply functor (map old (reads functor)) ≡ exec old transaction key }
    ensures others { (old : Map) (transaction : List Part) (key : List ℕ) → functor_of transaction key ≡ None → exec old transaction key ≡ old key }
{}

/// Where a move holds, its amount leaves the one key and comes to the other undiminished: neither the
/// difference nor the sum stops at an end of the range. Condition: the amount is at least 1, and the values
/// are in their range.
pub fn moves_are_exact()
    ensures out { (amount : ℤ) (from to : Value) → covers amount from to ≡ true → pos 1 ≤ℤ amount → IsValue from → IsValue to → changed (Out amount) from ≡ Number (or_zero from -ℤ amount) }
    ensures into { (amount : ℤ) (from to : Value) → covers amount from to ≡ true → pos 1 ≤ℤ amount → IsValue from → IsValue to → changed (In amount) to ≡ Number (or_zero to +ℤ amount) }
{}

/// The fold over a list of begun transactions whose versions fall is the serial map just below each number.
pub fn serial_fold()
    ensures { (bound below : ℕ) (list : List Begun) → Falls bound list → folded list below ≡ serial (found list) below }
{}

/// The law of windows. A base is the serial map just below `from`; the items, newest first, are those of
/// begun transactions from there on, and none that is written from there up to `below` is missing. Then the
/// values of the items over the base are, just below each number from `from` up to `below`, the serial map.
pub fn window_values()
    ensures { (begun : ℕ → Option (List Part)) (base : Map) (from below : ℕ) (items : List Item) →
        ((key : List ℕ) → base key ≡ serial begun from key) → Descends (below + 1) items →
        ((item : Item) → Among item items → (from ≤ item.version) × Fits begun item) → Covers begun items from below →
        (number : ℕ) (key : List ℕ) → from ≤ number → number ≤ below → upto number base (evaluated base items) key ≡ serial begun number key }
{}
