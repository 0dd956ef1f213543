//! Letters: what their addressees may rely on.
ghost use Rattle.std.specs.Prelude.{◌≡◌, ℕ, Some, List};
ghost use Rattle.ov_functor.specs.declared.item.Item.{Item};
ghost use Rattle.ov_topology.specs.declared.place.Place as places;
ghost use Rattle.ov_event.specs.declared.letter.Letter as letters;
ghost use Rattle.ov_event.specs.declared.letter.Letter.TheVariants.{Answer};
ghost use Rattle.ov_history.specs.Past.{History};
ghost use Rattle.ov_history.specs.Letters.{letter as letter_at};
ghost use Rattle.ov_history.specs.Settlers.{Round, open_round};
ghost use Rattle.ov_history.specs.May.{Setting, Lawful};
ghost use Rattle.ov_history.specs.Cores.{IsSound};
ghost use Rattle.ov_laws.specs.Harvests.{IsAnswerTo};

/// Every letter of a lawful history is sound for each gateway: a version that is acknowledged to the gateway has a time that is not
/// after its last one, and a session of which is told is one of the roster. So what a gateway asks of its letters bars none of a
/// lawful history.
pub fn sound_letters()
    ensures { (t : Setting) (h : History) (g : ℕ) (place : places.Place) (letter : letters.Letter) → Lawful t h → letter_at t.topology h place ≡ Some letter → IsSound t h g letter }
{}

/// Every answer of a lawful history to the open round of its settler is one on which the settler may rely: its node is in the
/// topology, and its items lie in the round's window. So what a settler asks of its letters bars none of a lawful history.
pub fn sound_answers()
    ensures { (t : Setting) (h : History) (s : ℕ) (place : places.Place) (round : Round) (centre part : ℕ) (items : List Item) → Lawful t h → letter_at t.topology h place ≡ Some (Answer s round.number centre part items) → open_round s h ≡ Some round → IsAnswerTo t.topology round centre part items }
{}
