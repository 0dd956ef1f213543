//! The definitions at work on examples, each fact the contract of a function that does nothing.
ghost use Rattle.std.specs.Prelude.{◌≡◌, [], ◌∷◌, codes};
ghost use Rattle.std.specs.List.{count_by};
ghost use Rattle.ov_script.specs.Line.{line_text};
ghost use Rattle.ov_make.specs.Made.{number_behind, middle_line, made_lines};
ghost use Rattle.ov_make.specs.Kinds.{always_aborts, is_snapshot};

/// The first number behind 7, and what it makes the first middle command.
pub fn first_command_of_seven()
    ensures number { number_behind 7 1 ≡ 9098160460397411210 }
    ensures command { line_text (middle_line 7 1) ≡ codes "s1 do move k6 k7 24" }
{}

/// Of 2000 commands 199 are moves that abort, and 200 are snapshots.
pub fn kinds_of_two_thousand()
    ensures aborts { count_by always_aborts (made_lines 7 2000) ≡ 199 }
    ensures snapshots { count_by is_snapshot (made_lines 7 2000) ≡ 200 }
{}
