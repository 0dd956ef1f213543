//! The definitions at work on examples, each fact the contract of a function that does nothing.
ghost use Rattle.std.specs.Prelude.{◌≡◌, [], ◌∷◌, ◌++◌, Some, length, ◌+◌, true, codes, pos};
ghost use Rattle.std.specs.List.{list_any};
ghost use Rattle.ov_base.specs.Version.{number};
ghost use Rattle.ov_base.specs.declared.value.Value.TheVariants.{Number, Absent};
ghost use Rattle.ov_functor.specs.Execution.{empty};
ghost use Rattle.ov_functor.specs.Items.{items_of};
ghost use Rattle.ov_functor.specs.Values.{evaluated};
ghost use Rattle.ov_functor.specs.declared.reply.Reply.TheVariants.{Done, Aborted, Snap};
ghost use Rattle.ov_functor.specs.Unions.{backwards};
ghost use Rattle.ov_topology.specs.declared.actor.Actor.TheVariants.{Gate, Node, Settler};
ghost use Rattle.ov_topology.specs.declared.mode.Mode.TheVariants.{Quorum, One};
ghost use Rattle.ov_event.specs.declared.entry.Entry as entries;
ghost use Rattle.ov_event.specs.declared.kind.Kind.TheVariants.{Began, Stored, Published, Asked, Answered, Taken, Settled};
ghost use Rattle.ov_event.specs.declared.start.Start.TheVariants.{Draw};
ghost use Rattle.ov_history.specs.Past.{at};
ghost use Rattle.ov_history.specs.May.{Lawful};
ghost use Rattle.ov_history.specs.Settlers.{harvest};
ghost use Rattle.ov_history.specs.Serial.{InWindow};
ghost use Rattle.ov_follow.specs.Lines.{drive};
ghost use Rattle.ov_follow.specs.Calm.{calm};
ghost use Rattle.ov_follow.specs.Expected.{IsExpected};
ghost use Rattle.ov_follow.specs.Whole.{IsWhole};
ghost use Rattle.ov_follow.specs.First.{setting, journal};
ghost use Rattle.ov_follow.specs.Kinds.{has_all_kinds};
ghost use Rattle.ov_follow.specs.Worlds.{letter, triple, with, minus, numbers, begins_at, told, to, three_centres, two_gateways};
ghost use Rattle.ov_follow.specs.Schedules.{short_move, put_by_one, heard_one, heard_both, put_in_three, repeated, gathered, settled_by_quorum, settled_by_one, too_few, replaced, item_x, no_command, late, waiting, too_early, settler_stops, put_beside_none, transfers, two_snaps, put_and_snap, unheard, one_put, early_mark, gateway_stops, node_stops, asks_and_stops, put_x7, put_x5, put_a3, move_a_b2, get_beside_add, whole_move, full_key, empty_keys, two_puts, greatest_clock, put_beside_snap, heard_not_settled, replied_again};

/// A put and a get: calm rounds over an empty history give the whole journal, entry by entry.
pub fn put_and_get()
    ensures { calm setting [] ≡ journal }
{}

/// A move that does not hold: its transaction is aborted whole, and the get shows that nothing of it was written. Each reply is the
/// expected one.
pub fn move_that_does_not_hold()
    ensures replies { told (calm short_move []) ≡ to 0 1 (Done (number 1 0) []) ∷ to 0 2 (Aborted (number 2 0) []) ∷ to 0 3 (Done (number 3 0) (with (codes "a") (Number (pos 10)) ∷ with (codes "b") Absent ∷ with (codes "y") Absent ∷ [])) ∷ [] }
    ensures aborted { IsExpected short_move.roster (calm short_move []) 0 2 (Aborted (number 2 0) []) }
    ensures shown { IsExpected short_move.roster (calm short_move []) 0 3 (Done (number 3 0) (with (codes "a") (Number (pos 10)) ∷ with (codes "b") Absent ∷ with (codes "y") Absent ∷ [])) }
{}

/// A gateway that was not heard holds the watermark at 0, so the settler has nothing to ask for.
pub fn gateway_not_heard()
    ensures lines { numbers put_by_one [] heard_one ≡ 1 ∷ 2 ∷ 3 ∷ 4 ∷ 5 ∷ 0 ∷ [] }
    ensures draws { at (drive put_by_one [] heard_one) 1 ≡ Some (record { actor = Gate 0; kind = Began 0 1 (Draw (number 100 0) put_x7) }) }
    ensures marks { at (drive put_by_one [] heard_one) 4 ≡ Some (record { actor = Gate 0; kind = Published 101 (triple (number 101 0) (number 101 0) (number 100 0) ∷ triple 0 0 0 ∷ []) }) }
{}

/// When both gateways are heard, the settler asks up to the lesser mark; its window is empty, and the command waits for calm rounds.
pub fn both_gateways_heard()
    ensures lines { numbers put_by_one [] heard_both ≡ 1 ∷ 2 ∷ 3 ∷ 4 ∷ 5 ∷ 0 ∷ 6 ∷ 7 ∷ 8 ∷ 9 ∷ 10 ∷ 11 ∷ 0 ∷ [] }
    ensures asks { at (drive put_by_one [] heard_both) 8 ≡ Some (record { actor = Settler 0; kind = Asked 1 Quorum 0 (number 50 1) }) }
    ensures answers { at (drive put_by_one [] heard_both) 9 ≡ Some (record { actor = Node 0 0; kind = Answered (letter 8 1) 0 1 [] }) }
    ensures settles { at (drive put_by_one [] heard_both) 11 ≡ Some (record { actor = Settler 0; kind = Settled [] }) }
    ensures calm { length (calm put_by_one (drive put_by_one [] heard_both)) ≡ 29 }
    ensures replies { told (calm put_by_one (drive put_by_one [] heard_both)) ≡ to 0 1 (Done (number 100 0) []) ∷ [] }
{}

/// An acknowledgement that is taken twice counts once: the marks stay at the version that only one node has.
pub fn repeats_count_once()
    ensures lines { numbers put_in_three [] repeated ≡ 1 ∷ 2 ∷ 3 ∷ 4 ∷ 5 ∷ 6 ∷ 7 ∷ [] }
    ensures marks { at (drive put_in_three [] repeated) 7 ≡ Some (record { actor = Gate 0; kind = Published 11 (triple (number 10 0) (number 10 0) (number 10 0) ∷ []) }) }
    ensures replies { told (calm put_in_three (drive put_in_three [] repeated)) ≡ to 0 1 (Done (number 10 0) []) ∷ [] }
{}

/// A vector that comes late lowers nothing.
pub fn late_vector_lowers_nothing()
    ensures lines { numbers no_command [] late ≡ 1 ∷ 2 ∷ 3 ∷ 4 ∷ 5 ∷ [] }
    ensures asks { at (drive no_command [] late) 5 ≡ Some (record { actor = Settler 0; kind = Asked 1 Quorum 0 (number 9 0) }) }
    ensures replies { told (calm no_command (drive no_command [] late)) ≡ [] }
{}

/// A quorum round in which one of two answers has no item: the harvest is the window all the same.
pub fn quorum_round_with_an_empty_answer()
    ensures lines { numbers put_in_three [] settled_by_quorum ≡ 1 ∷ 2 ∷ 3 ∷ 4 ∷ 5 ∷ 6 ∷ 7 ∷ 8 ∷ 9 ∷ 10 ∷ 11 ∷ 12 ∷ 13 ∷ [] }
    ensures marks { at (drive put_in_three [] settled_by_quorum) 6 ≡ Some (record { actor = Gate 0; kind = Published 11 (triple (number 11 0) (number 10 0) (number 10 0) ∷ []) }) }
    ensures asks { at (drive put_in_three [] settled_by_quorum) 8 ≡ Some (record { actor = Settler 2; kind = Asked 1 Quorum 0 (number 11 0) }) }
    ensures empty { at (drive put_in_three [] settled_by_quorum) 10 ≡ Some (record { actor = Node 2 0; kind = Answered (letter 8 1) 2 1 [] }) }
    ensures harvest { harvest 2 1 (drive put_in_three [] gathered) ≡ item_x ∷ [] }
    ensures window { InWindow (drive put_in_three [] gathered) 0 (number 11 0) item_x }
    ensures settles { at (drive put_in_three [] settled_by_quorum) 13 ≡ Some (record { actor = Settler 2; kind = Settled (record { version = number 10 0; key = codes "x"; value = Number (pos 1) } ∷ []) }) }
    ensures calm { length (calm put_in_three (drive put_in_three [] settled_by_quorum)) ≡ 41 }
    ensures replies { told (calm put_in_three (drive put_in_three [] settled_by_quorum)) ≡ to 0 1 (Done (number 10 0) []) ∷ [] }
{}

/// Rounds of mode `one` go only as far as all nodes hold what is below: the first asks up to the version that one node lacks and
/// settles nothing, the second goes on from there.
pub fn two_rounds_of_one_centre()
    ensures lines { numbers put_in_three [] settled_by_one ≡ 1 ∷ 2 ∷ 3 ∷ 4 ∷ 5 ∷ 6 ∷ 7 ∷ 8 ∷ 9 ∷ 10 ∷ 11 ∷ 12 ∷ 13 ∷ 14 ∷ 15 ∷ 16 ∷ 17 ∷ 18 ∷ 19 ∷ [] }
    ensures first { at (drive put_in_three [] settled_by_one) 8 ≡ Some (record { actor = Settler 2; kind = Asked 1 One 0 (number 10 0) }) }
    ensures nothing { at (drive put_in_three [] settled_by_one) 11 ≡ Some (record { actor = Settler 2; kind = Settled [] }) }
    ensures marks { at (drive put_in_three [] settled_by_one) 14 ≡ Some (record { actor = Gate 0; kind = Published 11 (triple (number 11 0) (number 11 0) (number 10 0) ∷ []) }) }
    ensures second { at (drive put_in_three [] settled_by_one) 16 ≡ Some (record { actor = Settler 2; kind = Asked 2 One (number 10 0) (number 11 0) }) }
    ensures settles { at (drive put_in_three [] settled_by_one) 19 ≡ Some (record { actor = Settler 2; kind = Settled (record { version = number 10 0; key = codes "x"; value = Number (pos 1) } ∷ []) }) }
{}

/// A quorum round is not settled with one answer too few.
pub fn one_answer_too_few()
    ensures { numbers put_in_three [] too_few ≡ 1 ∷ 2 ∷ 3 ∷ 4 ∷ 5 ∷ 6 ∷ 7 ∷ 8 ∷ 9 ∷ 10 ∷ 0 ∷ [] }
{}

/// An answer to a round that was replaced is not taken.
pub fn answer_of_a_replaced_round()
    ensures lines { numbers put_in_three [] replaced ≡ 1 ∷ 2 ∷ 3 ∷ 4 ∷ 5 ∷ 6 ∷ 7 ∷ 8 ∷ 9 ∷ 10 ∷ 11 ∷ 12 ∷ 0 ∷ [] }
    ensures asks { at (drive put_in_three [] replaced) 12 ≡ Some (record { actor = Settler 2; kind = Asked 2 Quorum 0 (number 20 0) }) }
{}

/// A command that waits for another gateway's begins after that one is told to be replied, and shows what it wrote.
pub fn begin_after_a_reply_elsewhere()
    ensures lines { numbers waiting [] too_early ≡ 1 ∷ 0 ∷ 0 ∷ [] }
    ensures replies { told (calm waiting (drive waiting [] too_early)) ≡ to 0 1 (Done (number 100 0) []) ∷ to 1 1 (Done (number 101 1) (with (codes "x") (Number (pos 7)) ∷ [])) ∷ [] }
    ensures calm { told (calm waiting []) ≡ to 0 1 (Done (number 1 0) []) ∷ to 1 1 (Done (number 2 1) (with (codes "x") (Number (pos 7)) ∷ [])) ∷ [] }
{}

/// A lawful history with entries of all thirteen kinds: the command that waits is replied, and then the settler stops. So no condition
/// on an entry is too strong to be met.
pub fn example_is_lawful()
    ensures lawful { Lawful waiting (drive waiting (calm waiting []) settler_stops) }
    ensures kinds { has_all_kinds (drive waiting (calm waiting []) settler_stops) ≡ true }
{}

/// A stopped gateway holds the watermark for ever, and the world is not whole; one stopped node of three does no harm.
pub fn stopped_actors()
    ensures entries { length (calm put_beside_none (drive put_beside_none [] gateway_stops)) ≡ 8 }
    ensures waits { told (calm put_beside_none (drive put_beside_none [] gateway_stops)) ≡ [] }
    ensures broken { IsWhole two_gateways (calm put_beside_none (drive put_beside_none [] gateway_stops)) → ⊥ }
    ensures replies { told (calm put_in_three (drive put_in_three [] node_stops)) ≡ to 0 1 (Done (number 1 0) []) ∷ [] }
    ensures whole { IsWhole three_centres (calm put_in_three (drive put_in_three [] node_stops)) }
{}

/// The open round of a stopped settler is not served: a calm round begins the command, stores it, acknowledges it and publishes twice.
pub fn round_of_a_stopped_settler()
    ensures lines { numbers one_put [] asks_and_stops ≡ 1 ∷ 2 ∷ 3 ∷ 4 ∷ [] }
    ensures calm { length (calm one_put (drive one_put [] asks_and_stops)) ≡ 9 }
{}

/// Transfers of three gateways over four partitions and three centres: all are done, and the last get shows their sum.
pub fn transfers_of_three_gateways()
    ensures { told (calm transfers []) ≡ to 0 1 (Done (number 1 0) []) ∷ to 1 1 (Done (number 2 0) []) ∷ to 2 1 (Done (number 2 1) []) ∷ to 3 1 (Done (number 2 2) []) ∷ to 0 2 (Done (number 3 0) (with (codes "p") (Number (pos 80)) ∷ with (codes "q") (Number (pos 110)) ∷ with (codes "r") (Number (pos 110)) ∷ [])) ∷ [] }
{}

/// Snapshots of one session: the first watermark equals the version that it does not show, the second shows it. Each is expected.
pub fn snapshots_of_one_session()
    ensures replies { told (calm two_snaps []) ≡ to 0 1 (Snap (number 1 0) (with (codes "x") Absent ∷ [])) ∷ to 0 2 (Done (number 1 0) []) ∷ to 0 3 (Snap (number 2 0) (with (codes "x") (Number (pos 5)) ∷ with (codes "y") Absent ∷ [])) ∷ [] }
    ensures first { IsExpected two_snaps.roster (calm two_snaps []) 0 1 (Snap (number 1 0) (with (codes "x") Absent ∷ [])) }
    ensures last { IsExpected two_snaps.roster (calm two_snaps []) 0 3 (Snap (number 2 0) (with (codes "x") (Number (pos 5)) ∷ with (codes "y") Absent ∷ [])) }
{}

/// A snapshot is answered before its settler has heard anything: at watermark 0, where every key is absent.
pub fn snapshot_before_anything_is_heard()
    ensures lines { numbers put_and_snap [] unheard ≡ 1 ∷ 2 ∷ 3 ∷ [] }
    ensures shown { told (drive put_and_snap [] unheard) ≡ to 1 1 (Snap 0 (with (codes "x") Absent ∷ [])) ∷ [] }
    ensures replies { told (calm put_and_snap (drive put_and_snap [] unheard)) ≡ to 1 1 (Snap 0 (with (codes "x") Absent ∷ [])) ∷ to 0 1 (Done (number 1 0) []) ∷ [] }
{}

/// A mark that is published before the first draw: the draw is not below it.
pub fn mark_before_the_first_draw()
    ensures lines { numbers one_put [] early_mark ≡ 1 ∷ 2 ∷ 3 ∷ [] }
    ensures first { at (drive one_put [] early_mark) 1 ≡ Some (record { actor = Gate 0; kind = Published 3 (triple (number 3 0) (number 3 0) (number 3 0) ∷ []) }) }
    ensures draws { at (drive one_put [] early_mark) 2 ≡ Some (record { actor = Gate 0; kind = Began 0 1 (Draw (number 3 0) put_x5) }) }
    ensures second { at (drive one_put [] early_mark) 3 ≡ Some (record { actor = Gate 0; kind = Published 4 (triple (number 3 0) (number 3 0) (number 3 0) ∷ []) }) }
{}

/// The plan of a put of `a` and of a later move from `a` to `b`, by version and then key: what each item gives is computed from the
/// values just below its version.
pub fn plan_of_a_put_and_a_move()
    ensures { backwards (evaluated empty (backwards (items_of (number 1 0) put_a3 ++ items_of (number 2 0) move_a_b2))) ≡ record { version = number 1 0; key = codes "a"; value = Number (pos 3) } ∷ record { version = number 2 0; key = codes "a"; value = Number (pos 1) } ∷ record { version = number 2 0; key = codes "b"; value = Number (pos 2) } ∷ [] }
{}

/// A get beside an add to the same key shows the value before the transaction.
pub fn get_beside_an_add()
    ensures { told (calm get_beside_add []) ≡ to 0 1 (Done (number 1 0) (with (codes "x") Absent ∷ [])) ∷ to 0 2 (Done (number 2 0) (with (codes "x") (Number (pos 3)) ∷ [])) ∷ [] }
{}

/// A move that holds takes from one key what it gives to the other.
pub fn move_that_holds()
    ensures { told (calm whole_move []) ≡ to 0 1 (Done (number 1 0) []) ∷ to 0 2 (Done (number 2 0) []) ∷ to 0 3 (Done (number 3 0) (with (codes "a") (Number (pos 0)) ∷ with (codes "b") (Number (pos 10)) ∷ [])) ∷ [] }
{}

/// The bounds of amounts: a move never stops at the greatest one, an add does; and an add stops at the least one.
pub fn bounds_of_amounts()
    ensures greatest { told (calm full_key []) ≡ to 0 1 (Done (number 1 0) []) ∷ to 0 2 (Aborted (number 2 0) []) ∷ to 0 3 (Done (number 3 0) []) ∷ to 0 4 (Done (number 4 0) (with (codes "a") (Number (pos 5)) ∷ with (codes "b") (Number (pos 1000000000000000000)) ∷ [])) ∷ [] }
    ensures least { told (calm empty_keys []) ≡ to 0 1 (Done (number 1 0) []) ∷ to 0 2 (Done (number 2 0) []) ∷ to 0 3 (Done (number 3 0) (with (codes "c") Absent ∷ with (codes "d") (Number (minus 2)) ∷ with (codes "e") (Number (minus 1000000000000000000)) ∷ [])) ∷ [] }
{}

/// The greatest reading of a clock counts as `2 ^ 46`, and the next version is one later.
pub fn greatest_reading_of_a_clock()
    ensures { told (calm two_puts (drive two_puts [] greatest_clock)) ≡ to 0 1 (Done (number 70368744177664 0) []) ∷ to 0 2 (Done (number 70368744177665 0) []) ∷ [] }
{}

/// A snapshot shows what its settler has settled, and not what it has only heard of.
pub fn snapshot_before_settling()
    ensures lines { numbers put_beside_snap [] heard_not_settled ≡ 1 ∷ 2 ∷ 3 ∷ 4 ∷ 5 ∷ 6 ∷ 7 ∷ 8 ∷ [] }
    ensures shown { told (drive put_beside_snap [] heard_not_settled) ≡ to 1 1 (Snap 0 (with (codes "x") Absent ∷ [])) ∷ [] }
{}

/// A command is replied once, however often its result is computed and taken.
pub fn replied_once()
    ensures lines { numbers one_put [] replied_again ≡ 1 ∷ 2 ∷ 3 ∷ 4 ∷ 5 ∷ 6 ∷ 7 ∷ 8 ∷ 9 ∷ 10 ∷ 11 ∷ 12 ∷ 0 ∷ 0 ∷ [] }
    ensures replies { told (drive one_put [] replied_again) ≡ to 0 1 (Done (number 1 0) []) ∷ [] }
{}

/// The floor of a snapshot after a reply at version 1.0 is the number above it.
pub fn floor_above_a_reply()
    ensures { list_any (λ (e : entries.Entry). begins_at (number 1 0 + 1) e.kind) (calm two_snaps []) ≡ true }
{}
