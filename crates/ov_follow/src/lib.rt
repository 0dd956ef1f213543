//! What a schedule's lines and calm rounds do to a history, what the reply to a command of the script must show, and when a world is
//! whole: definitions, for the crates that run whole worlds.
//!
//! The promise to the layers above: the definitions of `specs/`, which compute, as `src/examples.rt` shows, and what they make is
//! lawful (`src/laws.rt`). Each fact is the contract of a public function that does nothing.
//!
//! Start with `specs/Lines.antt` and `specs/Calm.antt`.
#![tactic(auto)]

mod examples;
mod laws;

pub use examples::{
    answer_of_a_replaced_round, begin_after_a_reply_elsewhere, both_gateways_heard,
    bounds_of_amounts, example_is_lawful, floor_above_a_reply, gateway_not_heard,
    get_beside_an_add, greatest_reading_of_a_clock, late_vector_lowers_nothing,
    mark_before_the_first_draw, move_that_does_not_hold, move_that_holds, one_answer_too_few,
    plan_of_a_put_and_a_move, put_and_get, quorum_round_with_an_empty_answer, repeats_count_once,
    replied_once, round_of_a_stopped_settler, snapshot_before_anything_is_heard,
    snapshot_before_settling, snapshots_of_one_session, stopped_actors,
    transfers_of_three_gateways, two_rounds_of_one_centre,
};
pub use laws::{calm_has_rounds_enough, what_is_followed_is_lawful};
