//! The laws of lawful histories: which watermarks are final, what a settler gathers, what settled values and replies show, the
//! order of sessions, how far times go, and what gateways and settlers may rely on in letters. No actor stands on this
//! crate, so no edit here has them proved again.
//!
//! The promise to the layers above: `right_replies`. In every lawful history each reply shows what executing all begun transactions
//! one at a time in version order gives.
//!
//! Start with `src/laws/values.rt` and `specs/Replies.antt`, which says what a reply must show.
#![tactic(auto)]

mod laws;

pub use laws::{
    bounded_times, drawn_once, final_stays, final_watermark, growing_marks, harvest_list,
    harvest_window, order, right_replies, serial_fold_of_history, session_order, settled_values,
    sound_answers, sound_letters,
};
