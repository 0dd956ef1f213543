//! The laws of lawful histories by subject, each the contract of a function that does nothing.
mod letters;
mod sessions;
mod times;
mod values;
mod watermarks;
mod windows;

pub use letters::{sound_answers, sound_letters};
pub use sessions::session_order;
pub use times::{bounded_times, drawn_once};
pub use values::{order, right_replies, serial_fold_of_history, settled_values};
pub use watermarks::{final_stays, final_watermark, growing_marks};
pub use windows::{harvest_list, harvest_window};
