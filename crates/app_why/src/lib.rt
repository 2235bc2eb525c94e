//! Why a job is not done: the first fault of its texts, its place, and what to do, told for people.
#![tactic(auto)]

mod bounds;
mod cut_notes;
mod entries;
mod finding;
mod foreign;
mod found;
mod items;
mod kinds;
mod lexical;
mod limits;
mod lines;
mod near;
mod network;
mod notes;
mod place;
mod plans;
mod refused;
mod runs;
mod shown;
mod slips;
mod syntax;
mod told;

pub use cut_notes::cut_note;
pub use finding::{Finding, why};
pub use foreign::{model_sign_hint, model_word_hint, near_degree_hint};
pub use lexical::called_word;
pub use near::nearest;
pub use place::{Place, line_from, place_at};
pub use shown::shown_in;
pub use slips::{Notation, Slip, is_power, program_slips, put_slip};
pub use told::{Named, Texts};
