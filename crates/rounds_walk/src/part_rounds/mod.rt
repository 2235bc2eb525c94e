//! Rounds of a part of a network: for engines of other people, which split a network and keep the states themselves.

mod fault;
mod laws;
mod next;
mod round;
mod states;

pub use fault::PartFault;
pub use laws::parts_make_the_round;
pub use round::part_round;
pub use states::{put_state, put_words, state_of, state_rows};
