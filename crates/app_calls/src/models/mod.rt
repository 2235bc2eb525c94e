//! The call for C on models, as it works on slices: from the text of a model, and constants that the caller sets, to the
//! text of its program in the caller's memory, with no state and no threads.

mod constants;
mod expansion;
mod fault;
mod law;

pub use expansion::write_expansion;
pub use fault::{ConstantsFault, ModelCallFault};
pub use law::one_setting;
