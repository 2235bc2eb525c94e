//! The data of a page that shows a run, as JSON, and its place in the viewer's file.
#![tactic(auto)]

mod embed;
mod fault;
mod head;
mod links;
mod look;
mod naive;
mod parts;
mod refusals;
mod rounds;
mod settled;
mod states;
mod steps;
mod text;

pub use embed::{EmbedFault, MARK, embedded};
pub use fault::PageFault;
pub use look::{Look, MOST_VALUES, PageRounds};
pub use naive::naive_data;
pub use rounds::rounds_data;
pub use steps::steps_data;
