//! Networks of well-known shapes, as network files and of any size.
#![tactic(auto)]

mod fault;
mod large;
mod maker;
mod shape;
mod sizes;
mod text;

pub use fault::ShapeFault;
pub use large::{LargeShapeFault, large_refusal, large_shape};
pub use maker::links_of;
pub use shape::Shape;
pub use text::made_text;
