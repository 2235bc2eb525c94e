//! Networks of well-known shapes, of any size that memory holds.

mod axis;
mod fault;
mod frame;
mod hypercube;
mod listed;
mod near;
mod neighbours;
mod network;
mod put;
mod sizes;
mod slant;
mod spot;

pub use fault::LargeShapeFault;
pub use network::large_shape;
pub use sizes::large_refusal;
