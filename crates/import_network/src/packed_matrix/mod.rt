//! Matrix Market files packed into networks of any size that memory holds.

mod edges;
mod fault;
mod options;
mod pack;

pub use fault::MatrixPackFault;
pub use options::MatrixOptions;
pub use pack::pack_matrix;
