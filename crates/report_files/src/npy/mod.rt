//! Arrays of numbers in NumPy's files, read and written.

mod element;
mod fault;
mod front;
mod header;
mod reader;
mod shape;
mod write_fault;
mod writer;

pub use fault::NpyFault;
pub use reader::read_npy;
pub use shape::ArrayShape;
pub use write_fault::WriteFault;
pub use writer::npy_bytes;
