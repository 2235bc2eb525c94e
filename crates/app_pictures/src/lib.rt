//! The commands that draw: images, pages and drawings for Graphviz.
#![tactic(auto)]

mod colour_notes;
mod colours;
mod drawing_request;
mod grid;
mod page;
mod page_names;
mod page_request;
mod page_size;
mod picture;
mod picture_files;

pub use drawing_request::{DotRequest, ImageRequest, dot_command, image_command};
pub use page::make_page;
pub use page_request::{PageRequest, PageRun, PageView, page_command};
pub use picture::{make_dot, make_image};
