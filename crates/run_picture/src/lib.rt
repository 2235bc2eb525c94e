//! Pictures of the rounds of a plan and of its network, at rest and moving, and curves of their counts as SVG, and the
//! network for Graphviz.
#![tactic(auto)]

mod animation;
mod axes;
mod changes;
mod chosen;
mod circles;
mod colour;
mod curve_picture;
mod curves;
mod drawing;
mod each_round;
mod fault;
mod film;
mod graph;
mod key;
mod laws;
mod legend;
mod links;
mod moving;
mod net_rounds;
mod net_sheet;
mod network;
mod picture;
mod places;
mod sheet;
mod strokes;
mod styles;
mod values;

pub use animation::{MOST_FRAMES, moving_picture};
pub use chosen::{CellShape, Colour, ValueColour};
pub use colour::is_in_palette;
pub use curve_picture::{MOST_CURVES, MOST_POINTS, count_picture};
pub use drawing::{Colouring, Drawing, MovingGrid};
pub use each_round::{Layout, MOST_STROKES, round_pictures};
pub use fault::PictureFault;
pub use laws::{
    each_axis_has_its_ticks, each_cell_has_its_place, each_frame_has_its_colours,
    each_link_has_its_line, each_link_is_drawn_once, each_picture_has_one_key,
    each_round_has_its_point, same_class_same_value, steps_are_even,
};
pub use net_rounds::network_picture;
pub use network::network_dot;
pub use picture::{MOST_CELLS, grid_picture, time_picture};
pub use styles::{MOST_COLOURS, StylesFault, ValueStyles};
