//! Random networks, as network files and of any size, and random weights of links. The same seed gives the same network on every machine.
#![tactic(auto)]

mod block;
mod bounds;
mod chance;
mod changed;
mod choice;
mod draw;
mod fault;
mod growth;
mod large;
mod lattice;
mod laws;
mod listed;
mod pair_chance;
mod pairs;
mod random_network;
mod sizes;
mod text;
mod trial_check;
mod trials;
mod weight_draw;
mod weight_fault;
mod weight_file;

pub use block::{block_list, block_text, block_total};
pub use bounds::NetworkBounds;
pub use chance::{chance_list, chance_text};
pub use draw::{drawn, drawn_links};
pub use fault::RandomFault;
pub use large::{large_block, large_chance, large_random, large_random_refusal};
pub use laws::each_pair_has_one_place;
pub use pair_chance::BlockChances;
pub use random_network::RandomNetwork;
pub use text::drawn_text;
pub use weight_draw::{WeightDraw, weighted};
pub use weight_fault::WeightFault;
pub use weight_file::weighted_text;
