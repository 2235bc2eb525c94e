//! What the programs for people share: files and standard input, standard output, how a program ends, fields by their
//! names, nodes that are drawn or listed, and how it is told that rounds settle.
#![tactic(auto)]

mod command_line;
mod constants;
mod draws;
mod ending;
mod fields;
mod files;
mod lines;
mod model_hints;
mod model_notes;
mod model_told;
mod networks;
mod node_calls;
mod output;
mod programs;
mod settling;
mod texts;
mod told;
mod usage;
mod values;

pub use command_line::words_of;
pub use constants::{ConstantValue, ConstantWord, given_constants};
pub use draws::{drawn_for, drawn_parts, next_draw};
pub use ending::{Ending, refused};
pub use fields::{all_fields, coloured_field, field_place, shown_fields, value_named};
pub use files::{
    Text, bytes_at, bytes_where, name_at, path_in, read_once, text_at, text_where, unserved,
};
pub use lines::{put_note, put_place, weight_told, words_told};
pub use model_notes::{model_slips, slips_in};
pub use model_told::{ModelRefusal, refusal_of};
pub use networks::{
    PackedNetwork, file_at, file_of, is_packed, network_at, network_where, packed_of, packed_with,
};
pub use node_calls::{NodeCalls, list_path, listed_nodes};
pub use output::{check_new, make_folder, print_out, write_file, write_new, write_out};
pub use programs::{
    NamedProgram, check_constants, check_model, expanded_by, expanded_text, is_model,
    named_program_at, names_of_field, program_at, program_name, state_names,
};
pub use settling::{not_settled, settled_round, settling_line};
pub use texts::{Told, edges_told, heading_told, matrix_told, on_line, put_matrix_detail};
pub use told::{print_ending, print_fault};
pub use values::{VALUE_WORDS, ValueWord, begins_with_letter, number_or_none};
