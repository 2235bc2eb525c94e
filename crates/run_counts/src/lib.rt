//! How many nodes have each value of a field, round by round, with sums and extremes, as CSV or JSON: of a run, or of several
//! with their means.
#![tactic(auto)]

mod asked;
mod columns;
mod counting;
mod ensemble;
mod figures;
mod laws;
mod lines;
mod mean_columns;
mod mean_table;
mod quantiles;
mod rows;
mod run_table;
mod runs;
mod settings;
mod spread;
mod table;
mod together;
mod values;
mod wide;

pub use asked::{CountFormat, Counting, Figure, FigureKind, Holders, Until};
pub use counting::counted;
pub use ensemble::{Ensemble, Group, Setting, SettingValue, Variant};
pub use laws::{cells_are_counts, csv_is_read_back, means_are_nearest};
pub use rows::counted_rows;
pub use runs::RunsProgress;
pub use table::Row;
pub use together::{MOST_RUNS, counted_runs, mean_counts};
pub use values::{count_in, values_of};
