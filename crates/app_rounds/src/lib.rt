//! The commands that make rounds, and what is made of their reports.
#![tactic(auto)]

mod cells_request;
mod columns;
mod count;
mod count_request;
mod count_runs;
mod counts;
mod csv_request;
mod csv_text;
mod cuts;
mod cuts_request;
mod large;
mod large_request;
mod large_watch;
mod lockstep_request;
mod quantiles;
mod report_cells;
mod round_report;
mod runs_telling;
mod settle;
mod settle_request;
mod shown_rounds;
mod sweep;
mod varied;
mod watch;
mod watch_request;
mod window;

pub use cells_request::{CellsFormat, CellsRequest, cells_command};
pub use count::count_rounds;
pub use count_request::{CountRequest, FigureWord, RunsWords, UntilWord, count_command};
pub use csv_request::{CsvRequest, csv_command};
pub use csv_text::print_csv;
pub use cuts::tell_cuts;
pub use cuts_request::{CutsFormat, CutsRequest, cuts_command};
pub use large::run_large;
pub use large_request::{ColumnFormat, LargeRequest, RoundsView, large_command};
pub use lockstep_request::{LockstepRequest, StatesFormat, StatesView, lockstep_command};
pub use report_cells::print_cells;
pub use round_report::report_round;
pub use settle::settle_rounds;
pub use settle_request::{SettleRequest, settle_command};
pub use sweep::Sweep;
pub use varied::Varied;
pub use watch::watch_rounds;
pub use watch_request::{View, WatchRequest, watch_command};
pub use window::Window;
