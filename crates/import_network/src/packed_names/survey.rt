//! What a list of edges tells before it is kept.
ghost use Rattle.std.specs.Prelude.{◌≡◌, ◌+◌, ◌<◌, ◌^◌, length, Ok};
ghost use Rattle.import_formats.specs.edges.Edges.{and_then, edges_in};
ghost use Rattle.import_lines.specs.Texts.{told_from};
ghost use Rattle.import_network.specs.PackNaming.{loop_of, reading_of, sound_of};
ghost use Rattle.import_network.specs.NameSurveys.{survey_of};

use crate::packed_names::fault::NamesPackFault;
use crate::packed_names::options::read_edge;
use import_formats::edges::{EdgeFault, edge_lines};
use import_lines::{Edge, Lines};
use large_pack::{PackFault, PackOptions, SelfLoops};

/// What the edges of a text tell together.
#[derive(Clone, Copy)]
pub(crate) struct Survey {
    /// Whether there is none.
    is_empty: bool,
    /// The fault of the first self-loop that is refused.
    self_loop: Option<PackFault>,
}

/// The fault of an edge that joins a node with itself, where that is refused.
fn loop_of(self_loops: SelfLoops, edge: &Edge) -> Option<PackFault>
    ensures { result ≡ loop_of self_loops edge.now }
{
    if self_loops == SelfLoops::Refuse && edge.first() == edge.second() {
        return Some(PackFault::SelfLoop { line: edge.line() });
    }
    None
}

/// What the edges of the lines that are left tell together.
fn survey_lines(from: Lines<'_>, options: &PackOptions) -> Result<Survey, EdgeFault>
    requires room { from.passed + length from.bytes.now < 2 ^ 64 }
    ensures { result ≡ and_then (edges_in (reading_of options.now) (told_from (from.entry.passed + 1) from.entry.bytes.now)) (λ es. Ok (survey_of options.now.self_loops es)) }
{
    let mut lines = from;
    let mut survey = Survey {
        is_empty: true,
        self_loop: None,
    };
    while let Some((number, line)) = lines.next_told() {
        let edge = read_edge(number, line, options)?;
        survey = Survey {
            is_empty: false,
            self_loop: survey.self_loop.or(loop_of(options.self_loops, &edge)),
        };
    }
    Ok(survey)
}

/// What is wrong with a list of edges, where that needs no memory to be seen.
pub(crate) fn check_edges(text: &[u8], options: &PackOptions) -> Result<(), NamesPackFault>
    ensures { result ≡ and_then (sound_of options.now text.now) (λ _. Ok tt) }
{
    let survey = survey_lines(edge_lines(text, options.header), options)?;
    if survey.is_empty {
        return Err(NamesPackFault::Edges(PackFault::NoNode));
    }
    match survey.self_loop {
        Some(fault) => Err(NamesPackFault::from(fault)),
        None => Ok(()),
    }
}
