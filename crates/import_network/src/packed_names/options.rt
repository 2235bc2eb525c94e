//! How edges between named nodes are packed.
ghost use Rattle.std.specs.Prelude.{◌≡◌, IfOk};
ghost use Rattle.import_formats.specs.edges.Edges.{edge_of};
ghost use Rattle.import_network.specs.PackNaming.{named_options, reading_of};

use import_formats::edges::{EdgeFault, Reading, read_line};
use import_lines::Edge;
use large_pack::PackOptions;

/// These options, for so many nodes.
pub(crate) fn named_options(options: &PackOptions, nodes: u32) -> PackOptions
    ensures { result ≡ named_options options.now nodes }
{
    PackOptions {
        nodes: Some(nodes),
        ..*options
    }
}

/// How the lines of a list of edges are read by these options: all words of a line are meant, and any number of blanks,
/// tabs and commas part two of them.
fn lines_reading(options: &PackOptions) -> Reading
    ensures { result ≡ reading_of options.now }
{
    Reading {
        header: options.header,
        columns: None,
        gaps: true,
        factor: options.factor,
    }
}

/// The edge that a line says, or what is wrong with it.
pub(crate) fn read_edge<'a>(
    number: u64,
    line: &'a [u8],
    options: &PackOptions,
) -> Result<Edge<'a>, EdgeFault>
    ensures edge { result ≡ edge_of (reading_of options.now) (number, line.now) }
    ensures line { IfOk result (λ edge. edge.line ≡ number) }
{
    let reading = lines_reading(options);
    read_line(number, line, &reading)
}
