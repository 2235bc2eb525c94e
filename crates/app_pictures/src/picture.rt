//! `image PROGRAM NETWORK` and `dot PROGRAM NETWORK`: rounds as pictures, and networks for Graphviz.

use crate::colour_notes::put_colour_notes;
use crate::colours::{ColourWord, ColouredField, colours_for};
use crate::drawing_request::{DotRequest, ImageRequest};
use crate::grid::{cell_shape, grid_width};
use crate::picture_files::RoundFiles;
use app_commands::{
    GridWidth, NamedPlan, Telling, asked_by, file_run_at, labels_at, named_plan_at, no_rounds,
    read_plan_once, read_run_once, source_at,
};
use app_files::{Ending, coloured_field, names_of_field, path_in, print_out};
use link_net::NetRows;
use rounds_plan::Plan;
use rounds_walk::PlanRef;
use rule_check::Program;
use run_picture::{
    CellShape, Colouring, Drawing, Layout, MOST_CELLS, MOST_CURVES, MOST_FRAMES, MOST_POINTS,
    MOST_STROKES, MovingGrid, PictureFault, StylesFault, ValueColour, ValueStyles, count_picture,
    grid_picture, moving_picture, network_dot, network_picture, round_pictures, time_picture,
};
use run_watch::{Format, WatchFault};
use std::alloc::Global;
use std::thread::Threads;

/// The ending where a picture has too many cells.
fn too_many_cells(alloc: Global) -> Ending {
    Ending::refused(format!(in alloc;
        "image TooManyCells\na picture has at most {MOST_CELLS} cells, one for each node in each round; --every K shows fewer rounds"
    ))
}

/// The ending where a picture that moves would have too many frames.
fn too_many_frames(alloc: Global) -> Ending {
    Ending::refused(format!(in alloc;
        "image TooManyFrames\na picture that moves has at most {MOST_FRAMES} frames, one for each round, and --frames writes no more files; --every K shows fewer rounds"
    ))
}

/// The ending where networks would be drawn with too many links in all.
fn too_many_links(alloc: Global) -> Ending {
    Ending::refused(format!(in alloc;
        "image TooManyLinks\nthe files of --frames have at most {MOST_STROKES} lines of links in all, one for each link in each round; --every K draws fewer rounds"
    ))
}

/// The ending where curves would have too many points.
fn too_many_points(alloc: Global) -> Ending {
    Ending::refused(format!(in alloc;
        "image TooManyPoints\na curve has at most {MOST_POINTS} points, one for each round; --every K shows fewer rounds"
    ))
}

/// The ending where there would be too many curves.
fn too_many_values(alloc: Global) -> Ending {
    Ending::refused(format!(in alloc;
        "image TooManyValues\nat most {MOST_CURVES} values have curves, and more occur in these rounds; unison count prints how many nodes have each"
    ))
}

/// The ending where one round alone would have curves.
fn one_round(alloc: Global) -> Ending {
    Ending::refused(String::from_str(
        alloc,
        "image OneRound\ncurves go over two rounds or more, as in --rounds 0..8",
    ))
}

/// The ending where there is no picture.
fn no_picture(alloc: Global, fault: PictureFault) -> Ending {
    match fault {
        PictureFault::TooManyRounds => no_rounds(WatchFault::TooManyRounds),
        PictureFault::RoundsBelowStart => no_rounds(WatchFault::RoundsBelowStart),
        PictureFault::TooManyCells => too_many_cells(alloc),
        PictureFault::TooManyFrames => too_many_frames(alloc),
        PictureFault::TooManyLinks => too_many_links(alloc),
        PictureFault::OneRound => one_round(alloc),
        PictureFault::TooManyPoints => too_many_points(alloc),
        PictureFault::TooManyValues => too_many_values(alloc),
        PictureFault::NoField { .. } | PictureFault::NoWidth | PictureFault::Memory => {
            Ending::Memory
        }
    }
}

/// How values are shown: by these names, and some in colours of their own.
fn styles_with<'a>(
    alloc: Global,
    names: &'a [String],
    colours: &[ValueColour],
    shape: CellShape,
) -> Result<ValueStyles<'a>, StylesFault> {
    let mut styles = ValueStyles::new(alloc, names, shape);
    for own in colours {
        styles.add(own.value, own.colour)?;
    }
    Ok(styles)
}

/// How the values of a field are shown, some in the colours that words give them, on which notes are printed. No value has
/// two, and no more values have colours than may, so that memory alone is wanting where there are none.
fn styles_for<'a>(
    rt: &HostRuntime,
    field: ColouredField<'a>,
    words: &[ColourWord],
    shape: CellShape,
) -> Result<ValueStyles<'a>, Ending> {
    let colours = colours_for(rt.alloc(), field, words)?;
    put_colour_notes(rt, &colours)?;
    match styles_with(rt.alloc(), field.values, &colours, shape) {
        Ok(styles) => Ok(styles),
        Err(_) => Err(Ending::Memory),
    }
}

/// The field that is named, or the only one, of a program the values of whose fields have these names.
fn field_for<'a>(
    alloc: Global,
    program: &'a Program,
    names: &'a [Vec<String>],
    word: &Option<String>,
) -> Result<ColouredField<'a>, Ending> {
    let place = coloured_field(alloc, program, word)?;
    Ok(ColouredField {
        place,
        name: program.field_name(place).unwrap_or(""),
        values: names_of_field(names, place),
    })
}

/// The shape of the cells of a picture: that of the grid on which the nodes stand by their links, where they are drawn as one.
fn shape_for(rows: &NetRows<'_>, asked: &ImageRequest) -> CellShape {
    match asked.grid {
        Some(GridWidth::Given(width)) => cell_shape(rows, width),
        _ => CellShape::Square,
    }
}

/// What is drawn: the rounds that are asked for, in the colours of a field.
fn drawing_of<'a>(asked: &'a ImageRequest, field: u32, styles: &'a ValueStyles<'a>) -> Drawing<'a> {
    Drawing {
        span: &asked.span,
        colouring: Colouring { field, styles },
    }
}

/// The picture of rounds one below the other, or the curves of their counts.
fn drawn_rounds(
    rt: &HostRuntime,
    threads: &(impl Threads + Sync),
    plan: &PlanRef<'_>,
    asked: &ImageRequest,
    drawing: &Drawing<'_>,
) -> Result<Vec<u8>, PictureFault> {
    let alloc = rt.alloc();
    let mut telling = Telling::new(rt, drawing.span, plan.nodes());
    if asked.counts {
        return count_picture(threads, alloc, plan, drawing, &mut telling);
    }
    time_picture(threads, alloc, plan, drawing, &mut telling)
}

/// The network in one round, or in each of several in turn.
fn drawn_network(
    rt: &HostRuntime,
    threads: &(impl Threads + Sync),
    plan: &Plan,
    asked: &ImageRequest,
    drawing: &Drawing<'_>,
) -> Result<Vec<u8>, PictureFault> {
    let alloc = rt.alloc();
    let time = asked.frame_time.unwrap_or(1);
    let mut telling = Telling::new(rt, drawing.span, plan.network().nodes());
    network_picture(threads, alloc, plan, drawing, time, &mut telling)
}

/// The grid of each of several rounds in turn.
fn drawn_grids(
    rt: &HostRuntime,
    threads: &(impl Threads + Sync),
    plan: &PlanRef<'_>,
    asked: &ImageRequest,
    drawing: &Drawing<'_>,
) -> Result<Vec<u8>, PictureFault> {
    let alloc = rt.alloc();
    let (width, time) = (GridWidth::number(asked.grid), asked.frame_time.unwrap_or(1));
    let grid = MovingGrid { width, time };
    let mut telling = Telling::new(rt, drawing.span, plan.nodes());
    moving_picture(threads, alloc, plan, drawing, grid, &mut telling)
}

/// The grid of one round, or of each of several in turn.
fn drawn_grid(
    rt: &HostRuntime,
    threads: &(impl Threads + Sync),
    plan: &PlanRef<'_>,
    asked: &ImageRequest,
    drawing: &Drawing<'_>,
) -> Result<Vec<u8>, PictureFault> {
    if asked.frame_time.is_some() {
        return drawn_grids(rt, threads, plan, asked, drawing);
    }
    let (round, width) = (drawing.span.first(), GridWidth::number(asked.grid));
    grid_picture(threads, rt.alloc(), plan, round, &drawing.colouring, width)
}

/// The picture of rounds, or of one of them or each in turn as a grid, or the curves of their counts.
fn drawn_cells(
    rt: &HostRuntime,
    threads: &(impl Threads + Sync),
    plan: &PlanRef<'_>,
    asked: &ImageRequest,
    drawing: &Drawing<'_>,
) -> Result<Vec<u8>, PictureFault> {
    if asked.grid.is_some() {
        return drawn_grid(rt, threads, plan, asked, drawing);
    }
    drawn_rounds(rt, threads, plan, asked, drawing)
}

/// A picture, where there is one.
fn picture_in(alloc: Global, drawn: Result<Vec<u8>, PictureFault>) -> Result<Vec<u8>, Ending> {
    match drawn {
        Ok(text) => Ok(text),
        Err(fault) => Err(no_picture(alloc, fault)),
    }
}

/// The picture of a run, coloured by a field.
fn styled_cells(
    rt: &HostRuntime,
    threads: &(impl Threads + Sync),
    plan: &PlanRef<'_>,
    asked: &ImageRequest,
    field: ColouredField<'_>,
) -> Result<Vec<u8>, Ending> {
    let shape = shape_for(&plan.rows(), asked);
    let styles = styles_for(rt, field, &asked.colours, shape)?;
    let drawing = drawing_of(asked, field.place, &styles);
    let drawn = drawn_cells(rt, threads, plan, asked, &drawing);
    picture_in(rt.alloc(), drawn)
}

/// The picture of a run.
fn cells_of(
    rt: &HostRuntime,
    threads: &(impl Threads + Sync),
    plan: &PlanRef<'_>,
    names: &[Vec<String>],
    asked: &ImageRequest,
) -> Result<Vec<u8>, Ending> {
    let field = field_for(rt.alloc(), plan.program(), names, &asked.field)?;
    styled_cells(rt, threads, plan, asked, field)
}

/// The picture of a plan's network, coloured by a field.
fn styled_network(
    rt: &HostRuntime,
    threads: &(impl Threads + Sync),
    named: &NamedPlan,
    asked: &ImageRequest,
    field: ColouredField<'_>,
) -> Result<Vec<u8>, Ending> {
    let styles = styles_for(rt, field, &asked.colours, CellShape::Square)?;
    let drawing = drawing_of(asked, field.place, &styles);
    let drawn = drawn_network(rt, threads, &named.plan, asked, &drawing);
    picture_in(rt.alloc(), drawn)
}

/// The picture of a plan's network.
fn network_picture_of(
    rt: &HostRuntime,
    threads: &(impl Threads + Sync),
    named: &NamedPlan,
    asked: &ImageRequest,
) -> Result<Vec<u8>, Ending> {
    let field = field_for(rt.alloc(), named.plan.program(), &named.names, &asked.field)?;
    styled_network(rt, threads, named, asked, field)
}

/// How the nodes of single rounds are drawn.
fn layout_of(asked: &ImageRequest) -> Layout {
    if asked.links {
        Layout::Network
    } else {
        Layout::Cells {
            width: GridWidth::number(asked.grid),
        }
    }
}

/// The pictures of all rounds, drawn so.
fn drawn_in_rounds(
    rt: &HostRuntime,
    threads: &(impl Threads + Sync),
    plan: &Plan,
    asked: &ImageRequest,
    drawing: &Drawing<'_>,
) -> Result<Vec<Vec<u8>>, Ending> {
    let (alloc, layout) = (rt.alloc(), layout_of(asked));
    let mut telling = Telling::new(rt, drawing.span, plan.network().nodes());
    match round_pictures(threads, alloc, plan, drawing, layout, &mut telling) {
        Ok(texts) => Ok(texts),
        Err(fault) => Err(no_picture(alloc, fault)),
    }
}

/// The pictures of all rounds, coloured by a field.
fn round_texts(
    rt: &HostRuntime,
    threads: &(impl Threads + Sync),
    named: &NamedPlan,
    asked: &ImageRequest,
    field: ColouredField<'_>,
) -> Result<Vec<Vec<u8>>, Ending> {
    let shape = shape_for(&named.plan.network().rows(), asked);
    let styles = styles_for(rt, field, &asked.colours, shape)?;
    let drawing = drawing_of(asked, field.place, &styles);
    drawn_in_rounds(rt, threads, &named.plan, asked, &drawing)
}

/// The files of the rounds that are asked for, in a folder.
fn files_in(rt: &HostRuntime, asked: &ImageRequest, folder: &str) -> Result<RoundFiles, Ending> {
    if u64::from(asked.span.steps()) >= MOST_FRAMES {
        return Err(too_many_frames(rt.alloc()));
    }
    RoundFiles::new(rt, folder, &asked.span)
}

/// Writes the picture of each round of a plan, coloured by a field, into its file. The status with which the program ends.
fn put_rounds(
    rt: &HostRuntime,
    threads: &(impl Threads + Sync),
    named: &NamedPlan,
    asked: &ImageRequest,
    field: ColouredField<'_>,
    files: &RoundFiles,
) -> Result<u8, Ending> {
    let texts = round_texts(rt, threads, named, asked, field)?;
    files.write(rt, &texts)
}

/// Writes the picture of each round of a plan, coloured by a field, into a file of a folder. The status with which the program
/// ends.
fn put_coloured(
    rt: &HostRuntime,
    threads: &(impl Threads + Sync),
    named: &NamedPlan,
    asked: &ImageRequest,
    field: ColouredField<'_>,
    folder: &str,
) -> Result<u8, Ending> {
    let files = files_in(rt, asked, folder)?;
    put_rounds(rt, threads, named, asked, field, &files)
}

/// Writes the picture of each round of a plan into a file of a folder. The status with which the program ends.
fn put_files_of(
    rt: &HostRuntime,
    threads: &(impl Threads + Sync),
    named: &NamedPlan,
    asked: &ImageRequest,
    folder: &str,
) -> Result<u8, Ending> {
    let field = field_for(rt.alloc(), named.plan.program(), &named.names, &asked.field)?;
    put_coloured(rt, threads, named, asked, field, folder)
}

/// Prints the picture of a plan's network, or writes those of all rounds into files. The status with which the program ends.
fn put_drawn(
    rt: &HostRuntime,
    threads: &(impl Threads + Sync),
    named: &NamedPlan,
    asked: &ImageRequest,
) -> Result<u8, Ending> {
    match &asked.frames {
        Some(folder) => put_files_of(rt, threads, named, asked, folder.as_str()),
        None => {
            let text = network_picture_of(rt, threads, named, asked)?;
            print_out(rt, &text)
        }
    }
}

/// Notes the width of the grid that is asked for, on a network.
fn set_width(rt: &HostRuntime, rows: &NetRows<'_>, asked: &mut ImageRequest) -> Result<(), Ending> {
    if let Some(grid) = asked.grid {
        let width = grid_width(rt, rows, grid)?;
        asked.grid = Some(GridWidth::Given(width));
    }
    Ok(())
}

/// Prints the picture of a network file's network, or writes those of all rounds into files. The status with which the program
/// ends.
fn put_plan(
    rt: &HostRuntime,
    threads: &(impl Threads + Sync),
    mut asked: ImageRequest,
) -> Result<u8, Ending> {
    let named = file_run_at(rt, &asked.texts)?;
    set_width(rt, &named.plan.network().rows(), &mut asked)?;
    put_drawn(rt, threads, &named, &asked)
}

/// Prints the picture of a run. The status with which the program ends.
fn put_run(
    rt: &HostRuntime,
    threads: &(impl Threads + Sync),
    mut asked: ImageRequest,
) -> Result<u8, Ending> {
    let source = source_at(rt, threads, &asked.texts)?;
    let ground = source.ground(rt, &asked.texts)?;
    let plan = ground.lent(rt.alloc())?;
    set_width(rt, &plan.rows(), &mut asked)?;
    let text = cells_of(rt, threads, &plan, &source.program.names, &asked)?;
    print_out(rt, &text)
}

/// Prints the picture that is asked for, or writes those of all rounds into files. The status with which the program ends.
fn put_image(
    rt: &HostRuntime,
    threads: &(impl Threads + Sync),
    asked: ImageRequest,
) -> Result<u8, Ending> {
    read_run_once(rt.alloc(), &asked.texts, "")?;
    if asked.links || asked.frames.is_some() {
        return put_plan(rt, threads, asked);
    }
    put_run(rt, threads, asked)
}

/// Prints a picture of rounds, or writes one of each into a file. The status with which the program ends.
pub fn make_image(
    rt: &HostRuntime,
    threads: &(impl Threads + Sync),
    words: &[String],
) -> Result<u8, Ending> {
    let asked = asked_by(ImageRequest::parse(rt.alloc(), words))?;
    put_image(rt, threads, asked)
}

/// The network of a plan in a round, for Graphviz, each node with its label.
fn labelled(
    rt: &HostRuntime,
    threads: &(impl Threads + Sync),
    named: &NamedPlan,
    asked: &DotRequest,
    field: ColouredField<'_>,
    labels: &[String],
) -> Result<Vec<u8>, Ending> {
    let styles = styles_for(rt, field, &asked.colours, CellShape::Square)?;
    let colouring = Colouring {
        field: field.place,
        styles: &styles,
    };
    let (alloc, plan, round) = (rt.alloc(), &named.plan, asked.round);
    let drawn = network_dot(threads, alloc, plan, round, &colouring, labels);
    picture_in(alloc, drawn)
}

/// The network of a plan in a round, for Graphviz.
fn network_of(
    rt: &HostRuntime,
    threads: &(impl Threads + Sync),
    named: &NamedPlan,
    asked: &DotRequest,
) -> Result<Vec<u8>, Ending> {
    let plan = &named.plan;
    let field = field_for(rt.alloc(), plan.program(), &named.names, &asked.field)?;
    let labels = labels_at(rt, Format::Report, &asked.names, plan.network().nodes())?;
    labelled(rt, threads, named, asked, field, &labels)
}

/// The network that is asked for.
fn network_for(
    rt: &HostRuntime,
    threads: &(impl Threads + Sync),
    asked: &DotRequest,
) -> Result<Vec<u8>, Ending> {
    let named = named_plan_at(rt, &asked.plan)?;
    network_of(rt, threads, &named, asked)
}

/// Prints the network that is asked for. The status with which the program ends.
fn put_dot(
    rt: &HostRuntime,
    threads: &(impl Threads + Sync),
    asked: &DotRequest,
) -> Result<u8, Ending> {
    read_plan_once(rt.alloc(), &asked.plan, path_in(&asked.names), "", "")?;
    let text = network_for(rt, threads, asked)?;
    print_out(rt, &text)
}

/// Prints a network in a round for Graphviz. The status with which the program ends.
pub fn make_dot(
    rt: &HostRuntime,
    threads: &(impl Threads + Sync),
    words: &[String],
) -> Result<u8, Ending> {
    let asked = asked_by(DotRequest::parse(rt.alloc(), words))?;
    put_dot(rt, threads, &asked)
}
