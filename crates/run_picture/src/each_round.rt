//! A picture of its own for each round.
ghost use Rattle.std.specs.Prelude.{◌≡◌, ◌≢◌, ◌≤◌, ◌+◌, ◌*◌, Err, IfOk, IfErr, MatchOption, None, Some, drop, length, map, take};
ghost use Rattle.link_net.specs.Neighbours.{numbers_below};
ghost use Rattle.run_picture.specs.declared.fault.PictureFault.TheVariants.{Memory};
ghost use Rattle.run_picture.specs.Frames.{values_drawn};
ghost use Rattle.run_picture.specs.Keys.{key_of};
ghost use Rattle.run_picture.specs.Series.{AreRoundPictures, HasCells, layout_refusal, round_sheet, round_sheets, series_refusal};

use crate::animation::MOST_FRAMES;
use crate::drawing::Drawing;
use crate::fault::PictureFault;
use crate::film::Pace;
use crate::key::{Key, key_of};
use crate::net_sheet::net_sheet;
use crate::picture::MOST_CELLS;
use crate::sheet::sheet_of;
use crate::values::{drawing_refusal, values_drawn};
use link_net::Network;
use rounds_plan::Plan;
use rounds_walk::PlanRef;
use run_watch::Progress;
use std::alloc::{AllocError, Global};
use std::thread::Threads;

/// The most lines of links in all pictures together.
pub const MOST_STROKES: u64 = 1_000_000;

/// How the nodes of a round are drawn.
#[derive(Clone, Copy)]
pub enum Layout {
    /// As cells by rising number, so many in a row.
    Cells { width: u32 },
    /// As circles on a circle by rising number, with a line between each two that are linked.
    Network,
}

impl Layout {
    /// Why so many frames are not drawn of a network with so many links.
    fn refusal(self, links: u32, frames: u64) -> Option<PictureFault>
        requires few { frames ≤ 10000 }
        ensures refusal { result ≡ layout_refusal self links frames }
    {
        match self {
            Layout::Cells { width: 0 } => Some(PictureFault::NoWidth),
            Layout::Network if u64::from(links) * frames > MOST_STROKES => {
                Some(PictureFault::TooManyLinks)
            }
            _ => None,
        }
    }
}

/// Why there are no pictures of single rounds, whatever memory there is.
fn series_refusal(plan: &Plan, drawing: &Drawing<'_>, layout: Layout) -> Option<PictureFault>
    ensures { result ≡ series_refusal plan.now drawing.now layout }
{
    let lent = PlanRef::of_plan(plan);
    if let Some(fault) = drawing_refusal(&lent, drawing) {
        return Some(fault);
    }
    let rounds = drawing.span.steps() as u64 + 1;
    if plan.network().nodes() as u64 * rounds > MOST_CELLS {
        return Some(PictureFault::TooManyCells);
    }
    if rounds > MOST_FRAMES {
        return Some(PictureFault::TooManyFrames);
    }
    layout.refusal(plan.network().links(), rounds)
}

/// The picture of the values of all nodes in one round, coloured by a key.
fn round_sheet(
    alloc: Global,
    key: &Key<'_>,
    layout: Layout,
    network: &Network,
    values: &[u32],
) -> Result<Vec<u8>, AllocError>
    requires cells { HasCells layout }
    requires count { length values.now ≤ 1000000 }
    ensures text { IfOk result (λ v. v.items ≡ round_sheet layout key.now network.now values.now) }
{
    match layout {
        Layout::Cells { width } => sheet_of(alloc, key, width, values),
        Layout::Network => net_sheet(alloc, key, Pace { frames: 1, time: 1 }, network, values),
    }
}

/// The picture of a round, of the values of all nodes round by round.
fn sheet_at(
    alloc: Global,
    key: &Key<'_>,
    layout: Layout,
    network: &Network,
    values: &[u32],
    place: u32,
) -> Result<Vec<u8>, AllocError>
    requires cells { HasCells layout }
    requires place { place * length network.now + length network.now ≤ length values.now }
    ensures text { IfOk result (λ v. v.items ≡ round_sheet layout key.now network.now (take (length network.now) (drop (place * length network.now) values.now))) }
{
    let nodes = network.nodes() as usize;
    let start = place as usize * nodes;
    round_sheet(alloc, key, layout, network, &values[start..start + nodes])
}

/// The pictures of so many rounds, of the values of all nodes round by round.
fn sheets_of(
    alloc: Global,
    key: &Key<'_>,
    layout: Layout,
    network: &Network,
    values: &[u32],
    rounds: u32,
) -> Result<Vec<Vec<u8>>, AllocError>
    requires cells { HasCells layout }
    requires count { length values.now ≡ length network.now * rounds }
    ensures texts { IfOk result (λ v. map (λ text. text.items) v.items ≡ map (λ r. round_sheet layout key.now network.now (take (length network.now) (drop (r * length network.now) values.now))) (numbers_below rounds)) }
{
    let mut texts = Vec::new(alloc);
    for place in 0..rounds {
        let text = sheet_at(alloc, key, layout, network, values, place)?;
        texts.push(text)?;
    }
    Ok(texts)
}

/// The pictures of single rounds, where nothing refuses them.
fn series_texts<P: Progress>(
    rt: &(impl Threads + Sync),
    alloc: Global,
    plan: &Plan,
    drawing: &Drawing<'_>,
    layout: Layout,
    progress: &mut P,
) -> Result<Vec<Vec<u8>>, AllocError>
    requires fits { series_refusal plan.now drawing.now layout ≡ None }
    ensures texts { IfOk result (λ v. map (λ text. text.items) v.items ≡ round_sheets (key_of drawing.now.colouring.styles.now (values_drawn plan.now drawing.now)) plan.now drawing.now layout) }
{
    let lent = PlanRef::of_plan(plan);
    let values = values_drawn(rt, alloc, &lent, drawing, progress)?;
    let key = key_of(alloc, drawing.colouring.styles, &values)?;
    let network = plan.network();
    let span = drawing.span;
    let texts = sheets_of(alloc, &key, layout, network, &values, span.steps() + 1)?;
    Ok(texts)
}

/// A picture of its own for each round of a span of a plan as SVG, in order, as `grid_picture` makes one of cells and
/// `network_picture` one of the network. The colours follow from the values in all of these rounds, so that a value has the
/// same one in each, and a legend is the same in all. In one pass over the rounds: none is computed twice. Each round is
/// shared among as many threads as there are processors where it has enough to compute for them.
///
/// `TooManyRounds` comes where the last round is above 1,000,000,000, else `RoundsBelowStart` where the first lies before
/// the plan's start, else `NoField` where the program has no field at this place, else `TooManyCells` where nodes times
/// rounds are more than 1,000,000, else `TooManyFrames` where the span has more than 10,000 rounds, else `NoWidth` where rows
/// are to have no cells, and else `TooManyLinks` where networks are drawn and links times rounds are more than 1,000,000, all
/// before anything is done; `Memory` only where none of them holds.
pub fn round_pictures<P: Progress>(
    rt: &(impl Threads + Sync),
    alloc: Global,
    plan: &Plan,
    drawing: &Drawing<'_>,
    layout: Layout,
    progress: &mut P,
) -> Result<Vec<Vec<u8>>, PictureFault>
    ensures texts { IfOk result (λ v. AreRoundPictures plan.now drawing.now layout (map (λ text. text.items) v.items)) }
    ensures fits { IfOk result (λ _. series_refusal plan.now drawing.now layout ≡ None) }
    ensures refused { IfErr result (λ fault. fault ≢ Memory → series_refusal plan.now drawing.now layout ≡ Some fault) }
    ensures memory { IfErr result (λ fault. fault ≡ Memory → series_refusal plan.now drawing.now layout ≡ None) }
    ensures at_once { MatchOption (series_refusal plan.now drawing.now layout) (Unit {0}) (λ fault. result ≡ Err fault) }
{
    if let Some(fault) = series_refusal(plan, drawing, layout) {
        return Err(fault);
    }
    let texts = series_texts(rt, alloc, plan, drawing, layout, progress)?;
    Ok(texts)
}
