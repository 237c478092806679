//! The starts of a split: orders of turns from which all ends can be searched apart.

ghost use Rattle.std.specs.Prelude.{◌≡◌, ◌++◌, ◌<◌, IfOk, IfSome, OnOk, length, map};
ghost use Rattle.std.specs.List.{flat_map};
ghost use Rattle.rv_image.specs.Text.{image_text};
ghost use Rattle.rvmc_starts.specs.Sums.{sum_of};
ghost use Rattle.rvmc_explore.specs.Splitting.{AddsLeft, AddsNowhere, AreStartsAt, HasEachStart, IsSplit, IsStartAt, split_sum, start_line, with_split};
ghost use Rattle.rvmc_explore.specs.There.{AreInside};
ghost use Rattle.cl_lines.specs.Telling.{TellsProgress};

use crate::asked::Asked;
use crate::marks::leading_to;
use cl_explore::{Course, Exploration, split as searched_apart};
use cl_moves::MoveFault;
use rv_image::write_image;
use rv_image_types::Image;
use rvmc_starts::{ImageSum, Start, Turns, put_start, sum_of};
use rvmc_words::Numbers;
use std::alloc::{AllocError, Global};
use std::io::Write;

/// By what the image is known again.
pub(crate) fn sum_of_image(alloc: Global, image: &Image) -> Result<ImageSum, AllocError>
    ensures { IfOk result (λ sum. sum ≡ sum_of (image_text image.now)) }
{
    let bytes = write_image(alloc, image)?;
    Ok(sum_of(bytes.as_slice()))
}

/// Adds the numbers of the last nodes, which are left.
fn put_left(numbers: &mut Vec<usize>, nodes: usize, left: usize) -> Result<(), AllocError>
    ensures { OnOk result (AddsLeft nodes left numbers.old.items numbers.new.items) }
{
    for node in nodes.saturating_sub(left)..nodes {
        numbers.push(node)?;
    }
    Ok(())
}

/// The first node that leads to none of these, if there is one.
fn leading_nowhere(
    alloc: Global,
    found: &Exploration,
    numbers: &[usize],
) -> Result<Option<usize>, AllocError>
    ensures { IfOk result (λ node. IfSome node (λ node. node < length found.now.nodes.items)) }
{
    let leads = found.leads.as_slice();
    let marks = leading_to(alloc, found.nodes.len(), leads, numbers)?;
    for node in 0..found.nodes.len() {
        if !*marks.get(node).unwrap_or(&true) {
            return Ok(Some(node));
        }
    }
    Ok(None)
}

/// Adds the number of a node, if there is one.
fn put_nowhere(numbers: &mut Vec<usize>, node: Option<usize>) -> Result<(), AllocError>
    ensures { OnOk result (AddsNowhere node numbers.old.items numbers.new.items) }
{
    if let Some(node) = node {
        numbers.push(node)?;
    }
    Ok(())
}

/// The numbers of the nodes at which the starts are: the ends that were found, the nodes that are left, and the first of
/// those that lead to none of these.
fn starts_of(alloc: Global, found: &Exploration) -> Result<Vec<usize>, AllocError>
    requires { AreInside (length found.now.nodes.items) found.now.ends.items }
    ensures inside { IfOk result (λ numbers. AreInside (length found.now.nodes.items) numbers.items) }
    ensures each { IfOk result (λ numbers. HasEachStart (length found.now.nodes.items) found.now.left found.now.ends.items
        numbers.items) }
{
    let mut numbers = Vec::from_slice(alloc, found.ends.as_slice())?;
    put_left(&mut numbers, found.nodes.len(), found.left)?;
    let nowhere = leading_nowhere(alloc, found, numbers.as_slice())?;
    put_nowhere(&mut numbers, nowhere)?;
    Ok(numbers)
}

/// What all starts of a split have in common.
#[derive(Clone, Copy, Drop)]
struct Common<'a> {
    image: ImageSum,
    order: &'a [u8],
    count: u64,
}

/// The start of this number, at the node of another. By what its split is known again isn't known yet.
fn start_at(
    alloc: Global,
    found: &Exploration,
    common: &Common<'_>,
    number: u64,
    node: usize,
) -> Result<Start, AllocError>
    ensures { IfOk result (IsStartAt found.now.nodes.items common.now number node) }
{
    let harts = Numbers::from_vec(Vec::from_slice(alloc, common.order)?);
    let turns = Turns::from_vec(found.turns_to(alloc, node)?);
    Ok(Start {
        number,
        count: common.count,
        image: common.image,
        split: 0,
        harts,
        turns,
    })
}

/// The starts at all these nodes.
fn starts_at(
    alloc: Global,
    found: &Exploration,
    common: &Common<'_>,
    numbers: &[usize],
) -> Result<Vec<Start>, AllocError>
    ensures { IfOk result (λ starts. AreStartsAt found.now.nodes.items common.now numbers.now starts.items) }
{
    let mut starts = Vec::new(alloc);
    for place in 0..numbers.len() {
        let start = start_at(alloc, found, common, place as u64 + 1, numbers[place])?;
        starts.push(start)?;
    }
    Ok(starts)
}

/// Adds the starts, one a line.
fn put_starts(alloc: Global, text: &mut Vec<u8>, starts: &[Start]) -> Result<(), AllocError>
    ensures { OnOk result (text.new.items ≡ text.old.items ++ flat_map start_line starts.now) }
{
    for start in starts {
        put_start(alloc, text, start)?;
        text.push(b'\n')?;
    }
    Ok(())
}

/// By what the split is known again that has these starts.
fn split_of(alloc: Global, starts: &[Start]) -> Result<u64, AllocError>
    ensures { IfOk result (λ split. split ≡ split_sum starts.now) }
{
    let mut text = Vec::new(alloc);
    put_starts(alloc, &mut text, starts)?;
    Ok(sum_of(text.as_slice()).digest)
}

/// All starts are of the split that is known by this.
fn set_split(starts: &mut [Start], split: u64)
    ensures { starts.new ≡ map (with_split split) starts.old }
{
    for start in starts.iter_mut() {
        start.split = split;
    }
}

/// The starts of a split, one a line: so many or more, unless fewer states are found, or as many were worked through as
/// are allowed. Each says where its turns lead, and all of them together lead to all ends.
///
/// Refusals: Clock, Memory.
pub fn split<E: Write>(
    alloc: Global,
    image: &Image,
    asked: &Asked<'_>,
    least: usize,
    err: &mut E,
) -> Result<Vec<u8>, MoveFault>
    requires { 0 < length asked.now.order.now }
    ensures starts { IfOk result (λ text. IsSplit image.now asked.now.order.now asked.now.states asked.now.turns least text.items) }
    ensures progress { TellsProgress asked.now.progress (E.contents err.old) (E.contents err.new) }
{
    let course = Course {
        alloc,
        order: asked.order,
        most: asked.turns,
        progress: asked.progress,
        buffered: asked.buffered,
    };
    let found = searched_apart(&course, image, asked.states, least, err)?;
    let numbers = starts_of(alloc, &found)?;
    let common = Common {
        image: sum_of_image(alloc, image)?,
        order: asked.order,
        count: numbers.len() as u64,
    };
    let mut starts = starts_at(alloc, &found, &common, numbers.as_slice())?;
    let split = split_of(alloc, starts.as_slice())?;
    set_split(starts.as_mut_slice(), split);
    let mut text = Vec::new(alloc);
    put_starts(alloc, &mut text, starts.as_slice())?;
    Ok(text)
}
