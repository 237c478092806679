//! The text of a page.

ghost use Rattle.std.specs.Prelude.{◌≡◌, ◌++◌, OnOk};
ghost use Rattle.std.specs.List.{flat_map};
ghost use Rattle.rvmc_page.specs.Pages.{awaited_text, before_steps, behind_steps, data_of, last_parts, part_lines};
ghost use Rattle.rvmc_page.specs.Pages.{part_name as name_of, picture_text, steps_opening, told_lines, ways_text};

use crate::frame::{BODY, FOOT, HEAD, NO_PICTURE};
use crate::script::SCRIPT;
use crate::show::SHOW;
use crate::starts::put_starts;
use crate::texts::{SourceText, put_texts};
use crate::told::{put_arrows, put_names, put_program, put_told, put_waits};
use rv_image_types::Image;
use rvmc_changes::RankStart;
use rvmc_draw::Drawing;
use std::alloc::Global;
use std::io;
use std::io::Write;

/// A picture of the steps, and what it was drawn from.
#[derive(Drop)]
pub struct Shown {
    pub drawing: Drawing,
    /// The text of an SVG image.
    pub picture: Vec<u8>,
}

/// What a page shows of a record, but for what each step changed, which is written as the steps are done.
#[derive(Drop)]
pub struct Page<'a> {
    /// The first place.
    pub from: u64,
    /// What is seen of each rank there.
    pub start: Vec<RankStart>,
    /// The sources.
    pub texts: &'a [SourceText<'a>],
    /// None where the steps have more marks than a picture may have.
    pub shown: Option<Shown>,
}

/// A part of a page's data, which stands in an element of its own.
#[derive(Clone, Copy, Drop)]
pub enum Part {
    /// The first place.
    First,
    /// The machine there.
    Start,
    /// The program.
    Program,
    /// Its symbols.
    Names,
    /// The sources.
    Texts,
    /// From which step to which messages and partitions go.
    Ways,
    /// Which harts wait for whom at the end.
    Waits,
    /// What `why` tells of the end.
    Told,
}

/// Its name.
fn part_name(part: Part) -> &'static str
    ensures { result.now ≡ name_of part }
{
    match part {
        Part::First => "first",
        Part::Start => "start",
        Part::Program => "program",
        Part::Names => "names",
        Part::Texts => "texts",
        Part::Ways => "ways",
        Part::Waits => "waits",
        Part::Told => "told",
    }
}

/// Adds what is on its way, of a drawing, if there is one.
fn put_ways(text: &mut Vec<u8>, shown: &Option<Shown>) -> io::Result<()>
    ensures { OnOk result (text.new.items ≡ text.old.items ++ ways_text shown.now) }
{
    match shown {
        None => Ok(()),
        Some(shown) => put_arrows(text, shown.drawing.arrows.as_slice()),
    }
}

/// Adds who waits for whom at the end, of a drawing, if there is one.
fn put_awaited(text: &mut Vec<u8>, shown: &Option<Shown>) -> io::Result<()>
    ensures { OnOk result (text.new.items ≡ text.old.items ++ awaited_text shown.now) }
{
    match shown {
        None => Ok(()),
        Some(shown) => put_waits(text, shown.drawing.rows.as_slice()),
    }
}

/// Adds what `why` tells of the end, of a drawing, if there is one.
fn put_why(text: &mut Vec<u8>, shown: &Option<Shown>) -> io::Result<()>
    ensures { OnOk result (text.new.items ≡ text.old.items ++ told_lines shown.now) }
{
    match shown {
        None => Ok(()),
        Some(shown) => put_told(text, shown.drawing.told.as_slice()),
    }
}

/// Adds the data of a part.
fn put_data(
    part: Part,
    alloc: Global,
    text: &mut Vec<u8>,
    image: &Image,
    page: &Page<'_>,
) -> io::Result<()>
    ensures { OnOk result (text.new.items ≡ text.old.items ++ data_of image.now page.now part) }
{
    match part {
        Part::First => {
            let from = page.from;
            write!(text, "{from}\n")
        }
        Part::Start => put_starts(text, page.start.as_slice()),
        Part::Program => put_program(alloc, text, image),
        Part::Names => put_names(text, image.parts().symbols.as_slice()),
        Part::Texts => put_texts(text, page.texts),
        Part::Ways => put_ways(text, &page.shown),
        Part::Waits => put_awaited(text, &page.shown),
        Part::Told => put_why(text, &page.shown),
    }
}

/// Adds a part in its element.
#[tactic(auto, unfolding(crate::specs::Pages::part_lines))]
fn put_part(
    alloc: Global,
    text: &mut Vec<u8>,
    image: &Image,
    page: &Page<'_>,
    part: Part,
) -> io::Result<()>
    ensures { OnOk result (text.new.items ≡ text.old.items ++ part_lines image.now page.now part) }
{
    text.extend_from_slice(b"<script type=text/plain id=page-")?;
    text.extend_from_slice(part_name(part).as_bytes())?;
    text.extend_from_slice(b">")?;
    put_data(part, alloc, text, image, page)?;
    text.extend_from_slice(b"</script>\n")?;
    Ok(())
}

/// Adds these parts.
fn put_these(
    alloc: Global,
    text: &mut Vec<u8>,
    image: &Image,
    page: &Page<'_>,
    parts: &[Part],
) -> io::Result<()>
    ensures { OnOk result (text.new.items ≡ text.old.items ++ flat_map (part_lines image.now page.now) parts.now) }
{
    for part in parts {
        put_part(alloc, text, image, page, *part)?;
    }
    Ok(())
}

/// Adds the picture, or that there is none.
fn put_picture(text: &mut Vec<u8>, shown: &Option<Shown>) -> io::Result<()>
    ensures { OnOk result (text.new.items ≡ text.old.items ++ picture_text shown.now) }
{
    match shown {
        None => text.extend_from_slice(NO_PICTURE.as_bytes())?,
        Some(shown) => text.extend_from_slice(shown.picture.as_slice())?,
    }
    Ok(())
}

/// Adds what stands right before the changes of the steps.
fn open_steps(text: &mut Vec<u8>) -> io::Result<()>
    ensures { OnOk result (text.new.items ≡ text.old.items ++ steps_opening) }
{
    text.extend_from_slice(b"<div hidden id=page-steps><!--")?;
    Ok(())
}

/// Adds what stands before the changes of the steps.
pub(crate) fn put_before(
    alloc: Global,
    text: &mut Vec<u8>,
    image: &Image,
    page: &Page<'_>,
) -> io::Result<()>
    ensures { OnOk result (text.new.items ≡ text.old.items ++ before_steps image.now page.now) }
{
    text.extend_from_slice(HEAD.as_bytes())?;
    put_picture(text, &page.shown)?;
    text.extend_from_slice(BODY.as_bytes())?;
    put_these(alloc, text, image, page, &[Part::First, Part::Start])?;
    open_steps(text)?;
    Ok(())
}

/// Adds the parts that stand behind them.
fn put_last(alloc: Global, text: &mut Vec<u8>, image: &Image, page: &Page<'_>) -> io::Result<()>
    ensures { OnOk result (text.new.items ≡ text.old.items ++ flat_map (part_lines image.now page.now) last_parts) }
{
    let parts = [
        Part::Program,
        Part::Names,
        Part::Texts,
        Part::Ways,
        Part::Waits,
        Part::Told,
    ];
    put_these(alloc, text, image, page, &parts)
}

/// Adds what stands behind the changes of the steps.
pub(crate) fn put_behind(
    alloc: Global,
    text: &mut Vec<u8>,
    image: &Image,
    page: &Page<'_>,
) -> io::Result<()>
    ensures { OnOk result (text.new.items ≡ text.old.items ++ behind_steps image.now page.now) }
{
    text.extend_from_slice(b"--></div>\n")?;
    put_last(alloc, text, image, page)?;
    text.extend_from_slice(SCRIPT.as_bytes())?;
    text.extend_from_slice(SHOW.as_bytes())?;
    text.extend_from_slice(FOOT.as_bytes())?;
    Ok(())
}
