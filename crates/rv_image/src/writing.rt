//! From an image to its one text of bytes.

ghost use Rattle.std.specs.Prelude.{◌≡◌, ◌≤◌, ◌++◌, ◌^◌, ◌<◌, ◌∷◌, [], length, codes, All, OnOk, IfOk, Ok};
ghost use Rattle.std.specs.Int.{w16, w32, to_le_bytes};
ghost use Rattle.std.specs.List.{flat_map};
ghost use Rattle.rv_image_types.specs.Image.{IsImage};
ghost use Rattle.rv_image_types.specs.Limits.{most_ranks};
ghost use Rattle.rv_image.specs.Text.{comm_text, link_text, symbol_text, version_number, header_text, body_text, image_text};
ghost use Rattle.rv_image.specs.Reading.{reading};

use rv_image_types::{Image, ImageParts, ImageVersion, Link, Members, Symbol};
use std::alloc::{AllocError, Global};

/// The number by which the header says the version.
fn number_of(version: ImageVersion) -> u16
    ensures { result ≡ version_number version }
{
    match version {
        ImageVersion::One => 1,
        ImageVersion::Two => 2,
    }
}

/// Adds the magic, the version, and the numbers of ranks and harts.
fn put_front(out: &mut Vec<u8>, parts: &ImageParts) -> Result<(), AllocError>
    ensures { OnOk result (out.new.items ≡ out.old.items ++ (codes "RVMC"
        ++ to_le_bytes w16 (version_number parts.now.version) ++ (parts.now.ranks ∷ parts.now.harts ∷ []))) }
{
    out.extend_from_slice(b"RVMC")?;
    out.extend_from_slice(&number_of(parts.version).to_le_bytes())?;
    out.extend_from_slice(&[parts.ranks, parts.harts])
}

/// Adds a number of four bytes, low byte first.
fn put_u32(out: &mut Vec<u8>, number: u32) -> Result<(), AllocError>
    ensures { OnOk result (out.new.items ≡ out.old.items ++ to_le_bytes w32 number) }
{
    out.extend_from_slice(&number.to_le_bytes())
}

/// Adds the numbers that have four bytes.
fn put_sizes(out: &mut Vec<u8>, parts: &ImageParts) -> Result<(), AllocError>
    requires { IsImage parts.now }
    ensures { OnOk result (out.new.items ≡ out.old.items ++ (to_le_bytes w32 parts.now.memory
        ++ to_le_bytes w32 parts.now.entry ++ to_le_bytes w32 (length parts.now.text)
        ++ to_le_bytes w32 (length parts.now.init))) }
{
    put_u32(out, parts.memory)?;
    put_u32(out, parts.entry)?;
    put_u32(out, parts.text.as_slice().len() as u32)?;
    put_u32(out, parts.init.as_slice().len() as u32)?;
    Ok(())
}

/// Adds the numbers of communicators, links and symbols.
fn put_counts(out: &mut Vec<u8>, parts: &ImageParts) -> Result<(), AllocError>
    requires { IsImage parts.now }
    ensures { OnOk result (out.new.items ≡ out.old.items ++ ((length parts.now.comms ∷ length parts.now.links ∷ [])
        ++ to_le_bytes w16 (length parts.now.symbols))) }
{
    let comms = parts.comms.as_slice().len() as u8;
    let links = parts.links.as_slice().len() as u8;
    out.extend_from_slice(&[comms, links])?;
    out.extend_from_slice(&(parts.symbols.as_slice().len() as u16).to_le_bytes())
}

/// Adds the 28 bytes of the header.
#[tactic(auto, unfolding(crate::specs::Text::header_text))]
fn put_header(out: &mut Vec<u8>, parts: &ImageParts) -> Result<(), AllocError>
    requires { IsImage parts.now }
    ensures { OnOk result (out.new.items ≡ out.old.items ++ header_text parts.now) }
{
    put_front(out, parts)?;
    put_sizes(out, parts)?;
    put_counts(out, parts)?;
    Ok(())
}

/// Adds one communicator.
fn put_comm(out: &mut Vec<u8>, members: &[u8]) -> Result<(), AllocError>
    requires { length members.now ≤ most_ranks }
    ensures { OnOk result (out.new.items ≡ out.old.items ++ comm_text members.now) }
{
    out.push(members.len() as u8)?;
    out.extend_from_slice(members)
}

/// Adds the communicators in order.
fn put_comms(out: &mut Vec<u8>, comms: &[Members]) -> Result<(), AllocError>
    requires { All (λ members. length members ≤ most_ranks) comms.now }
    ensures { OnOk result (out.new.items ≡ out.old.items ++ flat_map comm_text comms.now) }
{
    for members in comms {
        put_comm(out, members.as_slice())?;
    }
    Ok(())
}

/// Adds the links in order.
fn put_links(out: &mut Vec<u8>, links: &[Link]) -> Result<(), AllocError>
    ensures { OnOk result (out.new.items ≡ out.old.items ++ flat_map link_text links.now) }
{
    for link in links {
        out.extend_from_slice(&[link.from, link.to])?;
    }
    Ok(())
}

/// Adds one symbol.
fn put_symbol(out: &mut Vec<u8>, symbol: &Symbol) -> Result<(), AllocError>
    requires { length symbol.now.name ≤ 31 }
    ensures { OnOk result (out.new.items ≡ out.old.items ++ symbol_text symbol.now) }
{
    let name = symbol.name.as_slice();
    out.extend_from_slice(&symbol.address.to_le_bytes())?;
    out.push(name.len() as u8)?;
    out.extend_from_slice(name)
}

/// Adds the symbols in order.
fn put_symbols(out: &mut Vec<u8>, symbols: &[Symbol]) -> Result<(), AllocError>
    requires { All (λ symbol. length symbol.name ≤ 31) symbols.now }
    ensures { OnOk result (out.new.items ≡ out.old.items ++ flat_map symbol_text symbols.now) }
{
    for symbol in symbols {
        put_symbol(out, symbol)?;
    }
    Ok(())
}

/// Adds the text and the initial data.
fn put_segments(out: &mut Vec<u8>, parts: &ImageParts) -> Result<(), AllocError>
    ensures { OnOk result (out.new.items ≡ out.old.items ++ parts.now.text ++ parts.now.init) }
{
    out.extend_from_slice(parts.text.as_slice())?;
    out.extend_from_slice(parts.init.as_slice())
}

/// Adds what stands behind the header.
fn put_body(out: &mut Vec<u8>, parts: &ImageParts) -> Result<(), AllocError>
    requires { IsImage parts.now }
    ensures { OnOk result (out.new.items ≡ out.old.items ++ body_text parts.now) }
{
    put_comms(out, parts.comms.as_slice())?;
    put_links(out, parts.links.as_slice())?;
    put_segments(out, parts)?;
    put_symbols(out, parts.symbols.as_slice())
}

/// The text of the parts.
#[tactic(auto, unfolding(crate::specs::Text::image_text))]
fn text_of(alloc: Global, parts: &ImageParts) -> Result<Vec<u8>, AllocError>
    requires { IsImage parts.now }
    ensures { IfOk result (λ bytes. bytes.items ≡ image_text parts.now) }
{
    let mut out = Vec::new(alloc);
    put_header(&mut out, parts)?;
    put_body(&mut out, parts)?;
    Ok(out)
}

/// The one text of the image, in its own version. An `Err` says only that memory ran out.
pub fn write_image(alloc: Global, image: &Image) -> Result<Vec<u8>, AllocError>
    ensures text { IfOk result (λ bytes. bytes.items ≡ image_text image.now) }
    // What was written is read as the same image.
    ensures read_again { IfOk result (λ bytes. reading bytes.items ≡ Ok image.now) }
{
    text_of(alloc, image.parts())
}
