//! The pages of a memory, and the ranges of bytes that touch them. Pages that the text fills aren't held: they are read
//! from the text, which stands once for all memories.
ghost use Rattle.std.specs.Prelude.{◌≡◌, ◌+◌, ◌-◌, ◌*◌, ◌/◌, ◌<◌, ◌≤◌, ◌^◌, length, map, take, drop, replicate, true, ◌≢◌};
ghost use Rattle.std.specs.Prelude.{◌&&◌, ◌||◌, if◌then◌else◌, not};
ghost use Rattle.std.specs.Prelude.{IfOk, OnOk, OnErr, IsOk, None, Option, nat_le};
ghost use Rattle.rv_memory.specs.Held.{page_bytes, is_there, all_bytes, shown, shown_page, AreWhole};
ghost use Rattle.rv_memory.specs.Memory.{overwritten};
ghost use Rattle.rv_memory.specs.Pages.{touches as touches_page, written_pages};
ghost use Rattle.rv_memory.specs.MorePages.{missing_pages};

use crate::page::{Page, is_missing, is_text, put, rest_of};
use crate::spares::SparePages;
use std::alloc::{AllocError, Global};

/// Whether one at least of `count` bytes from an address on is in a page.
#[inline(always)]
fn touches(address: u64, count: u64, page: usize) -> bool
    requires { page < 2 ^ 20 }
    ensures { result ≡ touches_page address count page }
{
    let start = page as u64 * 4096;
    0 < count && start < address.saturating_add(count) && address < start + 4096
}

/// So many pages, none of which is there.
pub(crate) fn none(alloc: Global, count: usize) -> Result<Vec<Option<Page>>, AllocError>
    ensures { IfOk result (λ pages. pages.items ≡ replicate count None) }
{
    let mut pages = Vec::new(alloc);
    for _page in 0..count {
        pages.push(None)?;
    }
    Ok(pages)
}

/// Whether a page is neither held nor filled by the text. `rest` is what there is of the text from the page's first byte
/// on, here and below.
fn is_absent(rest: &[u8], page: &Option<Page>) -> bool
    ensures { result ≡ not (is_there (shown_page rest.now page.now)) }
{
    is_missing(page) && !is_text(rest)
}

/// 1 for a page that is touched and isn't there, else 0.
fn missing_page(rest: &[u8], page: &Option<Page>, touched: bool) -> usize
    ensures value { result ≡ (if (touched && not (is_there (shown_page rest.now page.now))) then 1 else 0) }
    ensures most { result ≤ 1 }
{
    if touched && is_absent(rest, page) {
        1
    } else {
        0
    }
}

/// The first page, of so many, that bytes from an address on may touch; their number where there is none.
fn first_touched(pages: usize, address: u64) -> usize
    ensures within { result ≤ pages }
    ensures before { result * 4096 ≤ address }
{
    pages.min((address / 4096) as usize)
}

/// The page behind the last one, of so many, that `count` bytes from an address on may touch.
fn end_touched(pages: usize, first: usize, address: u64, count: u64) -> usize
    requires first { first ≤ pages }
    requires few { pages ≤ 2 ^ 20 }
    ensures from { first ≤ result }
    ensures within { result ≤ pages }
    ensures behind { result < pages → count ≢ 0 → address + count ≤ result * 4096 }
{
    if count == 0 {
        return first;
    }
    let end = address.saturating_add(count - 1) / 4096 + 1;
    first.max(pages.min(end as usize))
}

/// How many of the pages that `count` bytes from an address on touch aren't there. Only those are looked at.
pub(crate) fn missing(text: &[u8], pages: &[Option<Page>], address: u64, count: u64) -> usize
    requires { length pages.now ≤ 2 ^ 20 }
    ensures value { result ≡ missing_pages (map is_there (shown text.now pages.now)) address count }
    ensures most { result ≤ length pages.now }
{
    let first = first_touched(pages.len(), address);
    let end = end_touched(pages.len(), first, address, count);
    let mut missing = 0;
    for page in first..end {
        let touched = touches(address, count, page);
        missing += missing_page(rest_of(text, page), &pages[page], touched);
    }
    missing
}

/// A page that is touched and isn't there is taken from the spare ones.
fn place_page(rest: &[u8], page: &mut Option<Page>, spares: &mut SparePages, touched: bool)
    requires { (if (touched && not (is_there (shown_page rest.now page.old))) then 1 else 0) ≤ spares.old }
    ensures bytes { page_bytes (shown_page rest.now page.new) ≡ page_bytes (shown_page rest.now page.old) }
    ensures there { is_there (shown_page rest.now page.new) ≡ (is_there (shown_page rest.now page.old) || touched) }
    ensures taken { spares.new + (if (touched && not (is_there (shown_page rest.now page.old))) then 1 else 0)
        ≡ spares.old }
{
    if touched && is_absent(rest, page) {
        *page = spares.take();
    }
}

/// The pages that `count` bytes from an address on touch are there: those that weren't are taken from the spare ones.
pub(crate) fn place(
    text: &[u8],
    pages: &mut Vec<Option<Page>>,
    spares: &mut SparePages,
    address: u64,
    count: u64,
)
    requires most { length pages.old.items ≤ 2 ^ 20 }
    requires whole { AreWhole (shown text.now pages.old.items) }
    requires enough { missing_pages (map is_there (shown text.now pages.old.items)) address count ≤ spares.old }
    ensures bytes { all_bytes (shown text.now pages.new.items) ≡ all_bytes (shown text.now pages.old.items) }
    ensures whole { AreWhole (shown text.now pages.new.items) }
    ensures there { map is_there (shown text.now pages.new.items)
        ≡ written_pages (map is_there (shown text.now pages.old.items)) address count }
    ensures long { length pages.new.items ≡ length pages.old.items }
    ensures taken { spares.new + missing_pages (map is_there (shown text.now pages.old.items)) address count
        ≡ spares.old }
{
    for page in 0..pages.len() {
        let touched = touches(address, count, page);
        place_page(rest_of(text, page), &mut pages[page], spares, touched);
    }
}

/// Puts other bytes from a place on into a page that is there.
fn put_in(page: &mut Option<Page>, at: usize, new: &[u8])
    requires inside { at + length new.now ≤ 4096 }
    requires there { is_there page.old ≡ true }
    ensures put { page_bytes page.new ≡ overwritten (page_bytes page.old) at new.now }
    ensures there { is_there page.new ≡ true }
    ensures length { length (page_bytes page.new) ≡ 4096 }
{
    let Some(page) = page else { unreachable!() };
    page.put(at, new);
}

/// Writes those bytes from `done` on that are in one page, and says how many are done then.
fn fill_page(
    text: &[u8],
    pages: &mut Vec<Option<Page>>,
    address: usize,
    bytes: &[u8],
    done: usize,
) -> usize
    requires behind { length text.now / 4096 * 4096 ≤ address }
    requires inside { address + length bytes.now ≤ 4096 * length pages.old.items }
    requires most { length pages.old.items ≤ 2 ^ 20 }
    requires whole { AreWhole (shown text.now pages.old.items) }
    requires present { missing_pages (map is_there (shown text.now pages.old.items)) address (length bytes.now) ≡ 0 }
    requires left { done < length bytes.now }
    ensures more { done < result }
    ensures end { result ≤ length bytes.now }
    ensures bytes { all_bytes (shown text.now pages.new.items)
        ≡ overwritten (all_bytes (shown text.now pages.old.items)) (address + done)
        (take (result - done) (drop done bytes.now)) }
    ensures there { map is_there (shown text.now pages.new.items) ≡ map is_there (shown text.now pages.old.items) }
    ensures whole { AreWhole (shown text.now pages.new.items) }
    ensures long { length pages.new.items ≡ length pages.old.items }
{
    let at = (address + done) % 4096;
    let end = bytes.len().min(done + (4096 - at));
    put_in(&mut pages[(address + done) / 4096], at, &bytes[done..end]);
    end
}

/// Writes bytes into pages that are there.
pub(crate) fn fill(text: &[u8], pages: &mut Vec<Option<Page>>, address: usize, bytes: &[u8])
    requires behind { length text.now / 4096 * 4096 ≤ address }
    requires inside { address + length bytes.now ≤ 4096 * length pages.old.items }
    requires most { length pages.old.items ≤ 2 ^ 20 }
    requires whole { AreWhole (shown text.now pages.old.items) }
    requires present { missing_pages (map is_there (shown text.now pages.old.items)) address (length bytes.now) ≡ 0 }
    ensures bytes { all_bytes (shown text.now pages.new.items)
        ≡ overwritten (all_bytes (shown text.now pages.old.items)) address bytes.now }
    ensures there { map is_there (shown text.now pages.new.items) ≡ map is_there (shown text.now pages.old.items) }
    ensures whole { AreWhole (shown text.now pages.new.items) }
    ensures long { length pages.new.items ≡ length pages.old.items }
{
    let mut done = 0;
    while done < bytes.len() {
        done = fill_page(text, pages, address, bytes, done);
    }
}

/// Writes bytes, in pages that are made where they aren't there. The only error is want of memory for these, and leaves
/// all as it was.
pub(crate) fn write(
    text: &[u8],
    pages: &mut Vec<Option<Page>>,
    alloc: Global,
    address: usize,
    bytes: &[u8],
) -> Result<(), AllocError>
    requires behind { length text.now / 4096 * 4096 ≤ address }
    requires inside { address + length bytes.now ≤ 4096 * length pages.old.items }
    requires most { length pages.old.items ≤ 2 ^ 20 }
    requires whole { AreWhole (shown text.now pages.old.items) }
    ensures bytes { OnOk result
        (all_bytes (shown text.now pages.new.items)
        ≡ overwritten (all_bytes (shown text.now pages.old.items)) address bytes.now) }
    ensures there { OnOk result (map is_there (shown text.now pages.new.items)
        ≡ written_pages (map is_there (shown text.now pages.old.items)) address (length bytes.now)) }
    ensures whole { OnOk result (AreWhole (shown text.now pages.new.items)) }
    ensures long { OnOk result (length pages.new.items ≡ length pages.old.items) }
    ensures unchanged { OnErr result (pages.new.items ≡ pages.old.items) }
    ensures takes_no_memory { missing_pages (map is_there (shown text.now pages.old.items)) address (length bytes.now) ≡ 0 → IsOk result }
{
    let count = bytes.len() as u64;
    let mut spares = SparePages::new(alloc);
    spares.make_up_to(missing(text, pages.as_slice(), address as u64, count))?;
    place(text, pages, &mut spares, address as u64, count);
    fill(text, pages, address, bytes);
    Ok(())
}

/// Copies `count` bytes from `at` on of a page that isn't held into `out` from `done` on.
fn copy_absent(rest: &[u8], at: usize, out: &mut [u8], done: usize, count: usize)
    requires inside { at + count ≤ 4096 }
    requires room { done + count ≤ length out.old }
    ensures { out.new ≡ overwritten out.old done (take count (drop at (page_bytes (shown_page rest.now None)))) }
{
    if is_text(rest) {
        put(out, done, &rest[at..at + count]);
    } else {
        put(out, done, &[0; 4096][..count]);
    }
}

/// Copies `count` bytes of a page from `at` on into `out` from `done` on.
fn copy_part(rest: &[u8], page: &Option<Page>, at: usize, out: &mut [u8], done: usize, count: usize)
    requires inside { at + count ≤ 4096 }
    requires room { done + count ≤ length out.old }
    ensures { out.new ≡ overwritten out.old done (take count (drop at (page_bytes (shown_page rest.now page.now)))) }
{
    match page {
        Some(page) => put(out, done, &page.bytes()[at..at + count]),
        None => copy_absent(rest, at, out, done, count),
    }
}

/// Copies those bytes from `done` on that are in one page, and says how many are done then.
fn copy_page(
    text: &[u8],
    pages: &[Option<Page>],
    address: usize,
    out: &mut [u8],
    done: usize,
) -> usize
    requires inside { address + length out.old ≤ 4096 * length pages.now }
    requires most { length pages.now ≤ 2 ^ 20 }
    requires whole { AreWhole (shown text.now pages.now) }
    requires left { done < length out.old }
    ensures more { done < result }
    ensures end { result ≤ length out.old }
    ensures bytes { out.new
        ≡ overwritten out.old done
        (take (result - done) (drop (address + done) (all_bytes (shown text.now pages.now)))) }
{
    let at = (address + done) % 4096;
    let end = out.len().min(done + (4096 - at));
    let number = (address + done) / 4096;
    copy_part(
        rest_of(text, number),
        &pages[number],
        at,
        out,
        done,
        end - done,
    );
    end
}

/// Copies the bytes from an address on into all of `out`.
pub(crate) fn copy(text: &[u8], pages: &[Option<Page>], address: usize, out: &mut [u8])
    requires inside { address + length out.old ≤ 4096 * length pages.now }
    requires most { length pages.now ≤ 2 ^ 20 }
    requires whole { AreWhole (shown text.now pages.now) }
    ensures { out.new ≡ take (length out.old) (drop address (all_bytes (shown text.now pages.now))) }
{
    let mut done = 0;
    while done < out.len() {
        done = copy_page(text, pages, address, out, done);
    }
}

/// A copy of one page, if it is there.
fn try_copy_page(page: &Option<Page>, alloc: Global) -> Result<Option<Page>, AllocError>
    ensures { IfOk result (λ copy. copy ≡ page.now) }
{
    match page {
        Some(page) => Ok(Some(page.try_copy(alloc)?)),
        None => Ok(None),
    }
}

/// The same pages, those that are there in memory of their own. The only error is want of memory.
pub(crate) fn try_copy(
    pages: &[Option<Page>],
    alloc: Global,
) -> Result<Vec<Option<Page>>, AllocError>
    ensures { IfOk result (λ copies. copies.items ≡ pages.now) }
{
    let mut copies = Vec::new(alloc);
    for page in pages {
        copies.push(try_copy_page(page, alloc)?)?;
    }
    Ok(copies)
}
