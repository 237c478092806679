//! One page: 4,096 bytes in memory of their own.
ghost use Rattle.std.specs.Prelude.{◌≡◌, ◌+◌, ◌-◌, ◌^◌, ◌<◌, ◌≤◌, ◌++◌, length, replicate, IfOk, OnOk, OnErr, IsOk};
ghost use Rattle.std.specs.Prelude.{true, false, not, Option, None, ◌≢◌, ◌*◌, ◌/◌, ◌%◌, drop, nat_le};
ghost use Rattle.rv_memory.specs.Held.{blank_page, page_bytes, is_there, shown_page};
ghost use Rattle.rv_memory.specs.Memory.{value_at, bytes_of, overwritten};

use crate::fault::StoreFault;
use std::alloc::{AllocError, Global};
use std::marker::Model;

/// 4,096 bytes.
#[derive(Drop)]
pub(crate) struct Page {
    bytes: Box<[u8; 4096]>,
}

impl Model for Page {
    ghost use Rattle.std.specs.Prelude.{◌≡◌, ℕ, List, length};

    ghost Value = { List ℕ };

    ghost view = { λ p. p.bytes.value };

    ghost invariant = { λ p. length p.bytes.value ≡ 4096 };
}

/// Bytes, 8 at most, with zeros behind them.
#[inline(always)]
fn widened(bytes: &[u8]) -> [u8; 8]
    requires { length bytes.now ≤ 8 }
    ensures { result ≡ bytes.now ++ replicate (8 - length bytes.now) 0 }
{
    let mut wide = [0; 8];
    wide[..bytes.len()].copy_from_slice(bytes);
    wide
}

/// The value of `count` bytes, 8 at most, from a place on. With a constant count it compiles to one load.
#[inline(always)]
pub(crate) fn value(bytes: &[u8], at: usize, count: usize) -> u64
    requires inside { at + count ≤ length bytes.now }
    requires most { count ≤ 8 }
    ensures value { result ≡ value_at bytes.now at count }
    ensures bound { result < 256 ^ count }
{
    u64::from_le_bytes(widened(&bytes[at..at + count]))
}

/// Puts other bytes from a place on.
#[inline(always)]
pub(crate) fn put(bytes: &mut [u8], at: usize, new: &[u8])
    requires { at + length new.now ≤ length bytes.old }
    ensures { bytes.new ≡ overwritten bytes.old at new.now }
{
    bytes[at..at + new.len()].copy_from_slice(new);
}

impl Page {
    /// A page of zeros. The only error is want of memory.
    #[inline(never)]
    #[tactic(auto, unfolding(crate::specs::Held::blank_page))]
    pub(crate) fn blank(alloc: Global) -> Result<Page, AllocError>
        ensures { IfOk result (λ page. page ≡ blank_page) }
    {
        Ok(Page {
            bytes: Box::new(alloc, [0; 4096])?,
        })
    }

    /// The same bytes, in memory of their own. The only error is want of memory.
    pub(crate) fn try_copy(&self, alloc: Global) -> Result<Page, AllocError>
        ensures { IfOk result (λ copy. copy ≡ self.now) }
    {
        Ok(Page {
            bytes: Box::new(alloc, *self.bytes)?,
        })
    }

    /// The page's bytes.
    #[inline(always)]
    pub(crate) fn bytes(&self) -> &[u8]
        ensures bytes { result.now ≡ self.now }
        ensures length { length self.now ≡ 4096 }
    {
        &*self.bytes
    }

    /// Puts other bytes from a place on.
    #[inline(always)]
    pub(crate) fn put(&mut self, at: usize, new: &[u8])
        requires { at + length new.now ≤ 4096 }
        ensures put { self.new ≡ overwritten self.old at new.now }
        ensures length { length self.new ≡ 4096 }
    {
        put(&mut *self.bytes, at, new);
    }

    /// Puts the lowest `count` bytes of a value, 8 at most, from a place on. With a constant count it compiles to one
    /// store.
    #[inline(always)]
    pub(crate) fn put_value(&mut self, at: usize, value: u64, count: usize)
        requires inside { at + count ≤ 4096 }
        requires most { count ≤ 8 }
        ensures put { self.new ≡ overwritten self.old at (bytes_of value count) }
        ensures length { length self.new ≡ 4096 }
    {
        self.put(at, &value.to_le_bytes()[..count]);
    }
}

/// Whether a page isn't there.
#[inline(always)]
pub(crate) fn is_missing(page: &Option<Page>) -> bool
    ensures { result ≡ not (is_there page.now) }
{
    page.is_none()
}

/// What there is of the text from a page's first byte on.
pub(crate) fn rest_of(text: &[u8], page: usize) -> &[u8]
    requires { page < 2 ^ 20 }
    ensures { result.now ≡ drop (page * 4096) text.now }
{
    &text[(page * 4096).min(text.len())..]
}

/// Whether the text fills a page, so that the page needn't be held. `rest` is what there is of the text from the page's
/// first byte on.
pub(crate) fn is_text(rest: &[u8]) -> bool
    ensures { result ≡ nat_le 4096 (length rest.now) }
{
    4096 <= rest.len()
}

/// The value of `count` bytes, 8 at most, of a page that isn't held. It stands by itself, so that what each load does of
/// its own stays small.
#[inline(never)]
fn read_absent(text: &[u8], address: usize, count: usize) -> u64
    requires number { address < 2 ^ 20 }
    requires inside { address % 4096 + count ≤ 4096 }
    requires most { count ≤ 8 }
    ensures value { result
        ≡ value_at (page_bytes (shown_page (drop (address / 4096 * 4096) text.now) None)) (address % 4096) count }
    ensures bound { result < 256 ^ count }
{
    let rest = rest_of(text, address / 4096);
    if is_text(rest) {
        value(rest, address % 4096, count)
    } else {
        0
    }
}

/// The value of `count` bytes, 8 at most, of the page that has the address. Where it isn't held it is text or zeros.
#[inline(always)]
pub(crate) fn read(page: &Option<Page>, text: &[u8], address: usize, count: usize) -> u64
    requires number { address < 2 ^ 20 }
    requires inside { address % 4096 + count ≤ 4096 }
    requires most { count ≤ 8 }
    ensures value { result
        ≡ value_at (page_bytes (shown_page (drop (address / 4096 * 4096) text.now) page.now)) (address % 4096) count }
    ensures bound { result < 256 ^ count }
{
    match page {
        Some(page) => value(page.bytes(), address % 4096, count),
        None => read_absent(text, address, count),
    }
}

/// Makes a page that isn't there, with the lowest `count` bytes of a value, 8 at most. The only fault is want of memory,
/// and leaves it as it was. It stands by itself, so that what each store does of its own stays small.
#[inline(never)]
fn make_with(
    page: &mut Option<Page>,
    alloc: Global,
    at: usize,
    value: u64,
    count: usize,
) -> Result<(), StoreFault>
    requires inside { at + count ≤ 4096 }
    requires most { count ≤ 8 }
    requires missing { is_there page.old ≡ false }
    ensures put { OnOk result (page_bytes page.new ≡ overwritten (page_bytes page.old) at (bytes_of value count)) }
    ensures there { OnOk result (is_there page.new ≡ true) }
    ensures length { OnOk result (length (page_bytes page.new) ≡ 4096) }
    ensures unchanged { OnErr result (page.new ≡ page.old) }
    ensures only { result ≢ Err StoreFault.Memory → IsOk result }
{
    let Ok(mut made) = Page::blank(alloc) else {
        return Err(StoreFault::Memory);
    };
    made.put_value(at, value, count);
    *page = Some(made);
    Ok(())
}

/// Puts the lowest `count` bytes of a value, 8 at most, into a page, which is made where it isn't there. The only fault
/// is want of memory for it, and leaves it as it was.
#[inline(always)]
pub(crate) fn store(
    page: &mut Option<Page>,
    alloc: Global,
    at: usize,
    value: u64,
    count: usize,
) -> Result<(), StoreFault>
    requires inside { at + count ≤ 4096 }
    requires most { count ≤ 8 }
    ensures put { OnOk result (page_bytes page.new ≡ overwritten (page_bytes page.old) at (bytes_of value count)) }
    ensures there { OnOk result (is_there page.new ≡ true) }
    ensures length { OnOk result (length (page_bytes page.new) ≡ 4096) }
    ensures unchanged { OnErr result (page.new ≡ page.old) }
    ensures only { result ≢ Err StoreFault.Memory → IsOk result }
    ensures takes_no_memory { is_there page.old ≡ true → IsOk result }
{
    match page {
        Some(page) => {
            page.put_value(at, value, count);
            Ok(())
        }
        None => make_with(page, alloc, at, value, count),
    }
}
