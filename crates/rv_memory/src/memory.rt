//! The bytes of a rank, with their loads, stores, fetches and ranges.
ghost use Rattle.std.specs.Prelude.{◌≡◌, ◌≢◌, ◌↔◌, ◌+◌, ◌-◌, ◌/◌, ◌%◌, ◌^◌, ◌<◌, ◌≤◌, ◌++◌, length, cond, IsOk};
ghost use Rattle.std.specs.Prelude.{IsTrue, nat_le, false, drop};
ghost use Rattle.std.specs.Prelude.{IfOk, IfSome, OnOk, OnErr, MatchOption};
ghost use Rattle.rv_memory.specs.Fetched.{IsFetched};
ghost use Rattle.std.specs.Arc.{arc_slice_items};
ghost use Rattle.rv_memory.specs.Access.{size_of, load_trap, store_trap, stored, word_at, is_readable, is_writable};
ghost use Rattle.rv_memory.specs.Access.{is_inside, IsReadable};
ghost use Rattle.rv_memory.specs.Present.{is_present, IsWritable, IsPresent};
ghost use Rattle.rv_memory.specs.Memory.{Memory, value_at, bytes_at, with_bytes, init_start, loaded_memory};
ghost use Rattle.rv_memory.specs.MorePages.{with_pages};
ghost use Rattle.rv_memory.specs.MorePages.{missing_pages};

use crate::fault::{BytesFault, Cause, StoreFault};
use crate::page::{Page, read, store, value};
use crate::pages;
use crate::spares::SparePages;
use crate::text::Text;
use rv_decode::Instr;
use std::alloc::{AllocError, Global};
use std::marker::Model;
use std::sync::ArcSlice;

/// How many bytes a load or a store moves: 1, 2, 4 or 8.
#[derive(Clone, Copy, Drop)]
pub enum Width {
    /// 1 byte.
    Byte,
    /// 2 bytes.
    Half,
    /// 4 bytes.
    Word,
    /// 8 bytes.
    Double,
}

impl Width {
    /// How many bytes it is.
    #[inline(always)]
    pub fn size(self) -> u64
        ensures value { result ≡ size_of self }
        ensures some { 0 < result }
        ensures most { result ≤ 8 }
    {
        match self {
            Width::Byte => 1,
            Width::Half => 2,
            Width::Word => 4,
            Width::Double => 8,
        }
    }
}

/// The bytes of a rank, from address 0. The first of them are the text, which no store and no write reaches.
#[derive(Drop)]
pub struct RankMemory {
    pub(crate) alloc: Global,
    /// Shared with the memories of other ranks and with copies.
    pub(crate) text: Text,
    /// Those that the text fills aren't held.
    pub(crate) pages: Vec<Option<Page>>,
}

impl Model for RankMemory {
    ghost use Rattle.std.specs.Prelude.{length, map};
    ghost use Rattle.rv_memory.specs.Held.{all_bytes, is_there, shown, IsHeld};
    ghost use Rattle.rv_memory.specs.Memory.{Memory};

    ghost Value = { Memory };

    ghost view = { λ m. record {
      bytes = all_bytes (shown m.text m.pages.items);
      text = length m.text;
      pages = map is_there (shown m.text m.pages.items);
    } };

    ghost invariant = { λ m. IsHeld m.text (shown m.text m.pages.items) };
}

impl RankMemory {
    /// The memory of a rank that is loaded: the text at address 0, the initial data behind it at a multiple of 16,
    /// and zeros elsewhere. `size` is one that an image may ask for: 4,096 to 1,048,576 bytes in whole 4,096s.
    /// Text and data fit into it. The only error is want of memory.
    pub fn new(
        alloc: Global,
        size: usize,
        text: &[u8],
        init: &[u8],
    ) -> Result<RankMemory, AllocError>
        requires least { 4096 ≤ size }
        requires most { size ≤ 2 ^ 20 }
        requires whole { size % 4096 ≡ 0 }
        requires room { init_start text.now + length init.now ≤ size }
        ensures { IfOk result (λ memory. memory ≡ loaded_memory size text.now init.now) }
    {
        RankMemory::sharing(alloc, size, ArcSlice::from_slice(alloc, text)?, init)
    }

    /// The same of a text that others may hold, which isn't copied for fetches. The only error is want of memory.
    pub fn sharing(
        alloc: Global,
        size: usize,
        text: ArcSlice<u8>,
        init: &[u8],
    ) -> Result<RankMemory, AllocError>
        requires least { 4096 ≤ size }
        requires most { size ≤ 2 ^ 20 }
        requires whole { size % 4096 ≡ 0 }
        requires room { init_start (arc_slice_items text) + length init.now ≤ size }
        ensures { IfOk result (λ memory. memory ≡ loaded_memory size (arc_slice_items text) init.now) }
    {
        let text = Text::new(alloc, text)?;
        let bytes = text.as_slice();
        let whole = bytes.len() / 4096 * 4096;
        let start = (bytes.len() + 15) / 16 * 16;
        let mut pages = pages::none(alloc, size / 4096)?;
        pages::write(bytes, &mut pages, alloc, whole, &bytes[whole..])?;
        pages::write(bytes, &mut pages, alloc, start, init)?;
        Ok(RankMemory { alloc, text, pages })
    }

    /// The same bytes and text, in pages of its own. The text for fetches is shared. The only error is want of memory.
    pub fn try_copy(&self, alloc: Global) -> Result<RankMemory, AllocError>
        ensures { IfOk result (λ copy. copy ≡ self.now) }
    {
        Ok(RankMemory {
            alloc,
            text: self.text.share()?,
            pages: pages::try_copy(self.pages.as_slice(), alloc)?,
        })
    }

    /// How many bytes there are, text and all.
    #[inline(always)]
    pub fn size(&self) -> u64
        ensures value { result ≡ length self.now.bytes }
        ensures least { 4096 ≤ result }
        ensures most { result ≤ 2 ^ 20 }
    {
        self.pages.len() as u64 * 4096
    }

    /// The word at a pc, or `None` where one of its four bytes isn't text.
    #[inline(always)]
    pub fn text_word(&self, pc: u64) -> Option<u32>
        ensures { result ≡ word_at self.now pc }
    {
        self.text.word(pc)
    }

    /// The instruction of the word at a pc, where the text was decoded: `None` where it wasn't, and where there is no such
    /// word or instruction.
    #[inline(always)]
    pub fn instruction(&self, pc: u64) -> Option<Instr>
        ensures { IfSome result (IsFetched self.now pc) }
    {
        self.text.instruction(pc)
    }

    /// Decodes the words of the text, each once, for the fetches that come: here and in copies. The only error is want of
    /// memory.
    pub fn decode_text(&mut self) -> Result<(), AllocError>
        ensures { self.new ≡ self.old }
    {
        self.text.decode(self.alloc)
    }

    /// Does so by what another memory decoded, which isn't copied. Nothing is done where the texts differ. The only error is
    /// that 2^63 - 1 hold it already.
    pub fn decode_as(&mut self, other: &RankMemory) -> Result<(), AllocError>
        ensures { self.new ≡ self.old }
    {
        self.text.decode_as(&other.text)
    }

    /// The value of the bytes at an address, zero-extended. Traps as `LoadMisaligned` where the address isn't a
    /// multiple of the width, else as `LoadAccess` where the bytes aren't all in the memory.
    #[inline(always)]
    pub fn load(&self, address: u64, width: Width) -> Result<u64, Cause>
        ensures value { IfOk result (λ value. value ≡ value_at self.now.bytes address (size_of width)) }
        ensures bound { IfOk result (λ value. value < 256 ^ size_of width) }
        ensures trap { MatchOption (load_trap self.now address (size_of width)) (IsOk result)
            (λ cause. result ≡ Err cause) }
    {
        match width {
            Width::Byte => self.load_bytes(address, Width::Byte),
            Width::Half => self.load_bytes(address, Width::Half),
            Width::Word => self.load_bytes(address, Width::Word),
            Width::Double => self.load_bytes(address, Width::Double),
        }
    }

    /// Whether the bytes of an aligned load or store are all in the memory. They are in one page, so it is enough that
    /// this is one of the memory's: one comparison.
    #[inline(always)]
    fn has_page(&self, address: u64, width: Width) -> bool
        requires aligned { address % size_of width ≡ 0 }
        ensures inside { result ≡ is_inside self.now address (size_of width) }
        ensures page { IsTrue result → address / 4096 < length self.now.pages }
    {
        ((address / 4096) as usize) < self.pages.len()
    }

    /// A load of a width that is known where this is compiled.
    #[inline(always)]
    fn load_bytes(&self, address: u64, width: Width) -> Result<u64, Cause>
        ensures value { IfOk result (λ value. value ≡ value_at self.now.bytes address (size_of width)) }
        ensures bound { IfOk result (λ value. value < 256 ^ size_of width) }
        ensures trap { MatchOption (load_trap self.now address (size_of width)) (IsOk result)
            (λ cause. result ≡ Err cause) }
    {
        let size = width.size();
        if address % size != 0 {
            return Err(Cause::LoadMisaligned);
        }
        if !self.has_page(address, width) {
            return Err(Cause::LoadAccess);
        }
        let page = &self.pages[(address / 4096) as usize];
        Ok(read(page, self.text.as_slice(), address as usize, size as usize))
    }

    /// The trap of a store, or `None` where it doesn't trap: `StoreMisaligned` where the address isn't a multiple of
    /// the width, else `StoreAccess` where the bytes aren't all in the memory or are text.
    pub fn store_trap(&self, address: u64, width: Width) -> Option<Cause>
        ensures { result ≡ store_trap self.now address (size_of width) }
    {
        let size = width.size();
        if address % size != 0 {
            return Some(Cause::StoreMisaligned);
        }
        if !self.in_range(address, size, true) {
            return Some(Cause::StoreAccess);
        }
        None
    }

    /// Writes the lowest bytes of a value. Traps as `StoreMisaligned` where the address isn't a multiple of the
    /// width, else as `StoreAccess` where the bytes aren't all in the memory or are text. `Memory` where their page
    /// isn't there, and there is no memory for it.
    #[inline(always)]
    pub fn store(&mut self, address: u64, width: Width, value: u64) -> Result<(), StoreFault>
        ensures stored { OnOk result (self.new ≡ stored self.old address (size_of width) value) }
        ensures trap { MatchOption (store_trap self.old address (size_of width))
            (result ≢ Err StoreFault.Memory → IsOk result)
            (λ cause. result ≡ Err (StoreFault.Trap cause)) }
        ensures unchanged { OnErr result (self.new ≡ self.old) }
        ensures takes_no_memory { IsPresent self.old address (size_of width) → result ≢ Err StoreFault.Memory }
    {
        match width {
            Width::Byte => self.store_bytes(address, Width::Byte, value),
            Width::Half => self.store_bytes(address, Width::Half, value),
            Width::Word => self.store_bytes(address, Width::Word, value),
            Width::Double => self.store_bytes(address, Width::Double, value),
        }
    }

    /// A store of a width that is known where this is compiled.
    #[inline(always)]
    fn store_bytes(&mut self, address: u64, width: Width, value: u64) -> Result<(), StoreFault>
        ensures stored { OnOk result (self.new ≡ stored self.old address (size_of width) value) }
        ensures trap { MatchOption (store_trap self.old address (size_of width))
            (result ≢ Err StoreFault.Memory → IsOk result)
            (λ cause. result ≡ Err (StoreFault.Trap cause)) }
        ensures unchanged { OnErr result (self.new ≡ self.old) }
        ensures takes_no_memory { IsPresent self.old address (size_of width) → result ≢ Err StoreFault.Memory }
    {
        let size = width.size();
        if address % size != 0 {
            return Err(StoreFault::Trap(Cause::StoreMisaligned));
        }
        if !self.has_page(address, width) || address < self.text.len() as u64 {
            return Err(StoreFault::Trap(Cause::StoreAccess));
        }
        let page = &mut self.pages[(address / 4096) as usize];
        let at = (address % 4096) as usize;
        store(page, self.alloc, at, value, size as usize)
    }

    /// The value of the 8 bytes at an address in the memory, which needs no alignment.
    pub fn word(&self, address: u64) -> u64
        requires { address + 8 ≤ length self.now.bytes }
        ensures { result ≡ value_at self.now.bytes address 8 }
    {
        // where the address is aligned they are in one page
        if let Ok(value) = self.load_bytes(address, Width::Double) {
            return value;
        }
        let mut bytes = [0; 8];
        pages::copy(
            self.text.as_slice(),
            self.pages.as_slice(),
            address as usize,
            &mut bytes,
        );
        value(&bytes, 0, 8)
    }

    /// Whether `count` bytes from an address on may be read, or with `writing` be written: they are all in the memory
    /// and, where they are written, none is text. A range of 0 bytes is always right, whatever its address.
    pub fn in_range(&self, address: u64, count: u64, writing: bool) -> bool
        ensures { result ≡ cond writing (is_writable self.now address count) (is_readable self.now address count) }
    {
        if count == 0 {
            return true;
        }
        if count > self.size() || address > self.size() - count {
            return false;
        }
        !writing || self.text.len() as u64 <= address
    }

    /// Whether a write of `count` bytes from an address on takes no memory: they are all in the memory, and the pages
    /// that they touch are there. A range of 0 bytes is always present, whatever its address.
    pub fn present(&self, address: u64, count: u64) -> bool
        ensures { result ≡ is_present self.now address count }
    {
        self.in_range(address, count, false) && (count == 0 || self.missing(address, count) == 0)
    }

    /// How many of the pages that `count` bytes from an address on touch aren't there, 256 at most.
    pub fn missing(&self, address: u64, count: u64) -> usize
        ensures value { result ≡ missing_pages self.now.pages address count }
        ensures most { result ≤ 256 }
    {
        pages::missing(self.text.as_slice(), self.pages.as_slice(), address, count)
    }

    /// Puts the bytes from an address on into the front of `out`, as many as are in the memory and `out` has room for,
    /// and says how many those are. The rest of `out` stays. Takes no memory.
    pub fn read_into(&self, address: u64, out: &mut [u8]) -> usize
        ensures count { result ≡ length (bytes_at self.now address (length out.old)) }
        ensures read { out.new ≡ bytes_at self.now address (length out.old) ++ drop result out.old }
    {
        if address >= self.size() {
            return 0;
        }
        let count = out.len().min((self.size() - address) as usize);
        pages::copy(
            self.text.as_slice(),
            self.pages.as_slice(),
            address as usize,
            &mut out[..count],
        );
        count
    }

    /// A copy of `count` bytes from an address on. `Range` where one isn't in the memory, `Memory` where there is none
    /// for the copy. Zero bytes are right at any address, and take no memory.
    pub fn read_bytes(&self, alloc: Global, address: u64, count: u64) -> Result<Vec<u8>, BytesFault>
        ensures read { IfOk result (λ bytes. bytes.items ≡ bytes_at self.now address count) }
        ensures range { (result ≡ Err BytesFault.Range) ↔ ¬ (IsReadable self.now address count) }
        ensures no_bytes { count ≡ 0 → IsOk result }
    {
        if !self.in_range(address, count, false) {
            return Err(BytesFault::Range);
        }
        if count == 0 {
            return Ok(Vec::new(alloc));
        }
        match self.read_out(alloc, address as usize, count as usize) {
            Ok(bytes) => Ok(bytes),
            Err(_) => Err(BytesFault::Memory),
        }
    }

    /// A copy of bytes that are in the memory.
    fn read_out(&self, alloc: Global, address: usize, count: usize) -> Result<Vec<u8>, AllocError>
        requires { address + count ≤ length self.now.bytes }
        ensures { IfOk result (λ bytes. bytes.items ≡ bytes_at self.now address count) }
    {
        let mut bytes = Vec::new(alloc);
        bytes.resize(count, 0)?;
        pages::copy(
            self.text.as_slice(),
            self.pages.as_slice(),
            address,
            bytes.as_mut_slice(),
        );
        Ok(bytes)
    }

    /// Writes all the bytes from an address on, or none. `Range` where one would be outside the memory or in the text;
    /// `Memory` where a page that they touch isn't there, and there is no memory for it.
    pub fn write_bytes(&mut self, address: u64, bytes: &[u8]) -> Result<(), BytesFault>
        ensures written { OnOk result (self.new ≡ with_bytes self.old address bytes.now) }
        ensures range { (result ≡ Err BytesFault.Range) ↔ ¬ (IsWritable self.old address (length bytes.now)) }
        ensures unchanged { OnErr result (self.new ≡ self.old) }
        ensures takes_no_memory { IsPresent self.old address (length bytes.now) → result ≢ Err BytesFault.Memory }
    {
        let count = bytes.len() as u64;
        if !self.in_range(address, count, true) {
            return Err(BytesFault::Range);
        }
        if bytes.is_empty() {
            return Ok(());
        }
        match pages::write(
            self.text.as_slice(),
            &mut self.pages,
            self.alloc,
            address as usize,
            bytes,
        ) {
            Ok(()) => Ok(()),
            Err(_) => Err(BytesFault::Memory),
        }
    }

    /// Writes all the bytes from an address on, or none, in pages that are there or are spare. Takes no memory. `Range`
    /// where a byte would be outside the memory or in the text; `Memory` where there are fewer spare pages than pages
    /// are missing. Only the missing ones are taken from the spares.
    pub fn write_with(
        &mut self,
        spares: &mut SparePages,
        address: u64,
        bytes: &[u8],
    ) -> Result<(), BytesFault>
        ensures written { OnOk result (self.new ≡ with_bytes self.old address bytes.now) }
        ensures taken { OnOk result
            (spares.new + missing_pages self.old.pages address (length bytes.now) ≡ spares.old) }
        ensures range { (result ≡ Err BytesFault.Range) ↔ ¬ (IsWritable self.old address (length bytes.now)) }
        ensures unchanged { OnErr result (self.new ≡ self.old) }
        ensures kept { OnErr result (spares.new ≡ spares.old) }
        ensures enough { missing_pages self.old.pages address (length bytes.now) ≤ spares.old
            → result ≢ Err BytesFault.Memory }
    {
        let count = bytes.len() as u64;
        if !self.in_range(address, count, true) {
            return Err(BytesFault::Range);
        }
        if !self.place(spares, address, count) {
            return Err(BytesFault::Memory);
        }
        self.write_present(address, bytes);
        Ok(())
    }

    /// Makes the pages that `count` bytes from an address on touch, from spare pages. Takes no memory. The bytes stay:
    /// a new page is all zeros, as it read before. Where there are fewer spare pages than pages are missing it answers
    /// false, and all stays.
    pub fn place(&mut self, spares: &mut SparePages, address: u64, count: u64) -> bool
        ensures enough { result ≡ nat_le (missing_pages self.old.pages address count) spares.old }
        ensures placed { IsTrue result → self.new ≡ with_pages self.old address count }
        ensures taken { IsTrue result → spares.new + missing_pages self.old.pages address count ≡ spares.old }
        ensures unchanged { result ≡ false → self.new ≡ self.old }
        ensures kept { result ≡ false → spares.new ≡ spares.old }
    {
        let missing = self.missing(address, count);
        // mostly they are all there
        if missing == 0 {
            return true;
        }
        if spares.len() < missing {
            return false;
        }
        pages::place(
            self.text.as_slice(),
            &mut self.pages,
            spares,
            address,
            count,
        );
        true
    }

    /// Writes all the bytes from an address on, where they may be written and all pages that they touch are there.
    pub fn write_present(&mut self, address: u64, bytes: &[u8])
        requires right { IsWritable self.old address (length bytes.now) }
        requires present { missing_pages self.old.pages address (length bytes.now) ≡ 0 }
        ensures { self.new ≡ with_bytes self.old address bytes.now }
    {
        if !bytes.is_empty() {
            pages::fill(
                self.text.as_slice(),
                &mut self.pages,
                address as usize,
                bytes,
            );
        }
    }
}
