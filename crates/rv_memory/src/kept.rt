//! Kept copies of a memory, which share the pages in which they are alike.
ghost use Rattle.std.specs.Prelude.{◌≡◌, ◌↔◌, IfOk, IsTrue};

use crate::memory::RankMemory;
use crate::page::Page;
use crate::text::Text;
use std::alloc::{AllocError, Global};
use std::marker::Model;
use std::sync::Arc;

/// A page that nothing changes. Each kept memory in which it stands owns it, and the last one lets it go.
#[derive(Drop)]
struct KeptPage {
    page: Arc<Page>,
}

impl Model for KeptPage {
    ghost use Rattle.std.specs.Prelude.{ℕ, List};

    ghost Value = { List ℕ };

    ghost view = { λ p. p.page.value };
}

impl KeptPage {
    /// A copy of a page, in memory of its own.
    fn of(page: &Page, alloc: Global) -> Result<KeptPage, AllocError>
        ensures { IfOk result (λ kept. kept ≡ page.now) }
    {
        let copy = page.try_copy(alloc)?;
        Ok(KeptPage {
            page: Arc::new(alloc, copy)?,
        })
    }

    /// The same page once more, which takes no memory.
    fn share(&self) -> Result<KeptPage, AllocError>
        ensures { IfOk result (λ shared. shared ≡ self.now) }
    {
        Ok(KeptPage {
            page: Arc::try_clone(&self.page)?,
        })
    }

    /// Whether it has the bytes of a page.
    fn is_of(&self, page: &Page) -> bool
        ensures { IsTrue result ↔ (self.now ≡ page.now) }
    {
        self.page.bytes() == page.bytes()
    }

    /// A page of the same bytes, in memory of its own.
    fn live(&self, alloc: Global) -> Result<Page, AllocError>
        ensures { IfOk result (λ page. page ≡ self.now) }
    {
        self.page.try_copy(alloc)
    }
}

/// A page is kept, if it is there: as the earlier one, where that has the same bytes, and else as a copy.
fn keep_page(
    page: &Option<Page>,
    earlier: Option<&Option<KeptPage>>,
    alloc: Global,
) -> Result<Option<KeptPage>, AllocError>
    ensures { IfOk result (λ kept. kept ≡ page.now) }
{
    let Some(page) = page else {
        return Ok(None);
    };
    if let Some(Some(before)) = earlier {
        if before.is_of(page) {
            return Ok(Some(before.share()?));
        }
    }
    Ok(Some(KeptPage::of(page, alloc)?))
}

/// All pages are kept, each as the earlier one of its number where that has the same bytes.
fn keep_pages(
    pages: &[Option<Page>],
    earlier: &[Option<KeptPage>],
    alloc: Global,
) -> Result<Vec<Option<KeptPage>>, AllocError>
    ensures { IfOk result (λ kept. kept.items ≡ pages.now) }
{
    let mut kept = Vec::with_capacity(alloc, pages.len())?;
    for (n, page) in pages.iter().enumerate() {
        kept.push(keep_page(page, earlier.get(n), alloc)?)?;
    }
    Ok(kept)
}

/// A page of the same bytes, if one is kept.
fn live_page(kept: &Option<KeptPage>, alloc: Global) -> Result<Option<Page>, AllocError>
    ensures { IfOk result (λ page. page ≡ kept.now) }
{
    match kept {
        Some(kept) => Ok(Some(kept.live(alloc)?)),
        None => Ok(None),
    }
}

/// The same pages, those that are there in memory of their own.
fn live_pages(kept: &[Option<KeptPage>], alloc: Global) -> Result<Vec<Option<Page>>, AllocError>
    ensures { IfOk result (λ pages. pages.items ≡ kept.now) }
{
    let mut pages = Vec::with_capacity(alloc, kept.len())?;
    for page in kept {
        pages.push(live_page(page, alloc)?)?;
    }
    Ok(pages)
}

/// Whether a page is there exactly if one is kept, with the same bytes.
fn is_same_page(kept: &Option<KeptPage>, page: &Option<Page>) -> bool
    ensures { IsTrue result ↔ (kept.now ≡ page.now) }
{
    match (kept, page) {
        (None, None) => true,
        (Some(kept), Some(page)) => kept.is_of(page),
        _ => false,
    }
}

/// Whether all pages are as they were kept.
fn are_same_pages(kept: &[Option<KeptPage>], pages: &[Option<Page>]) -> bool
    ensures { IsTrue result ↔ (kept.now ≡ pages.now) }
{
    let mut left = kept;
    let mut right = pages;
    while let Some((one, after)) = left.split_first() {
        let Some((page, beyond)) = right.split_first() else {
            return false;
        };
        if !is_same_page(one, page) {
            return false;
        }
        left = after;
        right = beyond;
    }
    right.is_empty()
}

/// A memory that is kept as it was at one time. It is never written; pages in which it is like another kept memory
/// stand once for both.
#[derive(Drop)]
pub struct KeptMemory {
    /// Shared with the memory that was kept.
    text: Text,
    pages: Vec<Option<KeptPage>>,
}

impl Model for KeptMemory {
    ghost use Rattle.std.specs.Prelude.{length, map};
    ghost use Rattle.rv_memory.specs.Held.{all_bytes, is_there, shown, IsHeld};
    ghost use Rattle.rv_memory.specs.Memory.{Memory};

    ghost Value = { Memory };

    ghost view = { λ m. record {
      bytes = all_bytes (shown m.text m.pages.items);
      text = length m.text;
      pages = map is_there (shown m.text m.pages.items);
    } };

    ghost invariant = { λ m. IsHeld m.text (shown m.text m.pages.items) };
}

impl KeptMemory {
    /// The same bytes, text and pages, to be read and written, in pages of its own: this one stays as it is. The only
    /// error is want of memory.
    pub fn live(&self, alloc: Global) -> Result<RankMemory, AllocError>
        ensures { IfOk result (λ memory. memory ≡ self.now) }
    {
        Ok(RankMemory {
            alloc,
            text: self.text.share()?,
            pages: live_pages(self.pages.as_slice(), alloc)?,
        })
    }

    /// Whether a memory has the same bytes, the same text and the same pages. It takes no memory.
    pub fn is_of(&self, memory: &RankMemory) -> bool
        ensures { IsTrue result ↔ (self.now ≡ memory.now) }
    {
        if !self.text.is_same(&memory.text) {
            return false;
        }
        // pages that the text fills show it, whether they are held or not
        let full = self.text.len() / 4096;
        let (_, kept) = self.pages.as_slice().split_at(full);
        let (_, pages) = memory.pages.as_slice().split_at(full);
        are_same_pages(kept, pages)
    }
}

impl RankMemory {
    /// The memory as it is now, kept: a later write doesn't show in it. A page whose bytes are those of the page of its
    /// number in the earlier one stands once for both, and takes no memory. The only error is want of memory.
    pub fn keep(
        &self,
        alloc: Global,
        earlier: Option<&KeptMemory>,
    ) -> Result<KeptMemory, AllocError>
        ensures { IfOk result (λ kept. kept ≡ self.now) }
    {
        let pages = match earlier {
            Some(earlier) => keep_pages(self.pages.as_slice(), earlier.pages.as_slice(), alloc)?,
            None => keep_pages(self.pages.as_slice(), &[], alloc)?,
        };
        Ok(KeptMemory {
            text: self.text.share()?,
            pages,
        })
    }
}
