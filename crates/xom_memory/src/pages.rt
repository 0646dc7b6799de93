//! Pages in a list, the last one first, so that a list is no longer than what was written needs.
//!
//! A page is made at the first write to it, and no read makes one. A write makes all its pages
//! before it changes a byte.

ghost use Rattle.std.specs.Prelude.{◌≡◌, ℕ, ◌+◌, ◌-◌, ◌*◌, ◌/◌, ◌^◌, ◌<◌, ◌≤◌, true, IsTrue, OnOk, OnErr, IfOk, MatchOption, None, Some, length, take, drop, slice_index_or};
ghost use Rattle.std.specs.Option.{is_some};
ghost use Rattle.xom_memory.specs.Access.{page_in};
ghost use Rattle.rd_num.specs.Number.{le_number};
ghost use Rattle.xom_memory.specs.Pages.{zeros, put_at, page_bytes, page_at, is_made, laid, page_of, PutOnce};

use crate::page::{PAGE_BYTES, Page};
use crate::word::word_of;
use rd_num::width::NoMemory;
use std::alloc::Global;

// Reads bytes of a page; those of a page that isn't made are zero.
#[tactic(auto, using(crate::proofs::Laid::made_part, crate::proofs::Laid::unmade_part))]
fn read_page(page: &Option<Page>, offset: usize, out: &mut [u8])
    requires { offset + length out.old ≤ 4096 }
    ensures { out.new ≡ take (length out.old) (drop offset (page_bytes page.now)) }
{
    match page {
        Some(page) => out.copy_from_slice(&page.bytes()[offset..offset + out.len()]),
        None => out.fill(0),
    }
}

// The same of the page with an index, which may be behind the list.
fn read_part(pages: &[Option<Page>], k: usize, offset: usize, out: &mut [u8])
    requires { offset + length out.old ≤ 4096 }
    ensures { out.new ≡ take (length out.old) (drop offset (page_bytes (page_at pages.now k))) }
{
    match pages.get(k) {
        Some(page) => read_page(page, offset, out),
        None => read_page(&None, offset, out),
    }
}

// Reads as far as the end of a page, and answers how many bytes.
#[tactic(auto, using(crate::proofs::Laid::read_laid))]
fn read_front(pages: &[Option<Page>], count: usize, from: usize, out: &mut [u8]) -> usize
    requires within { from + length out.old ≤ 4096 * count }
    requires small { count < 2 ^ 40 }
    requires some { 0 < length out.old }
    ensures some { 0 < result }
    ensures within { result ≤ length out.old }
    ensures front { take result out.new ≡ take result (drop from (laid count pages.now)) }
{
    let offset = from % PAGE_BYTES;
    let size = out.len().min(PAGE_BYTES - offset);
    read_part(
        pages,
        count - 1 - from / PAGE_BYTES,
        offset,
        &mut out[..size],
    );
    size
}

/// How many pages stand before all those in the list.
#[tactic(auto, using(crate::proofs::Laid::blank_front))]
pub fn unmade(pages: &[Option<Page>], count: usize) -> usize
    ensures blank { take (4096 * result) (laid count pages.now) ≡ zeros (4096 * result) }
    ensures within { result ≤ count }
{
    count.saturating_sub(pages.len())
}

/// A page by its index from the lowest, where it is made.
#[tactic(auto, using(crate::proofs::Laid::page_laid, crate::proofs::Laid::none_is, crate::proofs::Laid::page_is))]
pub fn page(pages: &[Option<Page>], count: usize, i: usize) -> Option<&[u8]>
    requires { i < count }
    ensures { let page = page_in (laid count pages.now) i in
        MatchOption result (page ≡ zeros 4096) (λ b. b.now ≡ page) }
{
    match pages.get(count - 1 - i) {
        Some(Some(page)) => Some(page.bytes()),
        _ => None,
    }
}

/// Reads the bytes from an index on.
#[tactic(auto, using(crate::proofs::Laid::read_more))]
pub fn read(pages: &[Option<Page>], count: usize, from: usize, out: &mut [u8])
    requires within { from + length out.old ≤ 4096 * count }
    requires small { count < 2 ^ 40 }
    ensures { out.new ≡ take (length out.old) (drop from (laid count pages.now)) }
{
    let mut done = 0;
    while done < out.len() {
        done += read_front(pages, count, from + done, &mut out[done..]);
    }
}

// The word that so many bytes of a page spell; it is 0 where the page isn't made.
#[inline(always)]
#[tactic(auto, using(crate::proofs::Laid::made_part, crate::proofs::Laid::unmade_part, crate::proofs::Words::le_number_zeros))]
fn page_word<const N: usize>(pages: &[Option<Page>], k: usize, offset: usize) -> u64
    requires within { offset + N ≤ 4096 }
    requires few { N ≤ 8 }
    ensures { result ≡ le_number (take N (drop offset (page_bytes (page_at pages.now k)))) }
{
    match pages.get(k) {
        Some(Some(page)) => word_of::<N>(&page.bytes()[offset..offset + N]),
        _ => 0,
    }
}

/// The word that so many bytes from an index on spell.
#[inline(always)]
#[tactic(auto, using(crate::proofs::Laid::read_laid))]
pub fn word<const N: usize>(pages: &[Option<Page>], count: usize, from: usize) -> u64
    requires within { from + N ≤ 4096 * count }
    requires small { count < 2 ^ 40 }
    requires some { 0 < N }
    requires few { N ≤ 8 }
    ensures { result ≡ le_number (take N (drop from (laid count pages.now))) }
{
    let offset = from % PAGE_BYTES;
    if N <= PAGE_BYTES - offset {
        page_word::<N>(pages, count - 1 - from / PAGE_BYTES, offset)
    } else {
        straddling::<N>(pages, count, from)
    }
}

// The same where the bytes may be in two pages.
#[inline(never)]
#[tactic(auto, using(crate::proofs::Words::take_known))]
fn straddling<const N: usize>(pages: &[Option<Page>], count: usize, from: usize) -> u64
    requires within { from + N ≤ 4096 * count }
    requires small { count < 2 ^ 40 }
    requires few { N ≤ 8 }
    ensures { result ≡ le_number (take N (drop from (laid count pages.now))) }
{
    let mut room = [0; 8];
    read(pages, count, from, &mut room[..N]);
    word_of::<N>(&room[..N])
}

/// Puts bytes that lie in one page that is made, and answers whether they do; else nothing changes.
#[inline(always)]
#[tactic(auto, using(crate::proofs::Laid::put_laid))]
pub fn put_once(pages: &mut [Option<Page>], count: usize, from: usize, bytes: &[u8]) -> bool
    requires within { from + length bytes.now ≤ 4096 * count }
    requires small { count < 2 ^ 40 }
    requires some { 0 < length bytes.now }
    ensures { PutOnce result from bytes.now (laid count pages.old) (laid count pages.new) }
{
    let offset = from % PAGE_BYTES;
    let k = count - 1 - from / PAGE_BYTES;
    if bytes.len() > PAGE_BYTES - offset || k >= pages.len() || pages[k].is_none() {
        return false;
    }
    put_page(&mut pages[k], offset, bytes);
    true
}

// Makes a page, unless it is made.
#[tactic(auto, using(crate::proofs::Laid::new_page))]
fn make(alloc: Global, page: &mut Option<Page>) -> Result<(), NoMemory>
    ensures same { page_bytes page.new ≡ page_bytes page.old }
    ensures made { OnOk result (is_some page.new ≡ true) }
    ensures kept { OnErr result (page.new ≡ page.old) }
{
    if page.is_none() {
        let new = Page::new(alloc)?;
        *page = Some(new);
    }
    Ok(())
}

// Makes the pages with some indices.
#[tactic(auto, using(crate::proofs::Laid::same_laid))]
fn make_all(
    alloc: Global,
    pages: &mut [Option<Page>],
    low: usize,
    high: usize,
) -> Result<(), NoMemory>
    requires { high ≤ length pages.old }
    ensures same { (n : ℕ) → laid n pages.new ≡ laid n pages.old }
    ensures made { OnOk result ((k : ℕ) → low ≤ k → k < high → is_made pages.new k ≡ true) }
{
    for k in low..high {
        make(alloc, &mut pages[k])?;
    }
    Ok(())
}

// Lengthens the list to a number of pages, the new ones not made.
#[tactic(auto, using(crate::proofs::Laid::longer_laid))]
fn reach(pages: &mut Vec<Option<Page>>, high: usize) -> Result<(), NoMemory>
    ensures same { (n : ℕ) → high ≤ n → laid n pages.new.items ≡ laid n pages.old.items }
    ensures long { OnOk result (high ≤ length pages.new.items) }
{
    while pages.len() < high {
        match pages.push(None) {
            Ok(()) => {}
            Err(_) => return Err(NoMemory),
        }
    }
    Ok(())
}

/// Makes the pages of the bytes from an index on.
///
/// After an error some of them may be made, and all bytes are as they were.
#[tactic(auto, using(crate::proofs::Laid::page_range))]
pub fn prepare(
    alloc: Global,
    pages: &mut Vec<Option<Page>>,
    count: usize,
    from: usize,
    len: usize,
) -> Result<(), NoMemory>
    requires within { from + len ≤ 4096 * count }
    requires small { count < 2 ^ 40 }
    requires some { 0 < len }
    ensures same { laid count pages.new.items ≡ laid count pages.old.items }
    ensures made { OnOk result ((i : ℕ) → i < len →
        is_made pages.new.items (page_of count (from + i)) ≡ true) }
{
    let low = count - 1 - (from + len - 1) / PAGE_BYTES;
    let high = count - from / PAGE_BYTES;
    reach(pages, high)?;
    make_all(alloc, pages.as_mut_slice(), low, high)
}

// Puts bytes in a page that is made.
#[inline(always)]
#[tactic(auto, using(crate::proofs::Laid::put_page))]
fn put_page(page: &mut Option<Page>, offset: usize, bytes: &[u8])
    requires made { is_some page.old ≡ true }
    requires within { offset + length bytes.now ≤ 4096 }
    ensures put { page_bytes page.new ≡ put_at (page_bytes page.old) offset bytes.now }
    ensures made { is_some page.new ≡ true }
{
    if let Some(page) = page {
        page.put(offset, bytes);
    }
}

// Puts bytes as far as the end of a page that is made, and answers how many.
#[tactic(auto, using(crate::proofs::Laid::put_laid, crate::proofs::Laid::made_within))]
fn put_front(pages: &mut [Option<Page>], count: usize, from: usize, bytes: &[u8]) -> usize
    requires within { from + length bytes.now ≤ 4096 * count }
    requires small { count < 2 ^ 40 }
    requires some { 0 < length bytes.now }
    requires made { is_made pages.old (page_of count from) ≡ true }
    ensures some { 0 < result }
    ensures within { result ≤ length bytes.now }
    ensures put { laid count pages.new ≡
        put_at (laid count pages.old) from (take result bytes.now) }
    ensures made { (k : ℕ) → is_made pages.old k ≡ true → is_made pages.new k ≡ true }
{
    let offset = from % PAGE_BYTES;
    let size = bytes.len().min(PAGE_BYTES - offset);
    let k = count - 1 - from / PAGE_BYTES;
    put_page(&mut pages[k], offset, &bytes[..size]);
    size
}

/// Puts bytes from an index on, where their pages are made.
#[tactic(auto, using(crate::proofs::Laid::put_more))]
pub fn put(pages: &mut [Option<Page>], count: usize, from: usize, bytes: &[u8])
    requires within { from + length bytes.now ≤ 4096 * count }
    requires small { count < 2 ^ 40 }
    requires made { (i : ℕ) → i < length bytes.now →
        is_made pages.old (page_of count (from + i)) ≡ true }
    ensures { laid count pages.new ≡ put_at (laid count pages.old) from bytes.now }
{
    let mut done = 0;
    while done < bytes.len() {
        done += put_front(pages, count, from + done, &bytes[done..]);
    }
}
