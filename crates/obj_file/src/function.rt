//! The parts of a function in a file that are rows: its code, its links, and in format 2 its cuts.
//!
//! Each function reads at `at`, which counts from the start of the file, and answers with what it read and
//! where that ends, or with the place where the bytes leave what may stand there. Words and fields are
//! read in `part`.

ghost use Rattle.std.specs.Prelude.{◌≡◌, ◌≢◌, ◌+◌, ◌≤◌, length, IfOk, IfErr};
ghost use Rattle.obj_core.specs.Object.{Each, IsField, IsLink, link_bytes, links_bytes, cuts_bytes};
ghost use Rattle.obj_file.specs.Texts.{Times, IsNumber, full, IsLinkText, RowsText, CutCodeText, CodeText, Spans, Fault};
ghost use Rattle.obj_file.specs.Spellings.{code_bytes, AreRows};

use crate::fault::FormFault;
use crate::format::Format;
use crate::part::{Part, read_bytes, read_field};
use obj_core::object::Link;
use rd_num::list::List;
use std::alloc::Global;

/// A function's code, links and cuts, and where they end.
#[derive(Drop)]
pub struct Rows {
    pub bytes: List<u8>,
    pub links: List<Link>,
    pub cuts: List<u32>,
    pub end: usize,
}

/// What follows the number of links of a function.
pub fn read_code(
    alloc: Global,
    bytes: &[u8],
    at: usize,
    format: Format,
    size: u32,
    links: u32,
) -> Result<Rows, FormFault>
    requires { at ≤ length bytes.now }
    ensures rows { IfOk result (λ r. AreRows format size links r.bytes r.links r.cuts) }
    ensures read { IfOk result (λ r. Spans bytes.now at r.end
        (code_bytes format r.bytes r.links r.cuts)) }
    ensures fault { IfErr result (λ e. Fault (CodeText format size links) bytes.now at e) }
{
    match format {
        Format::One => {
            let rows = read_uncut(alloc, bytes, at, size, links)?;
            Ok(rows)
        }
        Format::Two => {
            let rows = read_cut(alloc, bytes, at, size, links)?;
            Ok(rows)
        }
    }
}

/// Code and links.
fn read_uncut(
    alloc: Global,
    bytes: &[u8],
    at: usize,
    size: u32,
    count: u32,
) -> Result<Rows, FormFault>
    requires { at ≤ length bytes.now }
    ensures rows { IfOk result (λ r. AreRows Format.One size count r.bytes r.links r.cuts) }
    ensures read { IfOk result (λ r. Spans bytes.now at r.end
        (code_bytes Format.One r.bytes r.links r.cuts)) }
    ensures fault { IfErr result (λ e. Fault (CodeText Format.One size count) bytes.now at e) }
{
    let code = read_bytes(alloc, bytes, at, size)?;
    let links = read_links(alloc, bytes, at + size as usize, count)?;
    Ok(Rows {
        bytes: code,
        links: links.value,
        cuts: List::new(alloc),
        end: links.end,
    })
}

/// The number of cuts, code, links and the cuts.
fn read_cut(
    alloc: Global,
    bytes: &[u8],
    at: usize,
    size: u32,
    count: u32,
) -> Result<Rows, FormFault>
    requires { at ≤ length bytes.now }
    ensures rows { IfOk result (λ r. AreRows Format.Two size count r.bytes r.links r.cuts) }
    ensures read { IfOk result (λ r. Spans bytes.now at r.end
        (code_bytes Format.Two r.bytes r.links r.cuts)) }
    ensures fault { IfErr result (λ e. Fault (CodeText Format.Two size count) bytes.now at e) }
{
    let cut_count = read_field(bytes, at)?;
    let code = read_bytes(alloc, bytes, at + 4, size)?;
    let links = read_links(alloc, bytes, at + 4 + size as usize, count)?;
    let cuts = read_cuts(alloc, bytes, links.end, cut_count)?;
    Ok(Rows {
        bytes: code,
        links: links.value,
        cuts: cuts.value,
        end: cuts.end,
    })
}

fn read_links(
    alloc: Global,
    bytes: &[u8],
    at: usize,
    count: u32,
) -> Result<Part<List<Link>>, FormFault>
    requires { at ≤ length bytes.now }
    ensures links { IfOk result (λ p. Each IsLink p.value) }
    ensures count { IfOk result (λ p. length p.value ≡ count) }
    ensures read { IfOk result (λ p. Spans bytes.now at p.end (links_bytes p.value)) }
    ensures fault { IfErr result (λ e. Fault (Times IsLinkText count) bytes.now at e) }
{
    let mut links = List::new(alloc);
    let mut end = at;
    for _ in 0..count {
        let link = read_link(bytes, end)?;
        links.add(link)?;
        end += 8;
    }
    Ok(Part { value: links, end })
}

fn read_link(bytes: &[u8], at: usize) -> Result<Link, FormFault>
    requires { at ≤ length bytes.now }
    ensures link { IfOk result IsLink }
    ensures read { IfOk result (λ link. Spans bytes.now at (at + 8) (link_bytes link)) }
    ensures fault { IfErr result (λ e. Fault IsLinkText bytes.now at e) }
    ensures told { IfErr result (λ e. e ≢ FormFault.NoMemory) }
{
    let place = read_field(bytes, at)?;
    let slot = read_field(bytes, at + 4)?;
    Ok(Link { at: place, slot })
}

fn read_cuts(
    alloc: Global,
    bytes: &[u8],
    at: usize,
    count: u32,
) -> Result<Part<List<u32>>, FormFault>
    requires { at ≤ length bytes.now }
    ensures cuts { IfOk result (λ p. Each IsField p.value) }
    ensures count { IfOk result (λ p. length p.value ≡ count) }
    ensures read { IfOk result (λ p. Spans bytes.now at p.end (cuts_bytes p.value)) }
    ensures fault { IfErr result (λ e. Fault (Times (IsNumber full) count) bytes.now at e) }
{
    let mut cuts = List::new(alloc);
    let mut end = at;
    for _ in 0..count {
        let cut = read_field(bytes, end)?;
        cuts.add(cut)?;
        end += 4;
    }
    Ok(Part { value: cuts, end })
}
