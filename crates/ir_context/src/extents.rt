//! How much room the types of a module take, and where the fields of structs begin.
//!
//! Sizes count bytes and saturate at 2^64 - 1. A named type is measured once in each round: as many
//! rounds are taken as names stand one inside another, and one more. Source: System V ABI, AMD64
//! supplement, "Fundamental Types" and "Aggregates and Unions".

ghost use Rattle.std.specs.Prelude.{◌≡◌, ◌+◌, [], map, slice_get, IfOk, IsTrue, ◌↔◌};
ghost use Rattle.ir_core.specs.Counts.{told, deeper};
ghost use Rattle.ir_core.specs.Shapes.{rounded, bytes_of};
ghost use Rattle.ir_core.specs.Sizes.{align_bytes, wider as wider_of, empty_extent, single_extent, with_field as field_added, field_align, finished_extent, array_extent, struct_extent, row_in, extent_in, names_in, next_rows, first_rows, rows_after};
ghost use Rattle.ir_core.specs.Definitions.{repeated, type_names};
ghost use Rattle.ir_core.specs.Names.{same_name, first_where};
ghost use Rattle.std.specs.Option.{option_copied};
ghost use Rattle.ir_context.specs.Extents.{extent_of, field_place};

use ir_core::limit::MAX_NESTING;
use ir_core::module::Module;
use ir_core::names::NameSet;
use ir_core::size::{Align, Extent};
use ir_core::ty::{Name, NamedTy, Ty};
use rd_num::list::List;
use rd_num::width::{NoMemory, Width};
use std::alloc::Global;
use std::marker::Model;

/// The greater of two alignments.
fn wider(a: Align, b: Align) -> Align
    ensures { result ≡ wider_of a b }
{
    if a.bytes() < b.bytes() { b } else { a }
}

/// Where what begins at the next multiple of `align` from `at` on ends, as far as 2^64 - 1.
fn end_of(at: u64, align: Align, size: u64) -> u64
    ensures { result ≡ told (rounded at (align_bytes align) + size) }
{
    let step = u128::from(align.bytes());
    let from = (u128::from(at) + (step - 1)) / step * step;
    let end = from + u128::from(size);
    if end < u128::from(u64::MAX) {
        end as u64
    } else {
        u64::MAX
    }
}

/// One level deeper, as far as one past the limit of nesting.
fn one_deeper(depth: u32) -> u32
    ensures { result ≡ deeper depth }
{
    if depth < MAX_NESTING {
        depth + 1
    } else {
        MAX_NESTING + 1
    }
}

/// What has no bytes.
fn empty() -> Extent
    ensures { result ≡ empty_extent }
{
    Extent {
        size: 0,
        align: Align::One,
        depth: 0,
    }
}

/// A number or a pointer, which is aligned to its size.
fn single(align: Align) -> Extent
    ensures { result ≡ single_extent align }
{
    Extent {
        size: align.bytes(),
        align,
        depth: 0,
    }
}

/// So many elements.
fn array(of: Extent, count: u32) -> Extent
    ensures { result ≡ array_extent count of }
{
    Extent {
        size: u64::from(count).saturating_mul(of.size),
        align: of.align,
        depth: one_deeper(of.depth),
    }
}

/// The alignment that a field keeps.
fn kept_align(packed: bool, field: Extent) -> Align
    ensures { result ≡ field_align packed field }
{
    if packed { Align::One } else { field.align }
}

/// A struct that is laid out so far, with one more field; packed fields leave no gaps.
fn with_field(all: Extent, packed: bool, field: Extent) -> Extent
    ensures { result ≡ field_added packed all field }
{
    let align = kept_align(packed, field);
    Extent {
        size: end_of(all.size, align, field.size),
        align: wider(all.align, align),
        depth: all.depth.max(field.depth),
    }
}

/// A struct with all its fields.
fn finished(all: Extent) -> Extent
    ensures { result ≡ finished_extent all }
{
    Extent {
        size: end_of(all.size, all.align, 0),
        align: all.align,
        depth: one_deeper(all.depth),
    }
}

/// A number's alignment is its size.
fn width_align(w: Width) -> Align
    ensures { align_bytes result ≡ bytes_of w }
{
    match w {
        Width::W1 | Width::W8 => Align::One,
        Width::W16 => Align::Two,
        Width::W32 => Align::Four,
        Width::W64 => Align::Eight,
    }
}

/// The row of a named type; a name without a row has no bytes.
fn row(names: &NameSet, rows: &[Extent], name: &Name) -> Extent
    ensures { result ≡ row_in names.now rows.now name.now }
{
    match names.number(name) {
        Some(k) => match rows.get(k) {
            Some(e) => *e,
            None => empty(),
        },
        None => empty(),
    }
}

/// The extent of a type over those of named ones.
#[cycle(extent)]
fn extent_over(names: &NameSet, rows: &[Extent], ty: &Ty) -> Extent
    ensures { result ≡ extent_in names.now rows.now ty.now }
{
    match ty {
        Ty::Void => empty(),
        Ty::Int(w) => single(width_align(*w)),
        Ty::Ptr => single(Align::Eight),
        Ty::Array(count, of) => array(extent_over(names, rows, of.get()), *count),
        Ty::Struct(fields) => struct_over(names, rows, fields.as_slice(), false),
        Ty::Packed(fields) => struct_over(names, rows, fields.as_slice(), true),
        Ty::Named(name) => row(names, rows, name),
    }
}

#[cycle(extent)]
fn struct_over(names: &NameSet, rows: &[Extent], fields: &[Ty], packed: bool) -> Extent
    ensures { result ≡ struct_extent packed (map (extent_in names.now rows.now) fields.now) }
{
    let mut all = empty();
    for field in fields {
        let one = extent_over(names, rows, field);
        all = with_field(all, packed, one);
    }
    finished(all)
}

/// The extents of a module's types.
#[derive(Drop)]
pub struct Extents<'a> {
    types: &'a [NamedTy],
    names: NameSet<'a>,
    rows: List<Extent>,
}

impl<'a> Model for Extents<'a> {
    ghost use Rattle.std.specs.Prelude.{List as Row, ◌≡◌};
    ghost use Rattle.ir_core.specs.declared.ty.NamedTy.{NamedTy as NamedType};
    ghost use Rattle.ir_core.specs.declared.limit.TheConstants.{MAX_NESTING};
    ghost use Rattle.ir_core.specs.Sizes.{names_in, rows_after};
    ghost use Rattle.ir_core.specs.contracts.ty.Ty as ty;
    ghost use Rattle.std.specs.Coded.{codes};

    ghost Value = { Row NamedType };

    ghost coded = { Prim.hlevel (codes, ty.the_row.coded) };

    ghost view = { λ s. s.types.now };

    ghost invariant = { λ s. (s.names ≡ names_in s.types.now)
        × (s.rows ≡ rows_after s.types.now MAX_NESTING) };
}

/// The named type of a number.
fn type_at<'a>(types: &'a [NamedTy], k: usize) -> Option<&'a NamedTy>
    ensures { option_copied result ≡ slice_get types.now k }
{
    types.get(k)
}

/// One more round over the named types.
fn next_round(
    alloc: Global,
    types: &[NamedTy],
    names: &NameSet,
    rows: &[Extent],
) -> Result<List<Extent>, NoMemory>
    requires { names.now ≡ names_in types.now }
    ensures { IfOk result (λ r. r ≡ next_rows types.now rows.now) }
{
    let mut next = List::new(alloc);
    for t in types {
        next.add(extent_over(names, rows, &t.fields))?;
    }
    Ok(next)
}

/// What is known of named types before the first round.
fn first_round(alloc: Global, types: &[NamedTy]) -> Result<List<Extent>, NoMemory>
    ensures { IfOk result (λ r. r ≡ first_rows types.now) }
{
    let mut rows = List::new(alloc);
    for _t in types {
        rows.add(Extent {
            size: 0,
            align: Align::One,
            depth: MAX_NESTING + 1,
        })?;
    }
    Ok(rows)
}

/// Whether a round has changed nothing.
fn same_rows(a: &[Extent], b: &[Extent]) -> bool
    ensures { IsTrue result ↔ (a.now ≡ b.now) }
{
    if a.len() != b.len() {
        return false;
    }
    for i in 0..a.len() {
        if a[i] != b[i] {
            return false;
        }
    }
    true
}

/// The rows after as many rounds as types can nest; rounds end where one changes nothing.
fn all_rounds(alloc: Global, types: &[NamedTy], names: &NameSet) -> Result<List<Extent>, NoMemory>
    requires { names.now ≡ names_in types.now }
    ensures { IfOk result (λ r. r ≡ rows_after types.now MAX_NESTING) }
{
    let mut rows = first_round(alloc, types)?;
    for _round in 0..MAX_NESTING {
        let next = next_round(alloc, types, names, rows.as_slice())?;
        if same_rows(next.as_slice(), rows.as_slice()) {
            return Ok(rows);
        }
        rows = next;
    }
    Ok(rows)
}

impl<'a> Extents<'a> {
    /// Measures the named types of a module, none of which is defined twice.
    pub fn new(alloc: Global, whole: &'a Module) -> Result<Extents<'a>, NoMemory>
        requires { repeated [] (type_names whole.now) ≡ [] }
        ensures { IfOk result (λ s. s ≡ whole.now.types) }
    {
        let types = whole.types.as_slice();
        let mut names = NameSet::new(alloc);
        let _first = names.add_all(types)?;
        let rows = all_rounds(alloc, types, &names)?;
        Ok(Extents { types, names, rows })
    }

    /// The named type of a name. Takes no memory.
    pub fn named(&self, name: &Name) -> Option<&'a NamedTy>
        ensures { option_copied result ≡ first_where (λ t. same_name t.name name.now) self.now }
    {
        match self.names.number(name) {
            Some(k) => type_at(self.types, k),
            None => None,
        }
    }

    /// The extent of a type. Takes no memory.
    pub fn extent(&self, ty: &Ty) -> Extent
        ensures { result ≡ extent_of self.now ty.now }
    {
        extent_over(&self.names, self.rows.as_slice(), ty)
    }

    /// Where a field begins behind those in front of it. Takes no memory.
    pub fn place(&self, packed: bool, before: &[Ty], field: &Ty) -> u64
        ensures { result ≡ field_place packed (map (extent_of self.now) before.now)
            (extent_of self.now field.now) }
    {
        let mut all = empty();
        for one in before {
            all = with_field(all, packed, self.extent(one));
        }
        end_of(all.size, kept_align(packed, self.extent(field)), 0)
    }
}
