//! Sizes, alignments and depths of types, and where the fields of structs stand.
//!
//! Sizes count bytes and saturate at 2^64 - 1. A named type is measured apart, once in each round of
//! the rounds that `Sizes::new` takes: as many as names stand one inside another, and one more. So
//! types that double at each level take no more time than their text. Source: System V ABI, AMD64
//! supplement, "Fundamental Types" and "Aggregates and Unions".

ghost use Rattle.std.specs.Prelude.{◌≡◌, ◌+◌, [], map, IfOk, IsTrue, ◌↔◌};
ghost use Rattle.ir_core.specs.Counts.{told, deeper, size_count, depth_of};
ghost use Rattle.ir_core.specs.Shapes.{rounded, bytes_of};
ghost use Rattle.ir_core.specs.Sizes.{align_bytes, wider, empty_extent, single_extent, with_field, finished_extent, array_extent, struct_extent, row_in, extent_in, names_in, next_rows, first_rows, rows_after};
ghost use Rattle.ir_core.specs.Definitions.{repeated, type_names};

use crate::limit::MAX_NESTING;
use crate::module::Module;
use crate::names::NameSet;
use crate::ty::{Name, NamedTy, Ty};
use rd_num::list::List;
use rd_num::width::{NoMemory, Width};
use std::alloc::Global;
use std::marker::Model;

/// What the start of a type is a multiple of, in bytes.
#[derive(Clone, Copy, PartialEq, Eq)]
pub enum Align {
    One,
    Two,
    Four,
    Eight,
}

impl Align {
    /// The bytes. Takes no memory.
    pub fn bytes(self) -> u64
        ensures { result ≡ align_bytes self }
    {
        match self {
            Align::One => 1,
            Align::Two => 2,
            Align::Four => 4,
            Align::Eight => 8,
        }
    }

    /// The greater of two. Takes no memory.
    fn wider(self, other: Align) -> Align
        ensures { result ≡ wider self other }
    {
        if self.bytes() < other.bytes() {
            other
        } else {
            self
        }
    }
}

/// How much room a type takes: its bytes, its alignment, and how deep arrays and structs nest in it.
#[derive(Clone, Copy, PartialEq, Eq)]
pub struct Extent {
    pub size: u64,
    pub align: Align,
    pub depth: u32,
}

/// Where what begins at the next multiple of `align` from `at` on ends, as far as 2^64 - 1.
fn end_of(at: u64, align: Align, size: u64) -> u64
    ensures { result ≡ told (rounded at (align_bytes align) + size) }
{
    let step = u128::from(align.bytes());
    let from = (u128::from(at) + (step - 1)) / step * step;
    let end = from + u128::from(size);
    if end < u128::from(u64::MAX) {
        end as u64
    } else {
        u64::MAX
    }
}

/// One level deeper, as far as one past the limit of nesting.
fn one_deeper(depth: u32) -> u32
    ensures { result ≡ deeper depth }
{
    if depth < MAX_NESTING {
        depth + 1
    } else {
        MAX_NESTING + 1
    }
}

impl Extent {
    /// What has no bytes. Takes no memory.
    fn empty() -> Extent
        ensures { result ≡ empty_extent }
    {
        Extent {
            size: 0,
            align: Align::One,
            depth: 0,
        }
    }

    /// A number or a pointer, which is aligned to its size. Takes no memory.
    fn single(align: Align) -> Extent
        ensures { result ≡ single_extent align }
    {
        Extent {
            size: align.bytes(),
            align,
            depth: 0,
        }
    }

    /// So many elements. Takes no memory.
    fn array(self, count: u32) -> Extent
        ensures { result ≡ array_extent count self }
    {
        Extent {
            size: u64::from(count).saturating_mul(self.size),
            align: self.align,
            depth: one_deeper(self.depth),
        }
    }

    /// A struct that is laid out so far, with one more field; packed fields leave no gaps.
    fn with_field(self, packed: bool, field: Extent) -> Extent
        ensures { result ≡ with_field packed self field }
    {
        let align = if packed { Align::One } else { field.align };
        Extent {
            size: end_of(self.size, align, field.size),
            align: self.align.wider(align),
            depth: self.depth.max(field.depth),
        }
    }

    /// A struct with all its fields. Takes no memory.
    fn finished(self) -> Extent
        ensures { result ≡ finished_extent self }
    {
        Extent {
            size: end_of(self.size, self.align, 0),
            align: self.align,
            depth: one_deeper(self.depth),
        }
    }
}

/// A number's alignment is its size.
fn width_align(w: Width) -> Align
    ensures { align_bytes result ≡ bytes_of w }
{
    match w {
        Width::W1 | Width::W8 => Align::One,
        Width::W16 => Align::Two,
        Width::W32 => Align::Four,
        Width::W64 => Align::Eight,
    }
}

/// The row of a named type; a name without a row has no bytes.
fn row(names: &NameSet, rows: &[Extent], name: &Name) -> Extent
    ensures { result ≡ row_in names.now rows.now name.now }
{
    match names.number(name) {
        Some(k) => match rows.get(k) {
            Some(e) => *e,
            None => Extent::empty(),
        },
        None => Extent::empty(),
    }
}

/// The extent of a type over those of named ones.
#[cycle(extent)]
fn extent_over(names: &NameSet, rows: &[Extent], ty: &Ty) -> Extent
    ensures { result ≡ extent_in names.now rows.now ty.now }
{
    match ty {
        Ty::Void => Extent::empty(),
        Ty::Int(w) => Extent::single(width_align(*w)),
        Ty::Ptr => Extent::single(Align::Eight),
        Ty::Array(count, of) => extent_over(names, rows, of.get()).array(*count),
        Ty::Struct(fields) => fields_extent(names, rows, fields.as_slice(), false),
        Ty::Packed(fields) => fields_extent(names, rows, fields.as_slice(), true),
        Ty::Named(name) => row(names, rows, name),
    }
}

#[cycle(extent)]
fn fields_extent(names: &NameSet, rows: &[Extent], fields: &[Ty], packed: bool) -> Extent
    ensures { result ≡ struct_extent packed (map (extent_in names.now rows.now) fields.now) }
{
    let mut all = Extent::empty();
    for field in fields {
        let one = extent_over(names, rows, field);
        all = all.with_field(packed, one);
    }
    all.finished()
}

/// The sizes of a module's types.
#[derive(Drop)]
pub struct Sizes<'a> {
    types: &'a [NamedTy],
    names: NameSet<'a>,
    rows: List<Extent>,
}

impl<'a> Model for Sizes<'a> {
    ghost use Rattle.std.specs.Prelude.{List as Row, ◌≡◌};
    ghost use Rattle.ir_core.specs.declared.ty.NamedTy.{NamedTy as NamedType};
    ghost use Rattle.ir_core.specs.declared.limit.TheConstants.{MAX_NESTING};
    ghost use Rattle.ir_core.specs.Sizes.{names_in, rows_after};
    ghost use Rattle.ir_core.specs.contracts.ty.Ty as ty;
    ghost use Rattle.std.specs.Coded.{codes};

    ghost Value = { Row NamedType };

    ghost coded = { Prim.hlevel (codes, ty.the_row.coded) };

    ghost view = { λ s. s.types.now };

    ghost invariant = { λ s. (s.names ≡ names_in s.types.now)
        × (s.rows ≡ rows_after s.types.now MAX_NESTING) };
}

/// One more round over the named types.
fn next_round(
    alloc: Global,
    types: &[NamedTy],
    names: &NameSet,
    rows: &[Extent],
) -> Result<List<Extent>, NoMemory>
    requires { names.now ≡ names_in types.now }
    ensures { IfOk result (λ r. r ≡ next_rows types.now rows.now) }
{
    let mut next = List::new(alloc);
    for t in types {
        next.add(extent_over(names, rows, &t.fields))?;
    }
    Ok(next)
}

/// What is known of named types before the first round.
fn first_round(alloc: Global, types: &[NamedTy]) -> Result<List<Extent>, NoMemory>
    ensures { IfOk result (λ r. r ≡ first_rows types.now) }
{
    let mut rows = List::new(alloc);
    for _t in types {
        rows.add(Extent {
            size: 0,
            align: Align::One,
            depth: MAX_NESTING + 1,
        })?;
    }
    Ok(rows)
}

/// Whether a round has changed nothing.
fn same_rows(a: &[Extent], b: &[Extent]) -> bool
    ensures { IsTrue result ↔ (a.now ≡ b.now) }
{
    if a.len() != b.len() {
        return false;
    }
    for i in 0..a.len() {
        if a[i] != b[i] {
            return false;
        }
    }
    true
}

/// The rows after as many rounds as types can nest; rounds end where one changes nothing.
fn all_rounds(alloc: Global, types: &[NamedTy], names: &NameSet) -> Result<List<Extent>, NoMemory>
    requires { names.now ≡ names_in types.now }
    ensures { IfOk result (λ r. r ≡ rows_after types.now MAX_NESTING) }
{
    let mut rows = first_round(alloc, types)?;
    for _round in 0..MAX_NESTING {
        let next = next_round(alloc, types, names, rows.as_slice())?;
        if same_rows(next.as_slice(), rows.as_slice()) {
            return Ok(rows);
        }
        rows = next;
    }
    Ok(rows)
}

impl<'a> Sizes<'a> {
    /// Measures the named types of a module, none of which is defined twice.
    pub fn new(alloc: Global, whole: &'a Module) -> Result<Sizes<'a>, NoMemory>
        requires { repeated [] (type_names whole.now) ≡ [] }
        ensures { IfOk result (λ s. s ≡ whole.now.types) }
    {
        let types = whole.types.as_slice();
        let mut names = NameSet::new(alloc);
        let _first = names.add_all(types)?;
        let rows = all_rounds(alloc, types, &names)?;
        Ok(Sizes { types, names, rows })
    }

    /// The bytes of a type, as far as 2^64 - 1. Takes no memory.
    pub fn size(&self, ty: &Ty) -> u64
        ensures { result ≡ size_count self.now ty.now }
    {
        extent_over(&self.names, self.rows.as_slice(), ty).size
    }

    /// How deep arrays and structs nest in a type, with names replaced. Takes no memory.
    pub fn depth(&self, ty: &Ty) -> u32
        ensures { result ≡ depth_of self.now ty.now }
    {
        extent_over(&self.names, self.rows.as_slice(), ty).depth
    }
}
