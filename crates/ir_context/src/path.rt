//! How far a row of indices leads from a pointer: what is known before the run, and the rest.

ghost use Rattle.std.specs.Prelude.{◌≡◌, None, Some, OnOk, IfOk, map, slice_get, if◌then◌else◌};
ghost use Rattle.std.specs.Option.{option_copied};
ghost use Rattle.ir_core.specs.declared.ty.Ty.{out-Ty};
ghost use Rattle.ir_core.specs.Names.{same_name, first_where};
ghost use Rattle.ir_core.specs.Valid.{opened, named_fields};
ghost use Rattle.ir_core.specs.Answers.{answered};
ghost use Rattle.ir_context.specs.Extents.{extent_of, field_place};
ghost use Rattle.ir_context.specs.Paths.{empty_path, farther as farther_by, with_stride, by_word as by_word_of, over_elements, into_found, into_number, into_field, into_type, led, path_into, path_of};

use crate::context::Context;
use crate::origin::Origin;
use ir_core::stop::Stop;
use ir_core::ty::{Name, Ty};
use ir_core::values::index_word;
use rd_num::list::List;
use rd_num::width::NoMemory;
use std::alloc::Global;

/// An index that is read, and how many bytes lie between what it counts.
#[derive(Clone, Copy)]
pub struct Stride {
    pub index: Origin,
    pub size: u64,
}

/// Bytes modulo 2^64: those that are known, and those of each index that is read.
#[derive(Drop)]
pub struct Path {
    pub constant: u64,
    pub strides: List<Stride>,
}

impl Path {
    /// No byte. Takes no memory.
    fn empty(alloc: Global) -> Path
        ensures { result ≡ empty_path }
    {
        Path {
            constant: 0,
            strides: List::new(alloc),
        }
    }

    /// So many bytes more. Takes no memory.
    fn farther(&mut self, by: u64)
        ensures { self.new ≡ farther_by by self.old }
    {
        self.constant = self.constant.wrapping_add(by);
    }

    /// One more index that is read.
    fn add_stride(&mut self, index: Origin, size: u64) -> Result<(), NoMemory>
        ensures { OnOk result (self.new ≡ with_stride index size self.old) }
    {
        self.strides.add(Stride { index, size })
    }

    /// By so many elements of a size, where their number is a number.
    fn by_word(&mut self, index: Origin, word: Result<u64, Stop>, size: u64) -> Result<(), NoMemory>
        ensures { OnOk result (self.new ≡ by_word_of index (answered word) size self.old) }
    {
        match word {
            Ok(n) => {
                self.farther(n.wrapping_mul(size));
                Ok(())
            }
            Err(_) => self.add_stride(index, size),
        }
    }

    /// One more index, over elements of a size.
    fn over(&mut self, index: Origin, size: u64) -> Result<(), NoMemory>
        ensures { OnOk result (self.new ≡ over_elements index size self.old) }
    {
        match index {
            Origin::Known(v) => self.by_word(Origin::Known(v), index_word(v), size),
            Origin::Register(k) => self.add_stride(Origin::Register(k), size),
            Origin::Unset => self.add_stride(Origin::Unset, size),
            Origin::Malformed => self.add_stride(Origin::Malformed, size),
        }
    }
}

impl<'a> Context<'a> {
    /// Leads a path to where a field begins behind those in front of it.
    fn go_to_field(&self, packed: bool, before: &[Ty], field: &Ty, path: &mut Path)
        ensures { path.new ≡ farther_by (field_place packed
            (map (extent_of self.now.types) before.now) (extent_of self.now.types field.now))
            path.old }
    {
        path.farther(self.extents.place(packed, before, field));
    }

    /// The field of a number, where there is one; the path goes to where it begins.
    fn field_at<'t>(
        &self,
        packed: bool,
        fields: &'t List<Ty>,
        k: usize,
        path: &mut Path,
    ) -> Option<&'t Ty>
        ensures { led (option_copied result) path.new ≡ into_found self.now.types packed
            fields.now k (slice_get fields.now k) path.old }
    {
        match fields.get(k) {
            Some(field) => {
                self.go_to_field(packed, &fields.as_slice()[..k], field, path);
                Some(field)
            }
            None => None,
        }
    }

    /// The field of a word, where it is one.
    fn field_by<'t>(
        &self,
        packed: bool,
        fields: &'t List<Ty>,
        word: Result<u64, Stop>,
        path: &mut Path,
    ) -> Option<&'t Ty>
        ensures { led (option_copied result) path.new ≡ into_number self.now.types packed
            fields.now (answered word) path.old }
    {
        match word {
            Ok(k) => self.field_at(packed, fields, k as usize, path),
            Err(_) => None,
        }
    }

    /// The field to which an index leads, where it is known.
    fn field<'t>(
        &self,
        packed: bool,
        fields: &'t List<Ty>,
        index: Origin,
        path: &mut Path,
    ) -> Option<&'t Ty>
        ensures { led (option_copied result) path.new ≡ into_field self.now.types packed
            fields.now index path.old }
    {
        match index {
            Origin::Known(v) => self.field_by(packed, fields, index_word(v), path),
            Origin::Register(_) => None,
            Origin::Unset => None,
            Origin::Malformed => None,
        }
    }

    /// An element of an array, behind so many as an index counts.
    fn element<'t>(
        &self,
        of: &'t Ty,
        index: Origin,
        path: &mut Path,
    ) -> Result<Option<&'t Ty>, NoMemory>
        ensures { IfOk result (λ part. led (option_copied part) path.new ≡ led (Some of.now)
            (over_elements index (extent_of self.now.types of.now).size path.old)) }
    {
        path.over(index, self.extent(of).size)?;
        Ok(Some(of))
    }

    /// The part of a type to which an index leads. Names of types lead nowhere.
    fn part<'t>(
        &self,
        ty: &'t Ty,
        index: Origin,
        path: &mut Path,
    ) -> Result<Option<&'t Ty>, NoMemory>
        ensures { IfOk result (λ part. led (option_copied part) path.new ≡
            into_type self.now.types (out-Ty ty.now) index path.old) }
    {
        match ty {
            Ty::Array(_, of) => self.element(of.get(), index, path),
            Ty::Struct(fields) => Ok(self.field(false, fields, index, path)),
            Ty::Packed(fields) => Ok(self.field(true, fields, index, path)),
            Ty::Void => Ok(None),
            Ty::Int(_) => Ok(None),
            Ty::Ptr => Ok(None),
            Ty::Named(_) => Ok(None),
        }
    }

    /// The part of the fields of a named type to which an index leads.
    fn named_part<'t>(
        &'t self,
        name: &Name,
        index: Origin,
        path: &mut Path,
    ) -> Result<Option<&'t Ty>, NoMemory>
        ensures { IfOk result (λ part. led (option_copied part) path.new ≡
            into_type self.now.types (named_fields (first_where
            (λ t. same_name t.name name.now) self.now.types)) index path.old) }
    {
        match self.named_type(name) {
            Some(t) => self.part(&t.fields, index, path),
            None => Ok(None),
        }
    }

    /// The part of a type to which an index leads, with a name replaced by the type's fields.
    fn step<'t>(
        &'t self,
        ty: &'t Ty,
        index: Origin,
        path: &mut Path,
    ) -> Result<Option<&'t Ty>, NoMemory>
        ensures { IfOk result (λ part. led (option_copied part) path.new ≡
            into_type self.now.types (opened self.now.types (out-Ty ty.now)) index path.old) }
    {
        match ty {
            Ty::Named(name) => self.named_part(name, index, path),
            Ty::Void => self.part(ty, index, path),
            Ty::Int(_) => self.part(ty, index, path),
            Ty::Ptr => self.part(ty, index, path),
            Ty::Array(_, _) => self.part(ty, index, path),
            Ty::Struct(_) => self.part(ty, index, path),
            Ty::Packed(_) => self.part(ty, index, path),
        }
    }

    /// Leads a path along indices into a type, and answers whether they lead to a part.
    fn lead<'t>(&'t self, ty: &'t Ty, indices: &[Origin], path: &mut Path) -> Result<bool, NoMemory>
        ensures { IfOk result (λ found. (if found then Some path.new else None) ≡
            path_into self.now.types ty.now indices.now path.old) }
    {
        let mut at = ty;
        for index in indices {
            let part = self.step(at, *index, path)?;
            match part {
                Some(next) => at = next,
                None => return Ok(false),
            }
        }
        Ok(true)
    }

    /// The path of indices whose first one counts whole ones of a type.
    fn path_from(
        &self,
        alloc: Global,
        ty: &Ty,
        first: Origin,
        rest: &[Origin],
    ) -> Result<Option<Path>, NoMemory>
        ensures { IfOk result (λ p. p ≡ path_into self.now.types ty.now rest.now
            (over_elements first (extent_of self.now.types ty.now).size empty_path)) }
    {
        let mut path = Path::empty(alloc);
        path.over(first, self.extent(ty).size)?;
        if self.lead(ty, rest, &mut path)? {
            Ok(Some(path))
        } else {
            Ok(None)
        }
    }

    /// The path of a row of indices from a pointer to a type.
    pub fn path(&self, alloc: Global, ty: &Ty, indices: &[Origin]) -> Result<Option<Path>, NoMemory>
        ensures { IfOk result (λ p. p ≡ path_of self.now.types ty.now indices.now) }
    {
        match indices {
            [] => Ok(Some(Path::empty(alloc))),
            [first, rest @ ..] => self.path_from(alloc, ty, *first, rest),
        }
    }
}
