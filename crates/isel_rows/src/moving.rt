//! Pointers that move: what is known of the way in one number, and then one index after another.

ghost use Rattle.std.specs.Prelude.{◌≡◌, ◌++◌, map, IfOk, OnOk};
ghost use Rattle.ir_core.specs.declared.instruction.Op.TheVariants.{Gep as GepOf};
ghost use Rattle.ir_core.specs.Valid.{named_locals};
ghost use Rattle.ir_context.specs.Origins.{arg_origin};
ghost use Rattle.ir_context.specs.Paths.{path_of};
ghost use Rattle.isel_rows.specs.Rows.{constant_moved, stride_ops, strides_moved, moved_ops, path_taken, ops_of};

use crate::selector::Selector;
use ir_context::origin::Origin;
use ir_context::path::{Path, Stride};
use ir_core::instruction::Arg;
use ir_core::kind::Kind;
use ir_core::operand::Operand;
use ir_core::ty::{Name, Ty};
use low_core::sel::{SelAlu, SelOp};
use rd_num::list::List;
use rd_num::width::{NoMemory, Width};

impl<'c, 'a> Selector<'c, 'a> {
    /// Moves a pointer in a register by so many bytes, and answers where it is.
    fn push_constant(&self, ops: &mut List<SelOp>, from: u32, by: u64) -> Result<u32, NoMemory>
        ensures ops { IfOk result (λ _. ops.new ≡ ops.old ++
            (constant_moved self.now.variables.now from by).ops) }
        ensures register { IfOk result (λ r. r ≡
            (constant_moved self.now.variables.now from by).register) }
    {
        if by == 0 {
            return Ok(from);
        }
        let bytes = self.variables.bytes_register()?;
        let moved = self.variables.moved_register()?;
        ops.add(SelOp::Set(bytes, by))?;
        ops.add(SelOp::Alu(SelAlu::Add, Width::W64, moved, from, bytes))?;
        Ok(moved)
    }

    /// Moves a pointer by one index that is read.
    fn push_stride(&self, ops: &mut List<SelOp>, from: u32, s: &Stride) -> Result<(), NoMemory>
        ensures { OnOk result (ops.new ≡ ops.old ++
            stride_ops self.now.variables.now from s.now) }
    {
        let bytes = self.variables.bytes_register()?;
        let index = self.variables.index_register()?;
        let moved = self.variables.moved_register()?;
        let width = self.variables.width_read(s.index);
        let read = self.variables.register_read(s.index)?;
        ops.add(SelOp::Widen(true, width, Width::W64, index, read))?;
        ops.add(SelOp::Set(bytes, s.size))?;
        ops.add(SelOp::Alu(SelAlu::Mul, Width::W64, index, index, bytes))?;
        ops.add(SelOp::Alu(SelAlu::Add, Width::W64, moved, from, index))
    }

    /// Moves a pointer by indices that are read, and answers where it is.
    fn push_strides(
        &self,
        ops: &mut List<SelOp>,
        from: u32,
        strides: &[Stride],
    ) -> Result<u32, NoMemory>
        ensures ops { IfOk result (λ _. ops.new ≡ ops.old ++
            (strides_moved self.now.variables.now from strides.now).ops) }
        ensures register { IfOk result (λ r. r ≡
            (strides_moved self.now.variables.now from strides.now).register) }
    {
        let mut at = from;
        for s in strides {
            self.push_stride(ops, at, s)?;
            at = self.variables.moved_register()?;
        }
        Ok(at)
    }

    /// Puts a pointer along a path into a register.
    fn push_moved(&self, ops: &mut List<SelOp>, r: u32, p: &Path, from: u32) -> Result<(), NoMemory>
        ensures { OnOk result (ops.new ≡ ops.old ++
            moved_ops self.now.variables.now r p.now from) }
    {
        let first = self.push_constant(ops, from, p.constant)?;
        let last = self.push_strides(ops, first, p.strides.as_slice())?;
        ops.add(SelOp::Copy(r, last))
    }

    /// Indices.
    fn indices(&self, args: &[Arg]) -> Result<List<Origin>, NoMemory>
        ensures { IfOk result (λ l. l ≡ map (arg_origin self.now.context.now
            (named_locals self.now.variables.now)) args.now) }
    {
        let mut origins = List::new(self.alloc);
        for a in args {
            origins.add(self.arg(a)?)?;
        }
        Ok(origins)
    }

    /// The path of indices into a type; where they lead nowhere it is empty.
    fn path(&self, ty: &Ty, args: &[Arg]) -> Result<Path, NoMemory>
        ensures { IfOk result (λ p. p ≡ path_taken (path_of self.now.context.now.types ty.now
            (map (arg_origin self.now.context.now
            (named_locals self.now.variables.now)) args.now))) }
    {
        let origins = self.indices(args)?;
        match self.context.path(self.alloc, ty, origins.as_slice())? {
            Some(p) => Ok(p),
            None => Ok(Path {
                constant: 0,
                strides: List::new(self.alloc),
            }),
        }
    }

    /// Puts a pointer that moves.
    pub(crate) fn push_gep(
        &self,
        ops: &mut List<SelOp>,
        into: &Option<Name>,
        ty: &Ty,
        p: &Operand,
        indices: &[Arg],
    ) -> Result<(), NoMemory>
        ensures { OnOk result (ops.new ≡ ops.old ++ ops_of self.now.context.now
            self.now.variables.now 0 into.now (GepOf ty.now p.now indices.now)) }
    {
        let from = self.operand(ops, 0, Kind::Pointer, p)?;
        let path = self.path(ty, indices)?;
        let r = self.variables.result_register(into)?;
        self.push_moved(ops, r, &path, from)
    }
}
