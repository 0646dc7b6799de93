//! Instructions, a line each.

ghost use Rattle.std.specs.Prelude.{◌≡◌, ◌++◌, OnOk, codes};
ghost use Rattle.ir_print.specs.Types.{type_text};
ghost use Rattle.ir_print.specs.Values.{operand_text};
ghost use Rattle.ir_print.specs.Names.{after_commas, with_commas};
ghost use Rattle.ir_print.specs.Instructions.{operation_word, predicate_word, cast_word, typed_text, argument_text, indices_text, entry_text, pair_text, access_text, op_text, result_text, inst_text};

use crate::names::{put_count, put_local};
use crate::types::put_type;
use crate::values::{put_operand, put_typed};
use ir_core::instruction::{Arg, BinOp, CastOp, Entry, Inst, Op, Pred};
use ir_core::operand::Operand;
use ir_core::ty::{Name, Ty};
use rd_num::list::List;
use rd_num::width::NoMemory;

// The word of an operation.
fn operation(op: BinOp) -> &'static [u8]
    ensures { result.now ≡ operation_word op }
{
    match op {
        BinOp::Add => b"add",
        BinOp::Sub => b"sub",
        BinOp::Mul => b"mul",
        BinOp::Udiv => b"udiv",
        BinOp::Sdiv => b"sdiv",
        BinOp::Urem => b"urem",
        BinOp::Srem => b"srem",
        BinOp::Shl => b"shl",
        BinOp::Lshr => b"lshr",
        BinOp::Ashr => b"ashr",
        BinOp::And => b"and",
        BinOp::Or => b"or",
        BinOp::Xor => b"xor",
    }
}

// The word of a comparison.
fn predicate(pred: Pred) -> &'static [u8]
    ensures { result.now ≡ predicate_word pred }
{
    match pred {
        Pred::Eq => b"eq",
        Pred::Ne => b"ne",
        Pred::Ult => b"ult",
        Pred::Ule => b"ule",
        Pred::Ugt => b"ugt",
        Pred::Uge => b"uge",
        Pred::Slt => b"slt",
        Pred::Sle => b"sle",
        Pred::Sgt => b"sgt",
        Pred::Sge => b"sge",
    }
}

// The word of a cast.
fn cast(op: CastOp) -> &'static [u8]
    ensures { result.now ≡ cast_word op }
{
    match op {
        CastOp::Trunc => b"trunc",
        CastOp::Zext => b"zext",
        CastOp::Sext => b"sext",
    }
}

// Appends arguments or indices with a comma in front of each.
#[tactic(auto, unfolding(crate::specs::Names::after_commas))]
fn put_more_arguments(text: &mut List<u8>, arguments: &[Arg]) -> Result<(), NoMemory>
    ensures { OnOk result (text.new ≡ text.old ++ after_commas argument_text arguments.now) }
{
    for argument in arguments {
        text.append(b", ")?;
        put_typed(text, &argument.ty, &argument.value)?;
    }
    Ok(())
}

// Appends arguments with a comma between two.
fn put_arguments(text: &mut List<u8>, arguments: &[Arg]) -> Result<(), NoMemory>
    ensures { OnOk result (text.new ≡ text.old ++ with_commas argument_text arguments.now) }
{
    match arguments {
        [] => Ok(()),
        [first, others @ ..] => {
            put_typed(text, &first.ty, &first.value)?;
            put_more_arguments(text, others)
        }
    }
}

// Appends indices.
#[tactic(auto, unfolding(crate::specs::Instructions::indices_text))]
fn put_indices(text: &mut List<u8>, indices: &[Arg]) -> Result<(), NoMemory>
    ensures { OnOk result (text.new ≡ text.old ++ indices_text indices.now) }
{
    put_more_arguments(text, indices)
}

// Appends an entry of a phi.
fn put_entry(text: &mut List<u8>, entry: &Entry) -> Result<(), NoMemory>
    ensures { OnOk result (text.new ≡ text.old ++ entry_text entry.now) }
{
    text.append(b"[ ")?;
    put_operand(text, &entry.value)?;
    text.append(b", ")?;
    put_local(text, entry.from.as_slice())?;
    text.append(b" ]")
}

// Appends entries with a comma in front of each.
#[tactic(auto, unfolding(crate::specs::Names::after_commas))]
fn put_more_entries(text: &mut List<u8>, entries: &[Entry]) -> Result<(), NoMemory>
    ensures { OnOk result (text.new ≡ text.old ++ after_commas entry_text entries.now) }
{
    for entry in entries {
        text.append(b", ")?;
        put_entry(text, entry)?;
    }
    Ok(())
}

// Appends entries with a comma between two.
fn put_entries(text: &mut List<u8>, entries: &[Entry]) -> Result<(), NoMemory>
    ensures { OnOk result (text.new ≡ text.old ++ with_commas entry_text entries.now) }
{
    match entries {
        [] => Ok(()),
        [first, others @ ..] => {
            put_entry(text, first)?;
            put_more_entries(text, others)
        }
    }
}

// Appends `TYPE A, B` behind the word of an operation.
#[tactic(auto, unfolding(crate::specs::Instructions::pair_text))]
fn put_pair(text: &mut List<u8>, ty: &Ty, a: &Operand, b: &Operand) -> Result<(), NoMemory>
    ensures { OnOk result (text.new ≡ text.old ++ pair_text ty.now a.now b.now) }
{
    put_typed(text, ty, a)?;
    text.append(b", ")?;
    put_operand(text, b)
}

// Appends `TYPE, ptr P` behind the word of an access.
#[tactic(auto, unfolding(crate::specs::Instructions::access_text))]
fn put_access(text: &mut List<u8>, ty: &Ty, pointer: &Operand) -> Result<(), NoMemory>
    ensures { OnOk result (text.new ≡ text.old ++ access_text ty.now pointer.now) }
{
    put_type(text, ty)?;
    text.append(b", ptr ")?;
    put_operand(text, pointer)
}

// Appends `getelementptr`.
fn put_gep(text: &mut List<u8>, ty: &Ty, pointer: &Operand, indices: &[Arg]) -> Result<(), NoMemory>
    ensures { OnOk result (text.new ≡ text.old ++
        (codes "getelementptr " ++ access_text ty.now pointer.now ++ indices_text indices.now)) }
{
    text.append(b"getelementptr ")?;
    put_access(text, ty, pointer)?;
    put_indices(text, indices)
}

// Appends `select`.
fn put_select(
    text: &mut List<u8>,
    condition: &Operand,
    first: &Ty,
    a: &Operand,
    second: &Ty,
    b: &Operand,
) -> Result<(), NoMemory>
    ensures { OnOk result (text.new ≡ text.old ++
        codes "select i1 " ++ operand_text condition.now ++ codes ", " ++
        typed_text first.now a.now ++ codes ", " ++ typed_text second.now b.now) }
{
    text.append(b"select i1 ")?;
    put_operand(text, condition)?;
    text.append(b", ")?;
    put_typed(text, first, a)?;
    text.append(b", ")?;
    put_typed(text, second, b)
}

// Appends a call.
fn put_call(
    text: &mut List<u8>,
    ty: &Ty,
    callee: &Operand,
    arguments: &[Arg],
) -> Result<(), NoMemory>
    ensures { OnOk result (text.new ≡ text.old ++
        codes "call " ++ type_text ty.now ++ codes " " ++ operand_text callee.now ++ codes "(" ++
        with_commas argument_text arguments.now ++ codes ")") }
{
    text.append(b"call ")?;
    put_type(text, ty)?;
    text.append(b" ")?;
    put_operand(text, callee)?;
    text.append(b"(")?;
    put_arguments(text, arguments)?;
    text.append(b")")
}

// Appends an operation of two operands, behind its word.
fn put_arithmetic(
    text: &mut List<u8>,
    word: &[u8],
    ty: &Ty,
    a: &Operand,
    b: &Operand,
) -> Result<(), NoMemory>
    ensures { OnOk result (text.new ≡ text.old ++
        word.now ++ codes " " ++ pair_text ty.now a.now b.now) }
{
    text.append(word)?;
    text.append(b" ")?;
    put_pair(text, ty, a, b)
}

// Appends a cast.
fn put_cast(
    text: &mut List<u8>,
    op: CastOp,
    from: &Ty,
    operand: &Operand,
    to: &Ty,
) -> Result<(), NoMemory>
    ensures { OnOk result (text.new ≡ text.old ++
        cast_word op ++ codes " " ++ typed_text from.now operand.now ++ codes " to " ++
        type_text to.now) }
{
    text.append(cast(op))?;
    text.append(b" ")?;
    put_typed(text, from, operand)?;
    text.append(b" to ")?;
    put_type(text, to)
}

// Appends an operation.
#[tactic(auto, unfolding(crate::specs::Instructions::op_text))]
fn put_op(text: &mut List<u8>, op: &Op) -> Result<(), NoMemory>
    ensures { OnOk result (text.new ≡ text.old ++ op_text op.now) }
{
    match op {
        Op::Bin(op, ty, a, b) => put_arithmetic(text, operation(*op), ty, a, b),
        Op::Compare(pred, ty, a, b) => {
            text.append(b"icmp ")?;
            put_arithmetic(text, predicate(*pred), ty, a, b)
        }
        Op::Cast(op, from, operand, to) => put_cast(text, *op, from, operand, to),
        Op::Select(condition, t, a, u, b) => put_select(text, condition, t, a, u, b),
        Op::Freeze(ty, operand) => {
            text.append(b"freeze ")?;
            put_typed(text, ty, operand)
        }
        Op::Alloca(ty, count) => {
            text.append(b"alloca ")?;
            put_type(text, ty)?;
            text.append(b", i32 ")?;
            put_count(text, *count)
        }
        Op::Load(ty, pointer) => {
            text.append(b"load ")?;
            put_access(text, ty, pointer)
        }
        Op::Store(ty, operand, pointer) => {
            text.append(b"store ")?;
            put_typed(text, ty, operand)?;
            text.append(b", ptr ")?;
            put_operand(text, pointer)
        }
        Op::Gep(ty, pointer, indices) => put_gep(text, ty, pointer, indices.as_slice()),
        Op::Phi(ty, entries) => {
            text.append(b"phi ")?;
            put_type(text, ty)?;
            text.append(b" ")?;
            put_entries(text, entries.as_slice())
        }
        Op::Call(ty, callee, arguments) => put_call(text, ty, callee, arguments.as_slice()),
    }
}

// Appends the name of a result, where there is one.
fn put_result(text: &mut List<u8>, name: &Option<Name>) -> Result<(), NoMemory>
    ensures { OnOk result (text.new ≡ text.old ++ result_text name.now) }
{
    match name {
        Some(name) => {
            put_local(text, name.as_slice())?;
            text.append(b" = ")
        }
        None => Ok(()),
    }
}

/// Appends an instruction's line.
#[tactic(auto, unfolding(crate::specs::Instructions::inst_text))]
pub fn put_inst(text: &mut List<u8>, inst: &Inst) -> Result<(), NoMemory>
    ensures { OnOk result (text.new ≡ text.old ++ inst_text inst.now) }
{
    text.append(b"  ")?;
    put_result(text, &inst.result)?;
    put_op(text, &inst.op)?;
    text.append(b"\n")
}
