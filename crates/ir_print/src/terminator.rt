//! The last line of a block.

ghost use Rattle.std.specs.Prelude.{◌≡◌, ◌++◌, OnOk, codes, flat_map};
ghost use Rattle.ir_print.specs.Values.{operand_text};
ghost use Rattle.ir_print.specs.Instructions.{typed_text};
ghost use Rattle.ir_print.specs.Terminators.{target_text, case_text, term_text, end_text};

use crate::names::put_local;
use crate::values::{put_operand, put_typed};
use ir_core::instruction::{Case, Term};
use ir_core::operand::Operand;
use ir_core::ty::{Name, Ty};
use rd_num::list::List;
use rd_num::width::NoMemory;

// Appends a target.
fn put_target(text: &mut List<u8>, name: &Name) -> Result<(), NoMemory>
    ensures { OnOk result (text.new ≡ text.old ++ target_text name.now) }
{
    text.append(b"label ")?;
    put_local(text, name.as_slice())
}

// Appends a case and the space behind it.
fn put_case(text: &mut List<u8>, case: &Case) -> Result<(), NoMemory>
    ensures { OnOk result (text.new ≡ text.old ++ case_text case.now) }
{
    put_typed(text, &case.ty, &case.value)?;
    text.append(b", ")?;
    put_target(text, &case.to)?;
    text.append(b" ")
}

fn put_cases(text: &mut List<u8>, cases: &[Case]) -> Result<(), NoMemory>
    ensures { OnOk result (text.new ≡ text.old ++ flat_map case_text cases.now) }
{
    for case in cases {
        put_case(text, case)?;
    }
    Ok(())
}

// Appends a switch.
fn put_switch(
    text: &mut List<u8>,
    ty: &Ty,
    operand: &Operand,
    other: &Name,
    cases: &[Case],
) -> Result<(), NoMemory>
    ensures { OnOk result (text.new ≡ text.old ++
        codes "switch " ++ typed_text ty.now operand.now ++ codes ", " ++ target_text other.now ++
        codes " [ " ++ flat_map case_text cases.now ++ codes "]") }
{
    text.append(b"switch ")?;
    put_typed(text, ty, operand)?;
    text.append(b", ")?;
    put_target(text, other)?;
    text.append(b" [ ")?;
    put_cases(text, cases)?;
    text.append(b"]")
}

// Appends a terminator.
#[tactic(auto, unfolding(crate::specs::Terminators::term_text))]
fn put_term(text: &mut List<u8>, term: &Term) -> Result<(), NoMemory>
    ensures { OnOk result (text.new ≡ text.old ++ term_text term.now) }
{
    match term {
        Term::Ret => text.append(b"ret void"),
        Term::RetValue(ty, operand) => {
            text.append(b"ret ")?;
            put_typed(text, ty, operand)
        }
        Term::Br(to) => {
            text.append(b"br ")?;
            put_target(text, to)
        }
        Term::BrIf(condition, taken, other) => {
            text.append(b"br i1 ")?;
            put_operand(text, condition)?;
            text.append(b", ")?;
            put_target(text, taken)?;
            text.append(b", ")?;
            put_target(text, other)
        }
        Term::Switch(ty, operand, other, cases) => {
            put_switch(text, ty, operand, other, cases.as_slice())
        }
        Term::Unreachable => text.append(b"unreachable"),
    }
}

/// Appends a block's last line.
#[tactic(auto, unfolding(crate::specs::Terminators::end_text))]
pub fn put_end(text: &mut List<u8>, term: &Term) -> Result<(), NoMemory>
    ensures { OnOk result (text.new ≡ text.old ++ end_text term.now) }
{
    text.append(b"  ")?;
    put_term(text, term)?;
    text.append(b"\n")
}
