//! The labels from which edges lead to each block of a function.
//!
//! There is a row for each block, by its number, in which each label stands once. So a phi costs its
//! entries and its predecessors: where predecessors are more than entries, one of them has none.

ghost use Rattle.std.specs.Prelude.{◌≡◌, ◌∷◌, ◌<◌, [], length, map, replicate, IfOk, OnOk};
ghost use Rattle.std.specs.List.{flat_map};
ghost use Rattle.ir_core.specs.Typing.{labels_of};
ghost use Rattle.ir_core.specs.Definitions.{label_names};
ghost use Rattle.ir_core.specs.declared.instruction.Case.{Case as OneCase};
ghost use Rattle.ir_types.specs.Flow.{Rows, edges_to, edges_of, noted, noted_all, row_at, label_number, rows_of};

use ir_core::instruction::{Case, Term};
use ir_core::module::Block;
use ir_core::names::NameSet;
use ir_core::scope::Scope;
use ir_core::ty::Name;
use rd_num::width::NoMemory;
use std::alloc::Global;

/// The labels that lead to each block.
#[derive(Drop)]
pub struct Flow<'a> {
    rows: Vec<NameSet<'a>>,
}

impl<'a> Flow<'a> {
    /// One more edge; a label that is no block's is left aside.
    fn note(&mut self, scope: &Scope, to: &Name, from: &'a Name) -> Result<(), NoMemory>
        ensures { OnOk result (self.new.rows.items ≡
            noted (label_names scope.now) self.old.rows.items
            (record { to = to.now; from = from.now })) }
    {
        match scope.block(to) {
            Some(t) => {
                if t < self.rows.len() {
                    self.rows[t].add(from)?;
                }
            }
            None => {}
        }
        Ok(())
    }

    /// The edges to the labels of cases.
    fn note_cases(&mut self, scope: &Scope, cases: &[Case], from: &'a Name) -> Result<(), NoMemory>
        ensures { OnOk result (self.new.rows.items ≡
            noted_all (label_names scope.now) self.old.rows.items
            (edges_to from.now (map (λ (c : OneCase). c.to) cases.now))) }
    {
        for c in cases {
            self.note(scope, &c.to, from)?;
        }
        Ok(())
    }

    /// The edges of a terminator.
    fn note_end(&mut self, scope: &Scope, end: &Term, from: &'a Name) -> Result<(), NoMemory>
        ensures { OnOk result (self.new.rows.items ≡
            noted_all (label_names scope.now) self.old.rows.items
            (edges_to from.now (labels_of end.now))) }
    {
        match end {
            Term::Ret | Term::RetValue(_, _) | Term::Unreachable => Ok(()),
            Term::Br(to) => self.note(scope, to, from),
            Term::BrIf(_, taken, other) => {
                self.note(scope, taken, from)?;
                self.note(scope, other, from)
            }
            Term::Switch(_, _, default, cases) => {
                self.note(scope, default, from)?;
                self.note_cases(scope, cases.as_slice(), from)
            }
        }
    }

    /// The edges of blocks.
    fn note_blocks(&mut self, scope: &Scope, blocks: &'a [Block]) -> Result<(), NoMemory>
        ensures { OnOk result (self.new.rows.items ≡
            noted_all (label_names scope.now) self.old.rows.items (flat_map edges_of blocks.now)) }
    {
        for b in blocks {
            self.note_end(scope, &b.end, &b.label)?;
        }
        Ok(())
    }
}

/// So many empty rows.
fn empty_rows<'a>(alloc: Global, count: usize) -> Result<Vec<NameSet<'a>>, NoMemory>
    ensures { IfOk result (λ r. r.items ≡ replicate count []) }
{
    let mut rows = Vec::new(alloc);
    for _row in 0..count {
        match rows.push(NameSet::new(alloc)) {
            Ok(()) => {}
            Err(_) => return Err(NoMemory),
        }
    }
    Ok(rows)
}

impl<'a> Flow<'a> {
    /// The labels that lead to each block of a function.
    pub fn new(alloc: Global, scope: &Scope, blocks: &'a [Block]) -> Result<Flow<'a>, NoMemory>
        requires { blocks.now ≡ scope.now.blocks }
        ensures { IfOk result (λ w. w.rows.items ≡ rows_of blocks.now) }
    {
        let rows = empty_rows(alloc, blocks.len())?;
        let mut flow = Flow { rows };
        flow.note_blocks(scope, blocks)?;
        Ok(flow)
    }

    /// The row of a label, or else an empty one. Takes no memory.
    pub fn row<'b>(&'b self, scope: &Scope, label: &Name, none: &'b NameSet<'a>) -> &'b NameSet<'a>
        requires { none.now ≡ [] }
        ensures { result.now ≡ row_at self.now.rows.items
            (label_number (label_names scope.now) label.now) }
    {
        match scope.block(label) {
            Some(t) => {
                if t < self.rows.len() {
                    &self.rows[t]
                } else {
                    none
                }
            }
            None => none,
        }
    }
}
