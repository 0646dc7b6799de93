//! The names that are used as values: where a pointer to a function may arise.
//!
//! Names are lent, and kept in the order in which they are mentioned, as often as they are. Contracts
//! see `Symbols` as the list of names.

ghost use Rattle.std.specs.Prelude.{◌≡◌, ◌++◌, ◌∷◌, [], ℕ, List, map, IfOk, OnOk};
ghost use Rattle.std.specs.List.{flat_map, list_any};
ghost use Rattle.ir_core.specs.Names.{same_name};
ghost use Rattle.ir_core.specs.Mentions.{of_operand, of_callee, of_op, of_end, of_init};
ghost use Rattle.low_core.specs.Plain.{op_of};
ghost use Rattle.isel_rows.specs.Symbols.{symbols_in, arg_symbols, entry_symbols, case_symbols};
ghost use Rattle.isel_rows.specs.Symbols.{move_symbols, chunk_symbols, body_symbols};
ghost use Rattle.isel_rows.specs.Symbols.{element_symbols, global_symbols};

use ir_core::init::{Elem, Init};
use ir_core::instruction::{Arg, Case, Entry, Op, Term};
use ir_core::module::GlobalVar;
use ir_core::names::NameSet;
use ir_core::operand::Operand;
use ir_core::ty::Name;
use low_core::moves::{Body, Chunk, Move, MoveOp};
use rd_num::list::List;
use rd_num::width::NoMemory;
use std::alloc::Global;
use std::marker::Model;

/// Names in the order in which they are mentioned.
#[derive(Drop)]
pub struct Symbols<'a> {
    kept: List<&'a Name>,
}

impl<'a> Model for Symbols<'a> {
    ghost use Rattle.std.specs.Prelude.{ℕ, List as Row, map};

    ghost Value = { Row (Row ℕ) };

    ghost view = { λ s. map (λ n. n.now) s.kept };
}

/// Names, each once.
fn each_once<'a>(alloc: Global, names: &[&'a Name]) -> Result<NameSet<'a>, NoMemory>
    ensures { IfOk result (λ s. (n : List ℕ) → list_any (same_name n) s ≡
        list_any (same_name n) (map (λ k. k.now) names.now)) }
{
    let mut all = NameSet::new(alloc);
    for name in names {
        all.add(name)?;
    }
    Ok(all)
}

impl<'a> Symbols<'a> {
    /// No name. Takes no memory.
    pub fn new(alloc: Global) -> Symbols<'a>
        ensures { result ≡ [] }
    {
        Symbols {
            kept: List::new(alloc),
        }
    }

    /// Adds a name.
    fn add(&mut self, name: &'a Name) -> Result<(), NoMemory>
        ensures { OnOk result (self.new ≡ self.old ++ name.now ∷ []) }
    {
        self.kept.add(name)
    }

    /// Adds those of an operand.
    fn add_operand(&mut self, a: &'a Operand) -> Result<(), NoMemory>
        ensures { OnOk result (self.new ≡ self.old ++ symbols_in (of_operand a.now)) }
    {
        match a {
            Operand::Global(name) => self.add(name),
            Operand::Int(_) | Operand::Bool(_) | Operand::Null => Ok(()),
            Operand::Undef | Operand::Poison | Operand::Local(_) => Ok(()),
            Operand::Const(_) => Ok(()),
        }
    }

    /// Adds those of arguments or indices.
    fn add_args(&mut self, args: &'a [Arg]) -> Result<(), NoMemory>
        ensures { OnOk result (self.new ≡ self.old ++ flat_map arg_symbols args.now) }
    {
        for a in args {
            self.add_operand(&a.value)?;
        }
        Ok(())
    }

    /// Adds those of entries of a phi.
    fn add_entries(&mut self, entries: &'a [Entry]) -> Result<(), NoMemory>
        ensures { OnOk result (self.new ≡ self.old ++ flat_map entry_symbols entries.now) }
    {
        for e in entries {
            self.add_operand(&e.value)?;
        }
        Ok(())
    }

    /// Adds those of cases.
    fn add_cases(&mut self, cases: &'a [Case]) -> Result<(), NoMemory>
        ensures { OnOk result (self.new ≡ self.old ++ flat_map case_symbols cases.now) }
    {
        for c in cases {
            self.add_operand(&c.value)?;
        }
        Ok(())
    }

    /// Adds those of what is called; a function that is called by its name is none.
    fn add_callee(&mut self, callee: &'a Operand) -> Result<(), NoMemory>
        ensures { OnOk result (self.new ≡ self.old ++ symbols_in (of_callee callee.now)) }
    {
        match callee {
            Operand::Global(_) => Ok(()),
            Operand::Int(_) | Operand::Bool(_) | Operand::Null => self.add_operand(callee),
            Operand::Undef | Operand::Poison | Operand::Local(_) => self.add_operand(callee),
            Operand::Const(_) => self.add_operand(callee),
        }
    }

    /// Adds those of two operands.
    fn add_pair(&mut self, a: &'a Operand, b: &'a Operand) -> Result<(), NoMemory>
        ensures { OnOk result (self.new ≡ self.old ++
            (symbols_in (of_operand a.now) ++ symbols_in (of_operand b.now))) }
    {
        self.add_operand(a)?;
        self.add_operand(b)?;
        Ok(())
    }

    /// Adds those of a call.
    fn add_call(&mut self, callee: &'a Operand, args: &'a [Arg]) -> Result<(), NoMemory>
        ensures { OnOk result (self.new ≡ self.old ++
            (symbols_in (of_callee callee.now) ++ flat_map arg_symbols args.now)) }
    {
        self.add_callee(callee)?;
        self.add_args(args)?;
        Ok(())
    }

    /// Adds those of a pointer and of indices.
    fn add_move_of_pointer(&mut self, p: &'a Operand, indices: &'a [Arg]) -> Result<(), NoMemory>
        ensures { OnOk result (self.new ≡ self.old ++
            (symbols_in (of_operand p.now) ++ flat_map arg_symbols indices.now)) }
    {
        self.add_operand(p)?;
        self.add_args(indices)?;
        Ok(())
    }

    /// Adds those of a choice.
    fn add_choice(
        &mut self,
        condition: &'a Operand,
        a: &'a Operand,
        b: &'a Operand,
    ) -> Result<(), NoMemory>
        ensures { OnOk result (self.new ≡ self.old ++ (symbols_in (of_operand condition.now) ++
            (symbols_in (of_operand a.now) ++ symbols_in (of_operand b.now)))) }
    {
        self.add_operand(condition)?;
        self.add_pair(a, b)?;
        Ok(())
    }

    /// Adds those of an instruction.
    #[tactic(auto, using(crate::proofs::SymbolLaws::pair_symbols, crate::proofs::SymbolLaws::cast_symbols, crate::proofs::SymbolLaws::choice_symbols, crate::proofs::SymbolLaws::move_symbols, crate::proofs::SymbolLaws::call_symbols, crate::proofs::SymbolLaws::entries_symbols))]
    fn add_op(&mut self, op: &'a Op) -> Result<(), NoMemory>
        ensures { OnOk result (self.new ≡ self.old ++ symbols_in (of_op op.now)) }
    {
        match op {
            Op::Bin(_, _, a, b) => self.add_pair(a, b),
            Op::Compare(_, _, a, b) => self.add_pair(a, b),
            Op::Cast(_, _, a, _) => self.add_operand(a),
            Op::Select(condition, _, a, _, b) => self.add_choice(condition, a, b),
            Op::Freeze(_, a) => self.add_operand(a),
            Op::Alloca(_, _) => Ok(()),
            Op::Load(_, p) => self.add_operand(p),
            Op::Store(_, a, p) => self.add_pair(a, p),
            Op::Gep(_, p, indices) => self.add_move_of_pointer(p, indices.as_slice()),
            Op::Phi(_, entries) => self.add_entries(entries.as_slice()),
            Op::Call(_, callee, args) => self.add_call(callee, args.as_slice()),
        }
    }

    /// Adds those of a move.
    fn add_move(&mut self, op: &'a MoveOp) -> Result<(), NoMemory>
        ensures { OnOk result (self.new ≡ self.old ++ symbols_in (of_op (op_of op.now))) }
    {
        match op {
            MoveOp::Keep(own) => self.add_op(own),
            MoveOp::Copy(_, a) => self.add_operand(a),
        }
    }

    /// Adds those of moves.
    fn add_moves(&mut self, moves: &'a [Move]) -> Result<(), NoMemory>
        ensures { OnOk result (self.new ≡ self.old ++ flat_map move_symbols moves.now) }
    {
        for x in moves {
            self.add_move(&x.op)?;
        }
        Ok(())
    }

    /// Adds those of a switch.
    fn add_switch(&mut self, a: &'a Operand, cases: &'a [Case]) -> Result<(), NoMemory>
        ensures { OnOk result (self.new ≡ self.old ++
            (symbols_in (of_operand a.now) ++ flat_map case_symbols cases.now)) }
    {
        self.add_operand(a)?;
        self.add_cases(cases)?;
        Ok(())
    }

    /// Adds those of an end.
    #[tactic(auto, using(crate::proofs::SymbolLaws::branch_symbols, crate::proofs::SymbolLaws::switch_symbols))]
    fn add_end(&mut self, end: &'a Term) -> Result<(), NoMemory>
        ensures { OnOk result (self.new ≡ self.old ++ symbols_in (of_end end.now)) }
    {
        match end {
            Term::Ret | Term::Unreachable => Ok(()),
            Term::RetValue(_, a) => self.add_operand(a),
            Term::Br(_) => Ok(()),
            Term::BrIf(condition, _, _) => self.add_operand(condition),
            Term::Switch(_, a, _, cases) => self.add_switch(a, cases.as_slice()),
        }
    }

    /// Adds those of a chunk.
    fn add_chunk(&mut self, c: &'a Chunk) -> Result<(), NoMemory>
        ensures { OnOk result (self.new ≡ self.old ++ chunk_symbols c.now) }
    {
        self.add_moves(c.moves.as_slice())?;
        self.add_end(&c.end)?;
        Ok(())
    }

    /// Adds those of chunks.
    fn add_chunks(&mut self, chunks: &'a [Chunk]) -> Result<(), NoMemory>
        ensures { OnOk result (self.new ≡ self.old ++ flat_map chunk_symbols chunks.now) }
    {
        for c in chunks {
            self.add_chunk(c)?;
        }
        Ok(())
    }

    /// Adds those of bodies.
    pub fn add_bodies(&mut self, bodies: &'a [Body]) -> Result<(), NoMemory>
        ensures { OnOk result (self.new ≡ self.old ++ flat_map body_symbols bodies.now) }
    {
        for b in bodies {
            self.add_chunks(b.chunks.as_slice())?;
        }
        Ok(())
    }

    /// Adds those of elements of an initialiser.
    #[cycle(init)]
    fn add_elements(&mut self, es: &'a [Elem]) -> Result<(), NoMemory>
        ensures { OnOk result (self.new ≡ self.old ++ flat_map element_symbols es.now) }
    {
        for e in es {
            self.add_init(&e.init)?;
        }
        Ok(())
    }

    /// Adds those of an initialiser.
    #[cycle(init)]
    fn add_init(&mut self, init: &'a Init) -> Result<(), NoMemory>
        ensures { OnOk result (self.new ≡ self.old ++ symbols_in (of_init init.now)) }
    {
        match init {
            Init::Value(v) => self.add_operand(v),
            Init::Zero | Init::Text(_) => Ok(()),
            Init::Array(es) => self.add_elements(es.as_slice()),
            Init::Struct(es) => self.add_elements(es.as_slice()),
            Init::Packed(es) => self.add_elements(es.as_slice()),
        }
    }

    /// Adds those of globals.
    pub fn add_globals(&mut self, globals: &'a [GlobalVar]) -> Result<(), NoMemory>
        ensures { OnOk result (self.new ≡ self.old ++ flat_map global_symbols globals.now) }
    {
        for g in globals {
            self.add_init(&g.init)?;
        }
        Ok(())
    }

    /// The names, each once.
    pub fn set(&self, alloc: Global) -> Result<NameSet<'a>, NoMemory>
        ensures { IfOk result (λ s. (n : List ℕ) →
            list_any (same_name n) s ≡ list_any (same_name n) self.now) }
    {
        each_once(alloc, self.kept.as_slice())
    }
}
