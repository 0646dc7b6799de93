//! The variables of a function, and the numbers of its registers.
//!
//! A variable has the register of its place among the variables: parameters first, and then results
//! in the order of the text, each once. Registers that words pass through stand behind them.
//! Contracts see `Variables` as the list of names with their kinds.

ghost use Rattle.std.specs.Prelude.{◌≡◌, ◌+◌, [], map, fold, length, IfOk, OnOk};
ghost use Rattle.ir_core.specs.Typing.{kind_given};
ghost use Rattle.ir_core.specs.Valid.{LocalKind, param_kind, inst_local, kinds_in, results_of, named_locals};
ghost use Rattle.ir_context.specs.Registers.{number_of};
ghost use Rattle.low_core.specs.Plain.{op_of, inst_of, block_of, with_blocks};
ghost use Rattle.isel_rows.specs.Kept.{with_local};
ghost use Rattle.isel_rows.specs.Variables.{variables_of, number_or_first, bytes_register, index_register, moved_register, idle_register, unset_register, argument_register, operand_register, register_read as register_read_by, width_of as width_of_kind, width_read as width_read_by};
ghost use Rattle.isel_rows.specs.Calls.{register_into};
ghost use Rattle.isel_rows.specs.Rows.{result_register};

use ir_context::origin::Origin;
use ir_core::kind::Kind;
use ir_core::module::{Function, Param};
use ir_core::names::NameSet;
use ir_core::scope::result_kind;
use ir_core::ty::Name;
use low_core::moves::{Body, Chunk, Move, MoveOp};
use rd_num::list::List;
use rd_num::width::{NoMemory, Width};
use std::alloc::Global;
use std::marker::Model;

/// A number in 32 bits, where it has room there.
pub fn small(n: usize) -> Result<u32, NoMemory>
    ensures { IfOk result (λ k. k ≡ n) }
{
    if n <= u32::MAX as usize {
        Ok(n as u32)
    } else {
        Err(NoMemory)
    }
}

/// A number so much farther on, where it has room in 32 bits.
pub fn farther(n: u32, by: u32) -> Result<u32, NoMemory>
    ensures { IfOk result (λ k. k ≡ n + by) }
{
    if by <= u32::MAX - n {
        Ok(n + by)
    } else {
        Err(NoMemory)
    }
}

/// The width of a kind's word. Takes no memory.
pub fn width_of(kind: Kind) -> Width
    ensures { result ≡ width_of_kind kind }
{
    match kind {
        Kind::Number(w) => w,
        Kind::Pointer => Width::W64,
        Kind::NoValue => Width::W64,
    }
}

/// The kind of what a move gives. Takes no memory.
fn kind_of_move(op: &MoveOp) -> Kind
    ensures { result ≡ kind_given (op_of op.now) }
{
    match op {
        MoveOp::Keep(own) => result_kind(own),
        MoveOp::Copy(ty, _) => Kind::of(ty),
    }
}

/// Variables by their names, with their kinds in the same order.
#[derive(Drop)]
pub struct Variables<'a> {
    names: NameSet<'a>,
    kinds: List<Kind>,
}

impl<'a> Model for Variables<'a> {
    ghost use Rattle.std.specs.Prelude.{◌≡◌, List, length};
    ghost use Rattle.std.specs.Coded.{codes};
    ghost use Rattle.ir_core.specs.Valid.{LocalKind};
    ghost use Rattle.isel_rows.specs.Kept.{locals_with};

    ghost Value = { List LocalKind };

    ghost coded = { Prim.hlevel codes };

    ghost view = { λ v. locals_with v.names v.kinds };

    ghost invariant = { λ v. length v.names ≡ length v.kinds };
}

impl<'a> Variables<'a> {
    /// No variable. Takes no memory.
    fn new(alloc: Global) -> Variables<'a>
        ensures { result ≡ [] }
    {
        Variables {
            names: NameSet::new(alloc),
            kinds: List::new(alloc),
        }
    }

    /// These with one more local, where its name is new.
    fn with(self, name: &'a Name, kind: Kind) -> Result<Variables<'a>, NoMemory>
        ensures { IfOk result (λ vs. vs ≡
            with_local self.entry (record { name = name.now; kind = kind })) }
    {
        let mut names = self.names;
        let mut kinds = self.kinds;
        if names.add(name)? {
            kinds.add(kind)?;
            Ok(Variables { names, kinds })
        } else {
            Ok(Variables { names, kinds })
        }
    }

    /// These with parameters.
    fn with_params(self, params: &'a [Param]) -> Result<Variables<'a>, NoMemory>
        ensures { IfOk result (λ vs. vs ≡ fold with_local self.entry (map param_kind params.now)) }
    {
        let mut all = self;
        for p in params {
            all = all.with(&p.name, Kind::of(&p.ty))?;
        }
        Ok(all)
    }

    /// These with what a move assigns.
    fn with_move(self, x: &'a Move) -> Result<Variables<'a>, NoMemory>
        ensures { IfOk result (λ vs. vs ≡ fold with_local self.entry (inst_local (inst_of x.now))) }
    {
        match &x.to {
            Some(name) => self.with(name, kind_of_move(&x.op)),
            None => Ok(self),
        }
    }

    /// These with what moves assign.
    fn with_moves(self, moves: &'a [Move]) -> Result<Variables<'a>, NoMemory>
        ensures { IfOk result (λ vs. vs ≡
            fold with_local self.entry (kinds_in (map inst_of moves.now))) }
    {
        let mut all = self;
        for x in moves {
            all = all.with_move(x)?;
        }
        Ok(all)
    }

    /// These with what chunks assign.
    fn with_chunks(self, chunks: &'a [Chunk]) -> Result<Variables<'a>, NoMemory>
        ensures { IfOk result (λ vs. vs ≡
            fold with_local self.entry (results_of (map block_of chunks.now))) }
    {
        let mut all = self;
        for c in chunks {
            all = all.with_moves(c.moves.as_slice())?;
        }
        Ok(all)
    }

    /// The variables of a function with this body.
    pub fn of(alloc: Global, f: &'a Function, b: &'a Body) -> Result<Variables<'a>, NoMemory>
        ensures { IfOk result (λ vs. vs ≡
            variables_of (with_blocks f.now (map block_of b.now.chunks))) }
    {
        let none = Variables::new(alloc);
        let params = none.with_params(f.params.as_slice())?;
        params.with_chunks(b.chunks.as_slice())
    }

    /// Their names. Takes no memory.
    pub fn names(&self) -> &NameSet<'a>
        ensures { result.now ≡ named_locals self.now }
    {
        &self.names
    }

    /// How many there are.
    pub fn count(&self) -> Result<u32, NoMemory>
        ensures { IfOk result (λ k. k ≡ length self.now) }
    {
        small(self.names.len())
    }

    /// The register so far behind them.
    fn behind(&self, by: u32) -> Result<u32, NoMemory>
        ensures { IfOk result (λ r. r ≡ length self.now + by) }
    {
        farther(self.count()?, by)
    }

    /// The register that an operand is brought into, by its number in its instruction.
    pub fn operand_register(&self, k: u32) -> Result<u32, NoMemory>
        ensures { IfOk result (λ r. r ≡ operand_register self.now k) }
    {
        self.behind(k)
    }

    /// The register of numbers of bytes.
    pub fn bytes_register(&self) -> Result<u32, NoMemory>
        ensures { IfOk result (λ r. r ≡ bytes_register self.now) }
    {
        self.behind(3)
    }

    /// The register of an index that was widened.
    pub fn index_register(&self) -> Result<u32, NoMemory>
        ensures { IfOk result (λ r. r ≡ index_register self.now) }
    {
        self.behind(4)
    }

    /// The register of a pointer that moves.
    pub fn moved_register(&self) -> Result<u32, NoMemory>
        ensures { IfOk result (λ r. r ≡ moved_register self.now) }
    {
        self.behind(5)
    }

    /// The register of a result without a name.
    pub fn idle_register(&self) -> Result<u32, NoMemory>
        ensures { IfOk result (λ r. r ≡ idle_register self.now) }
    {
        self.behind(6)
    }

    /// The register that is never assigned.
    pub fn unset_register(&self) -> Result<u32, NoMemory>
        ensures { IfOk result (λ r. r ≡ unset_register self.now) }
    {
        self.behind(7)
    }

    /// The register of an argument, by its number.
    pub fn argument_register(&self, k: u32) -> Result<u32, NoMemory>
        ensures { IfOk result (λ r. r ≡ argument_register self.now k) }
    {
        farther(self.behind(8)?, k)
    }

    /// The register that an origin names.
    pub fn register_read(&self, o: Origin) -> Result<u32, NoMemory>
        ensures { IfOk result (λ r. r ≡ register_read_by self.now o) }
    {
        match o {
            Origin::Register(k) => small(k),
            Origin::Known(_) => self.unset_register(),
            Origin::Unset => self.unset_register(),
            Origin::Malformed => self.unset_register(),
        }
    }

    /// The width of the variable of a number. Takes no memory.
    fn width_at(&self, k: usize) -> Width
        ensures { result ≡ width_read_by self.now (Origin.Register k) }
    {
        match self.kinds.get(k) {
            Some(kind) => width_of(*kind),
            None => Width::W64,
        }
    }

    /// The width of what an origin has, where it is a variable. Takes no memory.
    pub fn width_read(&self, o: Origin) -> Width
        ensures { result ≡ width_read_by self.now o }
    {
        match o {
            Origin::Register(k) => self.width_at(k),
            Origin::Known(_) => Width::W64,
            Origin::Unset => Width::W64,
            Origin::Malformed => Width::W64,
        }
    }

    /// The register of a variable, where there is one of the name.
    pub fn register(&self, name: &Name) -> Result<Option<u32>, NoMemory>
        ensures { IfOk result (λ r. r ≡ number_of (named_locals self.now) name.now) }
    {
        match self.names().number(name) {
            Some(k) => Ok(Some(small(k)?)),
            None => Ok(None),
        }
    }

    /// The register of a result, where it has a name.
    pub fn register_into(&self, given: &Option<Name>) -> Result<Option<u32>, NoMemory>
        ensures { IfOk result (λ r. r ≡ register_into self.now given.now) }
    {
        match given {
            Some(name) => self.register(name),
            None => Ok(None),
        }
    }

    /// The register of a result that is always assigned.
    pub fn result_register(&self, given: &Option<Name>) -> Result<u32, NoMemory>
        ensures { IfOk result (λ r. r ≡ result_register self.now given.now) }
    {
        match self.register_into(given)? {
            Some(r) => Ok(r),
            None => self.idle_register(),
        }
    }
}
