//! Modules with numbers in place of names.

ghost use Rattle.std.specs.Prelude.{◌≡◌, ◌<◌, ◌^◌, [], map, length, codes, All, IfOk};
ghost use Rattle.ir_core.specs.declared.module.Param.{Param as OneParam};
ghost use Rattle.ir_core.specs.declared.module.Function.{Function as OneFunction};
ghost use Rattle.ir_core.specs.Definitions.{doubled, repeated, local_names};
ghost use Rattle.ir_core.specs.Kinds.{kind_of};
ghost use Rattle.ir_core.specs.Operands.{function_number};
ghost use Rattle.ir_program.specs.Phis.{phis_in};
ghost use Rattle.ir_program.specs.Programs.{register_names, stretch_of, body_of, program_of};

use crate::action::{Resolver, Task};
use crate::exit::{Edge, Exit, Way};
use crate::phi::Phi;
use ir_context::context::Context;
use ir_core::kind::Kind;
use ir_core::module::{Block, Function, Module, Param};
use ir_core::names::NameSet;
use ir_core::scope::Scope;
use rd_num::list::List;
use rd_num::width::NoMemory;
use std::alloc::Global;

/// A block: a task for each instruction, how it ends, and an edge for each label at its end.
#[derive(Drop)]
pub struct Stretch {
    pub tasks: List<Task>,
    pub exit: Exit,
    pub edges: List<Edge>,
}

/// A function. Its registers are its locals by their numbers, the parameters first.
#[derive(Drop)]
pub struct Body {
    pub result: Kind,
    pub parameters: List<Kind>,
    pub registers: usize,
    pub stretches: List<Stretch>,
}

/// A module: its functions in order, and the number of its `main`.
#[derive(Drop)]
pub struct Program {
    pub bodies: List<Body>,
    pub main: Option<u32>,
}

impl<'c, 'a> Resolver<'c, 'a> {
    /// A block, whose edges go this way.
    fn stretch(&self, way: &Way, b: &Block) -> Result<Stretch, NoMemory>
        requires rows { way.now.rows.now ≡
            map (phis_in self.now.context.now self.now.names.now) way.now.scope.now.blocks }
        requires from { way.now.from.now ≡ b.now.label }
        ensures { IfOk result (λ s. s ≡ stretch_of self.now.context.now self.now.names.now
            way.now.scope.now.blocks b.now) }
    {
        let mut labels = NameSet::new(self.alloc);
        let mut edges = List::new(self.alloc);
        self.add_edges(way, &mut labels, &mut edges, &b.end)?;
        let tasks = self.tasks(b.insts.as_slice())?;
        let exit = self.exit(&labels, &b.end)?;
        Ok(Stretch { tasks, exit, edges })
    }

    /// Blocks of a function, which begin with these phis.
    fn stretches(
        &self,
        scope: &Scope,
        rows: &List<List<Phi>>,
        blocks: &[Block],
    ) -> Result<List<Stretch>, NoMemory>
        requires { rows.now ≡
            map (phis_in self.now.context.now self.now.names.now) scope.now.blocks }
        ensures { IfOk result (λ l. l ≡ map (stretch_of self.now.context.now self.now.names.now
            scope.now.blocks) blocks.now) }
    {
        let mut stretches = List::new(self.alloc);
        for b in blocks {
            let way = Way {
                from: &b.label,
                scope,
                rows,
            };
            stretches.add(self.stretch(&way, b)?)?;
        }
        Ok(stretches)
    }
}

/// The kinds of parameters.
fn parameter_kinds(alloc: Global, params: &[Param]) -> Result<List<Kind>, NoMemory>
    ensures { IfOk result (λ l. l ≡ map (λ (p : OneParam). kind_of p.ty) params.now) }
{
    let mut kinds = List::new(alloc);
    for p in params {
        kinds.add(Kind::of(&p.ty))?;
    }
    Ok(kinds)
}

/// The blocks of a function.
fn blocks(alloc: Global, context: &Context, scope: &Scope) -> Result<List<Stretch>, NoMemory>
    ensures { IfOk result (λ l. l ≡ map (stretch_of context.now (register_names scope.now)
        scope.now.blocks) scope.now.blocks) }
{
    let blocks = scope.function().blocks.as_slice();
    let resolver = Resolver {
        alloc,
        context,
        names: scope.locals(),
    };
    let rows = resolver.all_phis(blocks)?;
    resolver.stretches(scope, &rows, blocks)
}

/// A function.
fn make_body(alloc: Global, context: &Context, f: &Function) -> Result<Body, NoMemory>
    requires { repeated [] (local_names f.now) ≡ [] }
    ensures { IfOk result (λ b. b ≡ body_of context.now f.now) }
{
    let scope = Scope::new(alloc, f)?;
    let parameters = parameter_kinds(alloc, f.params.as_slice())?;
    let stretches = blocks(alloc, context, &scope)?;
    Ok(Body {
        result: Kind::of(&f.ret),
        parameters,
        registers: scope.locals().len(),
        stretches,
    })
}

/// The functions of the module.
fn bodies(alloc: Global, context: &Context, functions: &[Function]) -> Result<List<Body>, NoMemory>
    requires { All (λ (f : OneFunction). repeated [] (local_names f) ≡ []) functions.now }
    ensures { IfOk result (λ l. l ≡ map (body_of context.now) functions.now) }
{
    let mut bodies = List::new(alloc);
    for f in functions {
        bodies.add(make_body(alloc, context, f)?)?;
    }
    Ok(bodies)
}

/// The number of the function `main`.
fn main_of(alloc: Global, context: &Context) -> Result<Option<u32>, NoMemory>
    ensures { IfOk result (λ k. k ≡ function_number context.now (codes "main")) }
{
    let mut name = List::new(alloc);
    name.append(b"main")?;
    Ok(context.function(&name))
}

/// A module with numbers in place of names.
///
/// No name of the module is defined twice. Time and memory are linear in its text, if each phi has an
/// entry for each edge that leads to it.
pub fn resolve(alloc: Global, whole: &Module) -> Result<Program, NoMemory>
    requires distinct { doubled whole.now ≡ [] }
    requires few { length whole.now.functions < 2 ^ 32 }
    ensures { IfOk result (λ p. p ≡ program_of whole.now) }
{
    let context = Context::new(alloc, whole)?;
    let bodies = bodies(alloc, &context, whole.functions.as_slice())?;
    let main = main_of(alloc, &context)?;
    Ok(Program { bodies, main })
}
