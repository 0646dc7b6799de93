//! How the run of a valid module stands after so many steps.
//!
//! A module in, between a source and a sink, and how its run stands out. Names are resolved and the
//! objects of globals made once; then steps are taken. What a step is stands in `ir_core`; that
//! the steps of the program are those of the module, the laws of this crate say.

ghost use Rattle.std.specs.Prelude.{◌≡◌, IfOk};
ghost use Rattle.ir_core.specs.declared.module.Module.{Module as Whole};
ghost use Rattle.ir_core.specs.Globals.{first_objects};
ghost use Rattle.ir_core.specs.Refusals.{IsValid};
ghost use Rattle.ir_program.specs.Programs.{program_of};
ghost use Rattle.ir_run.specs.Runs.{Charged};
ghost use Rattle.ir_eval.specs.Evaluated.{Evaluated};

use crate::outcome::{IrOutcome, outcome_of};
use ir_context::context::Context;
use ir_core::module::Module;
use ir_core::valid::Valid;
use ir_globals::first::first_memory;
use ir_memory::memory::Memory;
use ir_program::program::{Program, resolve};
use ir_run::start::start;
use rd_io::{RunFault, Sink, Source};
use rd_num::width::NoMemory;
use std::alloc::Global;

/// What a run of a module needs: its program, and the objects of its globals.
#[derive(Drop)]
struct Prepared {
    program: Program,
    memory: Memory,
}

/// What a run of a valid module needs, in time linear in its text and the bytes of its globals.
#[tactic(auto, using(ir_globals::proofs::ValidLaws::valid_distinct, ir_globals::proofs::ValidLaws::valid_types, ir_globals::proofs::ValidLaws::valid_globals, ir_globals::proofs::ValidLaws::valid_functions, ir_globals::proofs::ValidLaws::valid_few, ir_globals::proofs::ValidLaws::valid_told))]
fn prepare(alloc: Global, whole: &Module) -> Result<Prepared, NoMemory>
    requires { ∥ IsValid whole.now ∥₁ }
    ensures program { IfOk result (λ p. p.program ≡ program_of whole.now) }
    ensures memory { IfOk result (λ p. p.memory ≡ first_objects whole.now) }
{
    let program = resolve(alloc, whole)?;
    let context = Context::new(alloc, whole)?;
    let memory = first_memory(alloc, &context, whole)?;
    Ok(Prepared { program, memory })
}

/// How the run of a valid module's program over its first memory stands after `steps` steps.
fn evaluate<I: Source, O: Sink>(
    alloc: Global,
    program: &Program,
    memory: Memory,
    input: &mut I,
    sink: &mut O,
    steps: u64,
) -> Result<IrOutcome, RunFault>
    ensures evaluated { (m : Whole) → IsValid m → program.now ≡ program_of m →
        memory ≡ first_objects m → Evaluated m steps (I.told input.old) (I.told input.new)
        (O.told sink.old) (O.told sink.new) result }
    ensures charged { Charged (I.told input.old) (I.told input.new) (O.told sink.old)
        (O.told sink.new) result }
{
    match start(alloc, program, memory) {
        Ok(Some(mut state)) => match state.run(alloc, program, input, sink, steps) {
            Ok(stop) => outcome_of(stop),
            Err(e) => Err(e),
        },
        Ok(None) => Err(RunFault::NoMemory),
        Err(_) => Err(RunFault::NoMemory),
    }
}

/// How the run of a valid module stands after `steps` steps, between a source and a sink.
///
/// `Input` comes only where the source has failed, at a step that asks for a byte; `Output` only
/// where the sink has failed, at a step that prints. Bytes that were printed before are in the sink.
/// A run that has stopped is told as it stopped, whatever `steps` are left.
pub fn eval<I: Source, O: Sink>(
    alloc: Global,
    valid: &Valid,
    input: &mut I,
    sink: &mut O,
    steps: u64,
) -> Result<IrOutcome, RunFault>
    ensures evaluated { Evaluated valid.now.kept steps (I.told input.old) (I.told input.new)
        (O.told sink.old) (O.told sink.new) result }
    ensures charged { Charged (I.told input.old) (I.told input.new) (O.told sink.old)
        (O.told sink.new) result }
{
    match prepare(alloc, valid.module()) {
        Ok(Prepared { program, memory }) => {
            evaluate(alloc, &program, memory, input, sink, steps)
        }
        Err(NoMemory) => Err(RunFault::NoMemory),
    }
}
