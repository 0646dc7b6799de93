//! Laws on one step of a machine, over any kind of place.
//!
//! `specs/Memory.antt` says which access segments allow, `specs/Step.antt` what a step does once it
//! is known what stands at a place, `specs/Run.antt` what a run is, `specs/Data.antt` which segments
//! may be read. The machine of images and that of objects are both made from these; the functions
//! here have no bodies, and their contracts are what is proved of the definitions.

ghost use Rattle.std.specs.Prelude.{◌≡◌, ℕ, ℤ, List, Option, length};
ghost use Rattle.behavior.specs.Moment.{HasStopped};
ghost use Rattle.x86_core.specs.declared.image.Segment.{Segment};
ghost use Rattle.x86_core.specs.declared.instr.Instr.{Instr};
ghost use Rattle.x86_core.specs.Effect.{effect_of};
ghost use Rattle.x86_core.specs.Step.{State, Fetched, act, moment_of, sorted, step_of};
ghost use Rattle.x86_core.specs.Table.{by_table};

/// A run that has stopped stays as it is, whatever the places are.
pub fn stopped_stays()
    ensures { (fetch : List Segment → ℕ → Fetched ℕ) (land : ℕ → Option ℕ) (s : State ℕ) →
        HasStopped (moment_of s) → step_of fetch land s ≡ s }
{}

/// Every instruction takes its registers, its flags and its next place from the instruction table.
pub fn steps_follow_the_table()
    ensures { (land : ℕ → Option ℕ) (i : Instr) (after : ℕ) (at : ℤ → ℕ) (back : ℕ) (s : State ℕ) →
        length s.regs ≡ 16 →
        act land (sorted i after at back) s
        ≡ by_table land (effect_of i s.regs s.flags) after at back s }
{}
