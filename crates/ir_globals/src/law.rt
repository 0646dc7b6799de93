//! Laws of the memory with which a run of a valid module begins, which do nothing.

ghost use Rattle.std.specs.Prelude.{◌≡◌, ◌≤◌, length};
ghost use Rattle.std.specs.List.{sum_by};
ghost use Rattle.ir_core.specs.declared.limit.TheConstants.{MAX_BYTES};
ghost use Rattle.ir_core.specs.declared.module.GlobalVar.{GlobalVar};
ghost use Rattle.ir_core.specs.declared.module.Module.{Module};
ghost use Rattle.ir_core.specs.Counts.{spaced};
ghost use Rattle.ir_core.specs.Globals.{first_objects};
ghost use Rattle.ir_core.specs.Refusals.{IsValid};
ghost use Rattle.ir_context.specs.Extents.{extent_of};
ghost use Rattle.ir_globals.specs.Small.{IsSmallModule};
ghost use Rattle.ir_globals.specs.Told.{told_cells, told_objects};
ghost use Rattle.ir_sound.specs.WellTyped.{Each};

/// The types of a valid module and the frames of its functions are within the limits.
pub fn valid_is_small()
    ensures { (m : Module) → IsValid m → IsSmallModule m }
{}

/// The objects with which a run of a valid module begins are told as they are.
pub fn first_objects_are_told()
    ensures { (m : Module) → IsValid m → told_objects m ≡ first_objects m }
{}

/// Each global of a valid module begins with as many bytes as the extent of its type has.
pub fn globals_fill_extents()
    ensures { (m : Module) → IsValid m → Each (λ (g : GlobalVar).
        length (told_cells m g.init g.ty) ≡ (extent_of m.types g.ty).size) m.globals }
{}

/// Together, each with the gap behind it up to a multiple of 16, these are within the limit.
pub fn extents_are_few_bytes()
    ensures { (m : Module) → IsValid m →
        sum_by (λ (g : GlobalVar). spaced (extent_of m.types g.ty).size) m.globals ≤ MAX_BYTES }
{}
