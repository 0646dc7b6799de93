//! What holds of writing and reading together, for all images and all bytes.

ghost use Rattle.std.specs.Prelude.{ℕ, List as Row, ◌≡◌, ◌<◌, ◌≤◌, ◌%◌, ◌^◌};
ghost use Rattle.x86_core.specs.declared.image.Image.{Image as Program};
ghost use Rattle.elf_file.specs.Sound.{IsSound};
ghost use Rattle.elf_file.specs.Elf.{page_up, elf_bytes};
ghost use Rattle.elf_file.specs.Rules.{LoadsAs, FailsFirst};

/// The file that is written for a sound image loads as that image. Takes no memory.
pub fn written_file_loads()
    ensures { (i : Program) → IsSound i → i.entry < 2 ^ 64 → LoadsAs (elf_bytes i) i }
{}

/// Bytes load as one image at most. Takes no memory.
pub fn file_loads_once()
    ensures { (bytes : Row ℕ) (i j : Program) → LoadsAs bytes i → LoadsAs bytes j → i ≡ j }
{}

/// What bytes load as is sound. Takes no memory.
pub fn loaded_image_is_sound()
    ensures { (bytes : Row ℕ) (i : Program) → LoadsAs bytes i → IsSound i }
{}

/// Bytes that a rule refuses load as no image. Takes no memory.
pub fn refused_file_loads_not()
    ensures { (bytes : Row ℕ) (rule : ℕ) (i : Program) → FailsFirst bytes rule → LoadsAs bytes i →
        ⊥ }
{}

/// Bytes of a segment stand at the least multiple of 4096 that is not below the end of what stands
/// before them. Takes no memory.
pub fn next_page_is_least()
    ensures { (n : ℕ) → (n ≤ page_up n) × (page_up n % 4096 ≡ 0)
        × ((m : ℕ) → n ≤ m → m % 4096 ≡ 0 → page_up n ≤ m) }
{}
