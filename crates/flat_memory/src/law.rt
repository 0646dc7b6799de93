//! The laws, one for each kind of access.

ghost use Rattle.std.specs.Prelude.{◌≡◌, ◌≢◌, ℕ, ◌+◌, ◌<◌, ◌≤◌, List, [], ◌∷◌, Bool, true, length, All, Ok};
ghost use Rattle.rd_num.specs.declared.width.Width.TheVariants.{W64};
ghost use Rattle.ir_core.specs.declared.instruction.Pred.{Pred};
ghost use Rattle.ir_core.specs.declared.kind.Kind.{Kind};
ghost use Rattle.ir_core.specs.declared.memory.Value.{Value};
ghost use Rattle.ir_core.specs.declared.memory.Object0.{Object0};
ghost use Rattle.ir_core.specs.Arithmetic.{compared};
ghost use Rattle.ir_core.specs.Memory.{Memory, load_at, store_at, kind_size, cells_of, with_alloca, without};
ghost use Rattle.ir_core.specs.Memory as objects;
ghost use Rattle.ir_core.specs.Pointers.{pointers_compared, moved_pointer};
ghost use Rattle.low_core.specs.declared.sel.Sel.{Sel};
ghost use Rattle.low_core.specs.Flat.{Span, Bytes, covers, forgotten, word_at, with_word_at};
ghost use Rattle.low_core.specs.Flat as flat;
ghost use Rattle.low_core.specs.Plan.{Plan, PlanFits, first_bytes};
ghost use Rattle.low_core.specs.Contents.{Addresses, word_of, addresses_of, contents_of};
ghost use Rattle.low_core.specs.Bridge.{Setting, CallMemory, flat_in, Lives, address_of, IsKnown, Bridges};
ghost use Rattle.flat_memory.specs.Accesses.{SettingFits, Loads, Changes, IsPointer, Moves, Names, Allocates, IsOff, AreFree, AreFirst, with_address};

/// What objects allow to be loaded, flat memory gives as a word.
pub fn loads()
    ensures { (g : Setting) (cs : List CallMemory) (m : Memory) (at : Addresses) (bytes : Bytes) →
        SettingFits g → Bridges g cs m at bytes → (kind : Kind) (v u : Value) →
        load_at m kind v ≡ Ok u →
        Loads g m at kind u (word_at (flat_in g cs bytes) (word_of at v) (kind_size kind)) }
{}

/// What may be stored in an object, its word may be stored in flat memory.
pub fn stores()
    ensures { (g : Setting) (cs : List CallMemory) (m : Memory) (at : Addresses) (bytes : Bytes) →
        SettingFits g → Bridges g cs m at bytes → (v p : Value) (m2 : Memory) →
        IsKnown (length m) g.taken v → store_at m v p ≡ Ok m2 →
        Changes g cs m m2 at (with_word_at (flat_in g cs bytes) (word_of at p)
        (length (cells_of v)) (word_of at v)) }
{}

/// A copy of bytes, pieces of pointers and unset bytes among them.
pub fn copies()
    ensures { (g : Setting) (cs : List CallMemory) (m : Memory) (at : Addresses) (bytes : Bytes) →
        SettingFits g → Bridges g cs m at bytes → (to from : Value) (count : ℕ) (m2 : Memory) →
        objects.copied m to from count ≡ Ok m2 →
        Changes g cs m m2 at (flat.copied (flat_in g cs bytes) (word_of at to) (word_of at from)
        count) }
{}

/// A fill of bytes with a number.
pub fn fills()
    ensures { (g : Setting) (cs : List CallMemory) (m : Memory) (at : Addresses) (bytes : Bytes) →
        SettingFits g → Bridges g cs m at bytes → (p : Value) (byte count : ℕ) (m2 : Memory) →
        objects.filled m p byte count ≡ Ok m2 →
        Changes g cs m m2 at (flat.filled (flat_in g cs bytes) (word_of at p) byte count) }
{}

/// What a comparison of pointers says is what the comparison of their words says.
pub fn compares()
    ensures { (g : Setting) (cs : List CallMemory) (m : Memory) (at : Addresses) (bytes : Bytes) →
        SettingFits g → Bridges g cs m at bytes → (pred : Pred) (u v : Value) (r : Bool) →
        IsPointer (length m) g.taken u → IsPointer (length m) g.taken v →
        pointers_compared pred m u v ≡ Ok r → compared pred W64 (word_of at u) (word_of at v) ≡ r }
{}

/// A pointer that moves, and its word.
pub fn moves()
    ensures { (g : Setting) (cs : List CallMemory) (m : Memory) (at : Addresses) (bytes : Bytes) →
        SettingFits g → Bridges g cs m at bytes → (by : ℕ) (v u : Value) →
        IsPointer (length m) g.taken v → moved_pointer by v ≡ Ok u → Moves g m at by v u }
{}

/// What a tie says of globals and functions, and of where live objects lie.
pub fn names()
    ensures { (g : Setting) (cs : List CallMemory) (m : Memory) (at : Addresses) (bytes : Bytes) →
        SettingFits g → Bridges g cs m at bytes →
        Names g (flat_in g cs bytes).spans m at }
{}

/// An alloca makes an object at free addresses in its call's own memory, whose bytes may be any.
pub fn allocates()
    ensures tied { (g : Setting) (c : CallMemory) (cs : List CallMemory) (m : Memory)
        (at : Addresses) (bytes : Bytes) → Bridges g (c ∷ cs) m at bytes → (p size : ℕ) →
        AreFree g m at p size →
        covers p size c.own ≡ true → c.own.writable ≡ true →
        Bridges g (record c { objects = length m ∷ c.objects } ∷ cs) (with_alloca m size)
        (with_address at p) bytes }
    ensures object { (g : Setting) (c : CallMemory) (cs : List CallMemory) (m : Memory)
        (at : Addresses) (bytes : Bytes) → Bridges g (c ∷ cs) m at bytes → (p size : ℕ) →
        AreFree g m at p size → covers p size c.own ≡ true → c.own.writable ≡ true →
        Allocates g m (with_alloca m size) at (with_address at p) p size }
{}

/// A call begins whose own memory is where no live object is, as where nothing may be used yet;
/// nothing is known of its bytes.
pub fn enters()
    ensures tied { (g : Setting) (cs : List CallMemory) (m : Memory) (at : Addresses)
        (bytes : Bytes) →
        Bridges g cs m at bytes → (own : Span) → ((i d e : ℕ) (x : Object0) → Lives m i x →
        d < x.size → e < own.size → address_of at i + d ≢ own.start + e) →
        Bridges g (record { own = own; objects = [] } ∷ cs) m at
        (forgotten bytes own.start own.size) }
    ensures off { (g : Setting) (cs : List CallMemory) (m : Memory) (at : Addresses)
        (bytes : Bytes) →
        SettingFits g → Bridges g cs m at bytes → (start count : ℕ) →
        IsOff start count (flat_in g cs bytes).spans → (i d e : ℕ) (x : Object0) → Lives m i x →
        d < x.size → e < count → address_of at i + d ≢ start + e }
{}

/// A call returns, and the objects of its allocas are dead.
pub fn returns()
    ensures { (g : Setting) (c : CallMemory) (cs : List CallMemory) (m : Memory) (at : Addresses)
        (bytes : Bytes) → Bridges g (c ∷ cs) m at bytes →
        All (λ o. length g.contents ≤ o) c.objects →
        Bridges g cs (without m c.objects) at bytes }
{}

/// A run begins with its globals where a plan that fits has them.
pub fn starts()
    ensures tied { (sel : Sel) (plan : Plan) (m : Memory) →
        let contents = contents_of plan m in PlanFits sel contents plan → AreFirst sel.taken m →
        let g : Setting = record { plan = plan; contents = contents; taken = sel.taken } in
        Bridges g [] m (addresses_of plan) (first_bytes plan.globals contents) }
    ensures setting { (sel : Sel) (plan : Plan) (m : Memory) →
        let contents = contents_of plan m in PlanFits sel contents plan → AreFirst sel.taken m →
        length sel.taken ≡ length sel.functions →
        let g : Setting = record { plan = plan; contents = contents; taken = sel.taken } in
        SettingFits g }
{}
