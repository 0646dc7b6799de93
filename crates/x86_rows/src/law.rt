//! The laws, of memory first, then of rows, then of each kind of instruction.

ghost use Rattle.std.specs.Prelude.{◌≡◌, ◌≢◌, ◌⊎◌, ℕ, ℤ, pos, ◌+◌, ◌*◌, ◌%◌, ◌^◌, ◌<◌, ◌≤◌, ◌++◌, List, [], ◌∷◌, Bool, true, false, length, slice_index, Some, None, if◌then◌else◌};
ghost use Rattle.behavior.specs.Ending.{Ending, Divide, Invalid, Breakpoint};
ghost use Rattle.rd_num.specs.Number.{le_bytes, le_number};
ghost use Rattle.x86_core.specs.declared.reg.Reg.{Reg};
ghost use Rattle.x86_core.specs.declared.reg.Reg.TheVariants.{Rsp};
ghost use Rattle.x86_core.specs.declared.instr.Wide.{Wide};
ghost use Rattle.x86_core.specs.declared.instr.Size.{Size};
ghost use Rattle.x86_core.specs.declared.instr.HighSize.{HighSize};
ghost use Rattle.x86_core.specs.declared.instr.Mem.{Mem};
ghost use Rattle.x86_core.specs.declared.instr.AluOp.{AluOp};
ghost use Rattle.x86_core.specs.declared.instr.ImmOp.{ImmOp};
ghost use Rattle.x86_core.specs.declared.instr.ShiftOp.{ShiftOp};
ghost use Rattle.x86_core.specs.declared.instr.WidenKind.{WidenKind};
ghost use Rattle.x86_core.specs.declared.instr.Cond.{Cond};
ghost use Rattle.x86_core.specs.declared.instr.Instr.{Instr};
ghost use Rattle.x86_core.specs.declared.instr.Instr.TheVariants.{Mov, MovImm64, MovImm32, Alu, AluImm, Imul, Shift, Div, High, Widen, Load, Store, Lea, Push, Pop, SetCond, Cmov, Jcc, Ud2, Int3, Nop};
ghost use Rattle.x86_core.specs.declared.divide.Division.{Division};
ghost use Rattle.x86_core.specs.declared.image.Rights.{Rights};
ghost use Rattle.x86_core.specs.declared.image.Segment.{Segment};
ghost use Rattle.x86_core.specs.Data.{ro_start, rw_start, stack_start, stack_end, data_segments};
ghost use Rattle.x86_core.specs.Registers.{word, with_word};
ghost use Rattle.x86_core.specs.Arithmetic.{wide_bits, size_bits, low, kept, constant, same_op, unknown_flags, division, widened, holds};
ghost use Rattle.x86_core.specs.Effect.{alu_effect, imul_effect, shift_effect, dividend, with_division, high_effect, address_of, with_stack};
ghost use Rattle.x86_core.specs.Memory.{reads, writes, one_covers, read_at, write_at};
ghost use Rattle.x86_core.specs.Step.{size_bytes, below};
ghost use Rattle.x86_rows.specs.Addresses.{byte_at, range_at, has_address, AreDisjoint, SameShape, Written};
ghost use Rattle.x86_rows.specs.Straight.{Core, Through, Stopped, ran, exec, and_on};
ghost use Rattle.x86_rows.specs.Saving.{IsStack, IsOneOf, SpareRsp, AreSaved, Saves, pop_row, restored};
ghost use Rattle.x86_rows.specs.Leaves.{with_reg, with_regs, with_segments, by_effect};

/// A read that is allowed gives the bytes of its range, and one that isn't gives none.
pub fn reading()
    ensures allowed { (ss : List Segment) (at n : ℕ) → AreDisjoint ss → 1 ≤ n →
        one_covers reads ss at n ≡ true → read_at ss at n ≡ Some (range_at ss at n) }
    ensures refused { (ss : List Segment) (at n : ℕ) →
        one_covers reads ss at n ≡ false → read_at ss at n ≡ None }
{}

/// A write that is allowed changes the bytes of its range and no others; starts, lengths and
/// rights of segments stay.
pub fn writing()
    ensures allowed { (ss : List Segment) (at : ℕ) (bs : List ℕ) → AreDisjoint ss →
        1 ≤ length bs → one_covers writes ss at (length bs) ≡ true → Written ss at bs }
    ensures refused { (ss : List Segment) (at : ℕ) (bs : List ℕ) →
        one_covers writes ss at (length bs) ≡ false → write_at ss at bs ≡ None }
{}

/// What depends on starts, lengths and rights alone: which addresses there are, what may be done
/// there, and that segments are apart.
pub fn shapes()
    ensures addresses { (ss ts : List Segment) (p : ℕ) → SameShape ss ts →
        has_address ss p ≡ has_address ts p }
    ensures rights { (right : Rights → Bool) (ss ts : List Segment) (at n : ℕ) →
        SameShape ss ts → one_covers right ss at n ≡ one_covers right ts at n }
    ensures apart { (ss ts : List Segment) → SameShape ss ts → AreDisjoint ss → AreDisjoint ts }
{}

/// The memory with which a run begins: its segments are apart, the stack may be used from end to
/// end, and data is there, byte by byte, to be read, and the second part to be written too.
pub fn first_memory()
    ensures apart { (ro written : List ℕ) → length ro ≤ 2 ^ 28 → length written ≤ 2 ^ 28 →
        AreDisjoint (data_segments ro written) }
    ensures stack { (ro written : List ℕ) → length ro ≤ 2 ^ 28 → length written ≤ 2 ^ 28 →
        IsStack stack_start stack_end (data_segments ro written) }
    ensures ro_bytes { (ro written : List ℕ) → length ro ≤ 2 ^ 28 → length written ≤ 2 ^ 28 → (i : ℕ) →
        i < length ro → byte_at (data_segments ro written) (ro_start + i) ≡ slice_index ro i }
    ensures rw_bytes { (ro written : List ℕ) → length ro ≤ 2 ^ 28 → length written ≤ 2 ^ 28 → (i : ℕ) →
        i < length written → byte_at (data_segments ro written) (rw_start + i) ≡ slice_index written i }
    ensures ro_reads { (ro written : List ℕ) → length ro ≤ 2 ^ 28 → length written ≤ 2 ^ 28 →
        (p n : ℕ) → ro_start ≤ p → p + n ≤ ro_start + length ro → 1 ≤ n →
        one_covers reads (data_segments ro written) p n ≡ true }
    ensures rw_reads { (ro written : List ℕ) → length ro ≤ 2 ^ 28 → length written ≤ 2 ^ 28 →
        (p n : ℕ) → rw_start ≤ p → p + n ≤ rw_start + length written → 1 ≤ n →
        one_covers reads (data_segments ro written) p n ≡ true }
    ensures rw_writes { (ro written : List ℕ) → length ro ≤ 2 ^ 28 → length written ≤ 2 ^ 28 →
        (p n : ℕ) → rw_start ≤ p → p + n ≤ rw_start + length written → 1 ≤ n →
        one_covers writes (data_segments ro written) p n ≡ true }
{}

/// The bytes of a number spell what they have of it; the low ones begin its range.
pub fn numbers()
    ensures again { (k n : ℕ) → le_number (le_bytes k n) ≡ n % 256 ^ k }
    ensures begins { (ss : List Segment) (at k more n : ℕ) →
        range_at ss at (k + more) ≡ le_bytes (k + more) n → range_at ss at k ≡ le_bytes k n }
{}

/// Rows one after another: the second begins where the first has been passed.
pub fn rows()
    ensures { (xs ys : List Instr) (c : Core) → exec (xs ++ ys) c ≡ and_on (exec xs c) (exec ys) }
{}

/// Moves between registers, constants and addresses.
pub fn moves()
    ensures mov { (c : Core) (w : Wide) (d s : Reg) →
        ran (Mov w d s) c ≡ Through (with_reg c d (low (wide_bits w) (word c.regs s))) }
    ensures imm64 { (c : Core) (d : Reg) (n : ℕ) →
        ran (MovImm64 d n) c ≡ Through (with_reg c d n) }
    ensures imm32 { (c : Core) (d : Reg) (n : ℕ) →
        ran (MovImm32 d n) c ≡ Through (with_reg c d n) }
    ensures widen { (c : Core) (kind : WidenKind) (d s : Reg) →
        ran (Widen kind d s) c ≡ Through (with_reg c d (widened kind (word c.regs s))) }
    ensures lea { (c : Core) (d : Reg) (m : Mem) →
        ran (Lea d m) c ≡ Through (with_reg c d (address_of c.regs m)) }
    ensures nop { (c : Core) → ran Nop c ≡ Through c }
{}

/// Operations on numbers in registers, with the flags that they leave.
pub fn operations()
    ensures alu { (c : Core) (op : AluOp) (w : Wide) (d s : Reg) →
        ran (Alu op w d s) c
        ≡ Through (by_effect (alu_effect op w d (word c.regs s) c.regs) c) }
    ensures alu_imm { (c : Core) (op : ImmOp) (w : Wide) (d : Reg) (n : ℤ) →
        ran (AluImm op w d n) c
        ≡ Through (by_effect (alu_effect (same_op op) w d (constant n) c.regs) c) }
    ensures imul { (c : Core) (w : Wide) (d s : Reg) →
        ran (Imul w d s) c ≡ Through (by_effect (imul_effect w d s c.regs) c) }
    ensures shift { (c : Core) (op : ShiftOp) (w : Wide) (d : Reg) →
        ran (Shift op w d) c ≡ Through (by_effect (shift_effect op w d c.regs c.flags) c) }
{}

/// A division goes on with its answer, or stops where it has none.
pub fn divisions()
    ensures high { (c : Core) (size : HighSize) →
        ran (High size) c ≡ Through (with_regs c (high_effect size c.regs)) }
    ensures answer { (c : Core) (signed : Bool) (size : Size) (s : Reg) (d : Division) →
        division signed (size_bits size) (dividend size c.regs)
        (low (size_bits size) (word c.regs s)) ≡ Some d →
        ran (Div signed size s) c
        ≡ Through (record c { regs = with_division size c.regs d; flags = unknown_flags }) }
    ensures none { (c : Core) (signed : Bool) (size : Size) (s : Reg) →
        division signed (size_bits size) (dividend size c.regs)
        (low (size_bits size) (word c.regs s)) ≡ None →
        ran (Div signed size s) c ≡ Stopped Divide }
{}

/// Loads and stores, where they are allowed.
pub fn accesses()
    ensures load { (c : Core) (size : Size) (d : Reg) (m : Mem) (at : ℕ) →
        address_of c.regs m ≡ at → AreDisjoint c.segments →
        one_covers reads c.segments at (size_bytes size) ≡ true →
        ran (Load size d m) c
        ≡ Through (with_reg c d (le_number (range_at c.segments at (size_bytes size)))) }
    ensures store { (c : Core) (size : Size) (m : Mem) (s : Reg) (at n : ℕ) →
        address_of c.regs m ≡ at → low (size_bits size) (word c.regs s) ≡ n →
        (x : Written c.segments at (le_bytes (size_bytes size) n)) →
        ran (Store size m s) c ≡ Through (with_segments c x.segments) }
{}

/// Pushes and pops, where they are allowed.
pub fn stack()
    ensures push { (c : Core) (r : Reg) (at n : ℕ) → below c.regs ≡ at → word c.regs r ≡ n →
        (x : Written c.segments at (le_bytes 8 n)) →
        ran (Push r) c
        ≡ Through (record c { regs = with_word c.regs Rsp at; segments = x.segments }) }
    ensures pop { (c : Core) (r : Reg) (at : ℕ) → word c.regs Rsp ≡ at →
        AreDisjoint c.segments → one_covers reads c.segments at 8 ≡ true →
        ran (Pop r) c ≡ Through (with_regs c (with_word (with_stack c.regs (pos 8)) r
        (le_number (range_at c.segments at 8)))) }
{}

/// Registers that are saved by a row of pushes, and taken back by a row of pops: all of them have
/// their words again, rsp is where it was, and no other register changes.
pub fn saving()
    ensures segment { (before : List Segment) (s : Segment) (after : List Segment) →
        AreDisjoint (before ++ s ∷ after) → reads s.rights ≡ true → writes s.rights ≡ true →
        s.start + length s.bytes < 2 ^ 64 →
        IsStack s.start (s.start + length s.bytes) (before ++ s ∷ after) }
    ensures pushes { (low high : ℕ) (rs : List Reg) (c : Core) (p : ℕ) → SpareRsp rs →
        length c.regs ≡ 16 → IsStack low high c.segments →
        word c.regs Rsp ≡ p + 8 * length rs → low ≤ p → p + 8 * length rs ≤ high →
        Saves rs c p }
    ensures pops { (low high : ℕ) (rs : List Reg) (c : Core) (p : ℕ) → SpareRsp rs →
        length c.regs ≡ 16 → IsStack low high c.segments → word c.regs Rsp ≡ p → low ≤ p →
        p + 8 * length rs ≤ high →
        exec (pop_row rs) c ≡ Through (with_regs c (restored c.segments rs p c.regs)) }
    ensures words { (ss : List Segment) (rs : List Reg) (p : ℕ) (old regs : List ℕ) (r : Reg) →
        r ≢ Rsp → length regs ≡ 16 → word old r < 2 ^ 64 → AreSaved ss rs p old →
        (word regs r ≡ word old r) ⊎ IsOneOf r rs →
        word (restored ss rs p regs) r ≡ word old r }
    ensures top { (ss : List Segment) (rs : List Reg) (p : ℕ) (regs : List ℕ) → SpareRsp rs →
        length regs ≡ 16 → word regs Rsp ≡ p →
        word (restored ss rs p regs) Rsp ≡ p + 8 * length rs }
    ensures others { (ss : List Segment) (rs : List Reg) (p : ℕ) (regs : List ℕ) (r : Reg) →
        r ≢ Rsp → (IsOneOf r rs → ⊥) → word (restored ss rs p regs) r ≡ word regs r }
{}

/// What is done under a condition whose flags are known.
pub fn conditions()
    ensures set_cond { (c : Core) (cond : Cond) (d : Reg) (t : Bool) →
        holds cond c.flags ≡ Some t → ran (SetCond cond d) c
        ≡ Through (with_reg c d (kept Size.W8 (word c.regs d) (if t then 1 else 0))) }
    ensures cmov { (c : Core) (cond : Cond) (d s : Reg) (t : Bool) →
        holds cond c.flags ≡ Some t → ran (Cmov cond d s) c
        ≡ Through (with_regs c (if t then with_word c.regs d (word c.regs s) else c.regs)) }
    ensures jcc { (c : Core) (cond : Cond) (by : ℤ) →
        holds cond c.flags ≡ Some false → ran (Jcc cond by) c ≡ Through c }
{}

/// Instructions that only stop.
pub fn stops()
    ensures ud2 { (c : Core) → ran Ud2 c ≡ Stopped Invalid }
    ensures int3 { (c : Core) → ran Int3 c ≡ Stopped Breakpoint }
{}
