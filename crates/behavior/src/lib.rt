//! Behavior preservation: what runs show, when a program means what another means, and simulation.
//!
//! `specs/Moment` has what a run shows after some steps, `specs/Ending` how a run may stand, and
//! `specs/Preserves` the one relation by which each pass and the whole compiler are judged. The
//! functions below are its laws. How a language runs is a `System`, and `specs/Simulation` says when
//! one system follows another; `simulates` of `proofs/Follow` then gives that it means the same, and
//! `proofs/Stretch` has what puts the steps of a pass together.
#![tactic(auto)]

ghost use Rattle.std.specs.Prelude.{◌≡◌, ◌≢◌, ℕ, ◌+◌, ◌*◌, List, false};
ghost use Rattle.behavior.specs.Ending.{Strayed, is_left};
ghost use Rattle.behavior.specs.Moment.{Behavior, Agrees, AreBytes};
ghost use Rattle.behavior.specs.Preserves.{Preserves, ReachesWithin};

/// Each program means what it means.
pub fn preserves_itself()
    ensures { (A : Behavior) → Preserves A A }
{}

/// What means the same as something that means the same as A, means the same as A.
pub fn preserves_through()
    ensures { (A B C : Behavior) → Preserves A B → Preserves B C → Preserves A C }
{}

/// Programs that show the same at each step mean the same.
pub fn preserves_same()
    ensures { (A B : Behavior) →
        ((input : List ℕ) → AreBytes input → (n : ℕ) → Agrees (A input n) (B input n)) →
        Preserves A B }
{}

/// Two machines that show the same until the first strays mean the same, for what never strays.
pub fn preserves_straight()
    ensures { (A S M : Behavior) →
        ((input : List ℕ) → AreBytes input → (k : ℕ) → (A input k).ending ≢ Strayed) →
        ((input : List ℕ) → AreBytes input → (n : ℕ) → (S input n).ending ≢ Strayed →
        Agrees (S input n) (M input n)) → Preserves A S → Preserves A M }
{}

/// What means the same as a program that is never left and never strays doesn't stray.
pub fn straight_kept()
    ensures { (A S : Behavior) (input : List ℕ) → AreBytes input →
        ((k : ℕ) → is_left (A input k).ending ≡ false) → ((k : ℕ) → (A input k).ending ≢ Strayed) →
        Preserves A S → (n : ℕ) → (S input n).ending ≢ Strayed }
{}

/// The bounds of two passes make one bound for both: the costs multiply.
pub fn reaches_through()
    ensures { (A B C : Behavior) (begin cost begin2 cost2 : ℕ) → ReachesWithin begin cost A B →
        ReachesWithin begin2 cost2 B C →
        ReachesWithin (begin2 + cost2 * begin) (cost2 * cost) A C }
{}
