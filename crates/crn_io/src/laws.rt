ghost use Rattle.std.specs.Prelude.{◌≡◌, ◌<◌, ◌+◌, ◌↔◌, Bool, ℕ, List, Some};
ghost use Rattle.crn_io.specs.declared.next.Next.{Next};
ghost use Rattle.crn_io.specs.declared.next.Next.TheVariants.{Failed};
ghost use Rattle.crn_io.specs.declared.lines.TheConstants.{MAX_DOCUMENT};
ghost use Rattle.crn_io.specs.Device.{SourceSeen};
ghost use Rattle.crn_io.specs.Next.{KeptLines, NextGives, DueIs, EndIs, IsCause, place};

/// A call for the line that is due gives this line, or answers with the first test of a line that fails there.
pub fn next_is_what_is_due()
    ensures due { (answer : Next) (node : Bool) (n : ℕ) (old new : KeptLines)
        (before now : SourceSeen) (left rest : List ℕ) → old.taken < MAX_DOCUMENT
        → before.left ≡ Some left → now.left ≡ Some rest
        → NextGives answer old new before now
        → DueIs answer node (place n old left) (place (n + 1) new rest) new.line }
    ensures end { (answer : Next) (n : ℕ) (old new : KeptLines)
        (before now : SourceSeen) (left rest : List ℕ) → old.taken < MAX_DOCUMENT
        → before.left ≡ Some left → now.left ≡ Some rest
        → NextGives answer old new before now → EndIs answer (place n old left) }
{}

/// Unless the source failed, a call gives an answer if and only if what is there is the cause of this answer.
pub fn next_answers_by_cause()
    ensures { (answer other : Next) (n : ℕ) (old new : KeptLines)
        (before now : SourceSeen) (left rest : List ℕ) → old.taken < MAX_DOCUMENT
        → before.left ≡ Some left → now.left ≡ Some rest
        → NextGives answer old new before now
        → (answer ≡ Failed → ⊥) → (answer ≡ other) ↔ IsCause other (place n old left) }
{}
