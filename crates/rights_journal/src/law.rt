//! What holds of every list of bytes.

ghost use Rattle.std.specs.Prelude.{◌≡◌, ◌≢◌, ◌+◌, ◌++◌, [], ◌∷◌, List, ℕ, length};
ghost use Rattle.std.specs.List.{AllByRecursion};
ghost use Rattle.rights_journal.specs.Image.{IsBetween, IsUnfinished, StandsFor, opened};
ghost use Rattle.rights_journal.specs.Afresh.{IsFresh};
ghost use Rattle.rights_journal.specs.Reading.{IsRead};
ghost use Rattle.rights_journal.specs.Appending.{framed, IsBeforeOrAfter};
ghost use Rattle.run_model.specs.declared.batch.Batch.{Batch as BatchOf};
ghost use Rattle.rights_journal.specs.Batches.{IsSpelled};
ghost use Rattle.rights_journal.specs.Law.{IsOneThing};

/// To a journal each list of bytes stands for one list of batches or is foreign at one place.
pub fn one_thing()
    ensures { (replicas : ℕ) (bytes : List ℕ) → IsOneThing replicas bytes }
{}

/// Whatever a crash leaves while a frame is added are the batches from before, or these and the new one.
pub fn before_or_after()
    ensures { (replicas closed longest : ℕ) (batches : List BatchOf) (batch : BatchOf) (bytes : List ℕ) → AllByRecursion (IsSpelled replicas) batches → IsSpelled replicas batch
        → closed ≢ 1 → IsBetween (opened replicas batches) closed (framed replicas batch) longest bytes
        → IsBeforeOrAfter replicas batches batch bytes }
{}

/// Where a frame is stored behind the closed gate and that gate is opened, the journal has one batch more.
pub fn one_more()
    ensures { (replicas gate : ℕ) (batches : List BatchOf) (batch : BatchOf) (bytes new : List ℕ) → IsSpelled replicas batch
        → IsRead replicas batches gate bytes
        → ((front rest : List ℕ) (closed : ℕ) → length front ≡ gate → bytes ≡ front ++ closed ∷ rest
        → (more : List ℕ) × (new ≡ front ++ 1 ∷ (framed replicas batch ++ more)))
        → IsRead replicas (batches ++ batch ∷ []) (gate + length (framed replicas batch)) new }
{}

/// Whatever a crash leaves in a fresh start stands for what the unfinished bytes stood for.
pub fn fresh_keeps()
    ensures { (replicas : ℕ) (batches : List BatchOf) (bytes left : List ℕ) → IsUnfinished bytes → StandsFor replicas batches bytes
        → IsFresh left → StandsFor replicas batches left }
{}
