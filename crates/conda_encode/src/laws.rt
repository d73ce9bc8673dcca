ghost use Rattle.std.specs.Prelude.{◌≡◌, ◌↔◌, ◌≤◌, ℕ, Bool, List, length};
ghost use Rattle.conda_record.specs.declared.pkg_record.PkgRecord.{PkgRecord};
ghost use Rattle.conda_record.specs.declared.pool.NamePool.{NamePool};
ghost use Rattle.conda_encode.specs.Models.{Chooses, IsCut, IsModel};
ghost use Rattle.conda_encode.specs.Solution.{IsSolution};
ghost use Rattle.conda_encode.specs.Variables.{IsRequest, records};
ghost use Rattle.conda_encode.specs.declared.asked.Asked.{Asked};

/// What the clauses of a request mean. Sides that make all of them true choose a solution, once
/// what isn't reached is left out; each solution is chosen by such sides; so there is no solution
/// exactly where no sides make all clauses true.
pub fn encode_laws()
    ensures solution { (pools : List NamePool) (items : List Asked) → IsRequest pools items →
        (v : ℕ → Bool) → IsModel pools items v →
        (set : List PkgRecord) → IsCut pools items v set → IsSolution set items pools }
    ensures model { (pools : List NamePool) (items : List Asked) → IsRequest pools items →
        (set : List PkgRecord) → IsSolution set items pools →
        (v : ℕ → Bool) × IsModel pools items v × Chooses pools v set }
    // A model keeps the sides of the records' variables that choose the solution.
    ensures same { (pools : List NamePool) (items : List Asked) → IsRequest pools items →
        (set : List PkgRecord) → IsSolution set items pools →
        (w : ℕ → Bool) → Chooses pools w set →
        (v : ℕ → Bool) × IsModel pools items v
        × ((n : ℕ) → n ≤ length (records pools) → v n ≡ w n) }
    ensures none { (pools : List NamePool) (items : List Asked) → IsRequest pools items →
        ((set : List PkgRecord) → IsSolution set items pools → ⊥)
        ↔ ((v : ℕ → Bool) → IsModel pools items v → ⊥) }
{}
