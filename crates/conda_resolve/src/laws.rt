ghost use Rattle.std.specs.Prelude.{◌≡◌, ◌↔◌, List};
ghost use Rattle.conda_record.specs.declared.pkg_record.PkgRecord.{PkgRecord};
ghost use Rattle.conda_record.specs.declared.pool.NamePool.{NamePool};
ghost use Rattle.conda_encode.specs.Solution.{IsSolution};
ghost use Rattle.conda_encode.specs.Variables.{IsRequest};
ghost use Rattle.conda_encode.specs.declared.asked.Asked.{Asked};
ghost use Rattle.conda_resolve.specs.Choice.{IsChoice};

/// The choice is a solution, there is one at most, and there is one exactly where there is a
/// solution.
pub fn choice_laws()
    ensures solution { (pools : List NamePool) (items : List Asked) → IsRequest pools items →
        (installed set : List PkgRecord) → IsChoice pools items installed set →
        IsSolution set items pools }
    ensures one { (pools : List NamePool) (items : List Asked) →
        (installed set other : List PkgRecord) →
        IsChoice pools items installed set → IsChoice pools items installed other →
        set ≡ other }
    ensures exists { (pools : List NamePool) (items : List Asked) → IsRequest pools items →
        (installed : List PkgRecord) →
        ((set : List PkgRecord) × IsChoice pools items installed set)
        ↔ ((set : List PkgRecord) × IsSolution set items pools) }
{}
