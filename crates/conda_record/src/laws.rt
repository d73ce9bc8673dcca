ghost use Rattle.std.specs.Prelude.{◌≡◌, ◌↔◌, List, ℕ, Ok};
ghost use Rattle.serde_json.specs.Data.{Data};
ghost use Rattle.conda_record.specs.Records.{record_data, record_read};
ghost use Rattle.std.specs.List.{AllByRecursion};
ghost use Rattle.conda_record.specs.Rules.{IsRecord, IsWellFormed, ReadsBack};
ghost use Rattle.conda_record.specs.declared.pkg_record.PkgRecord.{PkgRecord};

use conda_path::{dist_laws, ending_laws};
use conda_version::trimmed_law;

/// What is read of a value is the record that it is: each field in its form, and the dist that of
/// name, version and build. Each such record is well-formed. The object of a well-formed record is
/// read as that record, where its specifications are read from their normal forms, as conda_spec
/// says of all of them.
pub fn record_laws()
    ensures read { (value : Data) (file channel subdir : List ℕ) (pkg : PkgRecord) →
        (record_read value file channel subdir ≡ Ok pkg)
        ↔ IsRecord value file channel subdir pkg }
    ensures well_formed { (value : Data) (file channel subdir : List ℕ) (pkg : PkgRecord) →
        IsRecord value file channel subdir pkg → IsWellFormed pkg }
    ensures reads_back { (pkg : PkgRecord) → IsWellFormed pkg →
        AllByRecursion ReadsBack pkg.depends → AllByRecursion ReadsBack pkg.constrains →
        record_read (record_data pkg) pkg.dist pkg.channel pkg.subdir
        ≡ Ok pkg }
{
    dist_laws();
    ending_laws();
    conda_spec::grammar_laws();
    conda_version::grammar_laws();
    trimmed_law();
}
