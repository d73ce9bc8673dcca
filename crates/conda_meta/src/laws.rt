ghost use Rattle.std.specs.Prelude.{◌≡◌, ◌↔◌, Ok};
ghost use Rattle.serde_json.specs.Data.{Data};
ghost use Rattle.conda_meta.specs.Reading.{prefix_of, revision_of};
ghost use Rattle.conda_meta.specs.Rules.{IsGoodRevision, IsPrefixRecord, IsRevision};
ghost use Rattle.conda_meta.specs.declared.linked.Linked.{Linked};
ghost use Rattle.conda_meta.specs.declared.revision.Revision.{Revision};

use conda_path::{dist_laws, ending_laws, path_laws};
use conda_record::record_laws;

/// What is read of an object is the revision, or the package of a prefix, that it is: each field in
/// its form, and the lists in order. So is each revision that a file has.
pub fn meta_laws()
    ensures revision { (value : Data) (revision : Revision) →
        (revision_of value ≡ Ok revision) ↔ IsRevision value revision }
    ensures prefix { (value : Data) (linked : Linked) →
        (prefix_of value ≡ Ok linked) ↔ IsPrefixRecord value linked }
    ensures good { (value : Data) (revision : Revision) →
        IsRevision value revision → IsGoodRevision revision }
{
    dist_laws();
    ending_laws();
    path_laws();
    conda_spec::grammar_laws();
    record_laws();
}
