ghost use Rattle.std.specs.Prelude.{◌≡◌, ◌↔◌, List, ℕ, Ok};
ghost use Rattle.serde_json.specs.Data.{Data};
ghost use Rattle.conda_json.specs.Json.{KeysAscend, object_read};
ghost use Rattle.conda_repodata.specs.Reading.{repodata_of, repodata_read};
ghost use Rattle.conda_repodata.specs.Rules.{IsRepodata};
ghost use Rattle.conda_repodata.specs.declared.repodata.Repodata.{Repodata};

use conda_json::json_laws;
use conda_record::record_laws;

/// What is read of bytes is what their object means: a record for each dist of which an entry is
/// one, that of the entry of the least rank, and the other entries set aside, each list in its
/// order. Of an object that isn't read of bytes it asks that its names ascend.
pub fn repodata_laws()
    ensures bytes { (bytes channel subdir : List ℕ) (repodata : Repodata) →
        (repodata_read bytes channel subdir ≡ Ok repodata)
        ↔ ((text : Data) × (object_read bytes ≡ Ok text)
        × IsRepodata text channel subdir repodata) }
    ensures object { (text : Data) (channel subdir : List ℕ) (repodata : Repodata) →
        KeysAscend text → (repodata_of text channel subdir ≡ Ok repodata)
        ↔ IsRepodata text channel subdir repodata }
{
    json_laws();
    record_laws();
}
