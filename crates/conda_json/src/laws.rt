ghost use Rattle.std.specs.Prelude.{◌≡◌, ℕ, List, Ok, Some};
ghost use Rattle.serde_json.specs.Data.{Data};
ghost use Rattle.conda_json.specs.Json.{KeysAscend, json_of, object_read};

/// In each value that bytes mean, the names of each object ascend by bytes and none stands twice.
pub fn json_laws()
    ensures value { (bytes : List ℕ) (value : Data) → json_of bytes ≡ Some value
        → KeysAscend value }
    ensures object { (bytes : List ℕ) (value : Data) → object_read bytes ≡ Ok value
        → KeysAscend value }
{}
