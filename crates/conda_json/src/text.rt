ghost use Rattle.std.specs.Prelude.{◌≡◌, ◌≢◌, ◌≤◌, IfOk, IsErrOf, None, OnErr, Some, false};
ghost use Rattle.std.specs.Result.{result_map_both};
ghost use Rattle.json.specs.Lex.{tokens};
ghost use Rattle.json.specs.Print.{print};
ghost use Rattle.serde_json.specs.Data.{depth};
ghost use Rattle.serde_json.specs.View.{view};
ghost use Rattle.serde_json.specs.Written.{IsInOrder, compact_text, has_float};
ghost use Rattle.conda_base.specs.Reads.{Gives};
ghost use Rattle.conda_json.specs.Json.{KeysAscend, json_fault_of, json_of, json_read, object_read};

use crate::error::JsonErr;
use serde_json::Value;
use std::alloc::Global;

/// Reads a JSON text.
///
/// Lists and objects may nest 127 deep. Of the members of an object with one name the last
/// stays. Whole numbers below 2^64 are exact; a number too large for a float is refused.
pub fn parse(alloc: Global, bytes: &[u8]) -> Result<Value, JsonErr>
    ensures read { Gives json_fault_of (result_map_both view (λ e. e) result)
        (json_read bytes.now) }
    ensures shallow { IfOk result (λ value. depth (view value) ≤ 127) }
    ensures keys_ascend { IfOk result (λ value. KeysAscend (view value)) }
    ensures refused { IsErrOf result JsonErr.BadJson → json_of bytes.now ≡ None }
    ensures never_a_field { result ≢ Err JsonErr.BadField }
{
    match Value::from_slice(alloc, bytes) {
        Ok(value) => Ok(value),
        Err(e) => {
            if e.is_memory() {
                return Err(JsonErr::Memory);
            }
            Err(JsonErr::BadJson)
        }
    }
}

/// Reads a JSON text that has to be an object. A text of another value is `BadJson` too.
pub fn parse_object(alloc: Global, bytes: &[u8]) -> Result<Value, JsonErr>
    ensures read { Gives json_fault_of (result_map_both view (λ e. e) result)
        (object_read bytes.now) }
    ensures shallow { IfOk result (λ value. depth (view value) ≤ 127) }
    ensures keys_ascend { IfOk result (λ value. KeysAscend (view value)) }
    ensures never_a_field { result ≢ Err JsonErr.BadField }
{
    let value = parse(alloc, bytes)?;
    if value.is_object() {
        return Ok(value);
    }
    Err(JsonErr::BadJson)
}

/// The compact text of a value, as `serde_json` writes it: no blanks, the shortest escapes, whole
/// numbers in decimal, and the members of each object in the value's order, which ascends by the
/// names' bytes. Which digits a float gets is `serde_json`'s; they read back as the same float.
/// Its only error is `Memory`.
pub fn compact(alloc: Global, value: &Value) -> Result<Vec<u8>, JsonErr>
    // The whole text, where no number in it is a float.
    ensures text { IfOk result (λ text. has_float (view value.now) ≡ false
        → text.items ≡ compact_text (view value.now)) }

    // The text of every value: nothing between its tokens, and all parts of the value in order.
    ensures no_blanks { IfOk result (λ text. text.items ≡ print (tokens text.items)) }
    ensures in_order { IfOk result (λ text. IsInOrder text.items (view value.now)) }
    ensures reads_back { IfOk result (λ text. depth (view value.now) ≤ 127
        → json_of text.items ≡ Some (view value.now)) }
    ensures err { OnErr result (result ≡ Err JsonErr.Memory) }
{
    let text = value.to_vec(alloc)?;
    Ok(text)
}
