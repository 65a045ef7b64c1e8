//! What a JSON value has under a key.

ghost use Rattle.std.specs.Prelude.{◌≡◌, option_map, is_some};
ghost use Rattle.serde_json.specs.View.{view, items_view};
ghost use Rattle.manifest.specs.Shape.{text_at, number_at, list_at, has_keys};
ghost use Rattle.manifest.specs.Answers.{Answers, JsonAnswers};

use crate::fault::ManifestFault;
use lsn_core::Text;
use serde_json::Value;
use std::alloc::Global;

/// The JSON value of a text. Errs with `Json` exactly where it is none, or with `NoMemory`.
pub(crate) fn json_of(alloc: Global, bytes: &[u8]) -> Result<Value, ManifestFault>
    ensures { JsonAnswers bytes.now result }
{
    match Value::from_slice(alloc, bytes) {
        Ok(value) => Ok(value),
        Err(error) => {
            if error.is_memory() {
                Err(ManifestFault::NoMemory)
            } else {
                Err(ManifestFault::Json)
            }
        }
    }
}

/// Whether an object has a text under a key.
pub(crate) fn has_text(value: &Value, key: &str) -> bool
    ensures { result ≡ is_some (text_at key.now (view value.now)) }
{
    value.get(key).and_then(Value::as_str).is_some()
}

/// The text that an object has under a key.
pub(crate) fn text_at(alloc: Global, value: &Value, key: &str) -> Result<Text, ManifestFault>
    ensures { Answers (text_at key.now (view value.now)) result }
{
    let Some(text) = value.get(key).and_then(Value::as_str) else {
        return Err(ManifestFault::Shape);
    };
    Ok(Text::from_vec(text.as_bytes().to_vec(alloc)?))
}

/// The whole number that an object has under a key.
pub(crate) fn number_at(value: &Value, key: &str) -> Result<u64, ManifestFault>
    ensures { Answers (number_at key.now (view value.now)) result }
{
    let Some(number) = value.get(key).and_then(Value::as_u64) else {
        return Err(ManifestFault::Shape);
    };
    Ok(number)
}

/// The list that an object has under a key.
pub(crate) fn list_at<'a>(value: &'a Value, key: &str) -> Option<&'a Vec<Value>>
    ensures { option_map (λ v. items_view v.now.items) result ≡ list_at key.now (view value.now) }
{
    value.get(key).and_then(Value::as_array)
}

/// Whether a value is an object of so many keys.
pub(crate) fn has_keys(value: &Value, count: usize) -> bool
    ensures { result ≡ has_keys count (view value.now) }
{
    match value.as_object() {
        Some(map) => map.len() == count,
        None => false,
    }
}
