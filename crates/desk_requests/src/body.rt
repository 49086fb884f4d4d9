// The text in a JSON body of one member.
ghost use Rattle.std.specs.Prelude.{◌≡◌, IfOk, IfErr, Some, None, option_map, string_bytes};
ghost use Rattle.serde_json.specs.View.{view, members_view};
ghost use Rattle.serde_json.specs.Find.{get_member};
ghost use Rattle.desk_requests.specs.Body.{only_text, text_of, body_text};

use serde_json::{Map, Value};
use sqlite_items::Items;
use std::alloc::{AllocError, Global};

// The value at a key of an object.
fn member_at<'a>(map: &'a Map<String, Value>, key: &str) -> Option<&'a Value>
    ensures { option_map (λ v. view v.now) result
        ≡ get_member key.now (members_view map.now.entries) }
{
    map.get(key)
}

// The text of an object's one member, if that has this key.
fn only_text<'a>(map: &'a Map<String, Value>, key: &str) -> Option<&'a str>
    ensures { option_map (λ s. s.now) result ≡ only_text key.now (members_view map.now.entries) }
{
    if map.len() != 1 {
        return None;
    }
    match member_at(map, key) {
        Some(value) => value.as_str(),
        None => None,
    }
}

// The text of the one member of a value.
fn text_of<'a>(value: &'a Value, key: &str) -> Option<&'a str>
    ensures { option_map (λ s. s.now) result ≡ text_of key.now (view value.now) }
{
    match value.as_object() {
        Some(map) => only_text(map, key),
        None => None,
    }
}

/// The text in a body: `None` exactly where the body is outside the grammar.
pub(crate) fn body_text(
    alloc: Global,
    bytes: &[u8],
    key: &str,
) -> Result<Option<Items<u8>>, AllocError>
    ensures { IfOk result (λ text. text ≡ body_text key.now bytes.now) }
{
    let Ok(text) = std::str::from_utf8(bytes) else {
        return Ok(None);
    };
    let value = match Value::from_str(alloc, text) {
        Ok(value) => value,
        Err(error) => {
            if error.is_memory() {
                return Err(AllocError);
            }
            return Ok(None);
        }
    };
    let Some(member) = text_of(&value, key) else {
        return Ok(None);
    };
    Ok(Some(Items::from_slice(alloc, member.as_bytes())?))
}
