//! JSON in which an id is a text, as in `{"voters":["1"]}`.
ghost use Rattle.std.specs.Prelude.{◌≡◌, codes};
ghost use Rattle.serde_json.specs.View.{view};
ghost use Rattle.plan_input.specs.TextIds.{any_at, has_text_id, has_text_ids, is_text};

use serde_json::Value;

/// Whether an id in JSON is a text: that of a member, or one in a list of a ConfState.
pub(crate) fn has_text_ids(value: &Value) -> bool
    ensures { result ≡ has_text_ids (view value.now) }
{
    has_text_member(value)
        || has_text_at(value, "voters")
        || has_text_at(value, "voters_outgoing")
        || has_text_at(value, "learners")
        || has_text_at(value, "learners_next")
}

// Whether the id of a member is a text.
fn has_text_member(value: &Value) -> bool
    ensures { result ≡ any_at has_text_id (codes "members") (view value.now) }
{
    match value.get("members").and_then(Value::as_array) {
        Some(members) => members
            .iter()
            .any(|member| member.get("ID").is_some_and(Value::is_string)),
        None => false,
    }
}

// Whether the value at this key is a list with a text.
fn has_text_at(value: &Value, key: &str) -> bool
    ensures { result ≡ any_at is_text key.now (view value.now) }
{
    match value.get(key).and_then(Value::as_array) {
        Some(items) => items.iter().any(Value::is_string),
        None => false,
    }
}
