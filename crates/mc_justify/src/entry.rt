//! One entry of a justification file by itself.
ghost use Rattle.std.specs.Prelude.{◌≡◌, option_map};
ghost use Rattle.serde_json.specs.View.{view};
ghost use Rattle.mc_justify.specs.Entries.{entry_of, key_count, member_text};
ghost use Rattle.mc_justify.specs.Seen.{seen_entry};

use serde_json::Value;

const KEYS: usize = 3;

/// The three texts of an entry.
#[derive(Clone, Copy)]
pub(crate) struct Entry<'v> {
    pub id: &'v str,
    pub quote: &'v str,
    pub reason: &'v str,
}

/// How many keys an object has.
fn key_count(value: &Value) -> usize
    ensures { result ≡ key_count (view value.now) }
{
    match value.as_object() {
        None => 0,
        Some(map) => map.len(),
    }
}

/// The text that an object has at a key.
fn member_text<'v>(value: &'v Value, key: &str) -> Option<&'v str>
    ensures { option_map (λ s. s.now) result ≡ member_text key.now (view value.now) }
{
    value.get(key)?.as_str()
}

/// The entry that a value is. Takes no memory.
pub(crate) fn read_entry(value: &Value) -> Option<Entry<'_>>
    ensures { option_map seen_entry result ≡ entry_of (view value.now) }
{
    if key_count(value) != KEYS {
        return None;
    }
    let id = member_text(value, "id")?;
    let quote = member_text(value, "quote")?;
    let reason = member_text(value, "reason")?;
    if reason.is_empty() {
        return None;
    }
    Some(Entry { id, quote, reason })
}
