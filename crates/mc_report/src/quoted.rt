//! Texts as JSON strings.
ghost use Rattle.std.specs.Prelude.{◌≡◌, IfOk, IsUtf8};
ghost use Rattle.serde_json.specs.Data.{string};
ghost use Rattle.serde_json.specs.Written.{compact_text};

use serde_json::Value;
use std::alloc::{AllocError, Global};
use std::str;

/// Bytes that are text, as text.
pub(crate) fn text_of(bytes: &[u8]) -> &str
    requires { IsUtf8 bytes.now }
    ensures { result.now ≡ bytes.now }
{
    match str::from_utf8(bytes) {
        Ok(text) => text,
        Err(_) => unreachable!(),
    }
}

/// A text as a JSON string.
pub(crate) fn quoted(alloc: Global, text: &str) -> Result<Vec<u8>, AllocError>
    ensures { IfOk result (λ v. v.items ≡ compact_text (string text.now)) }
{
    Value::try_from_str(alloc, text)?.to_vec(alloc)
}

/// Bytes that are text, as a JSON string.
pub(crate) fn quoted_bytes(alloc: Global, bytes: &[u8]) -> Result<Vec<u8>, AllocError>
    requires { IsUtf8 bytes.now }
    ensures { IfOk result (λ v. v.items ≡ compact_text (string bytes.now)) }
{
    quoted(alloc, text_of(bytes))
}
