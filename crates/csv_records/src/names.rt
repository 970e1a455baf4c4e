//! The name that a field holds.
ghost use Rattle.std.specs.Prelude.{◌≡◌};
ghost use Rattle.std.specs.List.{list_all};
ghost use Rattle.csv_records.specs.Names.{is_name, is_name_byte};

const MAX_NAME: usize = 64;

fn is_name_byte(b: u8) -> bool
    ensures { result ≡ is_name_byte b }
{
    (b >= b'a' && b <= b'z')
        || (b >= b'A' && b <= b'Z')
        || (b >= b'0' && b <= b'9')
        || b == b'_'
        || b == b'-'
        || b == b'.'
}

fn has_only_name_bytes(text: &[u8]) -> bool
    ensures { result ≡ list_all is_name_byte text.now }
{
    text.iter().all(|b| is_name_byte(*b))
}

/// Whether the text is a name. Takes no memory.
pub fn is_name(text: &[u8]) -> bool
    ensures { result ≡ is_name text.now }
{
    1 <= text.len() && text.len() <= MAX_NAME && has_only_name_bytes(text)
}
