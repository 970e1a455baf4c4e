//! First parts of a text, and what follows them.
ghost use Rattle.std.specs.Prelude.{◌≡◌, ◌==◌};
ghost use Rattle.std.specs.List.{position};
ghost use Rattle.mc_record.specs.Parts.{strip, until};
ghost use Rattle.mc_record.specs.Seen.{seen_rest, seen_parts};

/// What follows the front, where the text begins with that. Takes no memory.
pub(crate) fn strip<'a>(text: &'a [u8], front: &[u8]) -> Option<&'a [u8]>
    ensures { seen_rest result ≡ strip front.now text.now }
{
    text.strip_prefix(front)
}

fn position(text: &[u8], byte: u8) -> Option<usize>
    ensures { result ≡ position (λ b. b == byte) text.now }
{
    text.iter().position(|b| *b == byte)
}

/// What stands before the first byte of this value, and what follows it. Takes no memory.
pub(crate) fn until(text: &[u8], byte: u8) -> Option<(&[u8], &[u8])>
    ensures { seen_parts result ≡ until byte text.now }
{
    let place = position(text, byte)?;
    Some((&text[..place], &text[place + 1..]))
}
