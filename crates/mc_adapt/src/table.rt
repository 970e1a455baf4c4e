//! Tables of texts.
ghost use Rattle.std.specs.Prelude.{◌≡◌};
ghost use Rattle.mc_lex.specs.Words.{one_of};
ghost use Rattle.mc_lex.specs.steps.Scanner.{texts};

/// Whether the text is one of the table.
pub(crate) fn is_one_of(table: &[&[u8]], text: &[u8]) -> bool
    ensures { result ≡ one_of (texts table.now) text.now }
{
    let mut left = table;
    while let [entry, later @ ..] = left {
        if text == *entry {
            return true;
        }
        left = later;
    }
    false
}
