//! Comments.
ghost use Rattle.std.specs.Prelude.{◌≡◌, ◌≤◌, ◌<◌, ◌^◌, length, IfSome};
ghost use Rattle.mc_lex.specs.steps.Scanner as scanner;
ghost use Rattle.adapt_tokens.specs.steps.Next as spec;

use crate::kind::Kind;
use crate::next::Next;

/// How many bytes a comment has after its `/*`, where it is closed.
#[tactic(auto, using(mc_lex::proofs::Turns::close_short))]
fn close_len(bytes: &[u8]) -> Option<usize>
    requires { length bytes.now < 2 ^ 31 }
    ensures value { result ≡ scanner.close_len bytes.now }
    ensures within { IfSome result (λ n. n ≤ length bytes.now) }
{
    let mut rest = bytes;
    let mut n = 0;
    while let [a, b, ..] = rest {
        if *a == b'*' && *b == b'/' {
            return Some(n + 2);
        }
        n += 1;
        rest = &rest[1..];
    }
    None
}

/// The comment that goes on with these bytes after its `/*`.
pub(crate) fn comment_next(bytes: &[u8]) -> Next
    requires { length bytes.now < 2 ^ 31 }
    ensures { result ≡ spec.comment_next bytes.now (scanner.close_len bytes.now) }
{
    match close_len(bytes) {
        Some(n) => Next {
            kind: Kind::Comment,
            length: 2 + n,
        },
        None => Next {
            kind: Kind::OpenComment,
            length: 2 + bytes.len(),
        },
    }
}
