//! Comments over several lines.
ghost use Rattle.std.specs.Prelude.{◌≡◌};
ghost use Rattle.mc_places.specs.Comments.{is_line_comment, stays_open, toggles};

fn is_line_comment(is_open: bool, first: u8, second: u8) -> bool
    ensures { result ≡ is_line_comment is_open first second }
{
    !is_open && (first == b'/' && second == b'/')
}

/// `/*` outside a comment, or `*/` inside.
fn toggles(is_open: bool, first: u8, second: u8) -> bool
    ensures { result ≡ toggles is_open first second }
{
    if is_open {
        first == b'*' && second == b'/'
    } else {
        first == b'/' && second == b'*'
    }
}

/// Whether a comment that `/*` began is open after the line, by whether one was before it.
pub(crate) fn stays_open(is_open: bool, line: &[u8]) -> bool
    ensures { result ≡ stays_open is_open line.now }
{
    let mut open_now = is_open;
    let mut left = line;
    while let [first, second, ..] = left {
        if is_line_comment(open_now, *first, *second) {
            return false;
        }
        if toggles(open_now, *first, *second) {
            open_now = !open_now;
            left = &left[2..];
        } else {
            left = &left[1..];
        }
    }
    open_now
}
