//! Where the first line of some bytes ends.
ghost use Rattle.std.specs.Prelude.{◌≡◌, ◌<◌, ◌≤◌, ◌+◌, length, take, drop};
ghost use Rattle.mc_list.specs.steps.First.{first_len};

/// How many bytes the first line has, LF included where it has one.
fn line_len(bytes: &[u8]) -> usize
    ensures len { result ≡ first_len bytes.now }
    ensures within { result ≤ length bytes.now }
    ensures some { 0 < length bytes.now → 0 < result }
{
    let mut len = 0;
    let mut left = bytes;
    while let [byte, later @ ..] = left {
        len += 1;
        if *byte == b'\n' {
            return len;
        }
        left = later;
    }
    len
}

/// The first line, and the bytes after it.
pub(crate) fn split_line(bytes: &[u8]) -> (&[u8], &[u8])
    ensures line { result.0.now ≡ take (first_len bytes.now) bytes.now }
    ensures later { result.1.now ≡ drop (first_len bytes.now) bytes.now }
    ensures whole { length result.0.now + length result.1.now ≡ length bytes.now }
    ensures some { 0 < length bytes.now → 0 < length result.0.now }
{
    bytes.split_at(line_len(bytes))
}
