//! Texts of files, and texts that are put together.

use std::alloc::{AllocError, Global};
use tests_memory::Fail;

pub const SOURCE: &str = "int f(int a,int b){return a&&b;}";

pub const HEADER: &str = "test,call,arguments,inputs,expect,output\n";

pub const TESTS: &str =
    "test,call,arguments,inputs,expect,output\nt1,f,1 1,,,\nt2,f,1 0,,,\nt3,f,0 1,,,\n";

pub const JUSTIFICATIONS: &str = r#"[{"id":"D1C2","quote":"b","reason":"b is stuck"}]"#;

/// The first lines of a record of this source. Its digest is by `sha256sum`.
pub const HEAD: &str = "\
mcdc-record 2
source 8200d2384991a90c0fb5f6a208a7f0176cae5c6443e46177ef6bfd44c40d4caf
bits 6
";

/// The other lines of the record of these tests.
pub const BODY: &str = "\
tests 3
test t1 pass
test t2 pass
test t3 pass
bit 0 0000000000000007
bit 1 0000000000000007
bit 2 0000000000000007
bit 3 0000000000000001
bit 4 0000000000000002
bit 5 0000000000000004
end
";

/// Those where the first test is left out.
pub const WITHOUT_FIRST: &str = "\
tests 3
test t1 pass
test t2 pass
test t3 pass
bit 0 0000000000000006
bit 1 0000000000000006
bit 2 0000000000000006
bit 3 0000000000000000
bit 4 0000000000000002
bit 5 0000000000000004
end
";

/// Those of no tests.
pub const EMPTY: &str = "\
tests 0
bit 0
bit 1
bit 2
bit 3
bit 4
bit 5
end
";

/// Adds a text, which is made with `format!`, and lets it go.
pub fn push(text: &mut String, made: Result<String, AllocError>) -> Result<(), Fail> {
    let more = made?;
    let pushed = text.push_str(more.as_str());
    drop(more);
    Ok(pushed?)
}

/// A header, and the tests of `f` whose numbers are above the first and up to the last one. Their
/// arguments are the two lowest bits of the number.
pub fn many_tests(alloc: Global, first: u32, last: u32) -> Result<String, Fail> {
    let mut tests = String::from_str(alloc, HEADER)?;
    for before in first..last {
        let j = before + 1;
        let low = j % 2;
        let high = j / 2 % 2;
        push(&mut tests, format!(in alloc; "t{j},f,{low} {high},,,\n"))?;
    }
    Ok(tests)
}

/// The bits of 130 such tests, of which the first has the number 1.
const MANY_BITS: &str = "\
bit 0 ffffffffffffffff ffffffffffffffff 0000000000000003
bit 1 ffffffffffffffff ffffffffffffffff 0000000000000003
bit 2 ffffffffffffffff ffffffffffffffff 0000000000000003
bit 3 4444444444444444 4444444444444444 0000000000000000
bit 4 1111111111111111 1111111111111111 0000000000000001
bit 5 aaaaaaaaaaaaaaaa aaaaaaaaaaaaaaaa 0000000000000002
end
";

/// The record of these tests.
pub fn many_record(alloc: Global) -> Result<String, Fail> {
    let mut record = String::from_str(alloc, HEAD)?;
    record.push_str("tests 130\n")?;
    for before in 0..130_u32 {
        let j = before + 1;
        push(&mut record, format!(in alloc; "test t{j} pass\n"))?;
    }
    record.push_str(MANY_BITS)?;
    Ok(record)
}
