//! The files of these tests. The records were written by hand.

use mc_port::MemoryStore;
use std::alloc::Global;
use tests_memory::Fail;

/// One decision of two conditions.
const SOURCE: &str = "int f(int a,int b){return a&&b;}";

/// The same in three lines.
const LINES: &str = "int f(int a,int b){\nreturn a\n&&b;}\n";

const HEADER: &str = "test,call,arguments,inputs,expect,output\n";

/// Three tests that show all there is.
const TESTS: &str = "t1,f,1 1,,,\nt2,f,1 0,,,\nt3,f,0 1,,,\n";

/// The first lines of a record of the source. The digest is by `sha256sum`.
const HEAD: &str = "\
mcdc-record 2
source 8200d2384991a90c0fb5f6a208a7f0176cae5c6443e46177ef6bfd44c40d4caf
bits 6
";

const LEFT: &str = "\
tests 2
test t1 pass
test t2 pass
bit 0 0000000000000003
bit 1 0000000000000003
bit 2 0000000000000003
bit 3 0000000000000001
bit 4 0000000000000002
bit 5 0000000000000000
end
";

const RIGHT: &str = "\
tests 1
test t3 pass
bit 0 0000000000000001
bit 1 0000000000000001
bit 2 0000000000000001
bit 3 0000000000000000
bit 4 0000000000000000
bit 5 0000000000000001
end
";

const BOTH: &str = "\
tests 3
test t1 pass
test t2 pass
test t3 pass
bit 0 0000000000000007
bit 1 0000000000000007
bit 2 0000000000000007
bit 3 0000000000000001
bit 4 0000000000000002
bit 5 0000000000000004
end
";

/// The justification of a statement that is met.
const STALE: &str = r#"[{"id":"S1","quote":"return a&&b;","reason":"x"}]"#;

/// A decision with an operator that is evaluated in full, and a record of an earlier version.
const FULL: &str = "int f(int a,int b){return (a<1)&(b<1);}";

const EARLIER: &str = "mcdc-record 1\n";

/// The tests and the justifications of the longer source in `inputs.rt`.
const FLAP_TESTS: &str = "\
flight,cycle,2,100 0,5,5
flight,cycle,2,200 0,10,10
flight,cycle,2,100 1,15,15
flight,cycle,1,120 0,15,15
flight,cycle,0,150 0,10,10
flight,cycle,0,150 0,5,5
";

const FLAP_REASONS: &str =
    r#"[{"id":"L4","quote":"default:","reason":"three positions"},{"id":"X4","quote":"return 0;","reason":"three positions"},{"id":"S5","quote":"return 0;","reason":"three positions"}]"#;

/// Each file: its name, and its first bytes and the others.
static FILES: [(&str, &str, &str); 15] = [
    ("s.c", SOURCE, ""),
    ("l.c", LINES, ""),
    ("bad.c", "int f(void){return x;}", ""),
    ("full.c", FULL, ""),
    ("t.csv", HEADER, TESTS),
    ("none.csv", HEADER, ""),
    ("bad.csv", HEADER, "t1,f,1,,,\n"),
    ("LEFT", HEAD, LEFT),
    ("RIGHT", HEAD, RIGHT),
    ("BOTH", HEAD, BOTH),
    ("EARLIER", EARLIER, ""),
    ("j.json", STALE, ""),
    ("bad.json", "{}", ""),
    ("flap.csv", HEADER, FLAP_TESTS),
    ("flap.json", FLAP_REASONS, ""),
];

/// A store of these files, and of `x` with these bytes, that fails at the load of this number.
pub fn store(alloc: Global, other: &[u8], failing: u32) -> Result<MemoryStore, Fail> {
    let mut files = Vec::new(alloc);
    files.push((String::from_str(alloc, "x")?, other.to_vec(alloc)?))?;
    for (name, first, others) in &FILES {
        let name = String::from_str(alloc, name)?;
        let mut bytes = first.as_bytes().to_vec(alloc)?;
        bytes.extend_from_slice(others.as_bytes())?;
        files.push((name, bytes))?;
    }
    let mut list = Vec::new(alloc);
    list.push(failing)?;
    Ok(MemoryStore::new(alloc, files, list))
}
