//! The generated program with one function: its source has one line, its tests file 17.

use crate::text::HEADER;
use mc_gen::generate;
use tests_memory::Fail;

const LINE: &str = "\
int g1(int a,int b,int c,int d){int s=0;int i;for(i=0;i<8;i++){if(a<b&&c<d)s++;}return s;}
";

fn lines_in(text: &[u8]) -> u32 {
    let mut count = 0_u32;
    for byte in text {
        if *byte == b'\n' {
            count = count.saturating_add(1);
        }
    }
    count
}

fn is_right(source: &[u8], tests: &[u8]) -> bool {
    source == LINE.as_bytes()
        && lines_in(tests) == 17
        && tests.starts_with(HEADER.as_bytes())
        && tests.ends_with(b"\ng1_14,g1,0 1 1 1,,,\ng1_15,g1,1 1 1 1,,,\n".as_slice())
}

#[test]
fn one_generated_function(rt: HostRuntime) -> Result<(), Fail> {
    let (source, tests) = generate(rt.alloc(), 1)?;
    assert!(rt; is_right(&source, &tests));
    Ok(())
}
