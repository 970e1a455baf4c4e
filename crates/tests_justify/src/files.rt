//! Files for one source, and what comes of them.
ghost use Rattle.std.specs.Prelude.{◌<◌, ◌^◌, length};

use crate::outcome::outcome;
use crate::targets::{SOURCE, obligations};
use mc_justify::JustifyFault;
use mc_oblige::Obligation;
use std::alloc::{AllocError, Global};
use std::test::Fail;

/// A row for each file: what comes of it, and after `@` the file. There `'` is a quotation mark,
/// `$` a line feed, `^` a carriage return, `?` the byte 255, and `~` stands for 4,095 times `,0`.
const ROWS: &str = "\
# nothing is justified
@[]
@ [$ ] $
# one of each kind
0 r;@[{'id':'E1','quote':'entry','reason':'r'}]
1 r;@[{'id':'X1','quote':'exit','reason':'r'}]
2 r;@[{'id':'S1','quote':'stmt','reason':'r'}]
3 r;@[{'id':'L1','quote':'lab','reason':'r'}]
4 r;@[{'id':'D1T','quote':'deci','reason':'r'}]
5 r;@[{'id':'D1F','quote':'deci','reason':'r'}]
6 r;@[{'id':'D1C1','quote':'a','reason':'r'}]
7 b is stuck;@[{'id':'D1C2','quote':'b','reason':'b is stuck'}]
10 r;@[{'id':'S10','quote':'x','reason':'r'}]
13 r;@[{'id':'D12C34','quote':'entry','reason':'r'}]
# several, in the order of the file
3 c;0 a;7 b;@[{'id':'L1','quote':'lab','reason':'c'},{'id':'E1','quote':'entry','reason':'a'},{'id':'D1C2','quote':'b','reason':'b'}]
4 r;5 r;@[{'id':'D1T','quote':'deci','reason':'r'},{'id':'D1F','quote':'deci','reason':'r'}]
# keys in another order, escapes, blanks
0 a''$\u{e9}/;@[$ {'reason' : 'a\\'\\u0022\\n\\u00e9\\/', 'quote' : '\\u0065ntry', 'id' : 'E\\u0031'} ]$
8 r;@[{'id':'S2','quote':'two\\nlines','reason':'r'}]
0  ;@[{'id':'E1','quote':'entry','reason':' '}]
# a place that passes the end of the source is cut there
11 r;@[{'id':'S11','quote':'','reason':'r'}]
12 r;@[{'id':'S12','quote':'','reason':'r'}]
# of equal keys the last stands
0 r;@[{'id':'x','id':'E1','quote':'entry','reason':'r'}]
0 r;@[{'id':'E1','quote':'entry','reason':'','reason':'r'}]
justification entry 1: shape@[{'id':'E1','quote':'entry','reason':'r','reason':''}]
justification entry 1: shape@[{'id':'E1','quote':'entry','quote':'entry'}]
# bytes that are no JSON text
justification: json@
justification: json@ $
justification: json@[
justification: json@[1,]
justification: json@[] []
justification: json@?
justification: json@['?']
justification: json@{'id':'E1','quote':'entry','reason':'r'
justification: json@[{'id':'S2','quote':'two$lines','reason':'r'}]
justification: json@[{'id':'E1','quote':'entry','reason':'\\ud800'}]
justification: json@[{id:'E1','quote':'entry','reason':'r'}]
justification: json@[0~,0
# no list
justification entry 0: shape@{}
justification entry 0: shape@{'id':'E1','quote':'entry','reason':'r'}
justification entry 0: shape@'E1'
justification entry 0: shape@7
justification entry 0: shape@true
justification entry 0: shape@null
# more than 4,096 entries, whatever they are
justification: limit@[0~,0]
justification: limit@[{'id':'E1','quote':'entry','reason':'r'}~,0]
justification: limit@[{}~~]
justification entry 1: shape@[0~]
justification entry 2: shape@[{'id':'E1','quote':'entry','reason':'r'}~]
# entries of another shape
justification entry 1: shape@[1]
justification entry 1: shape@[null]
justification entry 1: shape@[[]]
justification entry 1: shape@['E1']
justification entry 1: shape@[{}]
justification entry 1: shape@[['E1','entry','r']]
justification entry 1: shape@[{'id':'E1','quote':'entry','reason':'r','more':'r'}]
justification entry 1: shape@[{'quote':'entry','reason':'r'}]
justification entry 1: shape@[{'id':'E1','reason':'r'}]
justification entry 1: shape@[{'id':'E1','quote':'entry'}]
justification entry 1: shape@[{'Id':'E1','quote':'entry','reason':'r'}]
justification entry 1: shape@[{'id':'E1','quote':'entry','why':'r'}]
justification entry 1: shape@[{'id':1,'quote':'entry','reason':'r'}]
justification entry 1: shape@[{'id':'E1','quote':null,'reason':'r'}]
justification entry 1: shape@[{'id':'E1','quote':'entry','reason':['r']}]
justification entry 1: shape@[{'id':'E1','quote':'entry','reason':true}]
justification entry 1: shape@[{'id':'E1','quote':'entry','reason':''}]
justification entry 2: shape@[{'id':'E1','quote':'entry','reason':'r'},{}]
# ids that no obligation has
justification entry 1: unknown@[{'id':'S9','quote':'stmt','reason':'r'}]
justification entry 1: unknown@[{'id':'D1C3','quote':'a','reason':'r'}]
justification entry 1: unknown@[{'id':'D2T','quote':'deci','reason':'r'}]
justification entry 1: unknown@[{'id':'s1','quote':'stmt','reason':'r'}]
justification entry 1: unknown@[{'id':'S0','quote':'stmt','reason':'r'}]
justification entry 1: unknown@[{'id':'S01','quote':'stmt','reason':'r'}]
justification entry 1: unknown@[{'id':'S1 ','quote':'stmt','reason':'r'}]
justification entry 1: unknown@[{'id':'S','quote':'stmt','reason':'r'}]
justification entry 1: unknown@[{'id':'D1','quote':'deci','reason':'r'}]
justification entry 1: unknown@[{'id':'','quote':'','reason':'r'}]
# quotes that differ
justification entry 1: quote kept <<entry>> given <<entry >>@[{'id':'E1','quote':'entry ','reason':'r'}]
justification entry 1: quote kept <<entry>> given << entry>>@[{'id':'E1','quote':' entry','reason':'r'}]
justification entry 1: quote kept <<entry>> given <<Entry>>@[{'id':'E1','quote':'Entry','reason':'r'}]
justification entry 1: quote kept <<entry>> given <<entr>>@[{'id':'E1','quote':'entr','reason':'r'}]
justification entry 1: quote kept <<entry>> given <<>>@[{'id':'E1','quote':'','reason':'r'}]
justification entry 1: quote kept <<two$lines>> given <<two lines>>@[{'id':'S2','quote':'two lines','reason':'r'}]
justification entry 1: quote kept <<two$lines>> given <<two^$lines>>@[{'id':'S2','quote':'two\\r\\nlines','reason':'r'}]
justification entry 1: quote kept <</*?*/x>> given <</*\u{ff}*/x>>@[{'id':'S3','quote':'/*\u{ff}*/x','reason':'r'}]
justification entry 1: quote kept <</*?*/x>> given <</**/x>>@[{'id':'S3','quote':'/**/x','reason':'r'}]
justification entry 1: quote kept <<x>> given <<x/>>@[{'id':'S10','quote':'x/','reason':'r'}]
justification entry 1: quote kept <<>> given <<x>>@[{'id':'S11','quote':'x','reason':'r'}]
# of two obligations with one id the first is meant
justification entry 1: quote kept <<entry>> given <<exit>>@[{'id':'E1','quote':'exit','reason':'r'}]
# ids that an earlier entry has
justification entry 2: repeated@[{'id':'E1','quote':'entry','reason':'r'},{'id':'E1','quote':'entry','reason':'s'}]
justification entry 3: repeated@[{'id':'E1','quote':'entry','reason':'r'},{'id':'X1','quote':'exit','reason':'r'},{'id':'E1','quote':'entry','reason':'r'}]
# in one entry: shape, unknown, quote, repeated
justification entry 1: shape@[{'id':'S9','quote':'x','reason':''}]
justification entry 1: unknown@[{'id':'S9','quote':'x','reason':'r'}]
justification entry 2: shape@[{'id':'E1','quote':'entry','reason':'r'},{'id':'E1','quote':'x','reason':''}]
justification entry 2: quote kept <<entry>> given <<x>>@[{'id':'E1','quote':'entry','reason':'r'},{'id':'E1','quote':'x','reason':'r'}]
# of two entries with a fault the first answers
justification entry 1: unknown@[{'id':'S9','quote':'x','reason':'r'},{}]
justification entry 1: quote kept <<entry>> given <<x>>@[{'id':'E1','quote':'x','reason':'r'},{'id':'S9','quote':'x','reason':'r'}]
justification entry 2: repeated@[{'id':'E1','quote':'entry','reason':'r'},{'id':'E1','quote':'entry','reason':'r'},{}]
";

/// Adds what a part of a row stands for.
fn write_out(out: &mut Vec<u8>, text: &str) -> Result<(), AllocError> {
    for byte in text.bytes() {
        match byte {
            b'\'' => out.push(b'"')?,
            b'$' => out.push(b'\n')?,
            b'^' => out.push(b'\r')?,
            b'?' => out.push(255)?,
            b'~' => push_zeros(out)?,
            other => out.push(other)?,
        }
    }
    Ok(())
}

fn push_zeros(out: &mut Vec<u8>) -> Result<(), AllocError> {
    for _ in 0..4095 {
        out.extend_from_slice(b",0")?;
    }
    Ok(())
}

fn is_right(alloc: Global, obligations: &[Obligation], row: &str) -> Result<bool, AllocError>
    requires { length obligations.now < 2 ^ 31 }
{
    let Some((said, text)) = row.split_once('@') else {
        return Ok(row.starts_with('#'));
    };
    let mut want = Vec::new(alloc);
    write_out(&mut want, said)?;
    let mut file = Vec::new(alloc);
    write_out(&mut file, text)?;
    let found = outcome(alloc, obligations, SOURCE, &file)?;
    Ok(found == want)
}

#[test]
fn justification_files(rt: HostRuntime) -> Result<(), Fail> {
    let alloc = rt.alloc();
    let targets = obligations(alloc)?;
    assert!(rt; targets.len() == 15);
    for row in ROWS.lines() {
        assert!(rt; is_right(alloc, &targets, row)?, "{row}");
    }
    let text = format!(in alloc; "{}", JustifyFault::OutOfMemory)?;
    assert!(rt; text.as_str() == "out of memory");
    Ok(())
}
