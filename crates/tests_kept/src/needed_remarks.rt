//! Conditions with one text and constants, and the texts of conditions.

use crate::needed::{MASKING, Row, UNIQUE, is_written};
use tests_memory::Fail;

static ROWS: [Row<'static>; 10] = [
    // The same condition in two groups, in both modes.
    Row {
        words: UNIQUE,
        source: "int f(int a,int b,int c){return (a&&b)||(a&&c);}",
        tests: "\
test,call,arguments,inputs,expect,output
t1,f,1 1 0,,,
t2,f,0 0 0,,,
",
        status: 1,
        lines: "\
D1C2 1:37 missing needs TFTF=F beside TT--=T by t1
  T a
  F b
  T a
  F c
  conditions 1 and 3 have one text
D1C3 1:42 missing needs F-TT=T beside F-F-=F by t2
  F a
  - b
  T a
  T c
  conditions 1 and 3 have one text
D1C4 1:45 missing needs TFTT=T and TFTF=F
  T T a
  F F b
  T T a
  T F c
  conditions 1 and 3 have one text
want D1 TFTF=F for D1C2
want D1 F-TT=T for D1C3
want D1 TFTT=T for D1C4
missing 3 wanted 3 stale 0
status 1
",
    },
    Row {
        words: MASKING,
        source: "int f(int a,int b,int c){return (a&&b)||(a&&c);}",
        tests: "\
test,call,arguments,inputs,expect,output
t1,f,1 1 0,,,
t2,f,0 0 0,,,
",
        status: 1,
        lines: "\
D1C2 1:37 missing needs TFTF=F beside TT--=T by t1
  T a
  F b
  T a
  F c
  conditions 1 and 3 have one text
D1C3 1:42 missing needs TFTT=T beside F-F-=F by t2
  T a
  F b
  T a
  T c
  conditions 1 and 3 have one text
D1C4 1:45 missing needs TFTT=T and TFTF=F
  T T a
  F F b
  T T a
  T F c
  conditions 1 and 3 have one text
want D1 TFTF=F for D1C2
want D1 TFTT=T for D1C3
missing 3 wanted 2 stale 0
status 1
",
    },
    // Three times.
    Row {
        words: UNIQUE,
        source: "int f(int a,int b){return a&&b&&a&&a;}",
        tests: "\
test,call,arguments,inputs,expect,output
t1,f,1 1,,,
",
        status: 1,
        lines: "\
D1F 1:27 missing needs TTTF=F
D1C1 1:27 missing needs F---=F beside TTTT=T by t1
  F a
  - b
  - a
  - a
  conditions 1 and 3 have one text
  conditions 1 and 4 have one text
D1C2 1:30 missing needs TF--=F beside TTTT=T by t1
  T a
  F b
  - a
  - a
  conditions 1 and 3 have one text
  conditions 1 and 4 have one text
D1C3 1:33 missing needs TTF-=F beside TTTT=T by t1
  T a
  T b
  F a
  - a
  conditions 1 and 3 have one text
  conditions 1 and 4 have one text
D1C4 1:36 missing needs TTTF=F beside TTTT=T by t1
  T a
  T b
  T a
  F a
  conditions 1 and 3 have one text
  conditions 1 and 4 have one text
want D1 F---=F for D1F D1C1
want D1 TF--=F for D1C2
want D1 TTF-=F for D1C3
want D1 TTTF=F for D1C4
missing 5 wanted 4 stale 0
status 1
",
    },
    // Blanks and comments are not of the text.
    Row {
        words: UNIQUE,
        source: "int f(int a,int b,int c){return a<b&&c&&a /* again */ <\tb;}",
        tests: "\
test,call,arguments,inputs,expect,output
t1,f,0 1 1,,,
t1,f,1 0 0,,,
",
        status: 1,
        lines: "\
D1C2 1:38 missing needs TF-=F beside TTT=T by t1
  T a<b
  F c
  - a < b
  conditions 1 and 3 have one text
D1C3 1:41 missing needs TTF=F beside TTT=T by t1
  T a<b
  T c
  F a < b
  conditions 1 and 3 have one text
want D1 TF-=F for D1C2
want D1 TTF=F for D1C3
missing 2 wanted 2 stale 0
status 1
",
    },
    // A constant.
    Row {
        words: UNIQUE,
        source: "int f(int a){return 1&&a;}",
        tests: "\
test,call,arguments,inputs,expect,output
t1,f,1,,,
t1,f,0,,,
",
        status: 1,
        lines: "\
D1C1 1:21 missing needs F-=F beside TT=T by t1
  F 1
  - a
  condition 1 is a constant
want D1 F-=F for D1C1
missing 1 wanted 1 stale 0
status 1
",
    },
    // Constants with operators; a name makes none.
    Row {
        words: UNIQUE,
        source: "int f(int a){return a||(int)4==4||a>'x'||1==1;}",
        tests: "\
test,call,arguments,inputs,expect,output
t1,f,1,,,
",
        status: 1,
        lines: "\
D1F 1:21 missing needs FFFF=F
D1C1 1:21 missing needs FFFF=F beside T---=T by t1
  F a
  F (int)4==4
  F a>'x'
  F 1==1
  condition 2 is a constant
  condition 4 is a constant
D1C2 1:24 missing needs FT--=T and FFFF=F
  F F a
  T F (int)4==4
  - F a>'x'
  - F 1==1
  condition 2 is a constant
  condition 4 is a constant
D1C3 1:35 missing needs FFT-=T and FFFF=F
  F F a
  F F (int)4==4
  T F a>'x'
  - F 1==1
  condition 2 is a constant
  condition 4 is a constant
D1C4 1:42 missing needs FFFT=T and FFFF=F
  F F a
  F F (int)4==4
  F F a>'x'
  T F 1==1
  condition 2 is a constant
  condition 4 is a constant
want D1 FFFF=F for D1F D1C1
want D1 FT--=T for D1C2
want D1 FFT-=T for D1C3
want D1 FFFT=T for D1C4
missing 5 wanted 4 stale 0
status 1
",
    },
    // Constants with one text.
    Row {
        words: UNIQUE,
        source: "int f(int a){return a==1||a==1||(1||1);}",
        tests: "\
test,call,arguments,inputs,expect,output
t1,f,1,,,
t1,f,0,,,
",
        status: 1,
        lines: "\
D1F 1:21 missing needs FFFF=F
D1C1 1:21 missing needs FFFF=F beside T---=T by t1
  F a==1
  F a==1
  F 1
  F 1
  conditions 1 and 2 have one text
  conditions 3 and 4 have one text
  condition 3 is a constant
  condition 4 is a constant
D1C2 1:27 missing needs FT--=T and FFFF=F
  F F a==1
  T F a==1
  - F 1
  - F 1
  conditions 1 and 2 have one text
  conditions 3 and 4 have one text
  condition 3 is a constant
  condition 4 is a constant
D1C3 1:34 missing needs FFFF=F beside FFT-=T by t1
  F a==1
  F a==1
  F 1
  F 1
  conditions 1 and 2 have one text
  conditions 3 and 4 have one text
  condition 3 is a constant
  condition 4 is a constant
D1C4 1:37 missing needs FFFT=T and FFFF=F
  F F a==1
  F F a==1
  F F 1
  T F 1
  conditions 1 and 2 have one text
  conditions 3 and 4 have one text
  condition 3 is a constant
  condition 4 is a constant
want D1 FFFF=F for D1F D1C1
want D1 FT--=T for D1C2
want D1 FFFT=T for D1C4
missing 5 wanted 3 stale 0
status 1
",
    },
    // 60 bytes are shown whole.
    Row {
        words: UNIQUE,
        source: "int f(unsigned a){return \
                 a+1111111111+1111111111+1111111111+1111111111+1111111111+1>a&&a;}",
        tests: "\
test,call,arguments,inputs,expect,output
t1,f,1,,,
t1,f,0,,,
",
        status: 1,
        lines: "\
D1C1 1:26 missing needs F-=F beside TT=T by t1
  F a+1111111111+1111111111+1111111111+1111111111+1111111111+1>a
  - a
want D1 F-=F for D1C1
missing 1 wanted 1 stale 0
status 1
",
    },
    // 61 and more are cut, and a blank at the end is left out.
    Row {
        words: UNIQUE,
        source: "int f(unsigned alpha){return \
                 alpha+111111111+1111111111+1111111111+1111111111+1111111111 > 0&&alpha;}",
        tests: "\
test,call,arguments,inputs,expect,output
t1,f,1,,,
t1,f,0,,,
",
        status: 1,
        lines: "\
D1C1 1:30 missing needs F-=F beside TT=T by t1
  F alpha+111111111+1111111111+1111111111+1111111111+1111111111
  - alpha
want D1 F-=F for D1C1
missing 1 wanted 1 stale 0
status 1
",
    },
    // Several lines.
    Row {
        words: UNIQUE,
        source: "\
int f(int a,int b){return a
  <  /* a comment
 over two lines */
  b && // the end
  b;}",
        tests: "\
test,call,arguments,inputs,expect,output
t1,f,1 2,,,
",
        status: 1,
        lines: "\
D1F 1:27 missing needs TF=F
D1C1 1:27 missing needs F-=F beside TT=T by t1
  F a < b
  - b
D1C2 5:3 missing needs TF=F beside TT=T by t1
  T a < b
  F b
want D1 F-=F for D1F D1C1
want D1 TF=F for D1C2
missing 3 wanted 2 stale 0
status 1
",
    },
];

#[test]
fn remarks_stand_below_conditions(rt: HostRuntime) -> Result<(), Fail> {
    for row in &ROWS {
        let (words, lines) = (row.words, row.lines);
        assert!(rt; is_written(&rt, rt.alloc(), row)?, "{words} {lines}");
    }
    Ok(())
}
