//! What decisions need, in both modes: with `!`, groups, operators that are evaluated in full, one
//! decision in another, and under several tests.

use crate::needed::{MASKING, Row, UNIQUE, is_written};
use tests_memory::Fail;

/// Two decisions, of which a test reaches one.
const GATED: &str = "\
int f(int engage, int valid, int wow, int envelope) {
  if (engage && valid && !wow && envelope) return 1;
  return 0;
}
int g(int a, int b) { return a || b; }
";

const GATED_TEST: &str = "\
test,call,arguments,inputs,expect,output
t1,f,1 1 0 1,,,
";

/// They are the same in both modes.
const GATED_LINES: &str = "\
E2 5:5 missing
X2 3:3 missing
X3 5:23 missing
S3 3:3 missing
S4 5:23 missing
D1F 2:7 missing needs TTT-=F
D1C1 2:7 missing needs F---=F beside TTFT=T by t1
  F engage
  - valid
  - wow
  - envelope
D1C2 2:17 missing needs TF--=F beside TTFT=T by t1
  T engage
  F valid
  - wow
  - envelope
D1C3 2:27 missing needs TTT-=F beside TTFT=T by t1
  T engage
  T valid
  T wow
  - envelope
D1C4 2:34 missing needs TTFF=F beside TTFT=T by t1
  T engage
  T valid
  F wow
  F envelope
D2T 5:30 missing needs T-=T
D2F 5:30 missing needs FF=F
D2C1 5:30 missing needs T-=T and FF=F
  T F a
  - F b
D2C2 5:35 missing needs FT=T and FF=F
  F F a
  T F b
want D1 F---=F for D1F D1C1
want D1 TF--=F for D1C2
want D1 TTT-=F for D1C3
want D1 TTFF=F for D1C4
want D2 T-=T for D2T D2C1
want D2 FF=F for D2F D2C1
want D2 FT=T for D2C2
missing 14 wanted 7 stale 0
status 1
";

static ROWS: [Row<'static>; 23] = [
    // One vector of one decision is evaluated, and none of the other.
    Row {
        words: UNIQUE,
        source: GATED,
        tests: GATED_TEST,
        status: 1,
        lines: GATED_LINES,
    },
    Row {
        words: MASKING,
        source: GATED,
        tests: GATED_TEST,
        status: 1,
        lines: GATED_LINES,
    },
    // One vector makes a pair with a true one, or with a false one.
    Row {
        words: UNIQUE,
        source: "int f(int a,int b){return a||b;}",
        tests: "\
test,call,arguments,inputs,expect,output
t1,f,1 0,,,
",
        status: 1,
        lines: "\
D1F 1:27 missing needs FF=F
D1C1 1:27 missing needs FF=F beside T-=T by t1
  F a
  F b
D1C2 1:30 missing needs FT=T and FF=F
  F F a
  T F b
want D1 FF=F for D1F D1C1
want D1 FT=T for D1C2
missing 3 wanted 2 stale 0
status 1
",
    },
    Row {
        words: UNIQUE,
        source: "int f(int a,int b){return a||b;}",
        tests: "\
test,call,arguments,inputs,expect,output
t1,f,0 0,,,
",
        status: 1,
        lines: "\
D1T 1:27 missing needs T-=T
D1C1 1:27 missing needs T-=T beside FF=F by t1
  T a
  - b
D1C2 1:30 missing needs FT=T beside FF=F by t1
  F a
  T b
want D1 T-=T for D1T D1C1
want D1 FT=T for D1C2
missing 3 wanted 2 stale 0
status 1
",
    },
    // Both outcomes, and one condition.
    Row {
        words: UNIQUE,
        source: "int f(int a,int b){return a||b;}",
        tests: "\
test,call,arguments,inputs,expect,output
t1,f,0 1,,,
t1,f,0 0,,,
",
        status: 1,
        lines: "\
D1C1 1:27 missing needs T-=T beside FF=F by t1
  T a
  - b
want D1 T-=T for D1C1
missing 1 wanted 1 stale 0
status 1
",
    },
    // All is met.
    Row {
        words: UNIQUE,
        source: "int f(int a,int b){return a||b;}",
        tests: "\
test,call,arguments,inputs,expect,output
t1,f,1 0,,,
t2,f,0 0,,,
t3,f,0 1,,,
",
        status: 0,
        lines: "\
missing 0 wanted 0 stale 0
status 0
",
    },
    // No test: two vectors for each condition, and each stands on the list once.
    Row {
        words: UNIQUE,
        source: "int f(int a,int b){return a||b;}",
        tests: "\
test,call,arguments,inputs,expect,output
",
        status: 1,
        lines: "\
E1 1:5 missing
X1 1:20 missing
S1 1:20 missing
D1T 1:27 missing needs T-=T
D1F 1:27 missing needs FF=F
D1C1 1:27 missing needs T-=T and FF=F
  T F a
  - F b
D1C2 1:30 missing needs FT=T and FF=F
  F F a
  T F b
want D1 T-=T for D1T D1C1
want D1 FF=F for D1F D1C1
want D1 FT=T for D1C2
missing 7 wanted 3 stale 0
status 1
",
    },
    // NOT before a condition and before the whole.
    Row {
        words: UNIQUE,
        source: "int f(int a,int b){return !(!a&&b);}",
        tests: "\
test,call,arguments,inputs,expect,output
t1,f,0 0,,,
",
        status: 1,
        lines: "\
D1F 1:27 missing needs FT=F
D1C1 1:30 missing needs T-=T and FT=F
  T F a
  - T b
D1C2 1:33 missing needs FT=F beside FF=T by t1
  F a
  T b
want D1 T-=T for D1C1
want D1 FT=F for D1F D1C1
missing 3 wanted 2 stale 0
status 1
",
    },
    // Groups, in both modes.
    Row {
        words: UNIQUE,
        source: "int f(int a,int b,int c,int d){return (a||b)&&(c||d);}",
        tests: "\
test,call,arguments,inputs,expect,output
t1,f,1 0 1 0,,,
t2,f,0 0 0 0,,,
",
        status: 1,
        lines: "\
D1C2 1:43 missing needs FTT-=T beside FF--=F by t2
  F a
  T b
  T c
  - d
D1C3 1:48 missing needs T-FF=F beside T-T-=T by t1
  T a
  - b
  F c
  F d
D1C4 1:51 missing needs T-FT=T and T-FF=F
  T T a
  - - b
  F F c
  T F d
want D1 FTT-=T for D1C2
want D1 T-FF=F for D1C3
want D1 T-FT=T for D1C4
missing 3 wanted 3 stale 0
status 1
",
    },
    Row {
        words: MASKING,
        source: "int f(int a,int b,int c,int d){return (a||b)&&(c||d);}",
        tests: "\
test,call,arguments,inputs,expect,output
t1,f,1 0 1 0,,,
t2,f,0 0 0 0,,,
",
        status: 1,
        lines: "\
D1C2 1:43 missing needs FTT-=T beside FF--=F by t2
  F a
  T b
  T c
  - d
D1C3 1:48 missing needs T-FF=F beside T-T-=T by t1
  T a
  - b
  F c
  F d
D1C4 1:51 missing needs T-FT=T and T-FF=F
  T T a
  - - b
  F F c
  T F d
want D1 FTT-=T for D1C2
want D1 T-FF=F for D1C3
want D1 T-FT=T for D1C4
missing 3 wanted 3 stale 0
status 1
",
    },
    // `^`: by masking the other operand may differ.
    Row {
        words: UNIQUE,
        source: "int f(_Bool a,_Bool b,_Bool c){return (a^b)&&c;}",
        tests: "\
test,call,arguments,inputs,expect,output
t1,f,1 0 1,,,
t2,f,0 1 0,,,
",
        status: 1,
        lines: "\
D1C1 1:40 missing needs FF-=F beside TFT=T by t1
  F a
  F b
  - c
D1C2 1:42 missing needs TT-=F beside TFT=T by t1
  T a
  T b
  - c
D1C3 1:46 missing needs TFF=F beside TFT=T by t1
  T a
  F b
  F c
want D1 FF-=F for D1C1
want D1 TT-=F for D1C2
want D1 TFF=F for D1C3
missing 3 wanted 3 stale 0
status 1
",
    },
    Row {
        words: MASKING,
        source: "int f(_Bool a,_Bool b,_Bool c){return (a^b)&&c;}",
        tests: "\
test,call,arguments,inputs,expect,output
t1,f,1 0 1,,,
t2,f,0 1 0,,,
",
        status: 1,
        lines: "\
D1C1 1:40 missing needs FF-=F beside TFT=T by t1
  F a
  F b
  - c
D1C2 1:42 missing needs TT-=F beside TFT=T by t1
  T a
  T b
  - c
want D1 FF-=F for D1C1
want D1 TT-=F for D1C2
missing 2 wanted 2 stale 0
status 1
",
    },
    // `&` and `|`: by masking one vector less is wanted.
    Row {
        words: UNIQUE,
        source: "int f(_Bool a,_Bool b,_Bool c){return a&b|c;}",
        tests: "\
test,call,arguments,inputs,expect,output
t1,f,1 1 0,,,
t1,f,0 0 1,,,
",
        status: 1,
        lines: "\
D1F 1:39 missing needs TFF=F
D1C1 1:39 missing needs FTF=F beside TTF=T by t1
  F a
  T b
  F c
D1C2 1:41 missing needs TFF=F beside TTF=T by t1
  T a
  F b
  F c
D1C3 1:43 missing needs FFF=F beside FFT=T by t1
  F a
  F b
  F c
want D1 FTF=F for D1F D1C1
want D1 TFF=F for D1C2
want D1 TFT=T for D1C3
missing 4 wanted 3 stale 0
status 1
",
    },
    Row {
        words: MASKING,
        source: "int f(_Bool a,_Bool b,_Bool c){return a&b|c;}",
        tests: "\
test,call,arguments,inputs,expect,output
t1,f,1 1 0,,,
t1,f,0 0 1,,,
",
        status: 1,
        lines: "\
D1F 1:39 missing needs TFF=F
D1C1 1:39 missing needs FTF=F beside TTF=T by t1
  F a
  T b
  F c
D1C2 1:41 missing needs TFF=F beside TTF=T by t1
  T a
  F b
  F c
D1C3 1:43 missing needs TFF=F beside FFT=T by t1
  T a
  F b
  F c
want D1 FTF=F for D1F D1C1
want D1 TFF=F for D1C2
missing 4 wanted 2 stale 0
status 1
",
    },
    // `|` over operators that are not evaluated in full.
    Row {
        words: UNIQUE,
        source: "int f(int a,int b,int c){return (a&&b)|(b||c);}",
        tests: "\
test,call,arguments,inputs,expect,output
t1,f,0 0 0,,,
t2,f,1 1 0,,,
",
        status: 1,
        lines: "\
D1C1 1:34 missing needs TTFF=T beside F-FF=F by t1
  T a
  T b
  F b
  F c
  conditions 2 and 3 have one text
D1C2 1:37 missing needs TTFF=T and TFFF=F
  T T a
  T F b
  F F b
  F F c
  conditions 2 and 3 have one text
D1C3 1:41 missing needs F-T-=T beside F-FF=F by t1
  F a
  - b
  T b
  - c
  conditions 2 and 3 have one text
D1C4 1:44 missing needs F-FT=T beside F-FF=F by t1
  F a
  - b
  F b
  T c
  conditions 2 and 3 have one text
want D1 TTFF=T for D1C1
want D1 TFFF=F for D1C2
want D1 TFT-=T for D1C3
want D1 TFFT=T for D1C4
missing 4 wanted 4 stale 0
status 1
",
    },
    Row {
        words: MASKING,
        source: "int f(int a,int b,int c){return (a&&b)|(b||c);}",
        tests: "\
test,call,arguments,inputs,expect,output
t1,f,0 0 0,,,
t2,f,1 1 0,,,
",
        status: 1,
        lines: "\
D1C1 1:34 missing needs TTFF=T beside F-FF=F by t1
  T a
  T b
  F b
  F c
  conditions 2 and 3 have one text
D1C2 1:37 missing needs TTFF=T and TFFF=F
  T T a
  T F b
  F F b
  F F c
  conditions 2 and 3 have one text
D1C3 1:41 missing needs TFT-=T beside F-FF=F by t1
  T a
  F b
  T b
  - c
  conditions 2 and 3 have one text
D1C4 1:44 missing needs TFFT=T beside F-FF=F by t1
  T a
  F b
  F b
  T c
  conditions 2 and 3 have one text
want D1 TTFF=T for D1C1
want D1 TFFF=F for D1C2
want D1 TFT-=T for D1C3
want D1 TFFT=T for D1C4
missing 4 wanted 4 stale 0
status 1
",
    },
    // A decision in a condition of another one; the least test of a partner is the second.
    Row {
        words: UNIQUE,
        source: "int f(int a,int b,int c){int t[2]={0};return a&&t[b||c];}",
        tests: "\
test,call,arguments,inputs,expect,output
t1,f,1 0 0,,,
t2,f,0 0 0,,,
",
        status: 1,
        lines: "\
D1T 1:46 missing needs TT=T
D1C1 1:46 missing needs TT=T beside F-=F by t2
  T a
  T t[b||c]
D1C2 1:49 missing needs TT=T beside TF=F by t1
  T a
  T t[b||c]
D2T 1:51 missing needs T-=T
D2C1 1:51 missing needs T-=T beside FF=F by t1
  T b
  - c
D2C2 1:54 missing needs FT=T beside FF=F by t1
  F b
  T c
want D1 TT=T for D1T D1C1
want D2 T-=T for D2T D2C1
want D2 FT=T for D2C2
missing 6 wanted 3 stale 0
status 1
",
    },
    Row {
        words: MASKING,
        source: "int f(int a,int b,int c){int t[2]={0};return a&&t[b||c];}",
        tests: "\
test,call,arguments,inputs,expect,output
",
        status: 1,
        lines: "\
E1 1:5 missing
X1 1:39 missing
S1 1:26 missing
S2 1:39 missing
D1T 1:46 missing needs TT=T
D1F 1:46 missing needs TF=F
D1C1 1:46 missing needs TT=T and F-=F
  T F a
  T - t[b||c]
D1C2 1:49 missing needs TT=T and TF=F
  T T a
  T F t[b||c]
D2T 1:51 missing needs T-=T
D2F 1:51 missing needs FF=F
D2C1 1:51 missing needs T-=T and FF=F
  T F b
  - F c
D2C2 1:54 missing needs FT=T and FF=F
  F F b
  T F c
want D1 TT=T for D1T D1C1
want D1 F-=F for D1F D1C1
want D1 TF=F for D1C2
want D2 T-=T for D2T D2C1
want D2 FF=F for D2F D2C1
want D2 FT=T for D2C2
missing 12 wanted 6 stale 0
status 1
",
    },
    // No decision at all.
    Row {
        words: UNIQUE,
        source: "int f(int a){switch(a){case 1:return 1;default:return 0;}}",
        tests: "\
test,call,arguments,inputs,expect,output
",
        status: 1,
        lines: "\
E1 1:5 missing
X1 1:31 missing
X2 1:48 missing
S1 1:14 missing
S2 1:31 missing
S3 1:48 missing
L1 1:24 missing
L2 1:40 missing
missing 8 wanted 0 stale 0
status 1
",
    },
    // Vectors of one call.
    Row {
        words: UNIQUE,
        source: "int f(int n){int i=0;while(i<n&&n<9)i=i+1;return i;}",
        tests: "\
test,call,arguments,inputs,expect,output
t1,f,2,,,
",
        status: 1,
        lines: "\
D1C2 1:33 missing needs TF=F beside TT=T by t1
  T i<n
  F n<9
want D1 TF=F for D1C2
missing 1 wanted 1 stale 0
status 1
",
    },
    // What traps is no vector.
    Row {
        words: UNIQUE,
        source: "int f(int a,int b){return b&&6/a>2;}",
        tests: "\
test,call,arguments,inputs,expect,output
t1,f,0 1,,,
",
        status: 1,
        lines: "\
X1 1:20 missing
D1T 1:27 missing needs TT=T
D1F 1:27 missing needs TF=F
D1C1 1:27 missing needs TT=T and F-=F
  T F b
  T - 6/a>2
D1C2 1:30 missing needs TT=T and TF=F
  T T b
  T F 6/a>2
want D1 TT=T for D1T D1C1
want D1 F-=F for D1F D1C1
want D1 TF=F for D1C2
missing 5 wanted 3 stale 0
status 1
",
    },
    // A test that fails leaves the status at 1.
    Row {
        words: UNIQUE,
        source: "int f(int a){return a;}",
        tests: "\
test,call,arguments,inputs,expect,output
t1,f,1,,2,
",
        status: 1,
        lines: "\
missing 0 wanted 0 stale 0
status 1
",
    },
    Row {
        words: UNIQUE,
        source: "int f(int a){return a;}",
        tests: "\
test,call,arguments,inputs,expect,output
t1,f,1,,1,
",
        status: 0,
        lines: "\
missing 0 wanted 0 stale 0
status 0
",
    },
];

#[test]
fn decisions_need_vectors(rt: HostRuntime) -> Result<(), Fail> {
    for row in &ROWS {
        let (words, lines) = (row.words, row.lines);
        assert!(rt; is_written(&rt, rt.alloc(), row)?, "{words} {lines}");
    }
    Ok(())
}
