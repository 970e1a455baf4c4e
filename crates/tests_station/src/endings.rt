//! Worked runs: how the runs of tests end. Each text that is expected was written out by hand.

use crate::row::is_written;
use tests_memory::Fail;

/// Traps, values that do not trap, and limits, as rows `CASE@WORDS@SOURCE@TESTS@STATUS@OUT@DIAG`
/// with `~` between each two.
pub const ROWS: &str = "\
overflow@vectors|s.c|t.csv@\
int f(int a,int b){return a+b;}@\
test,call,arguments,inputs,expect,output
t1,f,2147483647 1,,,
@1@\
test t1 trap-overflow values output
@~
division@vectors|s.c|t.csv@\
int f(int a,int b){return a/b;}@\
test,call,arguments,inputs,expect,output
t1,f,1 0,,,
t2,f,-2147483648 -1,,,
@1@\
test t1 trap-division values output
test t2 trap-overflow values output
@~
shift@vectors|s.c|t.csv@\
int f(int a,int b){return a<<b;}@\
test,call,arguments,inputs,expect,output
t1,f,1 30,,,
t2,f,1 31,,,
t3,f,1 32,,,
t4,f,-1 1,,,
@1@\
test t1 pass values 1073741824 output
test t2 trap-shift values output
test t3 trap-shift values output
test t4 trap-shift values output
@~
index@vectors|s.c|t.csv@\
int f(int i){int t[3]={7};return t[i];}@\
test,call,arguments,inputs,expect,output
t1,f,2,,,
t2,f,3,,,
t3,f,-1,,,
@1@\
test t1 pass values 0 output
test t2 trap-index values output
test t3 trap-index values output
@~
unset@vectors|s.c|t.csv@\
int f(void){int x;return x;}@\
test,call,arguments,inputs,expect,output
t1,f,,,,
@1@\
test t1 trap-unset values output
@~
assigned structures@vectors|s.c|t.csv@\
struct S{int a;int b;};int f(void){struct S s;struct S t;s.a=4;t=s;return t.a;}@\
test,call,arguments,inputs,expect,output
t1,f,,,,
@0@\
test t1 pass values 4 output
@~
a structure as an argument@vectors|s.c|t.csv@\
struct S{int a;};static struct S s;int g(void){s.a=9;return 1;}int h(struct S p,int q){\
return p.a+q;}int f(void){s.a=2;return h(s,g());}@\
test,call,arguments,inputs,expect,output
t1,f,,,,
@0@\
test t1 pass values 3 output
@~
no return@vectors|s.c|t.csv@\
int f(int a){if(a)return 1;}@\
test,call,arguments,inputs,expect,output
t1,f,1,,,
t2,f,0,,,
@1@\
test t1 pass values 1 output
test t2 trap-no-return values output
D1 T=T by t1
D1 F=F by t2
@~
input@vectors|s.c|t.csv@\
int mcdc_in(void);int f(void){return mcdc_in();}@\
test,call,arguments,inputs,expect,output
t1,f,,,,
t2,f,,5,,
@1@\
test t1 trap-input-end values output
test t2 pass values 5 output
@~
levels@vectors|s.c|t.csv@\
int f(int n){return n?f(n-1):0;}@\
test,call,arguments,inputs,expect,output
t1,f,85,,,
t2,f,84,,,
@1@\
test t1 levels values output
test t2 pass values 0 output
D1 T=T by t1
D1 F=F by t2
@~
cells@vectors|s.c|t.csv@\
int f(int n){int t[30000];t[0]=n;return n?f(n-1):0;}@\
test,call,arguments,inputs,expect,output
t1,f,2,,,
t2,f,1,,,
@1@\
test t1 cells values output
test t2 pass values 0 output
D1 T=T by t1
D1 F=F by t2
@";

#[test]
fn endings(rt: HostRuntime) -> Result<(), Fail> {
    for row in ROWS.split('~') {
        assert!(rt; is_written(&rt, rt.alloc(), row)?, "{row}");
    }
    Ok(())
}
