//! Worked programs with operators that are evaluated in full. Each text that is expected was
//! written out by hand.

use crate::row::is_written;
use tests_memory::Fail;

/// Rows `CASE@WORDS@SOURCE@TESTS@STATUS@OUT@DIAG`, with `~` between each two. First reports, then
/// operands of each kind, what is no such operator, where such decisions stand, and traps.
const ROWS: &str = "\
an exclusive or with an idle number@report|s.c|t.csv@\
int f(int a,int b,int c){return (a<1^b<1)&&c;}@\
test,call,arguments,inputs,expect,output
t1,f,0 1 1,,,
t2,f,0 0 1,,,
t3,f,1 0 0,,,
t4,f,1 1 1,,,
@1@\
mcdc report unique
source sha256 5aed618d57018e6e265e126aa4ff20a2413bdbf18ec0b5c6837470844bcd23c6
test t1 pass values 1 output
test t2 pass values 0 output
test t3 pass values 0 output
test t4 pass values 0 output
E1 1:5 met by t1
X1 1:26 met by t1
S1 1:26 met by t1
D1T 1:33 met by t1
D1F 1:33 met by t2
D1C1 1:34 met TFT=T by t1 FF-=F by t4
D1C2 1:38 met TT-=F by t2 TFT=T by t1
D1C3 1:44 missing
entries met 1 justified 0 stale 0 missing 0 of 1
exits met 1 justified 0 stale 0 missing 0 of 1
statements met 1 justified 0 stale 0 missing 0 of 1
labels met 0 justified 0 stale 0 missing 0 of 0
outcomes met 2 justified 0 stale 0 missing 0 of 2
conditions met 2 justified 0 stale 0 missing 1 of 3
status 1
@~
its masking report@report|s.c|t.csv|--mode|masking@\
int f(int a,int b,int c){return (a<1^b<1)&&c;}@\
test,call,arguments,inputs,expect,output
t1,f,0 1 1,,,
t2,f,0 0 1,,,
t3,f,1 0 0,,,
t4,f,1 1 1,,,
@0@\
mcdc report masking
source sha256 5aed618d57018e6e265e126aa4ff20a2413bdbf18ec0b5c6837470844bcd23c6
test t1 pass values 1 output
test t2 pass values 0 output
test t3 pass values 0 output
test t4 pass values 0 output
E1 1:5 met by t1
X1 1:26 met by t1
S1 1:26 met by t1
D1T 1:33 met by t1
D1F 1:33 met by t2
D1C1 1:34 met TFT=T by t1 FF-=F by t4
D1C2 1:38 met TT-=F by t2 TFT=T by t1
D1C3 1:44 met TFT=T by t1 FTF=F by t3
entries met 1 justified 0 stale 0 missing 0 of 1
exits met 1 justified 0 stale 0 missing 0 of 1
statements met 1 justified 0 stale 0 missing 0 of 1
labels met 0 justified 0 stale 0 missing 0 of 0
outcomes met 2 justified 0 stale 0 missing 0 of 2
conditions met 3 justified 0 stale 0 missing 0 of 3
status 0
@~
its vectors, without the idle number@vectors|s.c|t.csv@\
int f(int a,int b,int c){return (a<1^b<1)&&c;}@\
test,call,arguments,inputs,expect,output
t1,f,0 1 1,,,
t2,f,0 0 1,,,
t3,f,1 0 0,,,
t4,f,1 1 1,,,
t5,f,0 1 0,,,
t6,f,1 0 1,,,
@0@\
test t1 pass values 1 output
test t2 pass values 0 output
test t3 pass values 0 output
test t4 pass values 0 output
test t5 pass values 0 output
test t6 pass values 1 output
D1 TT-=F by t2
D1 TFT=T by t1
D1 TFF=F by t5
D1 FTT=T by t6
D1 FTF=F by t3
D1 FF-=F by t4
@~
a conjunction in full@report|s.c|t.csv@\
int f(int a,int b){return (a<1)&(b<1);}@\
test,call,arguments,inputs,expect,output
t1,f,0 0,,1,
t2,f,0 1,,0,
t3,f,1 0,,0,
@0@\
mcdc report unique
source sha256 44ed485aa9e8997f071916c36e12c6aa5f123479b71a5466cf63a2b452299c88
test t1 pass values 1 output
test t2 pass values 0 output
test t3 pass values 0 output
E1 1:5 met by t1
X1 1:20 met by t1
S1 1:20 met by t1
D1T 1:27 met by t1
D1F 1:27 met by t2
D1C1 1:28 met TT=T by t1 FT=F by t3
D1C2 1:34 met TT=T by t1 TF=F by t2
entries met 1 justified 0 stale 0 missing 0 of 1
exits met 1 justified 0 stale 0 missing 0 of 1
statements met 1 justified 0 stale 0 missing 0 of 1
labels met 0 justified 0 stale 0 missing 0 of 0
outcomes met 2 justified 0 stale 0 missing 0 of 2
conditions met 2 justified 0 stale 0 missing 0 of 2
status 0
@~
its vectors@vectors|s.c|t.csv@\
int f(int a,int b){return (a<1)&(b<1);}@\
test,call,arguments,inputs,expect,output
t1,f,0 0,,,
t2,f,0 1,,,
t3,f,1 0,,,
t4,f,1 1,,,
@0@\
test t1 pass values 1 output
test t2 pass values 0 output
test t3 pass values 0 output
test t4 pass values 0 output
D1 TT=T by t1
D1 TF=F by t2
D1 FT=F by t3
D1 FF=F by t4
@~
without parentheses@vectors|s.c|t.csv@\
int f(int a,int b){return a<1|b<1;}@\
test,call,arguments,inputs,expect,output
t1,f,0 1,,,
t2,f,1 1,,,
@0@\
test t1 pass values 1 output
test t2 pass values 0 output
D1 TF=T by t1
D1 FF=F by t2
@~
under a negation@vectors|s.c|t.csv@\
int f(int a,int b){return !((a<1)|(b<1));}@\
test,call,arguments,inputs,expect,output
t1,f,1 1,,,
t2,f,0 0,,,
t3,f,1 0,,,
@0@\
test t1 pass values 1 output
test t2 pass values 0 output
test t3 pass values 0 output
D1 TT=F by t2
D1 FT=F by t3
D1 FF=T by t1
@~
a negated operand@vectors|s.c|t.csv@\
int f(int a,int b){return !(a<1)^(b<1);}@\
test,call,arguments,inputs,expect,output
t1,f,0 0,,,
t2,f,0 1,,,
t3,f,1 0,,,
t4,f,1 1,,,
@0@\
test t1 pass values 1 output
test t2 pass values 0 output
test t3 pass values 0 output
test t4 pass values 1 output
D1 TT=T by t1
D1 TF=F by t2
D1 FT=F by t3
D1 FF=T by t4
@~
objects of type _Bool@vectors|s.c|t.csv@\
int f(_Bool a,_Bool b){return a&b;}@\
test,call,arguments,inputs,expect,output
t1,f,1 1,,,
t2,f,1 0,,,
t3,f,0 1,,,
@0@\
test t1 pass values 1 output
test t2 pass values 0 output
test t3 pass values 0 output
D1 TT=T by t1
D1 TF=F by t2
D1 FT=F by t3
@~
a call and a cast@vectors|s.c|t.csv@\
_Bool g(int a){return a<1;}int f(int a,int b){return g(a)&(_Bool)b;}@\
test,call,arguments,inputs,expect,output
t1,f,0 5,,,
t2,f,1 5,,,
@0@\
test t1 pass values 1 output
test t2 pass values 0 output
D1 T=T by t1
D1 F=F by t2
D2 TT=T by t1
D2 FT=F by t2
@~
a cast to another type@vectors|s.c|t.csv@\
int f(int a,int b){return (int)(a<1)&(b<1);}@\
test,call,arguments,inputs,expect,output
t1,f,0 1,,,
@0@\
test t1 pass values 0 output
D1 T=T by t1
D2 F=F by t1
@~
a constant condition@vectors|s.c|t.csv@\
int f(int a){return (1<2)&(a<1);}@\
test,call,arguments,inputs,expect,output
t1,f,0,,,
@0@\
test t1 pass values 1 output
D1 TT=T by t1
@~
constants alone@vectors|s.c|t.csv@\
int f(void){return (1<2)&(3<4);}@\
test,call,arguments,inputs,expect,output
t1,f,,,,
@0@\
test t1 pass values 1 output
@~
numbers@vectors|s.c|t.csv@\
int f(int a,int b){return a&b;}@\
test,call,arguments,inputs,expect,output
t1,f,6 3,,,
@0@\
test t1 pass values 2 output
@~
a comparison and a number@vectors|s.c|t.csv@\
int f(int a,int b){return (a<1)&b;}@\
test,call,arguments,inputs,expect,output
t1,f,0 3,,,
t2,f,1 3,,,
@0@\
test t1 pass values 1 output
test t2 pass values 0 output
D1 T=T by t1
D1 F=F by t2
@~
a number and a comparison@vectors|s.c|t.csv@\
int f(int a,int b){return a^b<1;}@\
test,call,arguments,inputs,expect,output
t1,f,6 0,,,
@0@\
test t1 pass values 7 output
D1 T=T by t1
@~
an assignment with an operator@vectors|s.c|t.csv@\
int f(int a,int b){_Bool y=a<1;y&=b<1;return y;}@\
test,call,arguments,inputs,expect,output
t1,f,0 0,,,
t2,f,0 1,,,
@0@\
test t1 pass values 1 output
test t2 pass values 0 output
D1 T=T by t1
D2 T=T by t1
D2 F=F by t2
@~
in a condition@vectors|s.c|t.csv@\
int f(int a,int b){return ((a<1)&(b<1))<1;}@\
test,call,arguments,inputs,expect,output
t1,f,0 0,,,
t2,f,1 0,,,
@0@\
test t1 pass values 0 output
test t2 pass values 1 output
D1 T=T by t2
D1 F=F by t1
D2 TT=T by t1
D2 FT=F by t2
@~
over a short conjunction@vectors|s.c|t.csv@\
int f(int a,int b,int c){if((a<1&&b<1)|(c<1))return 1;return 0;}@\
test,call,arguments,inputs,expect,output
t1,f,1 0 0,,,
t2,f,0 1 1,,,
t3,f,0 0 1,,,
@0@\
test t1 pass values 1 output
test t2 pass values 0 output
test t3 pass values 1 output
D1 TTF=T by t3
D1 TFF=F by t2
D1 F-T=T by t1
@~
under a short conjunction@vectors|s.c|t.csv@\
int f(int a,int b,int c){return a<1&&(b<1)|(c<1);}@\
test,call,arguments,inputs,expect,output
t1,f,1 0 0,,,
t2,f,0 1 0,,,
t3,f,0 1 1,,,
@0@\
test t1 pass values 0 output
test t2 pass values 1 output
test t3 pass values 0 output
D1 TFT=T by t2
D1 TFF=F by t3
D1 F--=F by t1
@~
in a loop@vectors|s.c|t.csv@\
int f(int n,int m){while((n>0)&(m>0)){n--;m--;}return n;}@\
test,call,arguments,inputs,expect,output
t1,f,2 1,,,
@0@\
test t1 pass values 1 output
D1 TT=T by t1
D1 TF=F by t1
@~
before a question mark@vectors|s.c|t.csv@\
int f(int a,int b){return (a<1)^(b<1)?7:8;}@\
test,call,arguments,inputs,expect,output
t1,f,0 1,,,
t2,f,0 0,,,
@0@\
test t1 pass values 7 output
test t2 pass values 8 output
D1 TT=F by t2
D1 TF=T by t1
@~
a trap in the right operand@vectors|s.c|t.csv@\
int f(int a,int b){return (a<1)&(1/b<1);}@\
test,call,arguments,inputs,expect,output
t1,f,0 0,,,
t2,f,1 0,,,
t3,f,0 2,,,
@1@\
test t1 trap-division values output
test t2 trap-division values output
test t3 pass values 1 output
D1 TT=T by t3
@~
a trap in it, and a decision before@vectors|s.c|t.csv@\
int g(int a){return a<1;}int f(int a,int b){return (g(a)>0)|(1/b<1);}@\
test,call,arguments,inputs,expect,output
t1,f,0 0,,,
@1@\
test t1 trap-division values output
D1 T=T by t1
@";

#[test]
fn evaluated_in_full(rt: HostRuntime) -> Result<(), Fail> {
    for row in ROWS.split('~') {
        assert!(rt; is_written(&rt, rt.alloc(), row)?, "{row}");
    }
    Ok(())
}
