//! Worked programs: what `report` and `vectors` write of them, and the lines on sources and tests
//! files that are refused. Each text that is expected was written out by hand.

use crate::row::is_written;
use tests_memory::Fail;

/// Rows `CASE@WORDS@SOURCE@TESTS@STATUS@OUT@DIAG`, with `~` between each two. First vectors and
/// pairs, then decisions wherever they stand, fuel and no test at all, then many conditions, a
/// program of several functions, and tests files that are refused.
pub const ROWS: &str = "\
a header alone@vectors|s.c|t.csv@\
int f(int a,int b){return a&&b;}@\
test,call,arguments,inputs,expect,output
@0@@~
a comparison in a decision@vectors|s.c|t.csv@\
int f(int a,int b){return a<b||a==3;}@\
test,call,arguments,inputs,expect,output
t1,f,1 2,,,
t2,f,3 1,,,
@0@\
test t1 pass values 1 output
test t2 pass values 1 output
D1 T-=T by t1
D1 FT=T by t2
@~
a conjunction@report|s.c|t.csv@\
int f(int a,int b){return a&&b;}@\
test,call,arguments,inputs,expect,output
t1,f,1 1,,,
t2,f,1 0,,,
t3,f,0 1,,,
@0@\
mcdc report unique
source sha256 8200d2384991a90c0fb5f6a208a7f0176cae5c6443e46177ef6bfd44c40d4caf
test t1 pass values 1 output
test t2 pass values 0 output
test t3 pass values 0 output
E1 1:5 met by t1
X1 1:20 met by t1
S1 1:20 met by t1
D1T 1:27 met by t1
D1F 1:27 met by t2
D1C1 1:27 met TT=T by t1 F-=F by t3
D1C2 1:30 met TT=T by t1 TF=F by t2
entries met 1 justified 0 stale 0 missing 0 of 1
exits met 1 justified 0 stale 0 missing 0 of 1
statements met 1 justified 0 stale 0 missing 0 of 1
labels met 0 justified 0 stale 0 missing 0 of 0
outcomes met 2 justified 0 stale 0 missing 0 of 2
conditions met 2 justified 0 stale 0 missing 0 of 2
status 0
@~
its masking report@report|s.c|t.csv|--mode|masking@\
int f(int a,int b){return a&&b;}@\
test,call,arguments,inputs,expect,output
t1,f,1 1,,,
t2,f,1 0,,,
t3,f,0 1,,,
@0@\
mcdc report masking
source sha256 8200d2384991a90c0fb5f6a208a7f0176cae5c6443e46177ef6bfd44c40d4caf
test t1 pass values 1 output
test t2 pass values 0 output
test t3 pass values 0 output
E1 1:5 met by t1
X1 1:20 met by t1
S1 1:20 met by t1
D1T 1:27 met by t1
D1F 1:27 met by t2
D1C1 1:27 met TT=T by t1 F-=F by t3
D1C2 1:30 met TT=T by t1 TF=F by t2
entries met 1 justified 0 stale 0 missing 0 of 1
exits met 1 justified 0 stale 0 missing 0 of 1
statements met 1 justified 0 stale 0 missing 0 of 1
labels met 0 justified 0 stale 0 missing 0 of 0
outcomes met 2 justified 0 stale 0 missing 0 of 2
conditions met 2 justified 0 stale 0 missing 0 of 2
status 0
@~
its vectors@vectors|s.c|t.csv@\
int f(int a,int b){return a&&b;}@\
test,call,arguments,inputs,expect,output
t1,f,1 1,,,
t2,f,1 0,,,
t3,f,0 1,,,
@0@\
test t1 pass values 1 output
test t2 pass values 0 output
test t3 pass values 0 output
D1 TT=T by t1
D1 TF=F by t2
D1 F-=F by t3
@~
the vectors of two decisions@vectors|s.c|t.csv@\
int f(int a,int b){return (a&&b)+(a||b);}@\
test,call,arguments,inputs,expect,output
t1,f,0 1,,,
t2,f,1 1,,,
t3,f,1 0,,,
t4,f,0 1,,,
@0@\
test t1 pass values 1 output
test t2 pass values 2 output
test t3 pass values 1 output
test t4 pass values 1 output
D1 TT=T by t2
D1 TF=F by t3
D1 F-=F by t1
D2 T-=T by t2
D2 FT=T by t1
@~
a condition without a pair@report|s.c|t.csv@\
int f(int a,int b){return a&&b;}@\
test,call,arguments,inputs,expect,output
t1,f,1 1,,,
t2,f,0 0,,,
@1@\
mcdc report unique
source sha256 8200d2384991a90c0fb5f6a208a7f0176cae5c6443e46177ef6bfd44c40d4caf
test t1 pass values 1 output
test t2 pass values 0 output
E1 1:5 met by t1
X1 1:20 met by t1
S1 1:20 met by t1
D1T 1:27 met by t1
D1F 1:27 met by t2
D1C1 1:27 met TT=T by t1 F-=F by t2
D1C2 1:30 missing
entries met 1 justified 0 stale 0 missing 0 of 1
exits met 1 justified 0 stale 0 missing 0 of 1
statements met 1 justified 0 stale 0 missing 0 of 1
labels met 0 justified 0 stale 0 missing 0 of 0
outcomes met 2 justified 0 stale 0 missing 0 of 2
conditions met 1 justified 0 stale 0 missing 1 of 2
status 1
@~
a negated conjunction@report|s.c|t.csv@\
int f(int a,int b,int c){return !(a&&b)||c;}@\
test,call,arguments,inputs,expect,output
t1,f,1 1 1,,,
t2,f,1 1 0,,,
t3,f,1 0 0,,,
t4,f,0 0 0,,,
@0@\
mcdc report unique
source sha256 e2538f588dd2cba303acd676e8ba8f44b1055cfd02c88c6f8567171d8d4bcf02
test t1 pass values 1 output
test t2 pass values 0 output
test t3 pass values 1 output
test t4 pass values 1 output
E1 1:5 met by t1
X1 1:26 met by t1
S1 1:26 met by t1
D1T 1:33 met by t1
D1F 1:33 met by t2
D1C1 1:35 met TTF=F by t2 F--=T by t4
D1C2 1:38 met TTF=F by t2 TF-=T by t3
D1C3 1:42 met TTT=T by t1 TTF=F by t2
entries met 1 justified 0 stale 0 missing 0 of 1
exits met 1 justified 0 stale 0 missing 0 of 1
statements met 1 justified 0 stale 0 missing 0 of 1
labels met 0 justified 0 stale 0 missing 0 of 0
outcomes met 2 justified 0 stale 0 missing 0 of 2
conditions met 3 justified 0 stale 0 missing 0 of 3
status 0
@~
its vectors@vectors|s.c|t.csv@\
int f(int a,int b,int c){return !(a&&b)||c;}@\
test,call,arguments,inputs,expect,output
t1,f,1 1 1,,,
t2,f,1 1 0,,,
t3,f,1 0 0,,,
t4,f,0 0 0,,,
@0@\
test t1 pass values 1 output
test t2 pass values 0 output
test t3 pass values 1 output
test t4 pass values 1 output
D1 TTT=T by t1
D1 TTF=F by t2
D1 TF-=T by t3
D1 F--=T by t4
@~
a condition twice@report|s.c|t.csv@\
int f(int a,int b,int c){return (a&&b)||(a&&c);}@\
test,call,arguments,inputs,expect,output
t1,f,0 0 0,,,
t2,f,0 0 1,,,
t3,f,0 1 0,,,
t4,f,0 1 1,,,
t5,f,1 0 0,,,
t6,f,1 0 1,,,
t7,f,1 1 0,,,
t8,f,1 1 1,,,
@1@\
mcdc report unique
source sha256 d69398a353159496f86433f8a497c7e29ad22b2627115549a9beaa30eb2afd3f
test t1 pass values 0 output
test t2 pass values 0 output
test t3 pass values 0 output
test t4 pass values 0 output
test t5 pass values 0 output
test t6 pass values 1 output
test t7 pass values 1 output
test t8 pass values 1 output
E1 1:5 met by t1
X1 1:26 met by t1
S1 1:26 met by t1
D1T 1:33 met by t6
D1F 1:33 met by t1
D1C1 1:34 met TT--=T by t7 F-F-=F by t1
D1C2 1:37 met TT--=T by t7 TFTF=F by t5
D1C3 1:42 missing
D1C4 1:45 met TFTT=T by t6 TFTF=F by t5
entries met 1 justified 0 stale 0 missing 0 of 1
exits met 1 justified 0 stale 0 missing 0 of 1
statements met 1 justified 0 stale 0 missing 0 of 1
labels met 0 justified 0 stale 0 missing 0 of 0
outcomes met 2 justified 0 stale 0 missing 0 of 2
conditions met 3 justified 0 stale 0 missing 1 of 4
status 1
@~
its masking report@report|s.c|t.csv|--mode|masking@\
int f(int a,int b,int c){return (a&&b)||(a&&c);}@\
test,call,arguments,inputs,expect,output
t1,f,0 0 0,,,
t2,f,0 0 1,,,
t3,f,0 1 0,,,
t4,f,0 1 1,,,
t5,f,1 0 0,,,
t6,f,1 0 1,,,
t7,f,1 1 0,,,
t8,f,1 1 1,,,
@0@\
mcdc report masking
source sha256 d69398a353159496f86433f8a497c7e29ad22b2627115549a9beaa30eb2afd3f
test t1 pass values 0 output
test t2 pass values 0 output
test t3 pass values 0 output
test t4 pass values 0 output
test t5 pass values 0 output
test t6 pass values 1 output
test t7 pass values 1 output
test t8 pass values 1 output
E1 1:5 met by t1
X1 1:26 met by t1
S1 1:26 met by t1
D1T 1:33 met by t6
D1F 1:33 met by t1
D1C1 1:34 met TT--=T by t7 F-F-=F by t1
D1C2 1:37 met TT--=T by t7 TFTF=F by t5
D1C3 1:42 met TFTT=T by t6 F-F-=F by t1
D1C4 1:45 met TFTT=T by t6 TFTF=F by t5
entries met 1 justified 0 stale 0 missing 0 of 1
exits met 1 justified 0 stale 0 missing 0 of 1
statements met 1 justified 0 stale 0 missing 0 of 1
labels met 0 justified 0 stale 0 missing 0 of 0
outcomes met 2 justified 0 stale 0 missing 0 of 2
conditions met 4 justified 0 stale 0 missing 0 of 4
status 0
@~
its vectors@vectors|s.c|t.csv@\
int f(int a,int b,int c){return (a&&b)||(a&&c);}@\
test,call,arguments,inputs,expect,output
t1,f,0 0 0,,,
t2,f,0 0 1,,,
t3,f,0 1 0,,,
t4,f,0 1 1,,,
t5,f,1 0 0,,,
t6,f,1 0 1,,,
t7,f,1 1 0,,,
t8,f,1 1 1,,,
@0@\
test t1 pass values 0 output
test t2 pass values 0 output
test t3 pass values 0 output
test t4 pass values 0 output
test t5 pass values 0 output
test t6 pass values 1 output
test t7 pass values 1 output
test t8 pass values 1 output
D1 TT--=T by t7
D1 TFTT=T by t6
D1 TFTF=F by t5
D1 F-F-=F by t1
@~
alternatives in both operands@report|s.c|t.csv@\
int f(int a,int b,int c,int d){return (a||b)&&(c||d);}@\
test,call,arguments,inputs,expect,output
t1,f,1 0 1 0,,,
t2,f,0 1 0 0,,,
@1@\
mcdc report unique
source sha256 e0dcd9139784bea084c3c891f0be48357b88a39d3496605453dba1ae20281e07
test t1 pass values 1 output
test t2 pass values 0 output
E1 1:5 met by t1
X1 1:32 met by t1
S1 1:32 met by t1
D1T 1:39 met by t1
D1F 1:39 met by t2
D1C1 1:40 missing
D1C2 1:43 missing
D1C3 1:48 missing
D1C4 1:51 missing
entries met 1 justified 0 stale 0 missing 0 of 1
exits met 1 justified 0 stale 0 missing 0 of 1
statements met 1 justified 0 stale 0 missing 0 of 1
labels met 0 justified 0 stale 0 missing 0 of 0
outcomes met 2 justified 0 stale 0 missing 0 of 2
conditions met 0 justified 0 stale 0 missing 4 of 4
status 1
@~
their masking report@report|s.c|t.csv|--mode|masking@\
int f(int a,int b,int c,int d){return (a||b)&&(c||d);}@\
test,call,arguments,inputs,expect,output
t1,f,1 0 1 0,,,
t2,f,0 1 0 0,,,
@1@\
mcdc report masking
source sha256 e0dcd9139784bea084c3c891f0be48357b88a39d3496605453dba1ae20281e07
test t1 pass values 1 output
test t2 pass values 0 output
E1 1:5 met by t1
X1 1:32 met by t1
S1 1:32 met by t1
D1T 1:39 met by t1
D1F 1:39 met by t2
D1C1 1:40 missing
D1C2 1:43 missing
D1C3 1:48 met T-T-=T by t1 FTFF=F by t2
D1C4 1:51 missing
entries met 1 justified 0 stale 0 missing 0 of 1
exits met 1 justified 0 stale 0 missing 0 of 1
statements met 1 justified 0 stale 0 missing 0 of 1
labels met 0 justified 0 stale 0 missing 0 of 0
outcomes met 2 justified 0 stale 0 missing 0 of 2
conditions met 1 justified 0 stale 0 missing 3 of 4
status 1
@~
their vectors@vectors|s.c|t.csv@\
int f(int a,int b,int c,int d){return (a||b)&&(c||d);}@\
test,call,arguments,inputs,expect,output
t1,f,1 0 1 0,,,
t2,f,0 1 0 0,,,
@0@\
test t1 pass values 1 output
test t2 pass values 0 output
D1 T-T-=T by t1
D1 FTFF=F by t2
@~
a decision as an argument@vectors|s.c|t.csv@\
int g(int v,int w){return v+w;}int f(int x,int p,int q){int y;y = x < 3;g(p && q, x);return y;}@\
test,call,arguments,inputs,expect,output
t1,f,2 1 1,,,
@0@\
test t1 pass values 1 output
D1 T=T by t1
D2 TT=T by t1
@~
decisions in a decision@vectors|s.c|t.csv@\
int f(int p,int q,int r,int s){return (p<q) == (r<s);}@\
test,call,arguments,inputs,expect,output
t1,f,1 2 1 2,,,
@0@\
test t1 pass values 1 output
D1 T=T by t1
D2 T=T by t1
D3 T=T by t1
@~
a decision that calls its function@vectors|s.c|t.csv@\
int f(int n){return n>0 && f(n-1);}@\
test,call,arguments,inputs,expect,output
t1,f,3,,,
@0@\
test t1 pass values 0 output
D1 TF=F by t1
D1 F-=F by t1
@~
a long condition@vectors|s.c|t.csv@\
int f(void){long x=4294967296;if(x)return 1;return 0;}@\
test,call,arguments,inputs,expect,output
t1,f,,,1,
@0@\
test t1 pass values 1 output
D1 T=T by t1
@~
a trap in a decision@vectors|s.c|t.csv@\
int f(int a,int b){int y=a<5;return y && a != 0 && 10 / b > 1;}@\
test,call,arguments,inputs,expect,output
t1,f,3 0,,,
@1@\
test t1 trap-division values output
D1 T=T by t1
@~
comparisons that are no decisions@vectors|s.c|t.csv@\
int f(void){return -1<1u;}int g(void){return -2147483648<0;}@\
test,call,arguments,inputs,expect,output
t1,f,,,0,
t2,g,,,1,
@0@\
test t1 pass values 0 output
test t2 pass values 1 output
@~
fuel that suffices@vectors|s.c|t.csv|--fuel|8@\
int f(int n){while(n>0)n--;return n;}@\
test,call,arguments,inputs,expect,output
t1,f,2,,,
@0@\
test t1 pass values 0 output
D1 T=T by t1
D1 F=F by t1
@~
one unit less@vectors|s.c|t.csv|--fuel|7@\
int f(int n){while(n>0)n--;return n;}@\
test,call,arguments,inputs,expect,output
t1,f,2,,,
@1@\
test t1 fuel values output
D1 T=T by t1
D1 F=F by t1
@~
a loop without an end@vectors|s.c|t.csv|--fuel|5@\
void f(void){while(1){}}@\
test,call,arguments,inputs,expect,output
t1,f,,,,
@1@\
test t1 fuel values output
@~
no test@report|s.c|t.csv@\
int f(int a,int b){return a&&b;}@\
test,call,arguments,inputs,expect,output
@1@\
mcdc report unique
source sha256 8200d2384991a90c0fb5f6a208a7f0176cae5c6443e46177ef6bfd44c40d4caf
E1 1:5 missing
X1 1:20 missing
S1 1:20 missing
D1T 1:27 missing
D1F 1:27 missing
D1C1 1:27 missing
D1C2 1:30 missing
entries met 0 justified 0 stale 0 missing 1 of 1
exits met 0 justified 0 stale 0 missing 1 of 1
statements met 0 justified 0 stale 0 missing 1 of 1
labels met 0 justified 0 stale 0 missing 0 of 0
outcomes met 0 justified 0 stale 0 missing 2 of 2
conditions met 0 justified 0 stale 0 missing 2 of 2
status 1
@~
many conditions@report|s.c|t.csv@\
int f(int a,int b){return (a||b)&&(a||b)&&(a||b)&&(a||b)&&(a||b)&&(a||b)&&(a||b)&&(a||b)\
&&(a||b)&&(a||b)&&(a||b);}@\
test,call,arguments,inputs,expect,output
t1,f,0 0,,,
t2,f,1 0,,,
t3,f,0 1,,,
t4,f,1 1,,,
@1@\
mcdc report unique
source sha256 e4692a6bb6f23f88096c25b82541e51fdd9e09cb6f840c92d4fa21bf28c83514
test t1 pass values 0 output
test t2 pass values 1 output
test t3 pass values 1 output
test t4 pass values 1 output
E1 1:5 met by t1
X1 1:20 met by t1
S1 1:20 met by t1
D1T 1:27 met by t2
D1F 1:27 met by t1
D1C1 1:28 met T-T-T-T-T-T-T-T-T-T-T-=T by t2 FF--------------------=F by t1
D1C2 1:31 met FTFTFTFTFTFTFTFTFTFTFT=T by t3 FF--------------------=F by t1
D1C3 1:36 missing
D1C4 1:39 missing
D1C5 1:44 missing
D1C6 1:47 missing
D1C7 1:52 missing
D1C8 1:55 missing
D1C9 1:60 missing
D1C10 1:63 missing
D1C11 1:68 missing
D1C12 1:71 missing
D1C13 1:76 missing
D1C14 1:79 missing
D1C15 1:84 missing
D1C16 1:87 missing
D1C17 1:92 missing
D1C18 1:95 missing
D1C19 1:100 missing
D1C20 1:103 missing
D1C21 1:108 missing
D1C22 1:111 missing
entries met 1 justified 0 stale 0 missing 0 of 1
exits met 1 justified 0 stale 0 missing 0 of 1
statements met 1 justified 0 stale 0 missing 0 of 1
labels met 0 justified 0 stale 0 missing 0 of 0
outcomes met 2 justified 0 stale 0 missing 0 of 2
conditions met 2 justified 0 stale 0 missing 20 of 22
status 1
@~
their masking report@report|s.c|t.csv|--mode|masking@\
int f(int a,int b){return (a||b)&&(a||b)&&(a||b)&&(a||b)&&(a||b)&&(a||b)&&(a||b)&&(a||b)\
&&(a||b)&&(a||b)&&(a||b);}@\
test,call,arguments,inputs,expect,output
t1,f,0 0,,,
t2,f,1 0,,,
t3,f,0 1,,,
t4,f,1 1,,,
@1@\
mcdc report masking
source sha256 e4692a6bb6f23f88096c25b82541e51fdd9e09cb6f840c92d4fa21bf28c83514
test t1 pass values 0 output
test t2 pass values 1 output
test t3 pass values 1 output
test t4 pass values 1 output
E1 1:5 met by t1
X1 1:20 met by t1
S1 1:20 met by t1
D1T 1:27 met by t2
D1F 1:27 met by t1
D1C1 1:28 met T-T-T-T-T-T-T-T-T-T-T-=T by t2 FF--------------------=F by t1
D1C2 1:31 met FTFTFTFTFTFTFTFTFTFTFT=T by t3 FF--------------------=F by t1
D1C3 1:36 missing
D1C4 1:39 missing
D1C5 1:44 missing
D1C6 1:47 missing
D1C7 1:52 missing
D1C8 1:55 missing
D1C9 1:60 missing
D1C10 1:63 missing
D1C11 1:68 missing
D1C12 1:71 missing
D1C13 1:76 missing
D1C14 1:79 missing
D1C15 1:84 missing
D1C16 1:87 missing
D1C17 1:92 missing
D1C18 1:95 missing
D1C19 1:100 missing
D1C20 1:103 missing
D1C21 1:108 missing
D1C22 1:111 missing
entries met 1 justified 0 stale 0 missing 0 of 1
exits met 1 justified 0 stale 0 missing 0 of 1
statements met 1 justified 0 stale 0 missing 0 of 1
labels met 0 justified 0 stale 0 missing 0 of 0
outcomes met 2 justified 0 stale 0 missing 0 of 2
conditions met 2 justified 0 stale 0 missing 20 of 22
status 1
@~
their vectors@vectors|s.c|t.csv@\
int f(int a,int b){return (a||b)&&(a||b)&&(a||b)&&(a||b)&&(a||b)&&(a||b)&&(a||b)&&(a||b)\
&&(a||b)&&(a||b)&&(a||b);}@\
test,call,arguments,inputs,expect,output
t1,f,0 0,,,
t2,f,1 0,,,
t3,f,0 1,,,
t4,f,1 1,,,
@0@\
test t1 pass values 0 output
test t2 pass values 1 output
test t3 pass values 1 output
test t4 pass values 1 output
D1 T-T-T-T-T-T-T-T-T-T-T-=T by t2
D1 FTFTFTFTFTFTFTFTFTFTFT=T by t3
D1 FF--------------------=F by t1
@~
8,191 paths@vectors|s.c|t.csv@\
int f(int a,int b){return (a||b)&&(a||b)&&(a||b)&&(a||b)&&(a||b)&&(a||b)&&(a||b)&&(a||b)\
&&(a||b)&&(a||b)&&(a||b)&&(a||b);}@\
test,call,arguments,inputs,expect,output
@3@@mcdc: source 1:27: too many paths 8191
~
a flap controller@report|s.c|t.csv@\
# 1 \"flap.c\"
typedef enum { UP, TAKEOFF, LANDING } Lever;
typedef struct { int speed; _Bool ground; } Air;
extern int mcdc_in(void);
void mcdc_out(int angle);
static int angle;
static int target(Lever lever) {
  switch (lever) {
  case UP: return 0;
  case TAKEOFF: return 15;
  case LANDING: return 30;
  default: return 0;
  }
}
int cycle(int lever) {
  Air air;
  air.speed = mcdc_in();
  air.ground = mcdc_in();
  int want = target(lever);
  if (want > 15 && (air.speed > 160 || air.ground)) want = 15;
  if (angle < want) angle += 5;
  else if (angle > want) angle -= 5;
  mcdc_out(angle);
  return angle;
}
@\
test,call,arguments,inputs,expect,output
flight,cycle,2,100 0,5,5
flight,cycle,2,200 0,10,10
flight,cycle,2,100 1,15,15
flight,cycle,1,120 0,15,15
flight,cycle,0,150 0,10,10
flight,cycle,0,150 0,5,5
@1@\
mcdc report unique
source sha256 d2b3edeb098e2820a55417a08c8bc91b6f4226e1a7ad3805644ab12f15a404d2
test flight pass values 5 10 15 15 10 5 output 5 10 15 15 10 5
E1 7:12 met by flight
E2 15:5 met by flight
X1 9:12 met by flight
X2 10:17 met by flight
X3 11:17 met by flight
X4 12:12 missing
X5 24:3 met by flight
S1 8:3 met by flight
S2 9:12 met by flight
S3 10:17 met by flight
S4 11:17 met by flight
S5 12:12 missing
S6 17:3 met by flight
S7 18:3 met by flight
S8 19:3 met by flight
S9 20:3 met by flight
S10 20:53 met by flight
S11 21:3 met by flight
S12 21:21 met by flight
S13 22:8 met by flight
S14 22:26 met by flight
S15 23:3 met by flight
S16 24:3 met by flight
L1 9:3 met by flight
L2 10:3 met by flight
L3 11:3 met by flight
L4 12:3 missing
D1T 20:7 met by flight
D1F 20:7 met by flight
D1C1 20:7 met TT-=T by flight F--=F by flight
D1C2 20:21 met TT-=T by flight TFF=F by flight
D1C3 20:40 met TFT=T by flight TFF=F by flight
D2T 21:7 met by flight
D2F 21:7 met by flight
D2C1 21:7 met T=T by flight F=F by flight
D3T 22:12 met by flight
D3F 22:12 met by flight
D3C1 22:12 met T=T by flight F=F by flight
entries met 2 justified 0 stale 0 missing 0 of 2
exits met 4 justified 0 stale 0 missing 1 of 5
statements met 15 justified 0 stale 0 missing 1 of 16
labels met 3 justified 0 stale 0 missing 1 of 4
outcomes met 6 justified 0 stale 0 missing 0 of 6
conditions met 5 justified 0 stale 0 missing 0 of 5
status 1
@~
its vectors@vectors|s.c|t.csv@\
# 1 \"flap.c\"
typedef enum { UP, TAKEOFF, LANDING } Lever;
typedef struct { int speed; _Bool ground; } Air;
extern int mcdc_in(void);
void mcdc_out(int angle);
static int angle;
static int target(Lever lever) {
  switch (lever) {
  case UP: return 0;
  case TAKEOFF: return 15;
  case LANDING: return 30;
  default: return 0;
  }
}
int cycle(int lever) {
  Air air;
  air.speed = mcdc_in();
  air.ground = mcdc_in();
  int want = target(lever);
  if (want > 15 && (air.speed > 160 || air.ground)) want = 15;
  if (angle < want) angle += 5;
  else if (angle > want) angle -= 5;
  mcdc_out(angle);
  return angle;
}
@\
test,call,arguments,inputs,expect,output
flight,cycle,2,100 0,5,5
flight,cycle,2,200 0,10,10
flight,cycle,2,100 1,15,15
flight,cycle,1,120 0,15,15
flight,cycle,0,150 0,10,10
flight,cycle,0,150 0,5,5
@0@\
test flight pass values 5 10 15 15 10 5 output 5 10 15 15 10 5
D1 TT-=T by flight
D1 TFT=T by flight
D1 TFF=F by flight
D1 F--=F by flight
D2 T=T by flight
D2 F=F by flight
D3 T=T by flight
D3 F=F by flight
@~
a record without its number@vectors|s.c|t.csv@\
int f(int a,int b){return a&&b;}@\
test,call,arguments,inputs,expect,output
t1,f,1 x,,,
@4@@mcdc: tests record 2: number
~
a record without its function@vectors|s.c|t.csv@\
int f(int a,int b){return a&&b;}@\
test,call,arguments,inputs,expect,output
t1,g,,,,
@4@@mcdc: tests record 2: function
~
a record without its arguments@vectors|s.c|t.csv@\
int f(int a,int b){return a&&b;}@\
test,call,arguments,inputs,expect,output
t1,f,1,,,
@4@@mcdc: tests record 2: arguments
~
a record without its width@vectors|s.c|t.csv@\
int f(int a,int b){return a&&b;}@\
test,call,arguments,inputs,expect,output
t1,f,1 1
@4@@mcdc: tests record 2: width
~
an empty tests file@vectors|s.c|t.csv@\
int f(int a,int b){return a&&b;}@\
@4@@mcdc: tests record 1: header
~
another value@vectors|s.c|t.csv@\
int f(int a,int b){return a&&b;}@\
test,call,arguments,inputs,expect,output
t1,f,1 1,,0,
@1@\
test t1 fail values 1 output
D1 TT=T by t1
@";

#[test]
fn worked(rt: HostRuntime) -> Result<(), Fail> {
    for row in ROWS.split('~') {
        assert!(rt; is_written(&rt, rt.alloc(), row)?, "{row}");
    }
    Ok(())
}
