//! Worked reports with justifications. Each text that is expected was written out by hand.

use crate::row::is_justified;
use tests_memory::Fail;

/// Rows `JUSTIFICATIONS@CASE@WORDS@SOURCE@TESTS@STATUS@OUT@DIAG`, with `~` between each two.
pub const ROWS: &str = "\
[{\"id\":\"D1C2\",\"quote\":\"b\",\"reason\":\"b is stuck\"}]@\
a justified condition@report|s.c|t.csv|--justify|j.json@\
int f(int a,int b){return a&&b;}@\
test,call,arguments,inputs,expect,output
t1,f,1 1,,,
t2,f,0 0,,,
@0@\
mcdc report unique
source sha256 8200d2384991a90c0fb5f6a208a7f0176cae5c6443e46177ef6bfd44c40d4caf
test t1 pass values 1 output
test t2 pass values 0 output
E1 1:5 met by t1
X1 1:20 met by t1
S1 1:20 met by t1
D1T 1:27 met by t1
D1F 1:27 met by t2
D1C1 1:27 met TT=T by t1 F-=F by t2
D1C2 1:30 justified \"b is stuck\"
entries met 1 justified 0 stale 0 missing 0 of 1
exits met 1 justified 0 stale 0 missing 0 of 1
statements met 1 justified 0 stale 0 missing 0 of 1
labels met 0 justified 0 stale 0 missing 0 of 0
outcomes met 2 justified 0 stale 0 missing 0 of 2
conditions met 1 justified 1 stale 0 missing 0 of 2
status 0
@~\
[{\"id\":\"S1\",\"quote\":\"return a&&b;\",\"reason\":\"x\"}]@\
a stale statement@report|s.c|t.csv|--justify|j.json@\
int f(int a,int b){return a&&b;}@\
test,call,arguments,inputs,expect,output
t1,f,1 1,,,
t2,f,1 0,,,
t3,f,0 1,,,
@1@\
mcdc report unique
source sha256 8200d2384991a90c0fb5f6a208a7f0176cae5c6443e46177ef6bfd44c40d4caf
test t1 pass values 1 output
test t2 pass values 0 output
test t3 pass values 0 output
E1 1:5 met by t1
X1 1:20 met by t1
S1 1:20 stale by t1 \"x\"
D1T 1:27 met by t1
D1F 1:27 met by t2
D1C1 1:27 met TT=T by t1 F-=F by t3
D1C2 1:30 met TT=T by t1 TF=F by t2
entries met 1 justified 0 stale 0 missing 0 of 1
exits met 1 justified 0 stale 0 missing 0 of 1
statements met 0 justified 0 stale 1 missing 0 of 1
labels met 0 justified 0 stale 0 missing 0 of 0
outcomes met 2 justified 0 stale 0 missing 0 of 2
conditions met 2 justified 0 stale 0 missing 0 of 2
status 1
@~\
[{\"reason\":\"\\\"a\\\"\\u0001 \\u00e9\\n\",\"quote\":\"a\",\"id\":\"D1C1\"}]@\
a stale condition with escapes@report|s.c|t.csv|--justify|j.json@\
int f(int a,int b){return a&&b;}@\
test,call,arguments,inputs,expect,output
t1,f,1 1,,,
t2,f,1 0,,,
t3,f,0 1,,,
@1@\
mcdc report unique
source sha256 8200d2384991a90c0fb5f6a208a7f0176cae5c6443e46177ef6bfd44c40d4caf
test t1 pass values 1 output
test t2 pass values 0 output
test t3 pass values 0 output
E1 1:5 met by t1
X1 1:20 met by t1
S1 1:20 met by t1
D1T 1:27 met by t1
D1F 1:27 met by t2
D1C1 1:27 stale TT=T by t1 F-=F by t3 \"\\\"a\\\"\\u0001 é\\n\"
D1C2 1:30 met TT=T by t1 TF=F by t2
entries met 1 justified 0 stale 0 missing 0 of 1
exits met 1 justified 0 stale 0 missing 0 of 1
statements met 1 justified 0 stale 0 missing 0 of 1
labels met 0 justified 0 stale 0 missing 0 of 0
outcomes met 2 justified 0 stale 0 missing 0 of 2
conditions met 1 justified 0 stale 1 missing 0 of 2
status 1
@~\
[{\"id\":\"S9\",\"quote\":\"return a&&b;\",\"reason\":\"x\"}]@\
an id of no obligation@report|s.c|t.csv|--justify|j.json@\
int f(int a,int b){return a&&b;}@\
test,call,arguments,inputs,expect,output
t1,f,1 1,,,
t2,f,1 0,,,
t3,f,0 1,,,
@5@@mcdc: justification entry 1: unknown
~\
[{\"id\":\"S1\",\"quote\":\"return a && b;\",\"reason\":\"x\"}]@\
another quote@report|s.c|t.csv|--justify|j.json@\
int f(int a,int b){return a&&b;}@\
test,call,arguments,inputs,expect,output
t1,f,1 1,,,
t2,f,1 0,,,
t3,f,0 1,,,
@5@@mcdc: justification entry 1: quote kept <<return a&&b;>> given <<return a && b;>>
~\
[{\"id\":\"L4\",\"quote\":\"default:\",\"reason\":\"three positions\"},\
{\"id\":\"X4\",\"quote\":\"return 0;\",\"reason\":\"three positions\"},\
{\"id\":\"S5\",\"quote\":\"return 0;\",\"reason\":\"three positions\"}]
@\
a flap controller@report|s.c|t.csv|--justify|j.json@\
# 1 \"flap.c\"
typedef enum { UP, TAKEOFF, LANDING } Lever;
typedef struct { int speed; _Bool ground; } Air;
extern int mcdc_in(void);
void mcdc_out(int angle);
static int angle;
static int target(Lever lever) {
  switch (lever) {
  case UP: return 0;
  case TAKEOFF: return 15;
  case LANDING: return 30;
  default: return 0;
  }
}
int cycle(int lever) {
  Air air;
  air.speed = mcdc_in();
  air.ground = mcdc_in();
  int want = target(lever);
  if (want > 15 && (air.speed > 160 || air.ground)) want = 15;
  if (angle < want) angle += 5;
  else if (angle > want) angle -= 5;
  mcdc_out(angle);
  return angle;
}
@\
test,call,arguments,inputs,expect,output
flight,cycle,2,100 0,5,5
flight,cycle,2,200 0,10,10
flight,cycle,2,100 1,15,15
flight,cycle,1,120 0,15,15
flight,cycle,0,150 0,10,10
flight,cycle,0,150 0,5,5
@0@\
mcdc report unique
source sha256 d2b3edeb098e2820a55417a08c8bc91b6f4226e1a7ad3805644ab12f15a404d2
test flight pass values 5 10 15 15 10 5 output 5 10 15 15 10 5
E1 7:12 met by flight
E2 15:5 met by flight
X1 9:12 met by flight
X2 10:17 met by flight
X3 11:17 met by flight
X4 12:12 justified \"three positions\"
X5 24:3 met by flight
S1 8:3 met by flight
S2 9:12 met by flight
S3 10:17 met by flight
S4 11:17 met by flight
S5 12:12 justified \"three positions\"
S6 17:3 met by flight
S7 18:3 met by flight
S8 19:3 met by flight
S9 20:3 met by flight
S10 20:53 met by flight
S11 21:3 met by flight
S12 21:21 met by flight
S13 22:8 met by flight
S14 22:26 met by flight
S15 23:3 met by flight
S16 24:3 met by flight
L1 9:3 met by flight
L2 10:3 met by flight
L3 11:3 met by flight
L4 12:3 justified \"three positions\"
D1T 20:7 met by flight
D1F 20:7 met by flight
D1C1 20:7 met TT-=T by flight F--=F by flight
D1C2 20:21 met TT-=T by flight TFF=F by flight
D1C3 20:40 met TFT=T by flight TFF=F by flight
D2T 21:7 met by flight
D2F 21:7 met by flight
D2C1 21:7 met T=T by flight F=F by flight
D3T 22:12 met by flight
D3F 22:12 met by flight
D3C1 22:12 met T=T by flight F=F by flight
entries met 2 justified 0 stale 0 missing 0 of 2
exits met 4 justified 1 stale 0 missing 0 of 5
statements met 15 justified 1 stale 0 missing 0 of 16
labels met 3 justified 1 stale 0 missing 0 of 4
outcomes met 6 justified 0 stale 0 missing 0 of 6
conditions met 5 justified 0 stale 0 missing 0 of 5
status 0
@~\
[{\"id\":\"L4\",\"quote\":\"default:\",\"reason\":\"three positions\"},\
{\"id\":\"X4\",\"quote\":\"return 0;\",\"reason\":\"three positions\"},\
{\"id\":\"S5\",\"quote\":\"return 0;\",\"reason\":\"three positions\"}]
@\
its masking report@report|s.c|t.csv|--justify|j.json|--mode|masking@\
# 1 \"flap.c\"
typedef enum { UP, TAKEOFF, LANDING } Lever;
typedef struct { int speed; _Bool ground; } Air;
extern int mcdc_in(void);
void mcdc_out(int angle);
static int angle;
static int target(Lever lever) {
  switch (lever) {
  case UP: return 0;
  case TAKEOFF: return 15;
  case LANDING: return 30;
  default: return 0;
  }
}
int cycle(int lever) {
  Air air;
  air.speed = mcdc_in();
  air.ground = mcdc_in();
  int want = target(lever);
  if (want > 15 && (air.speed > 160 || air.ground)) want = 15;
  if (angle < want) angle += 5;
  else if (angle > want) angle -= 5;
  mcdc_out(angle);
  return angle;
}
@\
test,call,arguments,inputs,expect,output
flight,cycle,2,100 0,5,5
flight,cycle,2,200 0,10,10
flight,cycle,2,100 1,15,15
flight,cycle,1,120 0,15,15
flight,cycle,0,150 0,10,10
flight,cycle,0,150 0,5,5
@0@\
mcdc report masking
source sha256 d2b3edeb098e2820a55417a08c8bc91b6f4226e1a7ad3805644ab12f15a404d2
test flight pass values 5 10 15 15 10 5 output 5 10 15 15 10 5
E1 7:12 met by flight
E2 15:5 met by flight
X1 9:12 met by flight
X2 10:17 met by flight
X3 11:17 met by flight
X4 12:12 justified \"three positions\"
X5 24:3 met by flight
S1 8:3 met by flight
S2 9:12 met by flight
S3 10:17 met by flight
S4 11:17 met by flight
S5 12:12 justified \"three positions\"
S6 17:3 met by flight
S7 18:3 met by flight
S8 19:3 met by flight
S9 20:3 met by flight
S10 20:53 met by flight
S11 21:3 met by flight
S12 21:21 met by flight
S13 22:8 met by flight
S14 22:26 met by flight
S15 23:3 met by flight
S16 24:3 met by flight
L1 9:3 met by flight
L2 10:3 met by flight
L3 11:3 met by flight
L4 12:3 justified \"three positions\"
D1T 20:7 met by flight
D1F 20:7 met by flight
D1C1 20:7 met TT-=T by flight F--=F by flight
D1C2 20:21 met TT-=T by flight TFF=F by flight
D1C3 20:40 met TFT=T by flight TFF=F by flight
D2T 21:7 met by flight
D2F 21:7 met by flight
D2C1 21:7 met T=T by flight F=F by flight
D3T 22:12 met by flight
D3F 22:12 met by flight
D3C1 22:12 met T=T by flight F=F by flight
entries met 2 justified 0 stale 0 missing 0 of 2
exits met 4 justified 1 stale 0 missing 0 of 5
statements met 15 justified 1 stale 0 missing 0 of 16
labels met 3 justified 1 stale 0 missing 0 of 4
outcomes met 6 justified 0 stale 0 missing 0 of 6
conditions met 5 justified 0 stale 0 missing 0 of 5
status 0
@~\
[@\
a file that is not asked for@report|s.c|t.csv@\
int f(int a,int b){return a&&b;}@\
test,call,arguments,inputs,expect,output
t1,f,1 1,,,
t2,f,1 0,,,
t3,f,0 1,,,
@0@\
mcdc report unique
source sha256 8200d2384991a90c0fb5f6a208a7f0176cae5c6443e46177ef6bfd44c40d4caf
test t1 pass values 1 output
test t2 pass values 0 output
test t3 pass values 0 output
E1 1:5 met by t1
X1 1:20 met by t1
S1 1:20 met by t1
D1T 1:27 met by t1
D1F 1:27 met by t2
D1C1 1:27 met TT=T by t1 F-=F by t3
D1C2 1:30 met TT=T by t1 TF=F by t2
entries met 1 justified 0 stale 0 missing 0 of 1
exits met 1 justified 0 stale 0 missing 0 of 1
statements met 1 justified 0 stale 0 missing 0 of 1
labels met 0 justified 0 stale 0 missing 0 of 0
outcomes met 2 justified 0 stale 0 missing 0 of 2
conditions met 2 justified 0 stale 0 missing 0 of 2
status 0
@";

#[test]
fn justified(rt: HostRuntime) -> Result<(), Fail> {
    for row in ROWS.split('~') {
        assert!(rt; is_justified(&rt, rt.alloc(), row)?, "{row}");
    }
    Ok(())
}
