//! What is told of the tests of small sources.
use crate::fail::Fail;
use crate::reading::{Runs, tell_tests};
use std::alloc::Global;
use std::thread::Threads;

/// A row is the fuel, `@`, the records of the tests, each after `$`, `@`, the source, in which `~`
/// stands for LF, `@`, and the lines, each before `$`, worked out by hand from C17; `^` stands for
/// as many ones as a run can put out. A line with `#` tells what follows.
static ROWS: &str = "\
# what is expected and what came\n\
100@$two,scale,15774 -1,,15774,\
@int scale(int a,int b){return a+28;}\
@test two fail values 15802 output$  \
call 1 scale 15774 -1 returned 15802 expected 15774$\
tests 1 passed 0$\n\
100@$echo,relay,,3 4 5,,3 4\
@int mcdc_in(void);void mcdc_out(int v);void relay(void){mcdc_out(mcdc_in());mcdc_out(mcdc_in());\
mcdc_out(mcdc_in());}\
@test echo fail values void output 3 4 5$  \
call 1 relay returned void output 3 4 5 expected 3 4$\
tests 1 passed 0$\n\
100@$t,f,1,,2,\
@int f(int a){return a+1;}\
@test t pass values 2 output$  \
call 1 f 1 returned 2$\
tests 1 passed 1$\n\
100@$t,f,1,,3,\
@int f(int a){return a+1;}\
@test t fail values 2 output$  \
call 1 f 1 returned 2 expected 3$\
tests 1 passed 0$\n\
100@$t,f,3,,,3 4\
@void mcdc_out(int v);void f(int n){mcdc_out(n);}\
@test t fail values void output 3$  \
call 1 f 3 returned void output 3 expected 3 4$\
tests 1 passed 0$\n\
100@$t,f,3,,,none\
@void mcdc_out(int v);void f(int n){mcdc_out(n);}\
@test t fail values void output 3$  \
call 1 f 3 returned void output 3 expected none$\
tests 1 passed 0$\n\
100@$t,f,3 -4,,1,5\
@int f(int a,int b){return a+b;}\
@test t fail values -1 output$  \
call 1 f 3 -4 returned -1 expected 1 output none expected 5$\
tests 1 passed 0$\n\
100@$t,f,3,,,3$t,f,5,,,$t,f,7,,,8\
@void mcdc_out(int v);void f(int n){mcdc_out(n);}\
@test t fail values void void void output 3 5 7$  \
call 1 f 3 returned void output 3$  \
call 2 f 5 returned void output 5$  \
call 3 f 7 returned void output 7 expected 8$\
tests 1 passed 0$\n\
# two tests\n\
100@$t,f,1,,2,$u,f,2147483647,,,\
@int f(int a){return a+1;}\
@test t pass values 2 output$  \
call 1 f 1 returned 2$\
test u trap-overflow values output$  \
call 1 f 2147483647 trap-overflow after S1 1:14 began$    \
return a+1;$\
tests 2 passed 1$\n\
# the second of three calls traps, and the third is not made\n\
100@$t,f,1,,2,$t,f,2147483647,,,$t,f,3,,4,\
@int f(int a){return a+1;}\
@test t trap-overflow values 2 output$  \
call 1 f 1 returned 2$  \
call 2 f 2147483647 trap-overflow after S1 1:14 began$    \
return a+1;$\
tests 1 passed 0$\n\
# what the call put out before it trapped\n\
100@$t,f,1,,,$t,f,0,,,\
@void mcdc_out(int v);void f(int n){mcdc_out(n);n=1/n;}\
@test t trap-division values void output 1 0$  \
call 1 f 1 returned void output 1$  \
call 2 f 0 trap-division output 0 after S2 1:48 began$    \
n=1/n;$\
tests 1 passed 0$\n\
# recursion: in the inner activation, and in the outer one after the inner one is closed\n\
100@$t,f,2,,,\
@int f(int n){if(n)return f(n-1);return 1/n;}\
@test t trap-division values output$  \
call 1 f 2 trap-division after S3 1:33 began$    \
return 1/n;$\
tests 1 passed 0$\n\
100@$t,f,1,,,\
@int f(int n){if(n==0)return 0;return 1/f(n-1);}\
@test t trap-division values output$  \
call 1 f 1 trap-division after S3 1:31 began$    \
return 1/f(n-1);$\
tests 1 passed 0$\n\
100@$t,f,,,,\
@int g(void){return 0;}int f(void){return 1/g();}\
@test t trap-division values output$  \
call 1 f trap-division after S2 1:35 began$    \
return 1/g();$\
tests 1 passed 0$\n\
# in a step of `for`: the body began last\n\
100@$t,f,2147483647,,,\
@int f(int n){for(int i=n;;i++)i=i;return 0;}\
@test t trap-overflow values output$  \
call 1 f 2147483647 trap-overflow after S2 1:31 began$    \
i=i;$\
tests 1 passed 0$\n\
# in the first clause of `for`, in an initial value, in an argument, in a control\n\
100@$t,f,0,,,\
@void f(int a){for(int i=1/a;i;)i=0;}\
@test t trap-division values output$  \
call 1 f 0 trap-division after S1 1:15 began$    \
for(int i=1/a;i;)i=0;}$\
tests 1 passed 0$\n\
100@$t,f,0,,,\
@int f(int a){int b=1/a;return b;}\
@test t trap-division values output$  \
call 1 f 0 trap-division after S1 1:14 began$    \
int b=1/a;$\
tests 1 passed 0$\n\
100@$t,f,0,,,\
@int g(int x){return x;}int f(int a){return g(1/a);}\
@test t trap-division values output$  \
call 1 f 0 trap-division after S2 1:37 began$    \
return g(1/a);$\
tests 1 passed 0$\n\
100@$t,f,1,,,\
@void f(int x){while(10/x)x--;}\
@test t trap-division values output$  \
call 1 f 1 trap-division after S2 1:26 began$    \
x--;$\
tests 1 passed 0$\n\
# other traps\n\
100@$t,f,1 32,,,\
@int f(int a,int b){return a<<b;}\
@test t trap-shift values output$  \
call 1 f 1 32 trap-shift after S1 1:20 began$    \
return a<<b;$\
tests 1 passed 0$\n\
100@$t,f,3,,,\
@int f(int i){int t[3]={7};return t[i];}\
@test t trap-index values output$  \
call 1 f 3 trap-index after S2 1:27 began$    \
return t[i];$\
tests 1 passed 0$\n\
100@$t,f,,,,\
@int f(void){int x;return x;}\
@test t trap-unset values output$  \
call 1 f trap-unset after S1 1:19 began$    \
return x;$\
tests 1 passed 0$\n\
100@$t,f,,,,\
@int mcdc_in(void);int f(void){return mcdc_in();}\
@test t trap-input-end values output$  \
call 1 f trap-input-end after S1 1:31 began$    \
return mcdc_in();$\
tests 1 passed 0$\n\
# a value is missing, of the call of the test and of another call\n\
100@$t,f,0,,,\
@int f(int a){if(a)return 1;}\
@test t trap-no-return values output$  \
call 1 f 0 trap-no-return after X2 1:28 was reached$\
tests 1 passed 0$\n\
100@$t,f,,,,\
@int g(void){}int f(void){return g()*0;}\
@test t trap-no-return values output$  \
call 1 f trap-no-return after S1 1:26 began$    \
return g()*0;$\
tests 1 passed 0$\n\
# no statement began, and calls that could not be entered\n\
1@$t,f,,,,\
@void f(void){;}\
@test t fuel values output$  \
call 1 f fuel after E1 1:6 was entered$\
tests 1 passed 0$\n\
1@$t,f,,,,$t,f,,,,\
@void f(void){}\
@test t fuel values void output$  \
call 1 f returned void$  \
call 2 f fuel not entered$\
tests 1 passed 0$\n\
100@$t,g,,,,$t,f,,,,\
@int s[65535];int g(void){int a=4;return a;}int f(void){int a=5;int b=6;return a;}\
@test t cells values 4 output$  \
call 1 g returned 4$  \
call 2 f cells not entered$\
tests 1 passed 0$\n\
100@$t,f,,,,\
@int s[65535];int f(void){int a=5;int b=6;return a;}\
@test t cells values output$  \
call 1 f cells not entered$\
tests 1 passed 0$\n\
1000@$t,f,85,,,\
@int f(int n){return n?f(n-1):0;}\
@test t levels values output$  \
call 1 f 85 levels after S1 1:14 began$    \
return n?f(n-1):0;$\
tests 1 passed 0$\n\
# as many outputs as there can be\n\
99999@$t,f,,,,\
@void mcdc_out(int v);void f(void){for(;;)mcdc_out(1);}\
@test t output-full values output^$  \
call 1 f output-full output^ after S2 1:42 began$    \
mcdc_out(1);$\
tests 1 passed 0$\n\
# a statement on one line, and no more than 60 bytes of it\n\
100@$t,f,2147483647,,,\
@int f(int a){~  return a /* one~ more */+~~  1; // end~}\
@test t trap-overflow values output$  \
call 1 f 2147483647 trap-overflow after S1 2:3 began$    \
return a + 1;$\
tests 1 passed 0$\n\
100@$t,f,0,,,\
@int f(int a){return 1111111111+1111111111/11111111111/a+11111111111/11111111;}\
@test t trap-division values output$  \
call 1 f 0 trap-division after S1 1:14 began$    \
return 1111111111+1111111111/11111111111/a+11111111111/11111$\
tests 1 passed 0$\n\
100@$t,f,0,,,\
@int f(int a){~  if (1 / a) { // whether~    return 1; }~  return 0;~}\
@test t trap-division values output$  \
call 1 f 0 trap-division after S1 2:3 began$    \
if (1 / a) {$\
tests 1 passed 0$\n\
# places by line markers\n\
100@$t,f,0,,,\
@# 50 \"control.c\"~int f(int a){~  return 1/a;~}\
@test t trap-division values output$  \
call 1 f 0 trap-division after S1 control.c:51 (3:3) began$    \
return 1/a;$\
tests 1 passed 0$\n\
1@$t,f,,,,\
@# 7 \"a.h\"~void f(void){;}\
@test t fuel values output$  \
call 1 f fuel after E1 a.h:7 (2:6) was entered$\
tests 1 passed 0$\n\
";

/// The source that a row has.
fn source_of(alloc: Global, text: &str) -> Result<Vec<u8>, Fail> {
    let mut bytes = Vec::new(alloc);
    for byte in text.as_bytes() {
        bytes.push(if *byte == b'~' { b'\n' } else { *byte })?;
    }
    Ok(bytes)
}

/// Adds a one after a blank, as often as a run can put out a number.
fn push_ones(bytes: &mut Vec<u8>) -> Result<(), Fail> {
    for _number in 0..4096 {
        bytes.extend_from_slice(b" 1")?;
    }
    Ok(())
}

/// The lines that a row has.
fn lines_of(alloc: Global, text: &str) -> Result<Vec<u8>, Fail> {
    let mut bytes = Vec::new(alloc);
    for byte in text.as_bytes() {
        match *byte {
            b'$' => bytes.push(b'\n')?,
            b'^' => push_ones(&mut bytes)?,
            other => bytes.push(other)?,
        }
    }
    Ok(bytes)
}

/// Whether this number of workers comes to the lines of a row.
fn is_told<R: Threads + Sync>(
    rt: &R,
    alloc: Global,
    row: &str,
    workers: u32,
) -> Result<bool, Fail> {
    let (fuel, rest) = row.split_once('@').unwrap_or((row, ""));
    let (records, rest) = rest.split_once('@').unwrap_or((rest, ""));
    let (source, lines) = rest.split_once('@').unwrap_or((rest, ""));
    let source = source_of(alloc, source)?;
    let lines = lines_of(alloc, lines)?;
    let mut text = Vec::new(alloc);
    let runs = Runs {
        source: &source,
        records,
        fuel: fuel.parse::<u32>().unwrap_or(0),
        workers,
    };
    tell_tests(rt, alloc, &mut text, runs)?;
    Ok(text[..] == lines[..])
}

/// The first row that this number of workers does not come to.
fn wrong_row<R: Threads + Sync>(
    rt: &R,
    alloc: Global,
    workers: u32,
) -> Result<Option<&'static str>, Fail> {
    for row in ROWS.lines() {
        if !row.starts_with('#') && !is_told(rt, alloc, row, workers)? {
            return Ok(Some(row));
        }
    }
    Ok(None)
}

#[test]
fn one_worker_tells(rt: HostRuntime) -> Result<(), Fail> {
    assert_eq!(rt; wrong_row(&rt, rt.alloc(), 1)?, None);
    Ok(())
}

#[test]
fn as_many_workers_as_can_be_tell_the_same(rt: HostRuntime) -> Result<(), Fail> {
    assert_eq!(rt; wrong_row(&rt, rt.alloc(), 64)?, None);
    Ok(())
}
