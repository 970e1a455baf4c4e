//! What runs hit, in order.

use crate::fail::Fail;
use crate::reading::told;

/// A row has the ending, the fuel, how much of it is left where that is told, the records of one
/// test, which `$` ends, the source, and the bits: those of entries, of exits, of statements and of
/// labels, each in the order of the text, and then those of the decisions' paths, the true ones
/// first. A line with `#` tells what follows.
const ROWS: &str = "\
# an entry, a statement, a path, and the exit after its expression
returned 100 -@t,f,1 1,,1,$t,f,1 0,,0,$t,f,0 1,,0,@int f(int a,int b){return a&&b;}@0 2 3 1 0 2 4 1 0 2 5 1
returned 100 -@t,f,,,1,@int f(void){long x=4294967296;if(x)return 1;return 0;}@0 3 4 7 5 1
trap-division 100 -@t,f,3 0,,,@int f(int a,int b){int y=a<5;return y&&a!=0&&10/b>1;}@0 2 4 3
trap-no-return 100 -@t,f,0,,,@int f(int a){if(a)return 1;}@0 3 6 2
# a unit of fuel comes before its event
returned 8 0@t,f,2,,0,@int f(int n){while(n>0)n--;return n;}@0 2 5 3 5 3 6 4 1
fuel 7 0@t,f,2,,,@int f(int n){while(n>0)n--;return n;}@0 2 5 3 5 3 6
fuel 6 0@t,f,2,,,@int f(int n){while(n>0)n--;return n;}@0 2 5 3 5 3
fuel 5 0@t,f,2,,,@int f(int n){while(n>0)n--;return n;}@0 2 5 3 5
fuel 1 0@t,f,2,,,@int f(int n){while(n>0)n--;return n;}@0
# decisions in calls and in other decisions
returned 100 -@t,f,2 1 1,,1,@int g(int v,int w){return v+w;}int f(int x,int p,int q){int y;y=x<3;g(p&&q,x);return y;}@1 5 8 6 10 0 4 2 7 3
returned 100 -@t,f,1 2 1 2,,1,@int f(int p,int q,int r,int s){return (p<q)==(r<s);}@0 2 5 7 3 1
# each activation has registers of its own
returned 100 -@t,f,3,,0,@int f(int n){return n>0&&f(n-1);}@0 2 0 2 0 2 0 2 5 1 4 1 4 1 4 1
# labels that are chosen, and a default that is absent
returned 100 -@t,f,1,,2,@int f(int n){int r=0;switch(n){case 1:r=1;case 2:r=2;break;default:r=3;}return r;}@0 2 3 9 4 5 6 8 1
returned 100 -@t,f,2,,2,@int f(int n){int r=0;switch(n){case 1:r=1;case 2:r=2;break;default:r=3;}return r;}@0 2 3 10 5 6 8 1
returned 100 -@t,f,5,,3,@int f(int n){int r=0;switch(n){case 1:r=1;case 2:r=2;break;default:r=3;}return r;}@0 2 3 11 7 8 1
returned 100 -@t,f,7,,5,@int f(int n){int r=5;switch(n){case 0:r=2;}return r;}@0 2 3 6 5 1
returned 100 -@t,f,0,,2,@int f(int n){int r=5;switch(n){case 0:r=2;}return r;}@0 2 3 7 4 5 1
";

#[test]
fn hits(rt: HostRuntime) -> Result<(), Fail> {
    for text in ROWS.lines() {
        assert!(rt;
            text.starts_with('#') || matches!(told(rt.alloc(), text), Ok(true)),
            "{text}"
        );
    }
    Ok(())
}
