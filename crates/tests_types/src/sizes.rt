//! How many levels and cells an activation takes, by the rules of docs/LANGUAGE.md. The numbers
//! were counted by hand.

use crate::reading::{Fail, Outcome, Size, judged};
use std::alloc::Global;

/// A row is the levels and the cells of an activation of the last function, `@` and the source. A
/// line with `#` tells what follows.
const ROWS: &str = "\
# operators and places
4 2@int f(int a,int b){return a+b;}
4 2@int f(int a,int b){return a/b;}
4 2@int f(int a,int b){return a<<b;}
4 1@int f(int a){return -a;}
5 2@int f(int a,int b){return !a&&b;}
3 1@int f(int a){return ((a));}
4 1@long f(int a){return (long)a;}
3 1@long f(int a){return a;}
4 1@long f(int a){return a+1L;}
3 0@enum{A,B};int f(void){return B;}
4 4@int f(int i){int t[3]={7};return t[i];}
4 0@int f(int t[]){return t[0];}
5 4@struct S{int a;int b;};int f(void){struct S s;struct S t;s.a=4;t=s;return t.a;}
5 3@struct S{int a;};int f(int i){struct S t[2]={0};return t[i].a;}
5 2@struct S{int a;};int h(struct S p,int q){return p.a+q;}
# calls
3 0@int mcdc_in(void);int f(void){return mcdc_in();}
4 0@void mcdc_out(int v);void f(void){mcdc_out(1);}
6 1@int f(int n){return n?f(n-1):0;}
6 30001@int f(int n){int t[30000];t[0]=n;return n?f(n-1):0;}
4 2@int g(int t[]){return t[0];}int f(void){int t[2]={0};return g(t);}
4 0@int g(int t[]){return t[0];}int f(int t[]){return g(t);}
3 2@struct S{int a;int b;};struct S g(void){struct S s={1,2};return s;}
3 2@struct S{int a;int b;}s;struct S g(void){return s;}void f(void){g();}
5 0@struct S{int a;};static struct S s;int g(void){s.a=9;return 1;}
5 1@struct S{int a;}s;int g(void){return 1;}int h(struct S p,int q){return p.a+q;}\
int f(void){s.a=2;return h(s,g());}
# declarations
3 1@int f(void){int x;return x;}
4 1@int f(void){int a=1+2;return a;}
3 0@int f(void){static int a=1+2;return a;}
4 4@void f(void){int t[2][2]={{1,2},{3,4+5}};}
# statements
1 0@void f(void){}
2 0@void f(void){;}
2 0@void f(void){return;}
4 0@void f(void){{{;}}}
4 1@int f(int a){if(a)return 1;}
6 1@int f(int a){if(a)return 1;else{return a+2;}}
5 1@int f(int a){switch(a){case 1:return a;}return 0;}
4 1@void f(int a){switch(a){default:;}}
5 1@void f(int a){switch(a){case 1:case 2:{;}}}
4 1@void f(void){for(int i=0;i<2;i++);}
6 1@void f(int a){for(;;a=a+1+2)break;}
5 2@void f(void){for(int a=0,b=a+1;;)break;}
4 1@void f(int a){for(a=1,a=2;;)continue;}
4 1@void f(int a){do;while(a+1);}
6 1@void mcdc_out(int v);void f(int n){while(n>0){mcdc_out(n);n--;}}
5 1@void f(int a){a+=2*3;}
4 1@void f(int a){(void)a;}
";

/// The levels and the cells that a row tells.
fn told(words: &str) -> Option<Size> {
    let (levels, cells) = words.split_once(' ')?;
    Some(Size {
        levels: levels.parse::<u32>().ok()?,
        cells: cells.parse::<u32>().ok()?,
    })
}

fn is_right(alloc: Global, row: &str) -> Result<bool, Fail> {
    let Some((words, source)) = row.split_once('@') else {
        return Ok(row.starts_with('#'));
    };
    match judged(alloc, source.as_bytes())? {
        Outcome::Typed { last: Some(size) } => Ok(told(words) == Some(size)),
        _ => Ok(false),
    }
}

#[test]
fn sizes(rt: HostRuntime) -> Result<(), Fail> {
    for row in ROWS.lines() {
        assert!(rt; is_right(rt.alloc(), row)?, "{row}");
    }
    Ok(())
}
