//! The runs that the laws of `tests_meaning` compute by the definitions, made by the interpreter.

use crate::fail::Fail;
use crate::reading::told;

/// A row has the ending, the fuel, how much of it is left, the record of a call, and the source;
/// where the events tell something, then the bits, in the order that `hits` tells. A line with `#`
/// tells what follows.
const ROWS: &str = "\
# a trap in a decision: the one inside it has ended, the one around it lists nothing
trap-division 100 98@t,f,1 0,,,@int f(int a,int b){return a && 1/(a<b)>0;}@0 2 7
# values that are read
trap-unset 100 98@t,f,,,,@void f(void){int x;x;}
trap-unset 100 98@t,f,,,,@void f(void){int x;(void)x;}
returned 100 98@t,f,,,,@struct S{int a;int b;};void f(void){struct S s;s;}
trap-unset 100 98@t,f,,,,@int f(void){int x=x;return 1;}
trap-unset 100 92@t,f,,,,@void f(void){int i=0;while(i<2){int x=i?x:0;i+=1;}}@0 2 3 6 4 9 5 6 4 8
# lists
returned 100 97@t,f,1,,1,@int f(int i){int t[3]={1,t[0]};return t[i];}
returned 100 97@t,f,2,,0,@int f(int i){int t[3]={1,t[0]};return t[i];}
trap-unset 100 98@t,f,,,,@int f(void){int t[2]={t[1]};return 1;}
returned 100 97@t,f,0,,10,@struct S{int a;int b;};int f(int i){struct S t[2]={{1},{2,3}};return t[i].a*10+t[i].b;}
returned 100 97@t,f,1,,23,@struct S{int a;int b;};int f(int i){struct S t[2]={{1},{2,3}};return t[i].a*10+t[i].b;}
returned 100 97@t,f,2,,0,@int f(int i){int t[3]={0};return t[i];}
returned 100 98@t,f,1 0,,3,@static int t[2][2]={{1,2},{3}};int f(int i,int j){return t[i][j];}
returned 100 98@t,f,0 1,,2,@static int t[2][2]={{1,2},{3}};int f(int i,int j){return t[i][j];}
# structures
returned 100 96@t,f,,,3,@struct S{int a;int b;};int f(void){struct S s;s.b=3;struct S t=s;return t.b;}
trap-unset 100 96@t,f,,,,@struct S{int a;int b;};int f(void){struct S s;s.b=3;struct S t=s;return t.a;}
returned 100 90@t,f,,,4,@struct S{int a;int b;};struct S g(int v){struct S s;s.b=v;return s;}int f(void){struct S t;t=g(4);g(5);return t.b;}
# assignments: the place comes first, and the old value is read last
returned 100 94@t,f,,,6,@static int a=1;int g(void){a=5;return 1;}int f(void){a+=g();return a;}
returned 100 94@t,f,,,10,@static int i;static int t[2]={7,8};int g(void){i=1;return 3;}int f(void){t[i]+=g();return t[0];}
returned 100 96@t,f,,,4,@int f(void){unsigned char c=250;c+=10;return c;}
returned 100 97@t,f,3,,12,@int f(int a){a<<=2L;return a;}
returned 100 97@t,f,0,,4294967295,@unsigned f(unsigned a){a-=1u;return a;}
# arrays that parameters name: an index is tested against the caller's length
returned 100 95@t,f,1,,2,@int g(int t[9],int i){return t[i];}int f(int i){int t[2]={1,2};return g(t,i);}
trap-index 100 95@t,f,2,,,@int g(int t[9],int i){return t[i];}int f(int i){int t[2]={1,2};return g(t,i);}
returned 100 93@t,f,,,5,@void h(int t[],int v){t[1]=v;}void g(int t[]){h(t,5);}int f(void){int t[2][2];g(t[1]);return t[1][1];}
trap-index 100 98@t,f,,,,@int g(void){return 0;}int f(void){int t[2][2];return t[2][g()];}
# calls: arguments come before the unit of the call, and a value that is used has to be there
fuel 4 0@t,f,,,,@int g(void){return 1;}int h(int v){return v;}int f(void){return h(g());}@2 8 0 6 3
returned 100 95@t,f,,,2,@int g(int n){if(n)return 1;}int f(void){g(0);return 2;}@1 7 0 5 10 3 8 4
returned 100 95@t,f,,,2,@int g(int n){if(n)return 1;}int f(void){(void)g(0);return 2;}
trap-no-return 100 96@t,f,,,,@int g(int n){if(n)return 1;}int f(void){return g(0);}@1 7 0 5 9 3
trap-no-return 100 96@t,f,,,,@int g(int n){if(n)return 1;}int f(void){1?(void)g(0):(void)g(0);return 2;}
# each activation has its own objects
returned 100 86@t,f,2,,2,@int f(int n){int x=n;if(n)f(n-1);return x;}
trap-unset 100 93@t,f,1,,,@int f(int n){int x;if(n){x=n;return f(n-1);}return x;}
";

/// The same of labels, loops and decisions.
const MORE: &str = "\
# labels: a fall through chooses nothing, and a default that is absent is chosen
returned 100 94@t,f,1,,6,@int f(int n){switch(n){case 1:n=5;case 2:n+=1;break;default:n=0;}return n;}@0 2 8 3 4 5 7 1
returned 100 95@t,f,2,,3,@int f(int n){switch(n){case 1:n=5;case 2:n+=1;break;default:n=0;}return n;}@0 2 9 4 5 7 1
returned 100 96@t,f,7,,0,@int f(int n){switch(n){case 1:n=5;case 2:n+=1;break;default:n=0;}return n;}@0 2 10 6 7 1
returned 100 96@t,f,1,,3,@int f(int n){switch(n){default:n+=1;case 1:n+=2;}return n;}@0 2 7 4 5 1
returned 100 95@t,f,4,,7,@int f(int n){switch(n){default:n+=1;case 1:n+=2;}return n;}@0 2 6 3 4 5 1
returned 100 97@t,f,3,,3,@int f(int n){switch(n){case 1:return 5;}return n;}@0 3 6 5 2
returned 100 97@t,f,1,,5,@int f(int n){switch(n){case 1:return 5;}return n;}@0 3 7 4 1
returned 100 95@t,f,1,,1,@int f(int n){switch(n){case 1:switch(n){case 2:;}default:;}return n;}@0 2 7 3 8 5 6 1
returned 100 96@t,f,2,,2,@int f(int n){switch(n){case 1:switch(n){case 2:;}default:;}return n;}@0 2 10 5 6 1
# loops
returned 100 85@t,f,5,,25,@int f(int n){int i;for(i=0;i<3;i+=1){switch(i){case 1:continue;default:break;}n+=10;}return n;}@0 2 10 3 9 5 6 10 3 8 4 10 3 9 5 6 11 7 1
returned 100 90@t,f,2,,0,@int f(int n){do{n-=1;if(n==1)continue;}while(n>0);return n;}@0 2 3 4 7 5 9 3 4 8 10 6 1
returned 100 92@t,f,2,,3,@int f(int n){int i,s;for(i=0,s=0;i<n;i+=1,s+=i);return s;}
# bodies that do not complete have no exit at the brace, so the exit after it has the next number
returned 100 93@t,f,,,1,@int f(void){for(int i=0;;i+=1)if(i==1)return i;}int g(void){return 3;}@0 4 5 9 5 8 6 2
returned 100 98@t,g,,,3,@int f(void){for(int i=0;;i+=1)if(i==1)return i;}int g(void){return 3;}@1 7 3
trap-division 100 97@t,f,,,,@void f(void){while(1/0);}int g(void){return 3;}@0 4
returned 100 98@t,g,,,3,@void f(void){while(1/0);}int g(void){return 3;}@1 6 3
returned 100 96@t,f,,,,@void f(void){while(1)break;}int g(void){return 3;}@0 4 5 2
returned 100 98@t,g,,,3,@void f(void){while(1)break;}int g(void){return 3;}@1 6 3
# a declaration is one statement, where it has an initializer
returned 100 97@t,f,,,1,@int f(void){int x,y=1,z=y;int u;return z;}@0 2 3 1
# decisions
returned 100 98@t,f,0 2,,2,@int f(int a,int b){return !(a||b)?1:2;}@0 2 4 1
returned 100 98@t,f,0 0,,1,@int f(int a,int b){return !(a||b)?1:2;}@0 2 5 1
returned 100 98@t,f,9,,1,@int f(int a){return (1&&0)||a;}@0 2 4 1
returned 100 98@t,f,9,,0,@int f(int a){return 1&&0;}@0 2 1
returned 100 97@t,f,1 7,,1,@int f(int a,int b){if(a ? b : 0)return 1;return 0;}@0 3 8 6 4 1
";

#[test]
fn worked(rt: HostRuntime) -> Result<(), Fail> {
    for text in ROWS.lines() {
        assert!(rt;
            text.starts_with('#') || matches!(told(rt.alloc(), text), Ok(true)),
            "{text}"
        );
    }
    Ok(())
}

#[test]
fn worked_labels_and_loops(rt: HostRuntime) -> Result<(), Fail> {
    for text in MORE.lines() {
        assert!(rt;
            text.starts_with('#') || matches!(told(rt.alloc(), text), Ok(true)),
            "{text}"
        );
    }
    Ok(())
}
