//! How runs end, what they give and put out, and the fuel that they leave.

use crate::fail::Fail;
use crate::reading::told;

/// A row has the ending, the fuel, how much of it is left where that is told, the records of one
/// test, which `$` ends, and the source. A line with `#` tells what follows.
const ROWS: &str = "\
# operations without a defined result
trap-overflow 100 -@t,f,2147483647 1,,,@int f(int a,int b){return a+b;}
trap-division 100 -@t,f,1 0,,,@int f(int a,int b){return a/b;}
trap-overflow 100 -@t,f,-2147483648 -1,,,@int f(int a,int b){return a/b;}
returned 100 -@t,f,1 30,,1073741824,@int f(int a,int b){return a<<b;}
trap-shift 100 -@t,f,1 31,,,@int f(int a,int b){return a<<b;}
trap-shift 100 -@t,f,1 32,,,@int f(int a,int b){return a<<b;}
trap-shift 100 -@t,f,-1 1,,,@int f(int a,int b){return a<<b;}
returned 100 -@t,f,2,,0,@int f(int i){int t[3]={7};return t[i];}
trap-index 100 -@t,f,3,,,@int f(int i){int t[3]={7};return t[i];}
trap-index 100 -@t,f,-1,,,@int f(int i){int t[3]={7};return t[i];}
trap-unset 100 -@t,f,,,,@int f(void){int x;return x;}
trap-unset 100 -@t,f,,,,@int f(void){int r=0;for(int i=0;i<2;i++){int x;if(i)r=x;x=7;}return r;}
trap-unset 100 -@t,f,,,,@void g(int n){int x;if(n){x=n;}else{int y=x;}}void f(void){g(1);g(0);}
returned 100 -@t,f,1,,1,@int f(int a){if(a)return 1;}
trap-no-return 100 -@t,f,0,,,@int f(int a){if(a)return 1;}
returned 100 -@t,f,,,3,@int g(void){}int f(void){g();(void)g();return 3;}
trap-no-return 100 -@t,f,,,,@int g(void){}int f(void){return g()*0;}
trap-input-end 100 -@t,f,,,,@int mcdc_in(void);int f(void){return mcdc_in();}
returned 100 -@t,f,,5,5,@int mcdc_in(void);int f(void){return mcdc_in();}
returned 100 -@t,f,,-7 9,-79,@int mcdc_in(void);int f(void){int a=mcdc_in();return a*10-mcdc_in();}
trap-division 100 -@t,f,3 0,,,@int f(int a,int b){int y=a<5;return y&&a!=0&&10/b>1;}
returned 100 -@t,f,0 0,,0,@int f(int a,int b){int y=a<5;return y&&a!=0&&10/b>1;}
# output
output-full 100000 -@t,f,4097,,,@void mcdc_out(int v);void f(int n){while(n>0){mcdc_out(n);n--;}}
returned 100000 -@t,f,4096,,,@void mcdc_out(int v);void f(int n){while(n>0){mcdc_out(n);n--;}}
returned 100 -@t,f,3,,,3 2 1$t,f,0,,,none$t,f,1,,,1@void mcdc_out(int v);void f(int n){while(n>0){mcdc_out(n);n--;}}
# fuel: one unit for each counted statement, each test of a loop and each call
returned 9 1@t,f,2,,0,@int f(int n){while(n>0)n--;return n;}
returned 8 0@t,f,2,,0,@int f(int n){while(n>0)n--;return n;}
fuel 7 0@t,f,2,,,@int f(int n){while(n>0)n--;return n;}
fuel 5 0@t,f,,,,@void f(void){while(1){}}
fuel 50 0@t,f,,,,@void f(void){for(;;);}
fuel 50 0@t,f,,,,@void f(void){do{}while(1);}
returned 3 0@t,f,,5,,@int mcdc_in(void);void f(void){mcdc_in();}
returned 3 0@t,f,,5,5,@int mcdc_in(void);int f(void){return mcdc_in();}
fuel 2 0@t,f,,5,,@int mcdc_in(void);int f(void){return mcdc_in();}
fuel 2 0@t,f,,,,@int mcdc_in(void);int f(void){return mcdc_in();}
returned 1 0@t,f,,,,@void f(void){{}int a;}
returned 3 0@t,f,,,,@void f(void){int a=1;;}
# levels
returned 1000 -@t,f,84,,0,@int f(int n){return n?f(n-1):0;}
levels 1000 -@t,f,85,,,@int f(int n){return n?f(n-1):0;}
levels 171 0@t,f,85,,,@int f(int n){return n?f(n-1):0;}
fuel 170 0@t,f,85,,,@int f(int n){return n?f(n-1):0;}
# 512 of them, and 513
returned 1000 -@t,f,,,,@int n;void f(void){n++;if(n<128)f();}
levels 1000 -@t,f,,,,@int n;void f(void){n++;if(n<129)f();}
returned 1000 -@t,f,,,,@int n;void g(void){}void f(void){n++;if(n<127)f();else g();}
levels 1000 -@t,f,,,,@int n;void g(void){}void f(void){n++;if(n<128)f();else g();}
# cells
returned 100 -@t,f,1,,0,@int f(int n){int t[30000];t[0]=n;return n?f(n-1):0;}
cells 100 -@t,f,2,,,@int f(int n){int t[30000];t[0]=n;return n?f(n-1):0;}
returned 100 -@t,f,,,5,@int s[65535];int f(void){int a=5;return a;}
cells 100 -@t,f,,,,@int s[65535];int f(void){int a=5;int b=6;return a;}
# decisions and assignments of local objects and constants
trap-unset 100 -@t,f,1,,,@int f(int b){int a;if(a<b)return 1;return 0;}
trap-unset 100 -@t,f,1,,,@int f(int a){int b;if(a<b)return 1;return 0;}
returned 100 -@t,f,-1 0,,1,$t,f,0 0,,0,$t,f,-1 1,,0,@int f(int a,int b){if(a<0&&b<1)return 1;return 0;}
returned 100 -@t,f,0 0,,1,$t,f,0 5,,0,$t,f,5 5,,1,@int f(int a,int b){if(a||!b)return 1;return 0;}
trap-unset 100 -@t,f,,,,@void f(void){int s;s+=1;}
trap-unset 100 -@t,f,2,,,@int f(int a){int b;a+=b;return a;}
trap-unset 100 -@t,f,,,,@void f(void){int a;int b;a=b;}
trap-overflow 100 -@t,f,2147483647,,,@int f(int a){a+=1;return a;}
trap-overflow 100 -@t,f,-2147483648 -1,,,@int f(int a,int b){a+=b;return a;}
returned 100 -@t,f,4294967295 1,,0,@int f(unsigned a,unsigned b){if(a<b)return 1;return 0;}
returned 100 -@t,f,-1 1,,1,@int f(int a,int b){if(a<b)return 1;return 0;}
returned 100 -@t,f,18446744073709551615 1,,1,@int f(unsigned long a,unsigned long b){if(a>b)return 1;return 0;}
returned 100 -@t,f,4294967296,,1,$t,f,0,,0,@int f(long a){if(a)return 1;return 0;}
returned 100 -@t,f,3,,6,@int f(int n){int s=0;while(n!=0){s+=n;n-=1;}return s;}
returned 100 -@t,f,0,,1,$t,f,3,,3,@int f(int n){int s=0;do{s++;}while(s<n);return s;}
returned 100 -@t,f,2 2,,7,$t,f,2 3,,8,@int f(int a,int b){int r;if(a==b)r=7;else r=8;return r;}
returned 100 -@t,f,4294967295,,0,@unsigned f(unsigned u){u+=1u;return u;}
returned 9 1@t,f,2 -1,,0,@int f(int n,int m){while(n>0){n+=m;}return n;}
# activations
returned 100 -@t,f,3,,0,@int f(int n){return n>0&&f(n-1);}
returned 100 -@t,f,3,,123,@int f(int n){int x=n;int r=0;if(n)r=f(n-1);return r+(x==3?100:x==2?20:x==1?3:0);}
returned 100 -@t,f,,,6,$t,f,,,7,@int f(void){static int n=5;n++;return n;}
returned 100 -@t,f,,,1,$t,g,,,2,$t,f,,,2,@int n=1;int f(void){return n;}int g(void){n=2;return n;}
returned 100 -@t,f,,,2,@int e(int n);int o(int n){return n?e(n-1):1;}int e(int n){return n?o(n-1):2;}int f(void){return o(3);}
# arrays that parameters name
returned 100 -@t,f,,,83,@int g(int t[],int n){t[n]=n;return t[0]+t[n];}int f(void){int a[4]={5};int r=g(a,3);return r*10+a[3];}
returned 100 -@t,f,,,7,@int h(int t[]){return t[1];}int g(int t[]){t[1]=t[0]+1;return h(t);}int f(void){int a[2]={6};return g(a);}
returned 100 -@t,f,2,,6,@int g(int t[][2],int i){return t[i][1];}int f(int i){int a[3][2]={{1,2},{3,4},{5,6}};return g(a,i);}
trap-index 100 -@t,f,3,,,@int g(int t[][2],int i){return t[i][1];}int f(int i){int a[3][2]={{1,2},{3,4},{5,6}};return g(a,i);}
returned 100 -@t,f,3,,4,@int g(int t[2],int i){return t[i];}int f(int i){int a[4]={1,2,3,4};return g(a,i);}
trap-index 100 -@t,f,1,,,@int g(int t[2],int i){return t[i];}int f(int i){int a[1]={1};return g(a,i);}
returned 100 -@t,f,,,9,@struct S{int b;int a[3];};struct S s;int g(int t[]){t[2]=9;return t[2];}int f(void){g(s.a);return s.a[2];}
# structures
returned 100 -@t,f,,,4,@struct S{int a;int b;};int f(void){struct S s;struct S t;s.a=4;t=s;return t.a;}
trap-unset 100 -@t,f,,,,@struct S{int a;int b;};int f(void){struct S s;struct S t;s.a=4;t=s;return t.b;}
returned 100 -@t,f,,,3,@struct S{int a;};static struct S s;int g(void){s.a=9;return 1;}int h(struct S p,int q){return p.a+q;}int f(void){s.a=2;return h(s,g());}
returned 100 -@t,f,,,1,@struct S{int a;int b;};void g(struct S p){p.a=9;}int f(void){struct S s={1,2};g(s);return s.a;}
returned 100 -@t,f,,,48,@struct S{int a;int b;};struct S g(int n){struct S s;s.a=n;s.b=n+1;return s;}int f(void){struct S s=g(4);struct S t;t=g(7);return s.a*10+t.b;}
returned 100 -@t,f,,,15,@struct S{int a;int b[2];};struct S g(struct S p){p.b[1]=p.b[1]+10;return p;}int f(void){struct S s={3,{4,5}};s=g(s);return s.b[1];}
trap-no-return 100 -@t,f,,,,@struct S{int a;};struct S g(void){}int f(void){struct S s;s=g();return 1;}
# choices and loops
returned 100 -@t,f,1,,11,@int f(int n){int r=0;switch(n){case 1:r=r+1;case 2:r=r+10;break;case 3:case 4:r=r+100;default:r=r+1000;}return r;}
returned 100 -@t,f,2,,10,@int f(int n){int r=0;switch(n){case 1:r=r+1;case 2:r=r+10;break;case 3:case 4:r=r+100;default:r=r+1000;}return r;}
returned 100 -@t,f,3,,1100,@int f(int n){int r=0;switch(n){case 1:r=r+1;case 2:r=r+10;break;case 3:case 4:r=r+100;default:r=r+1000;}return r;}
returned 100 -@t,f,4,,1100,@int f(int n){int r=0;switch(n){case 1:r=r+1;case 2:r=r+10;break;case 3:case 4:r=r+100;default:r=r+1000;}return r;}
returned 100 -@t,f,5,,1000,@int f(int n){int r=0;switch(n){case 1:r=r+1;case 2:r=r+10;break;case 3:case 4:r=r+100;default:r=r+1000;}return r;}
returned 100 -@t,f,7,,12,@int f(int n){int r=0;switch(n){default:r=r+10;case 0:r=r+2;}return r;}
returned 100 -@t,f,0,,2,@int f(int n){int r=0;switch(n){default:r=r+10;case 0:r=r+2;}return r;}
returned 100 -@t,f,7,,5,@int f(int n){int r=5;switch(n){case 0:r=2;}return r;}
returned 100 -@t,f,,,23,@int f(void){int r=0;for(int i=0;i<5;i++){if(i==1)continue;if(i==4)break;r=r*10+i;}return r;}
returned 100 -@t,f,,,8,@int f(void){int i=0;int r=0;do{i++;if(i==2)continue;r=r+i;}while(i<4);return r;}
returned 100 -@t,f,,,10,@int f(void){int r=0;for(int i=0;i<4;i++){switch(i){case 1:continue;case 2:break;default:r=r+1;}r=r+4;}return r-4;}
returned 100 -@t,f,,,5,@int f(void){int i;int j;for(i=0,j=9;i<j;i++,j--);return i;}
returned 100 -@t,f,,,23,@int f(void){for(int i=0;;i++){int j=0;while(j<5){if(i*j==6)return i*10+j;j++;}}}
returned 100 -@t,f,-5,,5,@int f(int n){return n<0?-n:n;}
# conversions and compound assignments
returned 100 -@t,f,,,0,$t,g,,,1,@int f(void){return -1<1u;}int g(void){return -2147483648<0;}
returned 100 -@t,f,,,1,@int f(void){long x=4294967296;if(x)return 1;return 0;}
returned 100 -@t,f,,,44,@int f(void){unsigned char c=200;c+=100;return c;}
returned 100 -@t,f,,,-56,@int f(void){signed char c=(signed char)200;return c;}
returned 100 -@t,f,,,18446744073709551615,@unsigned long f(void){return -1;}
returned 100 -@t,f,,,1,@int f(void){_Bool b=256;return b;}
returned 100 -@t,f,,,4294967286,@unsigned f(void){unsigned u=3;u-=13;return u;}
returned 100 -@t,f,,,-2,@int f(void){int a=-7;a/=2;int b=-7;b%=2;return a-b*-2+b+5-1;}
";

#[test]
fn endings(rt: HostRuntime) -> Result<(), Fail> {
    for text in ROWS.lines() {
        assert!(rt;
            text.starts_with('#') || matches!(told(rt.alloc(), text), Ok(true)),
            "{text}"
        );
    }
    Ok(())
}
