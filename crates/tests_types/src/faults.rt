//! The first fault of names and types of a source, by the rules of docs/LANGUAGE.md.

use crate::reading::{Fail, Outcome, joined, judged};
use std::alloc::Global;

/// A row is what the fault is called, and a source in which `@` stands at its place. Where there is
/// no fault, it is `@` and the source. A line with `#` tells what follows.
const ROWS: &str = "\
# names
undeclared@int f(void){return @x;}
redeclared@int a;int @a;
redeclared@int f(int a){int @a;return 1;}
@int f(int a){{int a=1;a=2;}return a;}
undeclared@int f(void){{int b;}return @b;}
redeclared@int f(int a,int @a);
redeclared@enum{A,@A};
@int f(void){int a=1;int b=a;for(int a=2;a;){int a=3;b=a;}return a;}
@struct a{int a;}a;int f(void){return a.a;}
undeclared@struct S{int a;}s;int f(void){return s.@b;}
redeclared@struct S{int a;int @a;};
redeclared@struct S{int a;};struct @S{int a;};
@struct S;struct S{int a;};struct S s;
undeclared@struct @S x;
undeclared@int f(struct @S);
@struct S;struct S f(void);
undeclared@enum @E;
@enum E{A};enum E;enum E x=A;
mismatch@enum E{A};@struct E x;
redeclared@enum E{A};struct @E;
mismatch@struct S{int a;};void f(void){struct S;{struct S @s;}}
@int x=(enum{A,B})1;int y=B;
@int f(void);static int f(void){return 1;}int f(void);
redeclared@int f(void){return 1;}int @f(void){return 1;}
redeclared@int f;int @f(void);
no body@int g(void);int f(void){return @g();}
@int g(void);int f(void){return g();}int g(void){return 1;}
mismatch@int @mcdc_in;
mismatch@enum{@mcdc_out};
@int f(void){int mcdc_in=1;return mcdc_in;}
redeclared@int @mcdc_in(void){return 1;}
redeclared@long @mcdc_in(void){return 1;}
mismatch@int @mcdc_in(int a);
@int mcdc_in(void);void mcdc_out(int v);void f(void){mcdc_out(mcdc_in());}
@struct S{int a;}s;int f(int s){return s+1;}
mismatch@int a;void f(void){int a[2];@1+a;}
@struct S{int a;};void f(void){struct S s={1};{int s=2;s=3;}s.a=4;}
redeclared@struct S{int a;int @a(void);};
redeclared@struct S{int a;int @a(void);int b;};
mismatch@struct S{int @a(void);int a;};
mismatch@struct S{int @a(void);int b(void);};
mismatch@struct S{int @a(int b,int b);};
redeclared@struct S{int a;int @a(struct U b);};
redeclared@int f(void);int @f;
redeclared@int T;typedef int @T;
redeclared@int A;enum{@A};
redeclared@enum{f};int @f(void);
redeclared@void f(void){int a;int @a;}
redeclared@void f(void){for(int a=1,@a=2;a;);}
redeclared@struct S{int a;};enum @S{A};
redeclared@enum E{A};enum @E{B};
redeclared@enum E{A};struct @E{int a;};
redeclared@struct S{struct @S{int a;}s;};
mismatch@struct S{int a;};@enum S e;
redeclared@void @mcdc_out(int a){}
redeclared@int f(int a){return a;}long @f(int a){return a;}
@int f(int a);int f(int b);
@int f(int f){return f;}
@int f(int n){return n?f(n-1):0;}
@struct S{int a;struct T{int a;}t;};
@void f(void){int x=x;}
@enum{A=1,B=A+1};
undeclared@enum{A=@A};
undeclared@void f(void){for(int i=0;i;);@i;}
undeclared@void f(int a){if(a){int b=1;}@b;}
undeclared@int f(int a);enum{A=@a};
undeclared@void f(void){@g(1);}
# types
not constant@int n=1;int t[@n];
not constant@int n;int t[@(n)];
not constant@int t[@1/0];
@int t[1||1/0];
not constant@int f(void){return 1;}int t[@f()];
mismatch@int t[@0];
mismatch@int @t[];
mismatch@int @t[2][]={1};
mismatch@int f(int a[@0]){return 1;}
not constant@int n;int f(int a[@n]){return 1;}
@int f(int a[][2]){return a[0][1];}
mismatch@void @x;
mismatch@struct S;struct S @x;
mismatch@struct S{struct S @s;};
mismatch@struct S;int f(struct S @s);
mismatch@struct S;int f(@struct S);
mismatch@int f(@int){return 1;}
@int f(int);
mismatch@int f(int a);int @f(long a);
@int f(const int a);int f(int a){return a;}
mismatch@int f(const int a[]);int @f(int a[]){return a[0];}
mismatch@typedef int T[2];T @f(void);
@struct S;struct S f(void);
mismatch@struct S;struct S @f(void){}
mismatch@int @f(void)=1;
mismatch@typedef int @T=1;
mismatch@typedef int @T(void);
mismatch@@int;
mismatch@@struct{int a;};
@enum{A};
mismatch@enum{@A=2147483648};
mismatch@enum{A=2147483647,@B};
not constant@int a;enum{A=@a};
mismatch@struct S{int @f(void);};
mismatch@typedef int @mcdc_in;
@struct mcdc_in{int mcdc_out;};
undeclared@const struct @S;
mismatch@void @a[2];
mismatch@int t[@(0)];
mismatch@void @x[u];
mismatch@struct S;struct S @x[u];
mismatch@int f(@void[u]);
mismatch@struct S{void @a[u];};
not constant@void f(int a){static int t[@a];}
not constant@int t[@(void)1];
not constant@const int c=1;int t[@c+1];
not constant@int a[2];int t[@a[0]];
not constant@int t[@1<<32];
not constant@int t[@2147483647+1];
not constant@enum{A=@1/0};
not constant@struct S{int a;}s;enum{A=@s};
@enum{N=3};int t[N];int u['a'];int v[(long)3];int w[-1+2];int x[N?2:1/0];
@int t[(0&&1/0)+1];int u[0?1/0:3];int v[!0];
mismatch@int t[@-1];
mismatch@int t[@0&&1/0];
mismatch@typedef int @T[];
mismatch@struct S{int @a[];};
mismatch@int f(int @a[2][]);
mismatch@int @t[]=1;
@int t[]={1,2};int f(int a[]);
mismatch@int f(void @a);
mismatch@void f(void){void @x;}
mismatch@void f(void){void @t[2];}
mismatch@struct S;struct T{struct S @s[2];};
mismatch@struct S;int f(struct S @s[]);
mismatch@@const int;
mismatch@@typedef int;
@enum E{A};struct S{int a;};struct T;
@enum{A=-2147483647-1,B=2147483647};
mismatch@enum{@A=-2147483649};
mismatch@int f(void);long @f(void);
mismatch@int f(int a);int @f(int a,int b);
mismatch@int f(char a);int @f(signed char a);
mismatch@int f(long a);int @f(long long a);
mismatch@int f(int a[]);int @f(int a);
mismatch@struct S{int a;};struct T{int a;};int f(struct S a);int @f(struct T a);
mismatch@int f(int a[][2]);int @f(int a[][3]);
@int f(int a[]);int f(int a[5]);enum E{A};int g(enum E e);int g(int a);
mismatch@int f(int a);int @f(long a){return 1;}
mismatch@int @mcdc_out(int a);
mismatch@void @mcdc_out(long a);
mismatch@long @mcdc_in(void);
@int mcdc_in(void);int mcdc_in(void);
mismatch@typedef int @T(int a);
mismatch@int f(int a,@int){return a;}
# values
mismatch@int f(int a){return @f(a,a);}
mismatch@struct S{int a;}s;int g(int a){return a;}int f(void){return g(@s);}
mismatch@void f(void){int a[2];@1+a;}
mismatch@void f(void){int a[2];(@a);}
mismatch@void f(void){int a[2];(void)@a;}
mismatch@int f(void){int a[2];@return a;}
mismatch@int g(int b){return b;}int f(void){int a[2];return g(@a);}
mismatch@void f(int a){@f;}
undeclared@void g(int a){a=1+@x;}
mismatch@struct S{int a;}s;void f(int c){@c?s:s;}
mismatch@void g(void){}void f(int c){c?g():(void)c;@c?g():c;}
mismatch@struct S{int a;}s;int f(void){return @(int)s;}
mismatch@struct S{int a;}s;void f(void){@(struct S)s;}
@struct S{int a;}s;void f(void){(void)s;}
mismatch@int f(int a){return @f(x,a);}
mismatch@struct S{int a;}s;int f(void){return @s<1;}
mismatch@struct S{int a;}s;int f(void){return @-s;}
mismatch@struct S{int a;}s;int f(void){return 1||@!s;}
mismatch@struct S{int a;}s;int f(void){return 1+(@s&&1);}
mismatch@struct S{int a;};struct T{int a;}t;void g(struct S s){}void f(void){g(@t);}
mismatch@int f(int a){return @a();}
undeclared@int f(void){return @g();}
mismatch@struct S{int a;}s;int g(int a){return a;}int f(void){return g(@(s));}
mismatch@struct S{int a;}s;int f(void){return (@s+1);}
mismatch@void f(void){int a[2];@if(a);}
mismatch@struct S{int a;}s;int f(void){return @s*1;}
mismatch@struct S{int a;}s;int f(void){return @1/s;}
mismatch@struct S{int a;}s;int f(void){return @s%2;}
mismatch@struct S{int a;}s;int f(void){return @1-s;}
mismatch@struct S{int a;}s;int f(void){return @s<<1;}
mismatch@struct S{int a;}s;int f(void){return @1>>s;}
mismatch@struct S{int a;}s;int f(void){return @1>s;}
mismatch@struct S{int a;}s;int f(void){return @s<=1;}
mismatch@struct S{int a;}s;int f(void){return @s>=1;}
mismatch@struct S{int a;}s;int f(void){return @s==s;}
mismatch@struct S{int a;}s;int f(void){return @1!=s;}
mismatch@struct S{int a;}s;int f(void){return @s&1;}
mismatch@struct S{int a;}s;int f(void){return @1^s;}
mismatch@struct S{int a;}s;int f(void){return @s|1;}
mismatch@struct S{int a;}s;int f(void){return @1&&s;}
mismatch@struct S{int a;}s;int f(void){return @s||1;}
mismatch@struct S{int a;}s;int f(void){return @~s;}
mismatch@struct S{int a;}s;int f(void){return @+s;}
mismatch@void f(void){int a[2];@a==a;}
mismatch@void f(void){int a[2];@!a;}
mismatch@void g(void){}int f(void){return @g()+1;}
mismatch@int f(void){return @!f;}
mismatch@int f(void){@return f;}
mismatch@struct S{int a;}s;int f(void){return @s?1:2;}
mismatch@struct S{int a;}s;void f(int c){@c?s:1;}
mismatch@void f(int c){int a[2];@c?a:a;}
@void g(void){}void f(int c){c?g():(void)c;c?1:2L;}
mismatch@void g(void){}int f(void){return @(int)g();}
mismatch@int f(void){int a[2];return @(int)a;}
mismatch@struct S{int a;}s;int f(int c){return @(struct S)c;}
@enum E{A};int f(int a){return (enum E)a+(_Bool)a;}
mismatch@int f(int a){return @f();}
mismatch@struct S{int a;};int g(struct S s){return s.a;}int f(int x){return g(@x);}
mismatch@void h(void){}int g(int a){return a;}int f(void){return g(@h());}
@struct S{int a;}s;struct S h(void){return s;}int g(struct S p){return p.a;}int f(void){return g(h());}
@void g(long a){}void f(char c){g(c);g(1);}
# bodies
duplicate label@void f(int a){switch(a){case 1:break;@case 1:break;}}
duplicate label@void f(char a){switch(a){case 1:;@case 4294967297:;}}
@void f(long a){switch(a){case 1:;case 4294967297:;}}
duplicate label@void f(int a){switch(a){default:;@default:;}}
not constant@void f(int a){switch(a){case @(a):;}}
@void f(int a){switch(a){case 1:switch(a){case 1:;}default:;}}
mismatch@struct S{int a;}s;void f(void){@switch(s){case 1:;}}
mismatch@struct S{int a;}s;void f(void){@if(s);}
undeclared@void f(void){for(struct @U i;i;);}
mismatch@void f(void){@while(f());}
mismatch@void f(void){@break;}
mismatch@void f(int a){switch(a){case 1:@continue;}}
@void f(int a){do{while(a)break;continue;}while(a);}
mismatch@void f(void){@return 1;}
mismatch@void f(void){@return x;}
mismatch@int f(void){@return;}
mismatch@struct S{int a;};struct T{int a;}t;struct S f(void){@return t;}
@int f(void){while(1/0);}
mismatch@struct S{int a;}s;void f(void){@for(;s;);}
mismatch@struct S{int a;}s;void f(void){@do;while(s);}
undeclared@void f(void){@x;y;}
mismatch@void f(int a){int t[2];for(a=1,@t;;a++);}
duplicate label@void f(unsigned a){switch(a){case -1:;@case 4294967295u:;}}
duplicate label@void f(int a){switch(a){case 1:case 2:@case 1:;}}
@enum{A,B};void f(int a){switch(a){case A:;case B:;case 'a':;default:;}}
not constant@void f(int a){switch(a){case @1/0:;}}
not constant@void g(void){}void f(int a){switch(a){case 1:;case @g():;}}
mismatch@void f(void){int a[2];@switch(a){default:;}}
mismatch@void f(void){@switch(f()){default:;}}
mismatch@struct S{int a;}s;void f(void){@if(s);else;}
mismatch@struct S{int a;}s;void f(void){@while(s);}
mismatch@void f(int a){if(a)@break;}
mismatch@void f(void){@continue;}
@void f(int a){for(;a;)if(a)break;else continue;}
@void f(int a){switch(a){case 1:if(a)break;default:while(a)continue;}}
mismatch@void f(int a){while(a);@continue;}
mismatch@struct S{int a;}s;int f(void){@return s;}
mismatch@struct S{int a;};struct S f(void){@return 1;}
mismatch@void g(void){}void f(void){@return g();}
mismatch@void g(void){}int f(void){@return g();}
@struct S{int a;}s;struct S f(int a){return s;}long g(char c){return c;}void h(void){return;}
# limits
type limit@int a[40000];void f(void){static int @b[40000];}
type limit@struct S{int a[40000];}s;void g(struct S s){}void @f(void){g(s);g(s);}
type limit@struct S{int a[40000];};void @f(struct S a,struct S b){}
type limit@struct S{int a[40000];}s;struct S g(void){return s;}void @f(void){g();g();}
type limit@int f(@int[][65537]);
type limit@int @t[65537];
@int t[65536];
@typedef int T[70000];
type limit@typedef int T[70000];T @x;
type limit@int f(int @a[][65537]){return 1;}
type limit@struct S{int a[40000];int @b[40000];};
type limit@int a[40000];int @b[40000];
undeclared@int a[40000];int b[40000]={@x};
type limit@int @f(void){int t[40000];{int u[40000];}return x;}
type limit@int f(void){int @t[65537];return 1;}
type limit@void @f(int a,int b,int c,int d,int e,int g,int h,int i,int j,int k,int l,int m,int n,int o,int p,int q,int r);
type limit@struct S{int a[40000];};void @f(struct S a,struct S){}
not constant@struct S{int a[40000];}s;int g(struct S p){return 1;}int f(struct S b,int a[@g(s)]){return 1;}
type limit@int @t[9223372036854775807][9223372036854775807];
type limit@int f(int @a[][9223372036854775807]);
type limit@struct S{int @a[9223372036854775807];};
@void f(int a,int b,int c,int d,int e,int g,int h,int i,int j,int k,int l,int m,int n,int o,int p,int q){}
mismatch@struct S{int @a(int b[][65537]);};
type limit@struct S{int @a[65537];};
@struct S{int a[65535];int b;};
type limit@struct S{int a[65535];int b;int @c;int d;};
@int a[65535];int b;
type limit@int a[65535];int b;int @c;int d;
type limit@void f(void){static int a[65536];static int @b;}
@void f(int a){int t[65535];}
type limit@void @f(int a,int b){int t[65535];}
type limit@struct S{int a[32768];};void g(struct S s){}void @f(struct S a){int b;g(a);}
@struct S{int a[32768];};void g(struct S s){}void f(struct S a){g(a);}
type limit@struct S{int a[65536];};int f(struct S @a[][2]);
# lists
mismatch@struct S{int a;}s;int f(void){int x=@(s);return x;}
mismatch@int t[2]=@{1,2,3};
mismatch@struct S{int a;}s;void f(void){int t[2]={1,@s};}
mismatch@int x=@{1,2};
@int x={{1}};int t[][2]={0};int u[2][2]={{0},{1,2}};
not constant@int t[2]={@1/0};
@int f(void){int t[2]={1/0};return t[0];}
not constant@int a;int b=@a;
mismatch@int f(void){int t[2]=@1+x;return 1;}
mismatch@struct S{int a;}s;struct S u=@s;
@struct S{int a;}s;int f(void){struct S u=s;struct S v={u.a};return v.a;}
mismatch@struct S{int a[2];};const struct S s={{1}};void f(void){@s.a[0]=2;}
mismatch@struct S{int a;}s=@{1,2};
mismatch@struct S{int a;};void f(void){struct S s=@{1,2};}
mismatch@int t[2][2]={@1};
mismatch@int t[2][2]={{1},@{1,2,3}};
mismatch@struct S{int a[2];int b;}s={@1,2};
@struct S{int a[2];int b;}s={{1,2},3};struct S t[2]={{{1}},{{0},2}};
@struct S{int a[2];int b;}s={0};int t[2][2]={1-1};int x={0};
@void f(int a){int t[2]={a};int x={a};int u[2][2]={0};}
mismatch@struct S{int a;};struct T{int a;}t;void f(void){struct S s=@t;}
mismatch@struct S{int a;};void f(void){struct S s=@1;}
mismatch@void f(void){int a[2];int x=@a;}
mismatch@void f(void){int a[2];int b[2]=@a;}
mismatch@void f(void){int t[2]={@(void)1};}
@struct S{int a;};struct T{struct S s;int b;};void f(struct S p){struct T t={p,1};}
not constant@void f(int a){static int b=@a;}
not constant@int a;struct S{int b;}s={@a};
not constant@int x=@1%0;
not constant@int x=@1<<-1;
not constant@int g(void);int x=@g();
@enum{A};static int x=A+(int)(char)300;long y=1?2:1/0;int z=0&&1/0;int w=1||1/0;
mismatch@int x=@(void)1;
# places
mismatch@int g(int a[]){return a[0];}const int t[2]={1,2};int f(void){return g(@t);}
@int g(const int a[]){return a[0];}int t[2]={1,2};int f(void){return g(t);}
mismatch@void f(int x){int a[2];@x=a;}
mismatch@void f(const int a){@a++;}
mismatch@void f(void){@--f;}
mismatch@struct S{int a;}s;void f(void){@s+=s;}
mismatch@int f(int a){return a;}void g(void){@f(x)=1;}
mismatch@int f(int a){return a;}int g(void){return @f(x)[0];}
mismatch@void g(void){@(1+x)=1;}
undeclared@void g(void){@x=1;}
mismatch@struct S{int a;}s;struct S g(void){return s;}int f(void){return @g().a;}
mismatch@typedef const int C;struct S{C a;}s;struct S u;void f(void){s=u;@s.a=1;}
mismatch@struct S{int a;}s;void f(void){int t[2];@s.q=t;}
mismatch@struct S{int a;}s;struct S g(int a){return s;}int f(void){return @g(x).a;}
mismatch@struct S{int a;}s;int f(int t[]){return @t[s];}
mismatch@int f(int a){return @a[0];}
mismatch@int f(int a){return @a.b;}
mismatch@const int c=1;void f(void){@c=2;}
mismatch@void f(const int t[]){@t[0]=2;}
mismatch@struct S{int a;}s;struct T{int a;}t;void f(void){@s=t;}
mismatch@int g(long a[]){return a[0]>1;}int t[2];int f(void){return g(@t);}
@int g(int a[][2]){return a[0][1];}int t[2][2];int h(int a[]){return a[1];}int f(void){return g(t)+h(t[1]);}
@struct S{int a[2];}t[2];int f(int i){return t[i].a[1]+(t[0]).a[(i)];}
mismatch@struct S{int a;}t[2];int f(void){return @t.a;}
mismatch@struct S{int a;}s;int f(void){return @s[0];}
mismatch@void f(void){@1[0];}
mismatch@int f(void){int t[2];return @t[t];}
mismatch@void f(void){int a[2];int b[2];@a=b;}
mismatch@void f(int a){@1=a;}
mismatch@enum{A};void f(void){@A=1;}
mismatch@void f(int a){@-a=1;}
mismatch@struct S{int a;};void f(const struct S s,struct S t){@s=t;}
mismatch@struct S{int a;};void f(const struct S s){@s.a=1;}
mismatch@const int t[2]={1,2};void f(void){@t[0]+=1;}
mismatch@struct S{int a;}s;void f(int a){@a=s;}
mismatch@struct S{int a;}s;void f(int a){@s=a;}
mismatch@void g(void){}void f(int a){@a=g();}
mismatch@void f(int a){int t[2];@a+=t;}
mismatch@struct S{int a;}s;void f(int a){@a<<=s;}
mismatch@struct S{int a;}s;void f(void){@s++;}
mismatch@void f(void){int a[2];@++a;}
mismatch@void f(void){@1++;}
@struct S{int a;};void f(const struct S s,int a){struct S t;t=s;t.a=2;a=1L;a+=2L;a<<=1;a++;--a;}
mismatch@int g(int a[]){return a[0];}int f(int x){return g(@x);}
mismatch@struct S{int a;}s;int g(int a[]){return a[0];}int f(void){return g(@s);}
mismatch@int g(int a[]){return a[0];}int f(const int a[]){return g(@a);}
mismatch@int g(int a[]){return a[0];}int t[2][2];int f(void){return g(@t);}
@int g(const int a[]){return a[0];}const int t[2]={1,2};int f(const int a[]){return g(t)+g(a);}
@struct S{int a[2];}s;int g(int a[]){return a[0];}int f(int a[]){return g(s.a)+g(a);}
# what a fault inside silences
mismatch@void f(void){for(void @v;v;);}
type limit@void f(void){for(int @t[70000];t;);}
mismatch@struct S;void f(void){for(struct S @s;s;);}
undeclared@void f(void){for(int t[2]={@x};t;);}
no body@struct S{int a[40000];}s;int g(struct S p);int f(void){int t[40000];return @g(s);}
mismatch@struct S{int a[40000];}s;int g(struct S p){return 1;}int f(void){int t[40000];return @g(s,1);}
undeclared@struct S{int a[40000];}s;int g(struct S p,int q){return 1;}int f(void){int t[40000];return g(s,@x);}
type limit@struct S{int a[40000];}s;int g(struct S p){return 1;}int h(int a){return a;}int @f(void){int t[40000];return h(g(s),1);}
type limit@int f(long a);int f(int @a[][65537]);
redeclared@int f(int a,int b);int f(long a,int @a);
redeclared@void mcdc_out(long a,int @a);
undeclared@int f(int a);int f(struct @U b,int c);
mismatch@struct S{int a;}s;struct S g(void){return s;}void f(void){@(g().a)=1;}
mismatch@struct S{int a;}s;struct S g(void){return s;}int f(void){return @(g().a)[0];}
mismatch@struct S{int a;}s;struct S g(void){return s;}void f(void){@(g().a)++;}
mismatch@void f(void){@((1+x)[0])=1;}
mismatch@void f(void){@(f[0])=1;}
undeclared@void f(void){(@u.a)=1;}
undeclared@void f(void){(@u[0])=1;}
redeclared@int f(void);typedef int @f(void);
redeclared@struct S;typedef struct S T;struct S{int a;int @a;};T x;
";

/// Whether a source has this fault at this place, and is the first.
fn has_fault(alloc: Global, words: &str, front: &str, back: &str) -> Result<bool, Fail> {
    let source = joined(alloc, &[front, back])?;
    match judged(alloc, &source)? {
        Outcome::Refused { words: found, at } => Ok(found == words && at == front.len()),
        _ => Ok(false),
    }
}

fn is_right(alloc: Global, row: &str) -> Result<bool, Fail> {
    let Some((words, text)) = row.split_once('@') else {
        return Ok(row.starts_with('#'));
    };
    if let Some((front, back)) = text.split_once('@') {
        return has_fault(alloc, words, front, back);
    }
    Ok(matches!(judged(alloc, text.as_bytes())?, Outcome::Typed { .. }))
}

#[test]
fn faults(rt: HostRuntime) -> Result<(), Fail> {
    for row in ROWS.lines() {
        assert!(rt; is_right(rt.alloc(), row)?, "{row}");
    }
    Ok(())
}
