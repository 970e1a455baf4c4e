//! Sources and their decisions, read off by hand. Each decision is shown as its function, the start
//! and text of its root, its tree, and the start and text of each condition.

/// A row is a source, `@` and its decisions. A line without `@` tells what follows.
pub static ROWS: &str = "\
# operators of a value that is returned
int f(int a,int b,int c){return !(a&&b)||c;}@0@32:!(a&&b)||c (!(0&1)|2) 34:a 37:b 41:c;
int f(int a,int b,int c){return (a&&b)||(a&&c);}@0@32:(a&&b)||(a&&c) ((0&1)|(2&3)) 33:a 36:b 41:a 44:c;
int f(int a,int b,int c,int d){return (a||b)&&(c||d);}@0@38:(a||b)&&(c||d) ((0|1)&(2|3)) 39:a 42:b 47:c 50:d;
int f(int p,int q,int r,int s){return (p<q) == (r<s);}@0@38:(p<q) == (r<s) 0 38:(p<q) == (r<s);0@39:p<q 0 39:p<q;0@48:r<s 0 48:r<s;
int f(int a,int b,int c){return a<b==b<c;}@0@32:a<b==b<c 0 32:a<b==b<c;0@32:a<b 0 32:a<b;0@37:b<c 0 37:b<c;
int f(int a,int b){return ((a&&b));}@0@28:a&&b (0&1) 28:a 31:b;
int f(int a,int b){return (a)||((b));}@0@26:(a)||((b)) (0|1) 27:a 33:b;
int f(int a){return !a;}@0@20:!a !0 21:a;
int f(int a){return !!a;}@0@20:!!a !!0 22:a;
int f(int a,int b){return !(a<b);}@0@26:!(a<b) !0 28:a<b;
int f(int a,int b){return !a==b;}@0@26:!a==b 0 26:!a==b;0@26:!a !0 27:a;
int f(int a,int b,int c){return (a&&b)==c;}@0@32:(a&&b)==c 0 32:(a&&b)==c;0@33:a&&b (0&1) 33:a 36:b;
int f(int a,int b,int c){return (a<b)+c;}@0@33:a<b 0 33:a<b;
long f(int a,int b){return (long)(a>=b);}@0@34:a>=b 0 34:a>=b;
int f(int a,int b){return -(a!=b);}@0@28:a!=b 0 28:a!=b;
int f(int a,int b,int c,int d){return a<=b?c:d;}@0@38:a<=b 0 38:a<=b;
int f(int a,int b,int c,int d){return a?b:c&&d;}@0@38:a 0 38:a;0@42:c&&d (0&1) 42:c 45:d;
int f(int a,int b){return (a?b:1)&&b;}@0@26:(a?b:1)&&b (0&1) 27:a?b:1 35:b;0@27:a 0 27:a;
int f(int a){return a;}int g(int a){return a+1;}@
# arguments and indexes
int g(int v,int w){return v+w;}int f(int x,int p,int q){int y;y = x < 3;g(p && q, x);return y;}@1@66:x < 3 0 66:x < 3;1@74:p && q (0&1) 74:p 79:q;
int f(int n){return n>0 && f(n-1);}@0@20:n>0 && f(n-1) (0&1) 20:n>0 27:f(n-1);
int f(int a){return a;}int g(int a,int b,int c){return a&&f(b<c);}@1@55:a&&f(b<c) (0&1) 55:a 58:f(b<c);1@60:b<c 0 60:b<c;
int f(int a){return a;}int g(int a,int b,int c,int d){return f(a&&f(b||f(c==f(!d))));}@1@63:a&&f(b||f(c==f(!d))) (0&1) 63:a 66:f(b||f(c==f(!d)));1@68:b||f(c==f(!d)) (0|1) 68:b 71:f(c==f(!d));1@73:c==f(!d) 0 73:c==f(!d);1@78:!d !0 79:d;
int f(int a,int b){int t[2]={0};return t[a<b];}@0@41:a<b 0 41:a<b;
int f(int t[],int a,int b){t[!a]=b;return t[a<b];}@0@29:!a !0 30:a;0@44:a<b 0 44:a<b;
struct S{int m;};int f(int a,int b){struct S t[2];t[a==b].m=1;return t[0].m;}@0@52:a==b 0 52:a==b;
struct S{int m;};int h(struct S s){return s.m;}int f(int a,int b){struct S t[2]={{1},{2}};return h(t[a<b]);}@1@101:a<b 0 101:a<b;
int h(int t[]){return t[0];}int f(int a,int b){int t[2][2]={{0}};return h(t[!b]);}@1@76:!b !0 77:b;
struct S{int m;};struct S f(int a,int b){struct S t[2]={{1},{2}};struct S s=t[a<b];t[a>b]=s;return t[a!=b];}@0@78:a<b 0 78:a<b;0@85:a>b 0 85:a>b;0@101:a!=b 0 101:a!=b;
# expressions as statements, and assignments
void f(int a,int b){a<b;}@0@20:a<b 0 20:a<b;
void f(int a,int b){(void)(a||b);}@0@27:a||b (0|1) 27:a 30:b;
void f(int a,int b){a+=a<b;}@0@23:a<b 0 23:a<b;
void mcdc_out(int v);void f(int a,int b){mcdc_out(a>b);}@0@50:a>b 0 50:a>b;
void v(int a){}void f(int a,int b){a?v(!b):v(b);}@1@35:a 0 35:a;1@39:!b !0 40:b;
# initial values
int f(int a){int x=!a;return x;}@0@19:!a !0 20:a;
int f(int a,int b){int y=a<5;return y && a != 0 && 10 / b > 1;}@0@25:a<5 0 25:a<5;0@36:y && a != 0 && 10 / b > 1 ((0&1)&2) 36:y 41:a != 0 51:10 / b > 1;
int f(int a,int b){int t[2]={a==b,a&&b};return t[0];}@0@29:a==b 0 29:a==b;0@34:a&&b (0&1) 34:a 37:b;
struct S{int m;};int f(int a,int b){struct S s={a!=b};return s.m;}@0@48:a!=b 0 48:a!=b;
static int x=1<2;int f(void){static int y=!0;return x+y;}@
struct S{int m;};struct S g(int a){struct S s={a};return s;}int f(int a,int b){struct S s=g(a<b);s=g(!a);g(a||b);return s.m;}@1@92:a<b 0 92:a<b;1@101:!a !0 102:a;1@107:a||b (0|1) 107:a 110:b;
# controlling expressions, statements in statements, and several functions
int f(void){long x=4294967296;if(x)return 1;return 0;}@0@33:x 0 33:x;
int f(int n){while(n>0)n--;return n;}@0@19:n>0 0 19:n>0;
void f(int a,int b){do a=a<b;while(b);}@0@25:a<b 0 25:a<b;0@35:b 0 35:b;
int f(int a,int b){int i;for(i=!a;b;i=a==b);return i;}@0@31:!a !0 32:a;0@34:b 0 34:b;0@38:a==b 0 38:a==b;
void f(int a,int b){for(int i=a<b;i;i--)b=i!=1;}@0@30:a<b 0 30:a<b;0@34:i 0 34:i;0@42:i!=1 0 42:i!=1;
void f(int a,int b){for(;;)if(a)break;else{b=a>1;}}@0@30:a 0 30:a;0@45:a>1 0 45:a>1;
int f(int a,int b){switch(a||b){default:return a&&b;}}@0@26:a||b (0|1) 26:a 29:b;0@47:a&&b (0&1) 47:a 50:b;
int f(int a){return !a;}int g(void){return 1;}int h(int a){if(a)return 1;return 0;}@0@20:!a !0 21:a;2@62:a 0 62:a;
# operators that are evaluated in full, between Boolean operands
int f(int a,int b,int c){return (a<1^b<1)&&c;}@0@32:(a<1^b<1)&&c ((0 xor 1)&2) 33:a<1 37:b<1 43:c;
int f(int a,int b){return (a<1)&(b<1);}@0@26:(a<1)&(b<1) (0 and 1) 27:a<1 33:b<1;
int f(int a,int b){return a==1|b!=1;}@0@26:a==1|b!=1 (0 or 1) 26:a==1 31:b!=1;
int f(int a,int b){return ((a<1)^((b<1)));}@0@27:(a<1)^((b<1)) (0 xor 1) 28:a<1 35:b<1;
int f(int a,int b,int c){return a<1&b<1|b<1^c<1;}@0@32:a<1&b<1|b<1^c<1 ((0 and 1) or (2 xor 3)) 32:a<1 36:b<1 40:b<1 44:c<1;
int f(int a,int b,int c){return a<1&b<1&c<1;}@0@32:a<1&b<1&c<1 ((0 and 1) and 2) 32:a<1 36:b<1 40:c<1;
int f(int a,int b,int c){return a<1|(b<1|c<1);}@0@32:a<1|(b<1|c<1) (0 or (1 or 2)) 32:a<1 37:b<1 41:c<1;
int f(int a,int b,int c){return (a&&b)|(b||c);}@0@32:(a&&b)|(b||c) ((0&1) or (2|3)) 33:a 36:b 40:b 43:c;
int f(int a,int b){return !(a<1&b<1);}@0@26:!(a<1&b<1) !(0 and 1) 28:a<1 32:b<1;
int f(int a,int b){return !a&!b;}@0@26:!a&!b (!0 and !1) 27:a 30:b;
int f(int a,int b){int y=a<1|b<1;return y+(a<2^b<2);}@0@25:a<1|b<1 (0 or 1) 25:a<1 29:b<1;0@43:a<2^b<2 (0 xor 1) 43:a<2 47:b<2;
int f(int a,int b){if(a<1&b<1)return 1;while(a<1^b<1)a++;return 0;}@0@22:a<1&b<1 (0 and 1) 22:a<1 26:b<1;0@45:a<1^b<1 (0 xor 1) 45:a<1 49:b<1;
int f(int a,int b,int c){return a<1|b<1?c:b;}@0@32:a<1|b<1 (0 or 1) 32:a<1 36:b<1;
# in conditions, operands and arguments
int f(int a,int b,int c){return (a<1&b<1)==c;}@0@32:(a<1&b<1)==c 0 32:(a<1&b<1)==c;0@33:a<1&b<1 (0 and 1) 33:a<1 37:b<1;
int g(int v){return v;}int f(int a,int b){return g(a<1&b<1)&&a;}@1@49:g(a<1&b<1)&&a (0&1) 49:g(a<1&b<1) 61:a;1@51:a<1&b<1 (0 and 1) 51:a<1 55:b<1;
int f(int a,int b){int t[2]={0};return t[a<1|b<1]<a^b<1;}@0@39:t[a<1|b<1]<a^b<1 (0 xor 1) 39:t[a<1|b<1]<a 52:b<1;0@41:a<1|b<1 (0 or 1) 41:a<1 45:b<1;
# objects of type _Bool, calls and casts
int f(_Bool a,_Bool b){return a|b;}@0@30:a|b (0 or 1) 30:a 32:b;
int f(_Bool a,int b){return a&b<1;}@0@28:a&b<1 (0 and 1) 28:a 30:b<1;
struct S{_Bool p;_Bool q[2];};int f(void){struct S s={1};return s.p^s.q[1];}@0@64:s.p^s.q[1] (0 xor 1) 64:s.p 68:s.q[1];
_Bool g(int v){return v;}int f(int a){return g(a)&g(1);}@1@45:g(a)&g(1) (0 and 1) 45:g(a) 50:g(1);
int f(int a,int b){return (_Bool)a^(_Bool)b;}@0@26:(_Bool)a^(_Bool)b (0 xor 1) 26:(_Bool)a 35:(_Bool)b;
void f(_Bool a,_Bool b){a=a&b;}@0@26:a&b (0 and 1) 26:a 28:b;
# operands that are not both Boolean, and compound assignments
int f(int a,int b){return a&b;}@
int f(_Bool a,int b){return a&b;}@
int f(int a,int b,int c){return (a<b)&c;}@0@33:a<b 0 33:a<b;
int f(int a,int b,int c){return c^(a&&b);}@0@35:a&&b (0&1) 35:a 38:b;
int f(int a,int b,int c){return (a<b&c)|b<c;}@0@33:a<b 0 33:a<b;0@40:b<c 0 40:b<c;
int f(int a,int b,int c){return (a<b&c)&&b;}@0@32:(a<b&c)&&b (0&1) 33:a<b&c 41:b;0@33:a<b 0 33:a<b;
int f(int a,int b){if(a&b)return 1;return 0;}@0@22:a&b 0 22:a&b;
int f(int a,int b){return (int)(a<b)&b<3;}@0@32:a<b 0 32:a<b;0@37:b<3 0 37:b<3;
int f(_Bool a,_Bool b){return +a&b;}@
int f(_Bool a,_Bool b){return (a?a:b)&b;}@0@31:a 0 31:a;
int f(int a,int b){return (a<b)+(b<3)&a<3;}@0@27:a<b 0 27:a<b;0@33:b<3 0 33:b<3;0@38:a<3 0 38:a<3;
void f(int a,int b){a&=a<b;}@0@23:a<b 0 23:a<b;
void f(_Bool a,_Bool b){a^=b;}@
void f(_Bool a,int b){a|=b<1&b<2;}@0@25:b<1&b<2 (0 and 1) 25:b<1 29:b<2;
# and constants
int f(int a,int b){return 1&(a<b);}@0@29:a<b 0 29:a<b;
int f(int a,int b){return (1<2)&(a<b);}@0@26:(1<2)&(a<b) (0 and 1) 27:1<2 33:a<b;
int f(void){return (1<2)&(2<3);}@
void f(void){while((1<2)^!1);}@
# integer constant expressions are none
void f(void){while(1){}}@
void f(int a){if(0)a=1;while(1/1-1);while(1/0);}@
int f(void){return 1<2;}@
int f(void){return (1&&0)||!1;}@
enum{E};int f(void){return E<'a'||(char)1;}@
int f(void){return -1<1u;}int g(void){return -2147483648<0;}@
int f(int a){return a&&1;}@0@20:a&&1 (0&1) 20:a 23:1;
int f(int a){return (1&&0)||a;}@0@20:(1&&0)||a ((0&1)|2) 21:1 24:0 28:a;
int f(int a,int b,int c){return 1?a<b:c;}@0@34:a<b 0 34:a<b;
int f(int a){static int n=1;return n<2?a:n<3;}@0@35:n<2 0 35:n<2;0@41:n<3 0 41:n<3;
";

/// A flap controller.
pub static FLAPS: &str = "\
# 1 \"flap.c\"
typedef enum { UP, TAKEOFF, LANDING } Lever;
typedef struct { int speed; _Bool ground; } Air;
extern int mcdc_in(void);
void mcdc_out(int angle);
static int angle;
static int target(Lever lever) {
  switch (lever) {
  case UP: return 0;
  case TAKEOFF: return 15;
  case LANDING: return 30;
  default: return 0;
  }
}
int cycle(int lever) {
  Air air;
  air.speed = mcdc_in();
  air.ground = mcdc_in();
  int want = target(lever);
  if (want > 15 && (air.speed > 160 || air.ground)) want = 15;
  if (angle < want) angle += 5;
  else if (angle > want) angle -= 5;
  mcdc_out(angle);
  return angle;
}
";

pub static FLAPS_DECISIONS: &str = "\
1@450:want > 15 && (air.speed > 160 || air.ground) (0&(1|2)) 450:want > 15 464:air.speed > 160 483:air.ground;\
1@513:angle < want 0 513:angle < want;\
1@550:angle > want 0 550:angle > want;";

/// What stands before a piece, the piece, how often, and what comes after it; and the vectors of
/// the decision, how many they are where they are more than eight, or why it is refused.
pub type LargeRow = (
    &'static str,
    &'static str,
    usize,
    &'static str,
    &'static str,
);

/// Decisions of many operators.
pub static LARGE: [LargeRow; 9] = [
    ("int f(int a){return ", "!", 189, "a;}", "T=F;F=T;"),
    ("int f(int a){return ", "!", 190, "a;}", "T=T;F=F;"),
    ("int f(int a){return ", "a&&", 63, "a;}", "65;"),
    (
        "int f(int a){return ",
        "a&&",
        64,
        "a;}",
        "20: too many conditions 65",
    ),
    (
        "int f(int a){return ",
        "a&&",
        189,
        "a;}",
        "20: too many conditions 190",
    ),
    (
        "int f(int a,int b){return ",
        "(a||b)&&",
        10,
        "(a||b);}",
        "4095;",
    ),
    (
        "int f(int a,int b){return ",
        "(a||b)&&",
        11,
        "(a||b);}",
        "too many paths 8191;",
    ),
    ("int f(int a){return ", "a<1^", 11, "a<1;}", "4096;"),
    (
        "int f(int a){return ",
        "a<1^",
        12,
        "a<1;}",
        "too many paths 8192;",
    ),
];

/// Sources and the vectors of their decisions, in the order of their numbers, after `@`.
pub static VECTORS: &str = "\
int f(int a,int b,int c){return !(a&&b)||c;}@TTT=T;TTF=F;TF-=T;F--=T;
int f(int a,int b,int c){return (a&&b)||(a&&c);}@TT--=T;TFTT=T;TFTF=F;TFF-=F;F-TT=T;F-TF=F;F-F-=F;
int f(int a,int b,int c){return (a<1^b<1)&&c;}@TT-=F;TFT=T;TFF=F;FTT=T;FTF=F;FF-=F;
int f(int a,int b){return (a<1)&(b<1);}@TT=T;TF=F;FT=F;FF=F;
int f(int a,int b){return !(a<1|b<1);}@TT=F;TF=F;FT=F;FF=T;
int f(int a,int b,_Bool c){return (a&&b)|c;}@TTT=T;TTF=T;TFT=T;TFF=F;F-T=T;F-F=F;
";
