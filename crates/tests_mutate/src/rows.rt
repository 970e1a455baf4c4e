//! Sources and the changes of their mutants, read off by hand: E for an exchanged node, N, T and F
//! for a condition that is negated, fixed to true or fixed to false, S for a shifted relation; then
//! the byte at which the node or the condition begins.

/// A row is a source, `@` and its changes. A line without `@` tells what follows.
pub static ROWS: &str = "\
# nodes in preorder, and then conditions
int f(int a,int b){return a&&b;}@E26;N26;T26;F26;N29;T29;F29;
int f(int a,int b){return a||b;}@E26;N26;T26;F26;N29;T29;F29;
int f(int a,int b,int c){return a&&b||c;}@E32;E32;N32;T32;F32;N35;T35;F35;N38;T38;F38;
int f(int a,int b,int c){return a&&(b||c);}@E32;E36;N32;T32;F32;N36;T36;F36;N39;T39;F39;
int f(int a,int b,int c){return !(a||b)&&c;}@E32;E34;N34;T34;F34;N37;T37;F37;N41;T41;F41;
int f(int a){return !a;}@N21;T21;F21;
int f(int a){return !!a;}@N22;T22;F22;
# relations and equalities have a fourth mutant
int f(int a,int b){return a<b;}@N26;T26;F26;S26;
int f(int a,int b){return a<b&&a<=b&&a>b&&a>=b&&a==b&&a!=b;}@E26;E26;E26;E26;E26;N26;T26;F26;S26;N31;T31;F31;S31;N37;T37;F37;S37;N42;T42;F42;S42;N48;T48;F48;S48;N54;T54;F54;S54;
int f(int a,int b){if(a<<b)return 1;return 0;}@N22;T22;F22;
# operators that are evaluated in full are nodes, where both operands are Boolean
int f(int a,int b){return (a<b)&(a==b);}@E26;N27;T27;F27;S27;N33;T33;F33;S33;
int f(int a,int b){return (a<b)|(a==b);}@E26;N27;T27;F27;S27;N33;T33;F33;S33;
int f(_Bool a,_Bool b){return a^b;}@E30;N30;T30;F30;N32;T32;F32;
int f(int a,int b,int c){return ((a<b)^(b<c))&(a<c);}@E32;E33;N34;T34;F34;S34;N40;T40;F40;S40;N47;T47;F47;S47;
int f(_Bool a,int b,int c){return a|!(b^c)&&b;}@E34;E34;N34;T34;F34;N38;T38;F38;N44;T44;F44;
int f(int a,int b){return (a<b)&a;}@N27;T27;F27;S27;
# conversions and casts on top are no relations
int f(int a){long x=1;if((int)x)return a;return 0;}@N25;T25;F25;
# decisions in a condition come after the decision around them
int f(int p,int q,int r,int s){return (p<q) == (r<s);}@N38;T38;F38;S38;N39;T39;F39;S39;N48;T48;F48;S48;
int f(int a){return a;}int g(int a,int b,int c){return a&&f(b<c);}@E55;N55;T55;F55;N58;T58;F58;N60;T60;F60;S60;
int f(int a,int b,int c){return (a&&b)==c;}@N32;T32;F32;S32;E33;N33;T33;F33;N36;T36;F36;
int f(int a,int b){return (a?b:1)&&b;}@E26;N27;T27;F27;N35;T35;F35;N27;T27;F27;
# decisions of statements, initial values and arguments, and several functions
int f(int n){while(n>0)n--;return n;}@N19;T19;F19;S19;
void f(int a,int b){do a=a<b;while(b);}@N25;T25;F25;S25;N35;T35;F35;
void f(int a,int b){for(int i=a<b;i;i--)b=i!=1;}@N30;T30;F30;S30;N34;T34;F34;N42;T42;F42;S42;
int f(int a,int b){switch(a||b){default:return a&&b;}}@E26;N26;T26;F26;N29;T29;F29;E47;N47;T47;F47;N50;T50;F50;
int f(int a,int b){int t[2]={a==b,a&&b};return t[0];}@N29;T29;F29;S29;E34;N34;T34;F34;N37;T37;F37;
int f(int t[],int a,int b){t[!a]=b;return t[a<b];}@N30;T30;F30;N44;T44;F44;S44;
void v(int a){}void f(int a,int b){a?v(!b):v(b);}@N35;T35;F35;N40;T40;F40;
int f(int a){return !a;}int g(void){return 1;}int h(int a){if(a)return 1;return 0;}@N21;T21;F21;N62;T62;F62;
# what is no decision has none
int f(int a,int b){return a+b;}@
void f(void){while(1){}}@
static int x=1<2;int f(void){static int y=!0;return x+y;}@";
