//! Sources and their texts, worked by hand from the table of insertions.
use crate::reading::{Asked, told};
use std::alloc::Global;

/// The source whose text the tests of faults put too.
pub(crate) const FIRST: &str = "int f(int a,int b){return a&&b;}";

/// Its text.
pub(crate) const FIRST_TEXT: &str = "int f ( int a , int b ) {\n\
    unsigned mcdc_r [ 1 ] ;\n\
    MCDC_H ( 0 ) ;\n\
    {\n\
    MCDC_H ( 2 ) ;\n\
    {\n\
    int mcdc_v = MCDC_D ( 0 , 3 , MCDC_C ( 0 , 0 , 2 , a ) && MCDC_C ( 0 , 0 , 1 , b ) ) ;\n\
    MCDC_H ( 1 ) ;\n\
    return mcdc_v ;\n\
    }\n\
    }\n\
    }\n";

pub(crate) fn is_text(alloc: Global, source: &str, text: &str) -> bool {
    let asked = Asked {
        text: text.as_bytes(),
        failing: None,
    };
    matches!(told(alloc, source, asked), Ok(true))
}

#[test]
fn first(rt: HostRuntime) {
    assert!(rt; is_text(rt.alloc(), FIRST, FIRST_TEXT));
}

#[test]
fn return_without_value(rt: HostRuntime) {
    let source = "void f(int x){if(x)return;}";
    let text = "void f ( int x ) {\n\
    unsigned mcdc_r [ 1 ] ;\n\
    MCDC_H ( 0 ) ;\n\
    {\n\
    MCDC_H ( 3 ) ;\n\
    if ( MCDC_D ( 0 , 5 , MCDC_C ( 0 , 0 , 1 , x ) ) ) {\n\
    MCDC_H ( 4 ) ;\n\
    {\n\
    MCDC_H ( 1 ) ;\n\
    return ;\n\
    }\n\
    }\n\
    }\n\
    MCDC_H ( 2 ) ;\n\
    }\n";
    assert!(rt; is_text(rt.alloc(), source, text));
}

#[test]
fn no_register(rt: HostRuntime) {
    let source = "int f(int a){return a;}";
    let text = "int f ( int a ) {\n\
    MCDC_H ( 0 ) ;\n\
    {\n\
    MCDC_H ( 2 ) ;\n\
    {\n\
    int mcdc_v = a ;\n\
    MCDC_H ( 1 ) ;\n\
    return mcdc_v ;\n\
    }\n\
    }\n\
    }\n";
    assert!(rt; is_text(rt.alloc(), source, text));
}

#[test]
fn decisions_and_a_switch(rt: HostRuntime) {
    let source = "int f(int a,int b){if(a)b=1;switch(b){case 1:a=2;break;default:a=3;}return a>b;}";
    let text = "int f ( int a , int b ) {\n\
    unsigned mcdc_r [ 3 ] ;\n\
    MCDC_H ( 0 ) ;\n\
    {\n\
    MCDC_H ( 2 ) ;\n\
    if ( MCDC_D ( 0 , 11 , MCDC_C ( 0 , 0 , 1 , a ) ) ) {\n\
    MCDC_H ( 3 ) ;\n\
    b = 1 ;\n\
    }\n\
    }\n\
    {\n\
    MCDC_H ( 4 ) ;\n\
    switch ( MCDC_W ( 2 , b ) ) {\n\
    case 1 : MCDC_L ( 2 , 9 ) ;\n\
    {\n\
    MCDC_H ( 5 ) ;\n\
    a = 2 ;\n\
    }\n\
    {\n\
    MCDC_H ( 6 ) ;\n\
    break ;\n\
    }\n\
    default : MCDC_L ( 2 , 10 ) ;\n\
    {\n\
    MCDC_H ( 7 ) ;\n\
    a = 3 ;\n\
    }\n\
    }\n\
    }\n\
    {\n\
    MCDC_H ( 8 ) ;\n\
    {\n\
    int mcdc_v = MCDC_D ( 1 , 13 , MCDC_C ( 1 , 0 , 1 , a > b ) ) ;\n\
    MCDC_H ( 1 ) ;\n\
    return mcdc_v ;\n\
    }\n\
    }\n\
    }\n";
    assert!(rt; is_text(rt.alloc(), source, text));
}

// `&` and `^` between Boolean operands are of the tree; `|` beside a number that is none is of a
// condition. What a condition adds where it is false is the room of what comes after it: 2 and 1
// under `&`, and 4, 2 and 1 under `^` and `&&`.
#[test]
fn operators_evaluated_in_full(rt: HostRuntime) {
    let source = "int f(_Bool a,int b,int c){if(a&b<1|c)return 1;return (a^b<1)&&!c;}";
    let text = "int f ( _Bool a , int b , int c ) {\n\
    unsigned mcdc_r [ 3 ] ;\n\
    MCDC_H ( 0 ) ;\n\
    {\n\
    MCDC_H ( 3 ) ;\n\
    if ( MCDC_D ( 0 , 6 , MCDC_C ( 0 , 0 , 1 , MCDC_D ( 1 , 8 , MCDC_C ( 1 , 0 , 2 , a ) & MCDC_C ( 1 , 0 , 1 , b < 1 ) ) | c ) ) ) {\n\
    MCDC_H ( 4 ) ;\n\
    {\n\
    int mcdc_v = 1 ;\n\
    MCDC_H ( 1 ) ;\n\
    return mcdc_v ;\n\
    }\n\
    }\n\
    }\n\
    {\n\
    MCDC_H ( 5 ) ;\n\
    {\n\
    int mcdc_v = MCDC_D ( 2 , 12 , ( MCDC_C ( 2 , 0 , 4 , a ) ^ MCDC_C ( 2 , 0 , 2 , b < 1 ) ) && ! MCDC_C ( 2 , 0 , 1 , c ) ) ;\n\
    MCDC_H ( 2 ) ;\n\
    return mcdc_v ;\n\
    }\n\
    }\n\
    }\n";
    assert!(rt; is_text(rt.alloc(), source, text));
}

// Without a `default`: its probe stands after the `switch`.
#[test]
fn labels_on_each_other(rt: HostRuntime) {
    let source = "void f(int a){switch(a){case 1:case 2:a=1;}}";
    let text = "void f ( int a ) {\n\
    unsigned mcdc_r [ 1 ] ;\n\
    MCDC_H ( 0 ) ;\n\
    {\n\
    MCDC_H ( 2 ) ;\n\
    switch ( MCDC_W ( 0 , a ) ) {\n\
    case 1 : MCDC_L ( 0 , 5 ) ;\n\
    case 2 : MCDC_L ( 0 , 6 ) ;\n\
    {\n\
    MCDC_H ( 3 ) ;\n\
    a = 1 ;\n\
    }\n\
    }\n\
    MCDC_L ( 0 , 4 ) ;\n\
    }\n\
    MCDC_H ( 1 ) ;\n\
    }\n";
    assert!(rt; is_text(rt.alloc(), source, text));
}

// In an argument, in an index, under a cast, with `!` and parentheses.
#[test]
fn decisions_in_expressions(rt: HostRuntime) {
    let source =
        "int g(int x){return x;}int f(int a,int b){int t[2]={0,0};return g(a<b)+t[!a]+(char)(a&&(b));}";
    let text = "int g ( int x ) {\n\
    MCDC_H ( 0 ) ;\n\
    {\n\
    MCDC_H ( 4 ) ;\n\
    {\n\
    int mcdc_v = x ;\n\
    MCDC_H ( 2 ) ;\n\
    return mcdc_v ;\n\
    }\n\
    }\n\
    }\n\
    int f ( int a , int b ) {\n\
    unsigned mcdc_r [ 3 ] ;\n\
    MCDC_H ( 1 ) ;\n\
    MCDC_H ( 5 ) ;\n\
    int t [ 2 ] = {\n\
    0 , 0 }\n\
    ;\n\
    {\n\
    MCDC_H ( 6 ) ;\n\
    {\n\
    int mcdc_v = g ( MCDC_D ( 0 , 7 , MCDC_C ( 0 , 0 , 1 , a < b ) ) ) + t [ MCDC_D ( 1 , 9 , ! MCDC_C ( 1 , 0 , 1 , a ) ) ] + ( char ) ( MCDC_D ( 2 , 11 , MCDC_C ( 2 , 0 , 2 , a ) && ( MCDC_C ( 2 , 0 , 1 , b ) ) ) ) ;\n\
    MCDC_H ( 3 ) ;\n\
    return mcdc_v ;\n\
    }\n\
    }\n\
    }\n";
    assert!(rt; is_text(rt.alloc(), source, text));
}

#[test]
fn each_part_of_a_for(rt: HostRuntime) {
    let source = "void f(int n){int i;for(i=n>0;i<n||n;i+=n==2)while(n)n=0;}";
    let text = "void f ( int n ) {\n\
    unsigned mcdc_r [ 4 ] ;\n\
    MCDC_H ( 0 ) ;\n\
    int i ;\n\
    {\n\
    MCDC_H ( 2 ) ;\n\
    for ( i = MCDC_D ( 0 , 5 , MCDC_C ( 0 , 0 , 1 , n > 0 ) ) ;\n\
    MCDC_D ( 1 , 7 , MCDC_C ( 1 , 0 , 1 , i < n ) || MCDC_C ( 1 , 0 , 1 , n ) ) ;\n\
    i += MCDC_D ( 2 , 10 , MCDC_C ( 2 , 0 , 1 , n == 2 ) ) ) {\n\
    MCDC_H ( 3 ) ;\n\
    while ( MCDC_D ( 3 , 12 , MCDC_C ( 3 , 0 , 1 , n ) ) ) {\n\
    MCDC_H ( 4 ) ;\n\
    n = 0 ;\n\
    }\n\
    }\n\
    }\n\
    MCDC_H ( 1 ) ;\n\
    }\n";
    assert!(rt; is_text(rt.alloc(), source, text));
}

#[test]
fn declaration_in_a_for(rt: HostRuntime) {
    let source = "void f(int n){for(int i=n>0,j=0;i;)i=j;}";
    let text = "void f ( int n ) {\n\
    unsigned mcdc_r [ 2 ] ;\n\
    MCDC_H ( 0 ) ;\n\
    {\n\
    MCDC_H ( 2 ) ;\n\
    for ( int i = MCDC_D ( 0 , 4 , MCDC_C ( 0 , 0 , 1 , n > 0 ) ) , j = 0 ;\n\
    MCDC_D ( 1 , 6 , MCDC_C ( 1 , 0 , 1 , i ) ) ;\n\
    ) {\n\
    MCDC_H ( 3 ) ;\n\
    i = j ;\n\
    }\n\
    }\n\
    MCDC_H ( 1 ) ;\n\
    }\n";
    assert!(rt; is_text(rt.alloc(), source, text));
}

// Constants keep their spelling.
#[test]
fn type_words_and_constants(rt: HostRuntime) {
    let source = "static const unsigned long h(void){return 0x1Ful;}";
    let text = "static const unsigned long h ( void ) {\n\
    MCDC_H ( 0 ) ;\n\
    {\n\
    MCDC_H ( 2 ) ;\n\
    {\n\
    unsigned long mcdc_v = 0x1Ful ;\n\
    MCDC_H ( 1 ) ;\n\
    return mcdc_v ;\n\
    }\n\
    }\n\
    }\n";
    assert!(rt; is_text(rt.alloc(), source, text));
}

#[test]
fn else_if_and_do(rt: HostRuntime) {
    let source =
        "int extern const k(int a){if(a)a=010;else if(a<'x')a=7LL;do a=1u;while(0);return a;}";
    let text = "int extern const k ( int a ) {\n\
    unsigned mcdc_r [ 2 ] ;\n\
    MCDC_H ( 0 ) ;\n\
    {\n\
    MCDC_H ( 2 ) ;\n\
    if ( MCDC_D ( 0 , 9 , MCDC_C ( 0 , 0 , 1 , a ) ) ) {\n\
    MCDC_H ( 3 ) ;\n\
    a = 010 ;\n\
    }\n\
    else {\n\
    MCDC_H ( 4 ) ;\n\
    if ( MCDC_D ( 1 , 11 , MCDC_C ( 1 , 0 , 1 , a < 'x' ) ) ) {\n\
    MCDC_H ( 5 ) ;\n\
    a = 7LL ;\n\
    }\n\
    }\n\
    }\n\
    {\n\
    MCDC_H ( 6 ) ;\n\
    do {\n\
    MCDC_H ( 7 ) ;\n\
    a = 1u ;\n\
    }\n\
    while ( 0 ) ;\n\
    }\n\
    {\n\
    MCDC_H ( 8 ) ;\n\
    {\n\
    int mcdc_v = a ;\n\
    MCDC_H ( 1 ) ;\n\
    return mcdc_v ;\n\
    }\n\
    }\n\
    }\n";
    assert!(rt; is_text(rt.alloc(), source, text));
}

#[test]
fn structures(rt: HostRuntime) {
    let source =
        "struct S{int v;};typedef struct S T;static T m(struct S s){return s;}struct S n(int a){struct S s={a!=0};return m(s);}";
    let text = "struct S {\n\
    int v ;\n\
    }\n\
    ;\n\
    typedef struct S T ;\n\
    static T m ( struct S s ) {\n\
    MCDC_H ( 0 ) ;\n\
    {\n\
    MCDC_H ( 4 ) ;\n\
    {\n\
    T mcdc_v = s ;\n\
    MCDC_H ( 2 ) ;\n\
    return mcdc_v ;\n\
    }\n\
    }\n\
    }\n\
    struct S n ( int a ) {\n\
    unsigned mcdc_r [ 1 ] ;\n\
    MCDC_H ( 1 ) ;\n\
    MCDC_H ( 5 ) ;\n\
    struct S s = {\n\
    MCDC_D ( 0 , 7 , MCDC_C ( 0 , 0 , 1 , a != 0 ) ) }\n\
    ;\n\
    {\n\
    MCDC_H ( 6 ) ;\n\
    {\n\
    struct S mcdc_v = m ( s ) ;\n\
    MCDC_H ( 3 ) ;\n\
    return mcdc_v ;\n\
    }\n\
    }\n\
    }\n";
    assert!(rt; is_text(rt.alloc(), source, text));
}

#[test]
fn no_function(rt: HostRuntime) {
    let source = "int x=1;";
    let text = "int x = 1 ;\n";
    assert!(rt; is_text(rt.alloc(), source, text));
}

#[test]
fn no_token(rt: HostRuntime) {
    let source = "/* nothing */\n";
    let text = "";
    assert!(rt; is_text(rt.alloc(), source, text));
}

// A block has no probe of its own.
#[test]
fn empty_statements(rt: HostRuntime) {
    let source = "void f(void){;{}}";
    let text = "void f ( void ) {\n\
    MCDC_H ( 0 ) ;\n\
    {\n\
    MCDC_H ( 2 ) ;\n\
    ;\n\
    }\n\
    {\n\
    }\n\
    MCDC_H ( 1 ) ;\n\
    }\n";
    assert!(rt; is_text(rt.alloc(), source, text));
}

#[test]
fn decision_in_a_case(rt: HostRuntime) {
    let source =
        "# 1 \"a.c\"\nint f(int a){switch(a){default:for(;;){if(a>1)continue;break;}}return a?2:3;}";
    let text = "int f ( int a ) {\n\
    unsigned mcdc_r [ 3 ] ;\n\
    MCDC_H ( 0 ) ;\n\
    {\n\
    MCDC_H ( 2 ) ;\n\
    switch ( MCDC_W ( 2 , a ) ) {\n\
    default : MCDC_L ( 2 , 8 ) ;\n\
    {\n\
    MCDC_H ( 3 ) ;\n\
    for ( ;\n\
    ;\n\
    ) {\n\
    {\n\
    MCDC_H ( 4 ) ;\n\
    if ( MCDC_D ( 0 , 9 , MCDC_C ( 0 , 0 , 1 , a > 1 ) ) ) {\n\
    MCDC_H ( 5 ) ;\n\
    continue ;\n\
    }\n\
    }\n\
    {\n\
    MCDC_H ( 6 ) ;\n\
    break ;\n\
    }\n\
    }\n\
    }\n\
    }\n\
    }\n\
    {\n\
    MCDC_H ( 7 ) ;\n\
    {\n\
    int mcdc_v = MCDC_D ( 1 , 11 , MCDC_C ( 1 , 0 , 1 , a ) ) ? 2 : 3 ;\n\
    MCDC_H ( 1 ) ;\n\
    return mcdc_v ;\n\
    }\n\
    }\n\
    }\n";
    assert!(rt; is_text(rt.alloc(), source, text));
}

// The outer one starts first.
#[test]
fn two_roots_at_one_byte(rt: HostRuntime) {
    let source = "int f(int a){return a<1==a;}";
    let text = "int f ( int a ) {\n\
    unsigned mcdc_r [ 2 ] ;\n\
    MCDC_H ( 0 ) ;\n\
    {\n\
    MCDC_H ( 2 ) ;\n\
    {\n\
    int mcdc_v = MCDC_D ( 0 , 3 , MCDC_C ( 0 , 0 , 1 , MCDC_D ( 1 , 5 , MCDC_C ( 1 , 0 , 1 , a < 1 ) ) == a ) ) ;\n\
    MCDC_H ( 1 ) ;\n\
    return mcdc_v ;\n\
    }\n\
    }\n\
    }\n";
    assert!(rt; is_text(rt.alloc(), source, text));
}

// The inner one ends first.
#[test]
fn two_roots_end_at_one_byte(rt: HostRuntime) {
    let source = "int f(int a,int b){return !(a&&b)||a==(b<1);}";
    let text = "int f ( int a , int b ) {\n\
    unsigned mcdc_r [ 2 ] ;\n\
    MCDC_H ( 0 ) ;\n\
    {\n\
    MCDC_H ( 2 ) ;\n\
    {\n\
    int mcdc_v = MCDC_D ( 0 , 3 , ! ( MCDC_C ( 0 , 0 , 3 , a ) && MCDC_C ( 0 , 0 , 2 , b ) ) || MCDC_C ( 0 , 0 , 1 , a == ( MCDC_D ( 1 , 7 , MCDC_C ( 1 , 0 , 1 , b < 1 ) ) ) ) ) ;\n\
    MCDC_H ( 1 ) ;\n\
    return mcdc_v ;\n\
    }\n\
    }\n\
    }\n";
    assert!(rt; is_text(rt.alloc(), source, text));
}
