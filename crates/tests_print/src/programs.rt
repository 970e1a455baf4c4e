//! Longer programs and their texts, worked by hand from the table of insertions.
use crate::texts::is_text;

// A `switch` in a `switch`, and one whose expression is a decision in parentheses.
#[test]
fn several_switches(rt: HostRuntime) {
    let source =
        "int f(int a,int b){switch(a){case 0:if(b>a)return 1;case 1:switch(b){case 2:return a<b;default:;}default:b=2;}switch((a<b)){case 7:b=3;}return b;}";
    let text = "int f ( int a , int b ) {\n\
    unsigned mcdc_r [ 6 ] ;\n\
    MCDC_H ( 0 ) ;\n\
    {\n\
    MCDC_H ( 4 ) ;\n\
    switch ( MCDC_W ( 3 , a ) ) {\n\
    case 0 : MCDC_L ( 3 , 14 ) ;\n\
    {\n\
    MCDC_H ( 5 ) ;\n\
    if ( MCDC_D ( 0 , 21 , MCDC_C ( 0 , 0 , 1 , b > a ) ) ) {\n\
    MCDC_H ( 6 ) ;\n\
    {\n\
    int mcdc_v = 1 ;\n\
    MCDC_H ( 1 ) ;\n\
    return mcdc_v ;\n\
    }\n\
    }\n\
    }\n\
    case 1 : MCDC_L ( 3 , 15 ) ;\n\
    {\n\
    MCDC_H ( 7 ) ;\n\
    switch ( MCDC_W ( 4 , b ) ) {\n\
    case 2 : MCDC_L ( 4 , 16 ) ;\n\
    {\n\
    MCDC_H ( 8 ) ;\n\
    {\n\
    int mcdc_v = MCDC_D ( 1 , 23 , MCDC_C ( 1 , 0 , 1 , a < b ) ) ;\n\
    MCDC_H ( 2 ) ;\n\
    return mcdc_v ;\n\
    }\n\
    }\n\
    default : MCDC_L ( 4 , 17 ) ;\n\
    {\n\
    MCDC_H ( 9 ) ;\n\
    ;\n\
    }\n\
    }\n\
    }\n\
    default : MCDC_L ( 3 , 18 ) ;\n\
    {\n\
    MCDC_H ( 10 ) ;\n\
    b = 2 ;\n\
    }\n\
    }\n\
    }\n\
    {\n\
    MCDC_H ( 11 ) ;\n\
    switch ( ( MCDC_W ( 5 , MCDC_D ( 2 , 25 , MCDC_C ( 2 , 0 , 1 , a < b ) ) ) ) ) {\n\
    case 7 : MCDC_L ( 5 , 20 ) ;\n\
    {\n\
    MCDC_H ( 12 ) ;\n\
    b = 3 ;\n\
    }\n\
    }\n\
    MCDC_L ( 5 , 19 ) ;\n\
    }\n\
    {\n\
    MCDC_H ( 13 ) ;\n\
    {\n\
    int mcdc_v = b ;\n\
    MCDC_H ( 3 ) ;\n\
    return mcdc_v ;\n\
    }\n\
    }\n\
    }\n";
    assert!(rt; is_text(rt.alloc(), source, text));
}

// A body that never completes has no exit. A declaration is counted where it initializes an object
// that is not static.
#[test]
fn declarations_and_an_endless_loop(rt: HostRuntime) {
    let source =
        "void f(int a){static int s=1;int i,j=2;int t[3];for(;;){do a=j;while(s<i);t[0]=a;}}";
    let text = "void f ( int a ) {\n\
    unsigned mcdc_r [ 1 ] ;\n\
    MCDC_H ( 0 ) ;\n\
    static int s = 1 ;\n\
    MCDC_H ( 1 ) ;\n\
    int i , j = 2 ;\n\
    int t [ 3 ] ;\n\
    {\n\
    MCDC_H ( 2 ) ;\n\
    for ( ;\n\
    ;\n\
    ) {\n\
    {\n\
    MCDC_H ( 3 ) ;\n\
    do {\n\
    MCDC_H ( 4 ) ;\n\
    a = j ;\n\
    }\n\
    while ( MCDC_D ( 0 , 6 , MCDC_C ( 0 , 0 , 1 , s < i ) ) ) ;\n\
    }\n\
    {\n\
    MCDC_H ( 5 ) ;\n\
    t [ 0 ] = a ;\n\
    }\n\
    }\n\
    }\n\
    }\n";
    assert!(rt; is_text(rt.alloc(), source, text));
}

// A function is declared before others and defined after them. No brace of a character constant is
// that of a body.
#[test]
fn declared_functions_and_constants(rt: HostRuntime) {
    let source =
        "extern int mcdc_in(void);int g(int);int w[5]={'{',' ','\\'',017,10uLL};static int h(int a['{']){return a[0X1u];}int g(int x){return x?mcdc_in():0x7fL;}";
    let text = "extern int mcdc_in ( void ) ;\n\
    int g ( int ) ;\n\
    int w [ 5 ] = {\n\
    '{' , ' ' , '\\'' , 017 , 10uLL }\n\
    ;\n\
    static int h ( int a [ '{' ] ) {\n\
    MCDC_H ( 0 ) ;\n\
    {\n\
    MCDC_H ( 4 ) ;\n\
    {\n\
    int mcdc_v = a [ 0X1u ] ;\n\
    MCDC_H ( 2 ) ;\n\
    return mcdc_v ;\n\
    }\n\
    }\n\
    }\n\
    int g ( int x ) {\n\
    unsigned mcdc_r [ 1 ] ;\n\
    MCDC_H ( 1 ) ;\n\
    {\n\
    MCDC_H ( 5 ) ;\n\
    {\n\
    int mcdc_v = MCDC_D ( 0 , 6 , MCDC_C ( 0 , 0 , 1 , x ) ) ? mcdc_in ( ) : 0x7fL ;\n\
    MCDC_H ( 3 ) ;\n\
    return mcdc_v ;\n\
    }\n\
    }\n\
    }\n";
    assert!(rt; is_text(rt.alloc(), source, text));
}

// In a list of a list, on both sides of an assignment, under `++`, under a cast to void, and in a
// choice of two calls. A list of one zero evaluates nothing.
#[test]
fn decisions_in_effects(rt: HostRuntime) {
    let source =
        "void mcdc_out(int v);struct S{int a;int t[2];};static struct S m(struct S s,int t[2]){return s;}void f(int a){struct S s={a<1,{a<2}},u={1<0};u=m(s,s.t);s.t[a<3]+=a<4;++s.t[!a];s.a--;(void)(a<5);a?mcdc_out(a<6):mcdc_out(1);m(u,u.t);}";
    let text = "void mcdc_out ( int v ) ;\n\
    struct S {\n\
    int a ;\n\
    int t [ 2 ] ;\n\
    }\n\
    ;\n\
    static struct S m ( struct S s , int t [ 2 ] ) {\n\
    MCDC_H ( 0 ) ;\n\
    {\n\
    MCDC_H ( 4 ) ;\n\
    {\n\
    struct S mcdc_v = s ;\n\
    MCDC_H ( 2 ) ;\n\
    return mcdc_v ;\n\
    }\n\
    }\n\
    }\n\
    void f ( int a ) {\n\
    unsigned mcdc_r [ 8 ] ;\n\
    MCDC_H ( 1 ) ;\n\
    MCDC_H ( 5 ) ;\n\
    struct S s = {\n\
    MCDC_D ( 0 , 13 , MCDC_C ( 0 , 0 , 1 , a < 1 ) ) , {\n\
    MCDC_D ( 1 , 15 , MCDC_C ( 1 , 0 , 1 , a < 2 ) ) }\n\
    }\n\
    , u = {\n\
    1 < 0 }\n\
    ;\n\
    {\n\
    MCDC_H ( 6 ) ;\n\
    u = m ( s , s . t ) ;\n\
    }\n\
    {\n\
    MCDC_H ( 7 ) ;\n\
    s . t [ MCDC_D ( 2 , 17 , MCDC_C ( 2 , 0 , 1 , a < 3 ) ) ] += MCDC_D ( 3 , 19 , MCDC_C ( 3 , 0 , 1 , a < 4 ) ) ;\n\
    }\n\
    {\n\
    MCDC_H ( 8 ) ;\n\
    ++ s . t [ MCDC_D ( 4 , 21 , ! MCDC_C ( 4 , 0 , 1 , a ) ) ] ;\n\
    }\n\
    {\n\
    MCDC_H ( 9 ) ;\n\
    s . a -- ;\n\
    }\n\
    {\n\
    MCDC_H ( 10 ) ;\n\
    ( void ) ( MCDC_D ( 5 , 23 , MCDC_C ( 5 , 0 , 1 , a < 5 ) ) ) ;\n\
    }\n\
    {\n\
    MCDC_H ( 11 ) ;\n\
    MCDC_D ( 6 , 25 , MCDC_C ( 6 , 0 , 1 , a ) ) ? mcdc_out ( MCDC_D ( 7 , 27 , MCDC_C ( 7 , 0 , 1 , a < 6 ) ) ) : mcdc_out ( 1 ) ;\n\
    }\n\
    {\n\
    MCDC_H ( 12 ) ;\n\
    m ( u , u . t ) ;\n\
    }\n\
    MCDC_H ( 3 ) ;\n\
    }\n";
    assert!(rt; is_text(rt.alloc(), source, text));
}

// A false condition adds how many paths begin where it is true. A probe stands inside the
// parentheses round a condition, and outside its cast.
#[test]
fn four_conditions(rt: HostRuntime) {
    let source = "int f(int a,int b){return ((char)a||-b)&&!((a))&&~b;}";
    let text = "int f ( int a , int b ) {\n\
    unsigned mcdc_r [ 1 ] ;\n\
    MCDC_H ( 0 ) ;\n\
    {\n\
    MCDC_H ( 2 ) ;\n\
    {\n\
    int mcdc_v = MCDC_D ( 0 , 3 , ( MCDC_C ( 0 , 0 , 3 , ( char ) a ) || MCDC_C ( 0 , 0 , 3 , - b ) ) && ! ( ( MCDC_C ( 0 , 0 , 1 , a ) ) ) && MCDC_C ( 0 , 0 , 1 , ~ b ) ) ;\n\
    MCDC_H ( 1 ) ;\n\
    return mcdc_v ;\n\
    }\n\
    }\n\
    }\n";
    assert!(rt; is_text(rt.alloc(), source, text));
}

/// A controller of flaps.
const FLAP: &str = "# 1 \"flap.c\"\n\
    typedef enum { UP, TAKEOFF, LANDING } Lever;\n\
    typedef struct { int speed; _Bool ground; } Air;\n\
    extern int mcdc_in(void);\n\
    void mcdc_out(int angle);\n\
    static int angle;\n\
    static int target(Lever lever) {\n\
    switch (lever) {\n\
    case UP: return 0;\n\
    case TAKEOFF: return 15;\n\
    case LANDING: return 30;\n\
    default: return 0;\n\
    }\n\
    }\n\
    int cycle(int lever) {\n\
    Air air;\n\
    air.speed = mcdc_in();\n\
    air.ground = mcdc_in();\n\
    int want = target(lever);\n\
    if (want > 15 && (air.speed > 160 || air.ground)) want = 15;\n\
    if (angle < want) angle += 5;\n\
    else if (angle > want) angle -= 5;\n\
    mcdc_out(angle);\n\
    return angle;\n\
    }\n";

#[test]
fn flap_controller(rt: HostRuntime) {
    let text = "typedef enum {\n\
    UP , TAKEOFF , LANDING }\n\
    Lever ;\n\
    typedef struct {\n\
    int speed ;\n\
    _Bool ground ;\n\
    }\n\
    Air ;\n\
    extern int mcdc_in ( void ) ;\n\
    void mcdc_out ( int angle ) ;\n\
    static int angle ;\n\
    static int target ( Lever lever ) {\n\
    unsigned mcdc_r [ 1 ] ;\n\
    MCDC_H ( 0 ) ;\n\
    {\n\
    MCDC_H ( 7 ) ;\n\
    switch ( MCDC_W ( 0 , lever ) ) {\n\
    case UP : MCDC_L ( 0 , 23 ) ;\n\
    {\n\
    MCDC_H ( 8 ) ;\n\
    {\n\
    int mcdc_v = 0 ;\n\
    MCDC_H ( 2 ) ;\n\
    return mcdc_v ;\n\
    }\n\
    }\n\
    case TAKEOFF : MCDC_L ( 0 , 24 ) ;\n\
    {\n\
    MCDC_H ( 9 ) ;\n\
    {\n\
    int mcdc_v = 15 ;\n\
    MCDC_H ( 3 ) ;\n\
    return mcdc_v ;\n\
    }\n\
    }\n\
    case LANDING : MCDC_L ( 0 , 25 ) ;\n\
    {\n\
    MCDC_H ( 10 ) ;\n\
    {\n\
    int mcdc_v = 30 ;\n\
    MCDC_H ( 4 ) ;\n\
    return mcdc_v ;\n\
    }\n\
    }\n\
    default : MCDC_L ( 0 , 26 ) ;\n\
    {\n\
    MCDC_H ( 11 ) ;\n\
    {\n\
    int mcdc_v = 0 ;\n\
    MCDC_H ( 5 ) ;\n\
    return mcdc_v ;\n\
    }\n\
    }\n\
    }\n\
    }\n\
    }\n\
    int cycle ( int lever ) {\n\
    unsigned mcdc_r [ 3 ] ;\n\
    MCDC_H ( 1 ) ;\n\
    Air air ;\n\
    {\n\
    MCDC_H ( 12 ) ;\n\
    air . speed = mcdc_in ( ) ;\n\
    }\n\
    {\n\
    MCDC_H ( 13 ) ;\n\
    air . ground = mcdc_in ( ) ;\n\
    }\n\
    MCDC_H ( 14 ) ;\n\
    int want = target ( lever ) ;\n\
    {\n\
    MCDC_H ( 15 ) ;\n\
    if ( MCDC_D ( 0 , 27 , MCDC_C ( 0 , 0 , 3 , want > 15 ) && ( MCDC_C ( 0 , 0 , 1 , air . speed > 160 ) || MCDC_C ( 0 , 0 , 1 , air . ground ) ) ) ) {\n\
    MCDC_H ( 16 ) ;\n\
    want = 15 ;\n\
    }\n\
    }\n\
    {\n\
    MCDC_H ( 17 ) ;\n\
    if ( MCDC_D ( 1 , 31 , MCDC_C ( 1 , 0 , 1 , angle < want ) ) ) {\n\
    MCDC_H ( 18 ) ;\n\
    angle += 5 ;\n\
    }\n\
    else {\n\
    MCDC_H ( 19 ) ;\n\
    if ( MCDC_D ( 2 , 33 , MCDC_C ( 2 , 0 , 1 , angle > want ) ) ) {\n\
    MCDC_H ( 20 ) ;\n\
    angle -= 5 ;\n\
    }\n\
    }\n\
    }\n\
    {\n\
    MCDC_H ( 21 ) ;\n\
    mcdc_out ( angle ) ;\n\
    }\n\
    {\n\
    MCDC_H ( 22 ) ;\n\
    {\n\
    int mcdc_v = angle ;\n\
    MCDC_H ( 6 ) ;\n\
    return mcdc_v ;\n\
    }\n\
    }\n\
    }\n";
    assert!(rt; is_text(rt.alloc(), FLAP, text));
}
