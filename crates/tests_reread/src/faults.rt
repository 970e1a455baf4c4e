//! Texts that are not read, each with its fault, by hand from the grammar and the table of what an
//! instrumented text has inserted.

use crate::answer::{Answer, answer_of};
use crate::fail::Fail;
use std::alloc::Global;

/// Texts without tokens of C, with a form that the profile leaves out, and with a fault of names and
/// types; what comes before a fault of a probe.
static OTHER: [(&[u8], Answer); 18] = [
    (b"int @;", Answer::Lex(4)),
    (b"#define X 1\n", Answer::Lex(0)),
    (b"int a;/*", Answer::Lex(6)),
    (b"int *p;", Answer::Outside(4)),
    (
        b"void f(int a,int b){unsigned mcdc_r[1];a=MCDC_W(0,a,b);}",
        Answer::Outside(50),
    ),
    (
        b"void f(int a,int b){unsigned mcdc_r[1];if(MCDC_D(0,0,(a,b)));}",
        Answer::Outside(54),
    ),
    (
        b"void f(int a,int b){unsigned mcdc_r[1];if(MCDC_D(0,0,(a=b)));}",
        Answer::Outside(54),
    ),
    (
        b"void f(int a){unsigned mcdc_r[1];a=MCDC_W(0,a++);}",
        Answer::Outside(44),
    ),
    (
        b"void f(void){MCDC_H(70000);goto x;x:;}",
        Answer::Outside(27),
    ),
    (
        b"int f(void){{MCDC_H(0);{int mcdc_v=1,2;MCDC_H(1);return mcdc_v;}}}",
        Answer::Outside(35),
    ),
    (
        b"void f(int a){{MCDC_H(0);switch(a);MCDC_L(0,1);}}",
        Answer::Outside(25),
    ),
    (
        b"void f(int a){{MCDC_H(0);switch(a){MCDC_H(1);;}MCDC_L(0,2);}}",
        Answer::Outside(25),
    ),
    (
        b"typedef int T;void f(void){;MCDC_H(0);T*p=0;}",
        Answer::Outside(39),
    ),
    (
        b"typedef int T;void f(void){{MCDC_H(0);T*p=0;}}",
        Answer::Outside(39),
    ),
    (
        b"int*f(void){{MCDC_H(0);{int mcdc_v=0;MCDC_H(1);return mcdc_v;}}}",
        Answer::Outside(3),
    ),
    (b"int f(void){return x;}", Answer::Typing(19)),
    (
        b"int f(int x){unsigned mcdc_r[1];return MCDC_D(0,1,y);}",
        Answer::Typing(50),
    ),
    (b"void f(int x){int x;}", Answer::Typing(18)),
];

/// Texts in which a probe has no place where it stands, or that are no C. Where no row of the table and
/// no token of C can stand, the fault has the number of that token in the text; where the tokens without
/// probes have no tree, that of the first of them with which they have none; and 0 where the tree has
/// no place for a probe.
static NO_TREE: [(&[u8], Answer); 44] = [
    // between statements
    (b"int f(int a){a=1;MCDC_H(0);return a;}", Answer::Parse(11)),
    // at file scope
    (b"MCDC_H(0);", Answer::Parse(0)),
    // a name of a probe is no identifier
    (b"int MCDC_H;", Answer::Parse(1)),
    (b"void f(void){mcdc_r[0]=1;}", Answer::Parse(6)),
    // two statements, none, a block, a label
    (
        b"void f(int a,int b){{MCDC_H(1);a=1;b=2;}}",
        Answer::Parse(0),
    ),
    (b"void f(void){{MCDC_H(1);}}", Answer::Parse(12)),
    (b"void f(int a){{MCDC_H(1);{a=1;}}}", Answer::Parse(13)),
    (
        b"void f(int a){switch(a){{MCDC_H(1);case 1:;}}}",
        Answer::Parse(0),
    ),
    (
        b"void f(int a){switch(a){{MCDC_H(1);default:a=1;}}}",
        Answer::Parse(0),
    ),
    (
        b"void f(void){{MCDC_H(0);MCDC_H(1);int x=1;}}",
        Answer::Parse(7),
    ),
    (b"void f(void){{MCDC_H(1);x:;}}", Answer::Parse(0)),
    // no counted declaration
    (
        b"void f(void){MCDC_H(0);MCDC_H(1);int x;}",
        Answer::Parse(0),
    ),
    (
        b"void f(void){MCDC_H(0);MCDC_H(1);static int x=1;}",
        Answer::Parse(0),
    ),
    (
        b"void f(int a){for(MCDC_H(1);int i=0;i<a;i++);}",
        Answer::Parse(0),
    ),
    (b"void f(void){const MCDC_H(1);int x=1;}", Answer::Parse(0)),
    (b"void f(int a){a=(MCDC_H(1);int)a;}", Answer::Parse(0)),
    // returns
    (
        b"int f(void){{MCDC_H(0);{long mcdc_v=1;MCDC_H(1);return mcdc_v;}}}",
        Answer::Parse(12),
    ),
    (
        b"int f(void){{int mcdc_v=1;MCDC_H(1);return mcdc_v;}}",
        Answer::Parse(8),
    ),
    (
        b"int f(void){{MCDC_H(0);{int mcdc_v=;MCDC_H(1);return mcdc_v;}}}",
        Answer::Parse(0),
    ),
    (
        b"void f(int a){{MCDC_H(0);{MCDC_H(1);return;}a=1;}}",
        Answer::Parse(0),
    ),
    (
        b"void f(void){MCDC_H(0);return;MCDC_H(1);{}}",
        Answer::Parse(13),
    ),
    // registers
    (
        b"void f(void){unsigned mcdc_r[1];unsigned mcdc_r[1];}",
        Answer::Parse(13),
    ),
    (
        b"void f(void){MCDC_H(0);unsigned mcdc_r[1];}",
        Answer::Parse(12),
    ),
    (b"void f(void){int mcdc_r[1];}", Answer::Parse(7)),
    // labels
    (b"void f(void){MCDC_H(0);MCDC_L(0,1);}", Answer::Parse(11)),
    (
        b"void f(int a){{MCDC_H(1);switch(a){default:;}MCDC_L(0,2);}}",
        Answer::Parse(0),
    ),
    (
        b"void f(int a){{MCDC_H(1);switch(a){case 1:default:;}MCDC_L(0,2);}}",
        Answer::Parse(0),
    ),
    (
        b"void f(int a){{MCDC_H(1);if(a){a=1;}MCDC_L(0,2);}}",
        Answer::Parse(0),
    ),
    (b"void f(int a){a=a?a:MCDC_L(0,1);a;}", Answer::Parse(0)),
    (
        b"void f(int a){switch(a){case 0?1:MCDC_L(0,1);2:;}}",
        Answer::Parse(0),
    ),
    // numbers
    (b"void f(void){MCDC_H(0x1);}", Answer::Parse(6)),
    (b"void f(void){MCDC_H(1u);}", Answer::Parse(6)),
    (b"void f(void){MCDC_H(4294967296);}", Answer::Parse(6)),
    (b"void f(void){MCDC_H(00);}", Answer::Parse(6)),
    (b"void f(void){MCDC_H(1L);}", Answer::Parse(6)),
    (b"void f(void){MCDC_H('1');}", Answer::Parse(6)),
    (b"void f(int a){unsigned mcdc_r[0];}", Answer::Parse(8)),
    // no `cond` inside
    (
        b"void f(int a,int b){unsigned mcdc_r[1];if(MCDC_D(0,0,a=b));}",
        Answer::Parse(0),
    ),
    (
        b"void f(int a,int b){unsigned mcdc_r[1];if(MCDC_C(0,0,0,a,b));}",
        Answer::Parse(0),
    ),
    // round a type name
    (
        b"void f(int a){unsigned mcdc_r[1];a=MCDC_W(0,int)a;}",
        Answer::Parse(0),
    ),
    // brackets
    (b"void f(void){{MCDC_H(0);;}", Answer::Parse(14)),
    (b"void f(int a){a=MCDC_W(0,a];}", Answer::Parse(14)),
    // C itself
    (b"int f(void){return 1}", Answer::Parse(8)),
    (
        b"void f(int a){if(a){{MCDC_H(1);}a=1;}else;}",
        Answer::Parse(18),
    ),
];

/// Texts whose probes have a fault, and where the word of the first one starts.
static FAULTY: [(&[u8], Answer); 44] = [
    // registers
    (
        b"void f ( int x ) {\nunsigned mcdc_r [ 1 ] ;\nMCDC_H ( 0 ) ;\n{\nMCDC_H ( 3 ) ;\nif ( MCDC_D ( 1 , 5 , MCDC_C ( 0 , 0 , 1 , x ) ) ) {\nMCDC_H ( 4 ) ;\n{\nMCDC_H ( 1 ) ;\nreturn ;\n}\n}\n}\nMCDC_H ( 2 ) ;\n}\n",
        Answer::Probe(80),
    ),
    (b"int f(int a){return MCDC_D(0,0,a);}", Answer::Probe(20)),
    (
        b"int f(int a){unsigned mcdc_r[1];return a+MCDC_C(1,0,1,a);}",
        Answer::Probe(41),
    ),
    (
        b"void f(int a){switch(MCDC_W(0,a)){case 1:;}}",
        Answer::Probe(21),
    ),
    (
        b"void f(int a){switch(a){case 1:MCDC_L(0,1);;}}",
        Answer::Probe(31),
    ),
    (
        b"void f(int a){{MCDC_H(0);switch(a){case 1:;}MCDC_L(0,1);}}",
        Answer::Probe(44),
    ),
    (
        b"int g(int a){unsigned mcdc_r[9];return a;}int f(int a){return MCDC_D(0,0,a);}",
        Answer::Probe(62),
    ),
    // bits
    (b"void f(void){MCDC_H(65536);}", Answer::Probe(13)),
    (b"void f(void){{MCDC_H(4294967295);;}}", Answer::Probe(14)),
    (
        b"void f(int a){MCDC_H(0);MCDC_H(65536);int b=a;}",
        Answer::Probe(24),
    ),
    (b"void f(void){MCDC_H(0);MCDC_H(65536);}", Answer::Probe(23)),
    (
        b"int f(int a){{MCDC_H(0);{int mcdc_v=a;MCDC_H(65536);return mcdc_v;}}}",
        Answer::Probe(38),
    ),
    (
        b"void f(void){{MCDC_H(0);{MCDC_H(65536);return;}}}",
        Answer::Probe(25),
    ),
    (
        b"void f(int a){unsigned mcdc_r[1];switch(a){case 1:MCDC_L(0,65536);;}}",
        Answer::Probe(50),
    ),
    // a path reaches 65,536
    (
        b"int f(int a){unsigned mcdc_r[1];return MCDC_D(0,65535,MCDC_C(0,0,1,a));}",
        Answer::Probe(39),
    ),
    (
        b"int f(int a){unsigned mcdc_r[1];return MCDC_D(0,65536,a);}",
        Answer::Probe(39),
    ),
    (
        b"int f(int a,int b){unsigned mcdc_r[1];return MCDC_D(0,65500,MCDC_C(0,30,0,a)&MCDC_C(0,6,0,b));}",
        Answer::Probe(45),
    ),
    (
        b"int f(int a,int b){unsigned mcdc_r[1];return MCDC_D(0,65500,MCDC_C(0,0,30,a)||MCDC_C(0,6,0,b));}",
        Answer::Probe(45),
    ),
    (
        b"int f(int a){unsigned mcdc_r[1];return MCDC_D(0,1,MCDC_C(0,4294967295,0,a));}",
        Answer::Probe(39),
    ),
    // round what has no integer value
    (
        b"struct S{int m;};void f(struct S s,struct S t){unsigned mcdc_r[1];s=MCDC_W(0,t);}",
        Answer::Probe(68),
    ),
    (
        b"int a[2];int g(int b[2]){return b[0];}int f(void){unsigned mcdc_r[1];return g(MCDC_W(0,a));}",
        Answer::Probe(78),
    ),
    (
        b"void g(void){}void f(void){unsigned mcdc_r[1];MCDC_W(0,g());}",
        Answer::Probe(46),
    ),
    (
        b"void f(int x){unsigned mcdc_r[1];MCDC_D(0,0,x++);}",
        Answer::Probe(33),
    ),
    (
        b"void f(int x){unsigned mcdc_r[1];MCDC_W(0,x=1);}",
        Answer::Probe(33),
    ),
    // round what is changed
    (
        b"void f(int x){unsigned mcdc_r[1];MCDC_C(0,0,0,x)=1;}",
        Answer::Probe(33),
    ),
    (
        b"void f(int x){unsigned mcdc_r[1];++MCDC_W(0,x);}",
        Answer::Probe(35),
    ),
    (
        b"int a[2];void f(int x){unsigned mcdc_r[1];MCDC_W(0,a[x])+=1;}",
        Answer::Probe(42),
    ),
    (
        b"struct S{int m;};int f(struct S s){unsigned mcdc_r[1];return MCDC_W(0,s).m;}",
        Answer::Probe(61),
    ),
    // where no body evaluates it
    (
        b"void f(int a){unsigned mcdc_r[1];switch(a){case MCDC_W(0,1):;}}",
        Answer::Probe(48),
    ),
    (b"int a[MCDC_W(0,2)];", Answer::Probe(6)),
    (
        b"void f(void){unsigned mcdc_r[1];int a[MCDC_W(0,2)];}",
        Answer::Probe(38),
    ),
    (
        b"void f(void){unsigned mcdc_r[1];static int a=MCDC_C(0,0,1,2);}",
        Answer::Probe(45),
    ),
    (
        b"void f(void){unsigned mcdc_r[1];int a[2]={MCDC_C(0,0,1,0)};}",
        Answer::Probe(42),
    ),
    (b"int a=MCDC_C(0,0,1,2);", Answer::Probe(6)),
    (b"enum{A=MCDC_C(0,0,1,2)};", Answer::Probe(7)),
    // the first of two
    (
        b"void f(int x){unsigned mcdc_r[1];{MCDC_H(70000);x=MCDC_D(1,0,x);}}",
        Answer::Probe(34),
    ),
    (
        b"void f(int x){unsigned mcdc_r[1];x=MCDC_D(1,0,MCDC_C(2,0,1,x));}",
        Answer::Probe(35),
    ),
    (
        b"void f(int x){unsigned mcdc_r[1];x=MCDC_D(0,70000,MCDC_C(2,0,1,x));}",
        Answer::Probe(35),
    ),
    (
        b"int a=MCDC_C(0,0,1,2);void f(void){MCDC_H(65536);}",
        Answer::Probe(6),
    ),
    (
        b"void f(int x){unsigned mcdc_r[1];x=MCDC_D(4,0,x);int a[MCDC_W(0,2)];}",
        Answer::Probe(35),
    ),
    // a decision round a probe at no value: a path reaches 65,536 behind it, and none does
    (
        b"int t[2];int f(int a){unsigned mcdc_r[1];return MCDC_D(0,65535,MCDC_W(0,t)[a]||MCDC_C(0,0,1,a));}",
        Answer::Probe(48),
    ),
    (
        b"int t[2];int f(int a){unsigned mcdc_r[1];return MCDC_D(0,65534,MCDC_W(0,t)[a]||MCDC_C(0,0,1,a));}",
        Answer::Probe(63),
    ),
    (
        b"int t[2];int f(int a){unsigned mcdc_r[1];return MCDC_D(0,65534,MCDC_W(0,t)[a]||MCDC_W(0,t)[a]||MCDC_C(0,0,2,a));}",
        Answer::Probe(48),
    ),
    (
        b"struct S{int m;};int f(struct S s,int a){unsigned mcdc_r[1];return MCDC_D(0,65535,MCDC_C(0,0,0,s).m&&MCDC_C(0,1,0,a));}",
        Answer::Probe(67),
    ),
];

/// Texts with a probe round parentheses, and their bits.
static PARENTHESES: [(&[u8], Answer); 3] = [
    (
        b"int f(int a){unsigned mcdc_r[1];return MCDC_D(0,0,(MCDC_C(0,1,0,(a))));}",
        Answer::Read(2),
    ),
    (
        b"int f(int a){unsigned mcdc_r[1];return (MCDC_D(0,2,((a))));}",
        Answer::Read(3),
    ),
    (
        b"void f(char c){unsigned mcdc_r[1];switch((MCDC_W(0,(c)))){case 1:MCDC_L(0,3);;}}",
        Answer::Read(4),
    ),
];

#[test]
fn probes_round_parentheses(rt: HostRuntime) -> Result<(), Fail> {
    for (text, wanted) in &PARENTHESES {
        let found = answer_of(rt.alloc(), *text)?;
        assert_eq!(rt; found, *wanted);
    }
    Ok(())
}

#[test]
fn faults_of_other_steps(rt: HostRuntime) -> Result<(), Fail> {
    for (text, wanted) in &OTHER {
        let found = answer_of(rt.alloc(), *text)?;
        assert_eq!(rt; found, *wanted);
    }
    Ok(())
}

#[test]
fn texts_without_tree(rt: HostRuntime) -> Result<(), Fail> {
    for (text, wanted) in &NO_TREE {
        let found = answer_of(rt.alloc(), *text)?;
        assert_eq!(rt; found, *wanted);
    }
    Ok(())
}

#[test]
fn faulty_probes(rt: HostRuntime) -> Result<(), Fail> {
    for (text, wanted) in &FAULTY {
        let found = answer_of(rt.alloc(), *text)?;
        assert_eq!(rt; found, *wanted);
    }
    Ok(())
}

/// `int f(int x){unsigned mcdc_r[1];return ..x..;}` with so many probes round `x`.
fn nested(alloc: Global, count: u32) -> Result<Vec<u8>, Fail> {
    let mut text = Vec::new(alloc);
    text.extend_from_slice(b"int f(int x){unsigned mcdc_r[1];return ")?;
    for _probe in 0..count {
        text.extend_from_slice(b"MCDC_C(0,0,1,")?;
    }
    text.extend_from_slice(b"x")?;
    for _probe in 0..count {
        text.extend_from_slice(b")")?;
    }
    text.extend_from_slice(b";}")?;
    Ok(text)
}

fn of_nested(alloc: Global, count: u32) -> Result<Answer, Fail> {
    let text = nested(alloc, count)?;
    let found = answer_of(alloc, &text);
    drop(text);
    found
}

// A tree has at most 800 levels. Those of the function are two: its `return`, and the name in it.
#[test]
fn nested_probes(rt: HostRuntime) {
    assert!(rt; matches!(of_nested(rt.alloc(), 100), Ok(Answer::Read(0))));
    assert!(rt; matches!(of_nested(rt.alloc(), 800), Ok(Answer::Parse(_))));
    assert!(rt; matches!(of_nested(rt.alloc(), 10_000), Ok(Answer::Parse(_))));
}
