//! Texts, their pieces, and their tokens without the probes. What stands where follows from the
//! table of what an instrumented text has inserted.

ghost use Rattle.std.specs.Prelude.{◌<◌, ◌^◌, length};

use mc_lex::{Dialect, Token, lex};
use reread_pieces::{Piece, ShapeFault, What, pieces, plain};
use std::alloc::{AllocError, AllocFailed, Global};

/// A test could not go on: memory ran out, or a text has no tokens.
#[derive(Debug, Drop)]
pub struct Fail;

impl From<AllocError> for Fail {
    fn from(_error: AllocError) -> Fail {
        Fail
    }
}

impl<T: Drop> From<AllocFailed<T>> for Fail {
    fn from(_error: AllocFailed<T>) -> Fail {
        Fail
    }
}

/// Texts and their pieces. A `.` is a token of the source; every other letter is a piece of a
/// probe, and its numbers stand after it.
static READ: [(&[u8], &[u8]); 23] = [
    (b"", b""),
    (b"int a;", b"..."),
    (
        b"int f(int a,int b){unsigned mcdc_r[1];MCDC_H(0);{MCDC_H(2);\
          {int mcdc_v=MCDC_D(0,3,MCDC_C(0,0,2,a)&&MCDC_C(0,0,1,b));MCDC_H(1);return mcdc_v;}}}",
        b"..........R1;E0;S2;VD0,3;C0,0,2;.o.C0,0,1;.oov1;s.",
    ),
    (
        b"void f(int x){unsigned mcdc_r[1];MCDC_H(0);{MCDC_H(3);\
          if(MCDC_D(0,5,MCDC_C(0,0,1,x))){MCDC_H(4);{MCDC_H(1);return;}}}MCDC_H(2);}",
        b".......R1;E0;S3;..D0,5;C0,0,1;.oo.S4;B1;..bssX2;.",
    ),
    (b"int f(int a){return a;}", b"..........."),
    (b"int f(int a){MCDC_H(0);return a;}", b".......E0;...."),
    (b"void f(void){MCDC_H(7);}", b"......E7;."),
    (b"void f(void){MCDC_H(0);MCDC_H(1);}", b"......E0;X1;."),
    (
        b"void f(void){MCDC_H(0);MCDC_H(1);int a=1;{MCDC_H(2);T b=a;}MCDC_H(3);}",
        b"......E0;N1;......N2;......X3;.",
    ),
    (
        b"void f(int a){unsigned mcdc_r[1];MCDC_H(0);{MCDC_H(1);\
          switch(MCDC_W(0,a)){case 1:MCDC_L(0,2);case 2:MCDC_L(0,3);}MCDC_L(0,4);}}",
        b".......R1;E0;S1;..W0;.o.....L0,2;...L0,3;.A0,4;s.",
    ),
    (
        b"int f(int a){switch(a){default:MCDC_L(0,4294967295);{MCDC_H(2);break;}}}",
        b"..............L0,4294967295;S2;..s..",
    ),
    (
        b"static const unsigned long f(void){{MCDC_H(1);\
          {unsigned long mcdc_v=0;MCDC_H(2);return mcdc_v;}}}",
        b".........S1;V.v2;s.",
    ),
    (
        b"int a;T f(void){{MCDC_H(1);{T mcdc_v=a;MCDC_H(2);return mcdc_v;}}}",
        b".........S1;V.v2;s.",
    ),
    (
        b"void g(void){}struct S f(void){{MCDC_H(1);{struct S mcdc_v=a;MCDC_H(2);return mcdc_v;}}}",
        b"..............S1;V.v2;s.",
    ),
    (b"int f(void){x*MCDC_D(0,1,a<b);}", b"........D0,1;...o.."),
    // what only a tree can tell
    (
        b"void f(void){{MCDC_H(1);switch(a){case 1:;}MCDC_L(0,1);b=1;}}",
        b"......S1;..........A0,1;....s.",
    ),
    (
        b"void f(void){{MCDC_H(1);switch(a);MCDC_L(0,1);}}",
        b"......S1;.....A0,1;s.",
    ),
    (b"void f(void){a;MCDC_H(0);T*p=0;}", b"........N0;......."),
    (
        b"int*f(void){{MCDC_H(0);{int mcdc_v=0;MCDC_H(1);return mcdc_v;}}}",
        b".......S0;V.v1;s.",
    ),
    (b"int a=MCDC_C(0,0,1,2);", b"...C0,0,1;.o."),
    (b"int a[MCDC_W(0,2)];", b"...W0;.o.."),
    (
        b"int f(void){if((T)MCDC_D(0,1,a));}",
        b"...........D0,1;.o...",
    ),
    (
        b"int f(void){{MCDC_H(1);do{MCDC_H(2);a(1);}while(MCDC_D(0,1,a));}}",
        b"......S1;.S2;.....s..D0,1;.o..s.",
    ),
];

/// Texts without pieces, and the token at which none stands.
static REFUSED: [(&[u8], u32); 25] = [
    // not where the table puts it
    (b"int f(int a){a=1;MCDC_H(0);return a;}", 11),
    (b"MCDC_H(0);", 0),
    (b"struct S{MCDC_H(0);int a;};", 3),
    (b"void f(void){MCDC_H(0);MCDC_L(0,1);}", 11),
    (b"void f(void){{MCDC_H(0);MCDC_H(1);int a=1;}}", 7),
    (b"int f(void){int a;unsigned mcdc_r[1];}", 10),
    (b"void f(void){unsigned mcdc_r[0];}", 7),
    (b"int MCDC_H;", 1),
    (b"int f(void){mcdc_v=1;}", 6),
    // round no statement, or a block
    (b"void f(void){{MCDC_H(0);}}", 12),
    (b"void f(void){{MCDC_H(0);{a=1;}}}", 12),
    (b"void f(void){{MCDC_H(0);{MCDC_H(1);a=1;}}}", 12),
    // a `return` without its statement's braces, of another type, or with an exit that is not whole
    (b"int f(void){{int mcdc_v=1;MCDC_H(1);return mcdc_v;}}", 8),
    (
        b"int f(void){{MCDC_H(0);{long mcdc_v=1;MCDC_H(1);return mcdc_v;}}}",
        12,
    ),
    (
        b"int f(void){{MCDC_H(0);{int mcdc_v=1;MCDC_H(1);return a;}}}",
        17,
    ),
    (b"void f(void){{MCDC_H(1);{MCDC_H(2);return a;}}}", 12),
    // numbers
    (b"void f(void){MCDC_H(0x1);}", 6),
    (b"void f(void){MCDC_H(1u);}", 6),
    (b"void f(void){MCDC_H(00);}", 6),
    (b"void f(void){MCDC_H(4294967296);}", 6),
    (b"void f(void){MCDC_H(a);}", 6),
    // a `primary` begins neither after a name nor where a test does
    (b"int f(void){g MCDC_W(0,1);}", 7),
    (b"int f(void){if MCDC_W(0,1);}", 7),
    // brackets
    (b"int a[MCDC_W(0,2]);", 8),
    (b"int f(void){MCDC_H(0);", 11),
];

/// Texts and their tokens without the probes.
static PLAIN: [(&[u8], &[u8]); 5] = [
    (
        b"int f(int a){return a;}",
        b"int f ( int a ) { return a ; } ",
    ),
    (
        b"int f(int a,int b){unsigned mcdc_r[1];MCDC_H(0);{MCDC_H(2);\
          {int mcdc_v=MCDC_D(0,3,MCDC_C(0,0,2,a)&&MCDC_C(0,0,1,b));MCDC_H(1);return mcdc_v;}}}",
        b"int f ( int a , int b ) { { return ( ( a ) && ( b ) ) ; } } ",
    ),
    (
        b"int f(void){x=x*MCDC_D(0,1,a<b);}",
        b"int f ( void ) { x = x * ( a < b ) ; } ",
    ),
    (
        b"void f(int a){MCDC_H(0);{MCDC_H(1);\
          switch(MCDC_W(0,a)){case 1:MCDC_L(0,2);case 2:MCDC_L(0,3);}MCDC_L(0,4);}}",
        b"void f ( int a ) { { switch ( ( a ) ) { case 1 : case 2 : } } } ",
    ),
    (
        b"void f(int a){if(a){MCDC_H(1);{MCDC_H(0);return;}}else{MCDC_H(2);a=1;}MCDC_H(3);}",
        b"void f ( int a ) { if ( a ) { return ; } else { a = 1 ; } } ",
    ),
];

/// A text, and where its tokens start without the probes: parentheses for a probe stand where the
/// operand begins and ends.
static PLACED: (&[u8], [u32; 11]) = (
    b"int a=MCDC_D(0,1,MCDC_C(0,0,1,bc))+d;",
    [0, 4, 5, 30, 30, 30, 31, 31, 34, 35, 36],
);

// ---- pieces

/// Adds a letter and its numbers.
fn add(alloc: Global, out: &mut Vec<u8>, letter: &str, numbers: &[u32]) -> Result<(), Fail> {
    out.extend_from_slice(letter.as_bytes())?;
    let mut first = true;
    for number in numbers {
        if !first {
            out.push(b',')?;
        }
        first = false;
        let digits = format!(in alloc; "{number}")?;
        out.extend_from_slice(digits.as_bytes())?;
    }
    if !first {
        out.push(b';')?;
    }
    Ok(())
}

/// Adds what stands for a piece.
fn add_piece(alloc: Global, out: &mut Vec<u8>, what: What) -> Result<(), Fail> {
    match what {
        What::Source | What::Opening { .. } | What::Closing => add(alloc, out, ".", &[]),
        What::Registers { count } => add(alloc, out, "R", &[count]),
        What::Entry { bit } => add(alloc, out, "E", &[bit]),
        What::Exit { bit } => add(alloc, out, "X", &[bit]),
        What::Declaration { bit } => add(alloc, out, "N", &[bit]),
        What::Label { register, bit } => add(alloc, out, "L", &[register, bit]),
        What::Default { register, bit } => add(alloc, out, "A", &[register, bit]),
        What::Statement { bit } => add(alloc, out, "S", &[bit]),
        What::StatementEnd => add(alloc, out, "s", &[]),
        What::Value => add(alloc, out, "V", &[]),
        What::ValueEnd { bit } => add(alloc, out, "v", &[bit]),
        What::Return { bit } => add(alloc, out, "B", &[bit]),
        What::ReturnEnd => add(alloc, out, "b", &[]),
        What::Decision { register, base } => add(alloc, out, "D", &[register, base]),
        What::Condition {
            register,
            on_true,
            on_false,
        } => add(alloc, out, "C", &[register, on_true, on_false]),
        What::Switch { register } => add(alloc, out, "W", &[register]),
        What::OperandEnd => add(alloc, out, "o", &[]),
    }
}

/// The letters of the pieces of these tokens; or `!` and the number of the token at which none
/// stands.
fn letters(alloc: Global, tokens: &[Token<'_>]) -> Result<Vec<u8>, Fail>
    requires { length tokens.now < 2 ^ 31 }
{
    let mut out = Vec::new(alloc);
    match pieces(alloc, tokens) {
        Ok(all) => {
            for piece in &all {
                add_piece(alloc, &mut out, piece.what)?;
            }
            drop(all);
            Ok(out)
        }
        Err(ShapeFault::Shape { at }) => {
            add(alloc, &mut out, "!", &[at])?;
            Ok(out)
        }
        Err(ShapeFault::OutOfMemory) => Err(Fail),
    }
}

fn letters_of(alloc: Global, text: &[u8]) -> Result<Vec<u8>, Fail> {
    if text.len() > 1000 {
        return Err(Fail);
    }
    let Ok(tokens) = lex(alloc, text, Dialect::Instrumented) else {
        return Err(Fail);
    };
    let out = letters(alloc, &tokens)?;
    drop(tokens);
    Ok(out)
}

#[test]
fn reads(rt: HostRuntime) -> Result<(), Fail> {
    let mut row = 0u32;
    for (text, wanted) in &READ {
        let found = letters_of(rt.alloc(), *text)?;
        assert!(rt; found.as_slice() == *wanted, "row {row}");
        row = row.wrapping_add(1);
    }
    Ok(())
}

#[test]
fn refuses(rt: HostRuntime) -> Result<(), Fail> {
    let mut row = 0u32;
    for (text, at) in &REFUSED {
        let found = letters_of(rt.alloc(), *text)?;
        let mut wanted = Vec::new(rt.alloc());
        add(rt.alloc(), &mut wanted, "!", &[*at])?;
        assert!(rt; found.as_slice() == wanted.as_slice(), "row {row}");
        row = row.wrapping_add(1);
    }
    Ok(())
}

// ---- tokens without the probes

/// The texts of the tokens that are left, with a blank after each, and where they start.
fn left(alloc: Global, tokens: &[Token<'_>]) -> Result<(Vec<u8>, Vec<u32>), Fail>
    requires { length tokens.now < 2 ^ 31 }
{
    let mut texts = Vec::new(alloc);
    let mut starts = Vec::new(alloc);
    let Ok(all) = pieces(alloc, tokens) else {
        return Err(Fail);
    };
    let plain = plain(alloc, &all)?;
    for token in &plain {
        texts.extend_from_slice(token.text)?;
        texts.push(b' ')?;
        starts.push(token.start)?;
    }
    drop(plain);
    drop(all);
    Ok((texts, starts))
}

fn left_of(alloc: Global, text: &[u8]) -> Result<(Vec<u8>, Vec<u32>), Fail> {
    if text.len() > 1000 {
        return Err(Fail);
    }
    let Ok(tokens) = lex(alloc, text, Dialect::Instrumented) else {
        return Err(Fail);
    };
    let found = left(alloc, &tokens)?;
    drop(tokens);
    Ok(found)
}

#[test]
fn leaves_tokens(rt: HostRuntime) -> Result<(), Fail> {
    let mut row = 0u32;
    for (text, wanted) in &PLAIN {
        let (texts, _starts) = left_of(rt.alloc(), *text)?;
        assert!(rt; texts.as_slice() == *wanted, "row {row}");
        row = row.wrapping_add(1);
    }
    Ok(())
}

#[test]
fn places_tokens(rt: HostRuntime) -> Result<(), Fail> {
    let (text, wanted) = &PLACED;
    let (_texts, starts) = left_of(rt.alloc(), *text)?;
    assert!(rt; starts.as_slice() == wanted.as_slice());
    Ok(())
}
