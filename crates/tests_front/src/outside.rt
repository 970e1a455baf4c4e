//! The first outside form of a source, by the table of docs/LANGUAGE.md.

use crate::reading::{Fail, Outcome, joined, judged};
use std::alloc::Global;

/// A row is the form, and a source in which `@` stands at its place. Where no node is outside, it
/// is `@` and the source. A line with `#` tells what follows.
const ROWS: &str = "\
# pointer
pointer@int @*a;
pointer@int a,@**b;
pointer@int @*f(void);
pointer@int @*f(void){return 0;}
pointer@struct{int @*a;}b;
# parameter: its start
pointer@int f(@int *a);
pointer@int f(@const int *);
# second parameter of a definition
pointer@int f(int a,@int *b){return a;}
# type name: its start
pointer@int a=(@int*)1;
pointer@int f(int a){return @*a;}
pointer@int f(int a){return 1+@&a;}
@int a[2];
@int f(int a[]){return a[0]*2&1;}
@int a=(int)1;
pointer@typedef int T;void f(void) { T @*x; }
@void f(int T,int x) { T *x; }
# nested assignment
nested assignment@int f(int a){a=@a=1;return a;}
# parentheses round a whole one
nested assignment@int f(int a){(@a=1);return a;}
nested assignment@int f(int a){return @a++;}
nested assignment@int f(int a){return 1+@--a;}
nested assignment@int f(int a){if(@a=1)return a;return 0;}
nested assignment@int f(int a){int b=@a+=1;return b;}
# second part of a for
nested assignment@int f(int a){for(a=0;@a=1;a++);return a;}
nested assignment@int f(int a){for(a=0;a<2;a=@a++);return a;}
# arm of ?:
nested assignment@int f(int a){return a?@a=1:0;}
nested assignment@int f(int a){a[@a++]=1;return a;}
@int f(int a){a=1;a++;--a;a+=2;return a;}
@int f(int a){for(a=0;a<2;a++);return a;}
@int f(int a,int b){for(a=0,b=1;a<b;a++,b-=1);return a;}
@int f(int a){for(int b=0;b<a;b++);return a;}
# comma
comma@int f(int a){@a,a;return a;}
# statement of assignments: the comma comes before them
comma@int f(int a){@a=1,a=2;return a;}
comma@int f(int a){return @a,1;}
comma@int f(int a){return (@a,1);}
# second part of a for
comma@int f(int a){for(a=0;@a,1;a++);return a;}
comma@int f(int a){for((@a,a);a;a);return a;}
# parentheses in one of two clauses
comma@int f(int a){for(a,(@a,a);a;a);return a;}
comma@int f(int a){return a[@a,a];}
comma@int f(int a){while(@a,1);return a;}
comma@int f(int a){switch(@a,1){default:;}return a;}
@int f(int a){for(a=0,a=1;a;a++,a--);return a;}
@int g(int a,int b);int f(int a){return g(a,a);}
@int a[2]={1,2};
# goto
# goto
goto@int f(void){@goto a;}
goto@int f(void){@a:return 1;}
goto@int f(int a){if(a)@b:;return a;}
# label after a case label
goto@int f(int a){switch(a){case 1:@b:;}return a;}
# label before the first case label: the upper row answers
goto@int f(int a){switch(a){@b:case 1:;}return a;}
# goto before the first label: the upper row answers
goto@int f(int a){switch(a){@goto b;case 1:;}return a;}
@int f(int a){switch(a){case 1:break;default:;}return a;}
@int f(int a){while(a){if(a)break;continue;}return a;}
# empty parameters
empty parameters@int f(@){return 1;}
empty parameters@int f(@);
# with a space: the )
empty parameters@int f( @);
# with a comment: the )
empty parameters@int f(/*x*/@);
empty parameters@int a,f(@);
empty parameters@struct{int f(@);}a;
@int f(void){return 1;}
@int f(int);
# switch shape
switch shape@int f(int a){@switch(a);return a;}
# a label in place of one
switch shape@int f(int a){@switch(a)case 1:;return a;}
# declaration before the first label
switch shape@int f(int a){switch(a){@int b;case 1:;}return a;}
switch shape@int f(int a){switch(a){case 1:;@int b;}return a;}
# statement before the first label
switch shape@int f(int a){switch(a){@a=1;case 1:;}return a;}
switch shape@int f(int a){switch(a){@;default:;}return a;}
# block before the first label: the block
switch shape@int f(int a){switch(a){@{case 1:;}}return a;}
switch shape@int f(int a){switch(a){@a=1;}return a;}
# label in a block of its own
switch shape@int f(int a){switch(a){case 1:{@case 2:;}}return a;}
switch shape@int f(int a){switch(a){case 1:if(a)@case 2:;}return a;}
switch shape@int f(int a){switch(a){case 1:;if(a)@default:;}return a;}
switch shape@int f(int a){@case 1:;return a;}
switch shape@int f(int a){@default:;return a;}
# inner switch without a compound statement
switch shape@int f(int a){switch(a){case 1:@switch(a);}return a;}
# inner switch before the first label
switch shape@int f(int a){switch(a){@switch(a){case 1:;}case 2:;}return a;}
# statement before the first label of an inner switch
switch shape@int f(int a){switch(a){case 1:switch(a){@;case 2:;}}return a;}
@int f(int a){switch(a){}return a;}
@int f(int a){switch(a){case 1:case 2:default:a=1;break;}return a;}
@int f(int a){switch(a){case 1:a=1;a=2;case 2:{int b=1;a=b;}}return a;}
@int f(int a){switch(a){case 1:switch(a){case 1:;}case 2:;}return a;}
@int f(int a){while(a)switch(a){case 1:;}return a;}
# local tag
local tag@int f(void){@struct{int a;}b;return 1;}
# the word, not the declaration
local tag@int f(void){const @struct S{int a;}b;return 1;}
local tag@int f(void){@enum{A};return 1;}
# in a cast in a body
local tag@int f(void){return (@enum{A})1;}
local tag@int f(@struct S{int a;}b);
local tag@int f(@enum E{A}b){return 1;}
# type words of a definition
local tag@@struct S{int a;}f(void){struct S b;return b;}
# type words of a definition, after static
local tag@static @enum E{A}f(void){return A;}
# first part of a for
local tag@int f(void){for(@enum{A}a=A;a;);return 1;}
# in a length of a parameter
local tag@int f(int a[(@enum{A,B})2]);
@struct S{int a;};int f(void){struct S b;return 1;}
@enum E{A};int f(enum E a){return 1;}
@struct S{int a;}f(void);
@int a=(enum{A,B})1;
@int a[(enum{A,B})2];
@struct{struct{int a;}b;}c;
@int f(void){struct S;return 1;}
# local function
local function@int f(void){int @g(void);return 1;}
local function@int f(void){int a,@g(int);return 1;}
local function@int f(void){static int @g(void);return 1;}
local function@int f(void){int @g();return 1;}
local function@int f(void){{int @g(void);}return 1;}
# first part of a for
local function@int f(void){for(int @g(void);;);return 1;}
@int g(void);int f(void){return g();}
@int f(void){int g[2];return 1;}
# external object
external object@extern int @a;
external object@extern int f(void),@a;
external object@extern int @a[2];
external object@int extern @a=1;
external object@extern struct{int b;}@a;
@extern int f(void);
@extern int f(void){return 1;}
@static int a;
@extern struct S{int a;};
# const member
const member@struct{@const int a;}b;
# const after the type: the member
const member@struct{int a;@int const b;}c;
const member@struct S{struct{@const int a;}b;};
# const of an inner structure
const member@struct S{@const struct{int a;}b;};
@const struct{int a;}b={1};
@struct{int a[(const int)2];}b;
@typedef const int T;struct{T a;}b;
# two forms: the first in preorder answers, at one node the upper row
pointer@int @*f();
empty parameters@int f(@),*a;
# the step before the pointer inside it
nested assignment@int f(int a){return @(*a)++;}
# a whole assignment is inside; its target is not
pointer@int f(int a){@*a=1;return a;}
comma@int f(int a){return @a,a=1;}
goto@int f(int a){@b:a=a=1;return a;}
# the statement before what stands in it
switch shape@int f(int a){switch(a){@a=a=1;case 1:;}return a;}
# two of one form: the outer one
nested assignment@int f(int a){switch(@a=a=1){}return a;}
# the switch before its expression
switch shape@int f(int a){@switch(a=1);return a;}
# the structure before its member
local tag@int f(void){@struct{const int a;}b;return 1;}
# at one declarator the upper row: pointer before local function
pointer@int f(void){int @*g();return 1;}
# at one declarator the upper row: pointer before external object
pointer@extern int @*a;
# the parameter before its structure, at one place
pointer@int f(@struct{int a;}*b);
# the type name before its structure, at one place
pointer@int f(void){return (@struct{int a;}*)1;}
# second part of a for before the third
nested assignment@int f(int a){for(a=0;@a=1;(a,a));return a;}
# the body of a do before its test
goto@int f(int a){do @goto b;while(a=1);return a;}
# second operand before the third
nested assignment@int f(int a){return a?@a++:(a,a);}
# an initializer before the next declarator
nested assignment@int f(int a){int b=@a++,*c;return a;}
empty parameters@int f(@);int g(int *a);
";

/// Whether a source has this form at this place.
fn has_form<'x>(alloc: Global, form: &'x str, front: &'x str, back: &'x str) -> Result<bool, Fail> {
    let source = joined(alloc, &[front, back])?;
    match judged(alloc, &source, 200)? {
        Outcome::Read {
            outside: Some(node),
            ..
        } => { Ok(node.form.as_str() == form && node.span.start as usize == front.len()) }
        _ => Ok(false),
    }
}

fn is_right(alloc: Global, row: &str) -> Result<bool, Fail> {
    let Some((form, text)) = row.split_once('@') else {
        return Ok(row.starts_with('#'));
    };
    if let Some((front, back)) = text.split_once('@') {
        return has_form(alloc, form, front, back);
    }
    let read = judged(alloc, text.as_bytes(), 200)?;
    Ok(matches!(read, Outcome::Read { outside: None, .. }))
}

#[test]
fn outside_forms(rt: HostRuntime) -> Result<(), Fail> {
    for row in ROWS.lines() {
        assert!(rt; is_right(rt.alloc(), row)?, "{row}");
    }
    Ok(())
}
