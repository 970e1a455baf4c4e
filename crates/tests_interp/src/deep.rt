//! Bodies of 128 levels: four activations of each may be open, and a fifth may not.

use crate::fail::Fail;
use crate::reading::told;
use std::alloc::Global;

/// A row is a text, a piece that comes so many times, the middle, a piece that comes as often, and
/// the end. The function calls itself so often as its argument says.
const ROWS: &str = "\
int f(int n){return n?@!@122@f(n-1)@@:0;}
int f(int n){return n?@~@122@f(n-1)@@:0;}
int f(int n){return n?@(long)@122@f(n-1)@@:0;}
int f(int n){return n?@@122@f(n-1)@+1@:0;}
int f(int n){return n?@@122@f(n-1)@&&n@:0;}
int f(int n){return n?@@122@f(n-1)@||n@:0;}
int f(int n){return @n?@123@f(n-1)@:0@;}
int a[4];int f(int n){return n?@a[@122@f(n-1)@]@:0;}
int g(int x){return x;}int f(int n){return n?@g(@122@f(n-1)@)@:0;}
void f(int n){@if(n)@123@f(n-1);@@}
void f(int n){@if(!n);else @122@if(n)f(n-1);@@}
void f(int n){@{@122@if(n)f(n-1);@}@}
void f(int n){@do{@61@if(n)f(n-1);@}while(0);@}
void f(int n){@while(1){@61@if(n)f(n-1);@break;}@}
void f(int n){@for(;;){@61@if(n)f(n-1);@break;}@}
void f(int n){@switch(n){default:@61@if(n)f(n-1);@}@}
";

/// A text whose middle stands between pieces that come so many times.
#[derive(Clone, Copy)]
struct Nest<'t> {
    head: &'t str,
    open: &'t str,
    count: u32,
    middle: &'t str,
    close: &'t str,
    tail: &'t str,
}

fn nest_of(row: &str) -> Option<Nest<'_>> {
    let (head, rest) = row.split_once('@')?;
    let (open, rest) = rest.split_once('@')?;
    let (count, rest) = rest.split_once('@')?;
    let (middle, rest) = rest.split_once('@')?;
    let (close, tail) = rest.split_once('@')?;
    Some(Nest {
        head,
        open,
        count: count.parse::<u32>().ok()?,
        middle,
        close,
        tail,
    })
}

/// Two tests of the text: of four activations, and of five.
fn text_of(alloc: Global, nest: &Nest<'_>) -> Result<String, Fail> {
    let mut text = String::new(alloc);
    text.push_str("returned,levels 100000 -@t,f,3,,,$u,f,4,,,@")?;
    text.push_str(nest.head)?;
    for _ in 0..nest.count {
        text.push_str(nest.open)?;
    }
    text.push_str(nest.middle)?;
    for _ in 0..nest.count {
        text.push_str(nest.close)?;
    }
    text.push_str(nest.tail)?;
    Ok(text)
}

/// Whether four activations may be open, and a fifth may not.
fn are_four(alloc: Global, row: &str) -> Result<bool, Fail> {
    let Some(nest) = nest_of(row) else {
        return Err(Fail);
    };
    let text = text_of(alloc, &nest)?;
    told(alloc, text.as_str())
}

#[test]
fn deep_bodies(rt: HostRuntime) -> Result<(), Fail> {
    for row in ROWS.lines() {
        assert!(rt; matches!(are_four(rt.alloc(), row), Ok(true)), "{row}");
    }
    Ok(())
}
