//! The program whose functions the tests files call.
ghost use Rattle.std.specs.Prelude.{◌<◌, ◌+◌, ◌^◌, All, length};

use crate::faults::check_faults;
use crate::plans::are_read;
use mc_lex::{Dialect, Token, lex};
use mc_parse::parse;
use mc_subset::check;
use mc_tree::Unit;
use mc_typed::Program;
use mc_types::type_unit;
use std::alloc::Global;
use std::process::Abort;
use std::test::Fail;

/// `w` has a parameter of each integer type, and `g` has no body.
const SOURCE: &[u8] = b"struct S{int a;};
int f(int a,int b){return a+b;}
void v(int a){}
int g(void);
int z(void){return 1;}
int w(_Bool a,char b,signed char c,unsigned char d,short e,unsigned short f,int g,unsigned h,
  long i,unsigned long j,long long k,unsigned long long l){return 1;}
int t(int a[]){return 1;}
int a(int a[],int b){return b;}
int p(struct S a){return a.a;}
struct S s(void){struct S a={1};return a;}
";

/// What a source is read as: its tree, and then its typed program.
trait Stage {
    /// Checks the tests files of the program.
    fn check_files(&self, rt: &impl Abort, alloc: Global) -> Result<(), Fail>;
}

/// The same of what was read, which is let go. For any type: a match that takes a whole tree or
/// program out of its result makes a long proof.
fn check_read<T: Stage + Drop, E: Drop>(
    rt: &impl Abort,
    alloc: Global,
    read: Result<T, E>,
    fault: &'static str,
) -> Result<(), Fail> {
    match read {
        Ok(it) => {
            let checked = it.check_files(rt, alloc);
            drop(it);
            checked
        }
        Err(_) => Err(Fail::new(fault)),
    }
}

impl Stage for Program<'_> {
    fn check_files(&self, rt: &impl Abort, alloc: Global) -> Result<(), Fail> {
        assert!(rt; are_read(alloc, self));
        check_faults(rt, alloc, self)
    }
}

impl Stage for Unit<'_> {
    fn check_files(&self, rt: &impl Abort, alloc: Global) -> Result<(), Fail> {
        if check(self).is_err() {
            return Err(Fail::new("outside form"));
        }
        check_read(rt, alloc, type_unit(alloc, self), "names or types")
    }
}

fn check_tokens(rt: &impl Abort, alloc: Global, tokens: &[Token<'_>]) -> Result<(), Fail>
    requires short { All (λ token. token.start + length token.text.now < 2 ^ 31) tokens.now }
    requires few { length tokens.now < 2 ^ 31 }
{
    check_read(rt, alloc, parse(alloc, tokens, Dialect::Plain), "syntax")
}

/// Checks the tests files of the program.
#[tactic(auto, using(crate::proofs::Short::all_short))]
pub(crate) fn check_all(rt: &impl Abort, alloc: Global) -> Result<(), Fail> {
    let source = SOURCE;
    if source.len() >= 0x8000_0000 {
        return Err(Fail::new("length"));
    }
    match lex(alloc, source, Dialect::Plain) {
        Ok(tokens) => {
            let checked = check_tokens(rt, alloc, &tokens);
            drop(tokens);
            checked
        }
        Err(_) => Err(Fail::new("tokens")),
    }
}
