//! What `instrument` writes. Each text that is expected was written out by hand, from the table of
//! what the probes insert.

use crate::row::is_written;
use crate::run::{SOURCE, gives, of_files};
use std::alloc::Global;
use std::thread::Threads;
use tests_memory::Fail;

/// The text of the program of `a&&b`: bit 0 is the entry, 1 the exit, 2 the statement, and 3 to 5
/// are the paths.
const TEXT: &str = "\
int f ( int a , int b ) {
unsigned mcdc_r [ 1 ] ;
MCDC_H ( 0 ) ;
{
MCDC_H ( 2 ) ;
{
int mcdc_v = MCDC_D ( 0 , 3 , MCDC_C ( 0 , 0 , 2 , a ) && MCDC_C ( 0 , 0 , 1 , b ) ) ;
MCDC_H ( 1 ) ;
return mcdc_v ;
}
}
}
";

/// Rows `CASE@WORDS@SOURCE@TESTS@STATUS@OUT@DIAG`, with `~` between each two. The tests file is not
/// asked for.
const ROWS: &str = "\
a return without a value@instrument|s.c@void f(int x){if(x)return;}@@0@\
void f ( int x ) {
unsigned mcdc_r [ 1 ] ;
MCDC_H ( 0 ) ;
{
MCDC_H ( 3 ) ;
if ( MCDC_D ( 0 , 5 , MCDC_C ( 0 , 0 , 1 , x ) ) ) {
MCDC_H ( 4 ) ;
{
MCDC_H ( 1 ) ;
return ;
}
}
}
MCDC_H ( 2 ) ;
}
@~
a switch without a default@instrument|--|s.c@static int g(char c){switch((c)){case 1:c++;}return c;}@@0@\
static int g ( char c ) {
unsigned mcdc_r [ 1 ] ;
MCDC_H ( 0 ) ;
{
MCDC_H ( 2 ) ;
switch ( ( MCDC_W ( 0 , c ) ) ) {
case 1 : MCDC_L ( 0 , 6 ) ;
{
MCDC_H ( 3 ) ;
c ++ ;
}
}
MCDC_L ( 0 , 5 ) ;
}
{
MCDC_H ( 4 ) ;
{
int mcdc_v = c ;
MCDC_H ( 1 ) ;
return mcdc_v ;
}
}
}
@~
no function@instrument|s.c@# 1 \"a.c\"
int/* a */x ;@@0@\
int x ;
@~
no token@instrument|s.c@ // nothing@@0@@~
no such file@instrument|u.c@int x;@@6@@mcdc: cannot read u.c
~
a comma in place of a declaration@instrument|s.c@int f(void){return 0,1;}@@3@@\
mcdc: source 1:20: outside form comma
";

#[test]
fn programs_are_written(rt: HostRuntime) -> Result<(), Fail> {
    for row in ROWS.split('~') {
        assert!(rt; is_written(&rt, rt.alloc(), row)?, "{row}");
    }
    Ok(())
}

/// A put that fails, how many bytes of its piece it takes, the room of the output, the status, and
/// how many bytes of the text are written. The text has 71 tokens, so 142 pieces.
static FAULTS: [(u32, u32, u32, u8, usize); 8] = [
    (0, 0, 4096, 0, 208),
    (1, 0, 4096, 7, 0),
    (1, 2, 4096, 7, 2),
    (2, 0, 4096, 7, 3),
    (7, 2, 4096, 7, 10),
    (142, 0, 4096, 7, 207),
    (143, 0, 4096, 0, 208),
    (0, 0, 10, 7, 8),
];

fn is_cut<R: Threads + Sync>(
    rt: &R,
    alloc: Global,
    failing: (u32, u32),
    room: u32,
    status: u8,
    count: usize,
) -> Result<bool, Fail> {
    let mut setting = of_files("instrument|s.c", SOURCE.as_bytes(), b"", b"");
    setting.failing_out = failing;
    setting.room = room;
    let Some(written) = TEXT.as_bytes().get(..count) else {
        return Err(Fail);
    };
    gives(rt, alloc, &setting, (status, written, b""))
}

#[test]
fn faults_of_the_output(rt: HostRuntime) -> Result<(), Fail> {
    for (put, takes, room, status, count) in &FAULTS {
        assert!(rt;
            is_cut(&rt, rt.alloc(), (*put, *takes), *room, *status, *count)?,
            "{put} {takes} {room}"
        );
    }
    Ok(())
}
