//! Worked rows of cells.
ghost use Rattle.std.specs.Prelude.{◌≡◌, ◌<◌, ◌≤◌, length, IfOk};

use mc_cells::Cells;
use std::alloc::Global;
use std::test::Fail;

/// The ends of the ranges of 64 and of 128 bits, and numbers beside them.
static NUMBERS: [i128; 12] = [
    0,
    1,
    -1,
    9223372036854775807,
    9223372036854775808,
    -9223372036854775808,
    -9223372036854775809,
    18446744073709551615,
    18446744073709551616,
    -18446744073709551616,
    i128::MIN,
    i128::MAX,
];

static SIGNED: [i64; 5] = [0, 1, -1, i64::MIN, i64::MAX];

static UNSIGNED: [u64; 4] = [0, 1, 9223372036854775808, 18446744073709551615];

/// Six cells, the first five of them set to 0 to 4.
fn six(alloc: Global) -> Result<Cells, Fail>
    ensures { IfOk result (λ c. length c.cells ≡ 6) }
{
    let mut cells = Cells::with(alloc, 8)?;
    if cells.enter(6).is_none() {
        return Err(Fail::new("no room"));
    }
    for k in 0..5 {
        cells.set(k, Some(k as i128));
    }
    Ok(cells)
}

/// The six cells, -1 for one that is unset.
fn seen(cells: &Cells) -> [i128; 6]
    requires { 6 ≤ length cells.now.cells }
{
    let mut row = [-1; 6];
    for k in 0..6u32 {
        if let Some(number) = cells.get(k) {
            row[k as usize] = number;
        }
    }
    row
}

/// Whether a number is read as it was written.
fn is_kept(cells: &mut Cells, number: i128) -> bool
    requires { 6 ≤ length cells.old.cells }
    ensures { length cells.new.cells ≡ length cells.old.cells }
{
    cells.set(2, Some(number));
    cells.get(2) == Some(number)
}

fn is_signed_kept(cells: &mut Cells, number: i64) -> bool
    requires { 6 ≤ length cells.old.cells }
    ensures { length cells.new.cells ≡ length cells.old.cells }
{
    cells.set_signed(3, number);
    cells.get_signed(3) == Some(number) && cells.get(3) == Some(number as i128)
}

fn is_unsigned_kept(cells: &mut Cells, number: u64) -> bool
    requires { 6 ≤ length cells.old.cells }
    ensures { length cells.new.cells ≡ length cells.old.cells }
{
    cells.set_unsigned(3, number);
    cells.get_unsigned(3) == Some(number) && cells.get(3) == Some(number as i128)
}

#[test]
fn keeps_numbers(rt: HostRuntime) -> Result<(), Fail> {
    let mut cells = six(rt.alloc())?;
    for number in &NUMBERS {
        assert!(rt; is_kept(&mut cells, *number), "{number}");
    }
    for number in &SIGNED {
        assert!(rt; is_signed_kept(&mut cells, *number), "{number}");
    }
    for number in &UNSIGNED {
        assert!(rt; is_unsigned_kept(&mut cells, *number), "{number}");
    }
    Ok(())
}

#[test]
fn moves_cells(rt: HostRuntime) -> Result<(), Fail> {
    let mut cells = six(rt.alloc())?;
    assert!(rt; seen(&cells) == [0, 1, 2, 3, 4, -1]);
    cells.copy(0, 1, 4);
    assert!(rt; seen(&cells) == [0, 0, 1, 2, 3, -1]);
    cells.copy(2, 1, 4);
    assert!(rt; seen(&cells) == [0, 1, 2, 3, -1, -1]);
    cells.fill(3, 2, Some(7));
    assert!(rt; seen(&cells) == [0, 1, 2, 7, 7, -1]);
    cells.set(0, None);
    assert!(rt; seen(&cells) == [-1, 1, 2, 7, 7, -1]);
    Ok(())
}

#[test]
fn enters_and_leaves(rt: HostRuntime) -> Result<(), Fail> {
    let mut cells = six(rt.alloc())?;
    assert!(rt; cells.enter(3).is_none());
    assert!(rt; cells.enter(2) == Some(6));
    assert!(rt; cells.enter(0) == Some(8));
    cells.leave(3);
    assert!(rt; cells.enter(4) == Some(3));
    assert!(rt; seen(&cells) == [0, 1, 2, -1, -1, -1]);
    Ok(())
}
