//! Words, places and merging of matrices whose pairs are known.
ghost use Rattle.std.specs.Prelude.{◌≡◌, ◌≤◌, IfOk};
ghost use Rattle.mc_core.specs.Shape.{word_count};

use mc_core::{Matrix, MergeFault, Shape, merge, words};
use std::alloc::Global;
use std::process::Abort;
use std::test::Fail;

// The matrix with these pairs of a bit and a test.
fn matrix_of(
    rt: &impl Abort,
    alloc: Global,
    shape: Shape,
    pairs: &[(u32, u32)],
) -> Result<Matrix, Fail>
    requires { word_count shape ≤ 1048576 }
    ensures { IfOk result (λ m. m.shape ≡ shape) }
{
    let mut matrix = Matrix::zero(alloc, shape)?;
    for (bit, test) in pairs {
        assert!(rt; *bit < shape.bits && *test < shape.tests);
        matrix.set(*bit, *test);
    }
    Ok(matrix)
}

#[test]
fn words_of_matrices(rt: HostRuntime) -> Result<(), Fail> {
    let alloc = rt.alloc();
    for (bits, tests, count) in [
        (6, 130, 18),
        (1, 64, 1),
        (1, 65, 2),
        (7, 0, 0),
        (65_536, 4_096, 4_194_304),
    ] {
        assert_eq!(rt; words(Shape { bits, tests }), count);
    }
    let matrix = matrix_of(
        &rt,
        alloc,
        Shape {
            bits: 2,
            tests: 130,
        },
        &[(0, 3), (0, 129), (1, 64), (1, 64)],
    )?;
    assert!(rt; matrix.as_words() == [8, 0, 2, 0, 1, 0].as_slice());
    for (bit, test, held) in [
        (0, 3, true),
        (0, 4, false),
        (0, 129, true),
        (0, 130, false),
        (1, 64, true),
        (2, 3, false),
    ] {
        assert_eq!(rt; matrix.holds(bit, test), held);
    }
    for (bit, least) in [(0, Some(3)), (1, Some(64)), (2, None)] {
        assert_eq!(rt; matrix.least_test(bit), least);
    }
    Ok(())
}

#[test]
fn tests_are_merged_in_turn(rt: HostRuntime) -> Result<(), Fail> {
    let alloc = rt.alloc();
    let left = matrix_of(
        &rt,
        alloc,
        Shape { bits: 2, tests: 70 },
        &[(0, 0), (0, 69), (1, 65)],
    )?;
    let right = matrix_of(
        &rt,
        alloc,
        Shape { bits: 2, tests: 61 },
        &[(0, 0), (0, 1), (1, 60)],
    )?;
    let Ok(both) = merge(alloc, &left, &right) else {
        panic!(rt; "out of memory")
    };
    assert_eq!(rt;
        both.shape(),
        Shape {
            bits: 2,
            tests: 131
        }
    );
    assert!(rt; both.as_words() == [1, 0xe0, 0, 0, 2, 4].as_slice());
    let none = Matrix::of_words(Shape { bits: 2, tests: 0 }, Vec::new(alloc));
    assert!(rt; matches!(&merge(alloc, &none, &none), Ok(empty) if empty.as_words().is_empty()));
    let large = Matrix::zero(
        alloc,
        Shape {
            bits: 16_385,
            tests: 2_048,
        },
    )?;
    assert!(rt;
        matches!(
            &merge(alloc, &large, &large),
            Err(MergeFault::TooLarge { words: 1_048_640 })
        )
    );
    Ok(())
}
