//! Workers in threads of their own record what their scripts say.
use crate::workers::record_all;
use mc_core::Shape;
use mc_cover::{OpenFault, PlainCloser, SkippingCloser, claim, close, fork, hit, join, open};
use std::alloc::{AllocError, Global};
use std::test::Fail;

// The word of the bit under 64 tests, as the scripts say.
fn scripted_word(bits: u32, factors: &[u32], bit: u32, row: u32) -> u64 {
    let mut word = 0;
    for lane in 0..64u32 {
        let test = row.wrapping_mul(64).wrapping_add(lane);
        if factors.iter().any(|factor| bits > 0 && test.wrapping_mul(*factor) % bits == bit) {
            word |= 1u64 << lane;
        }
    }
    word
}

// The words of 256 bits under 4,096 tests, as the scripts say.
fn scripted_words(alloc: Global, factors: &[u32]) -> Result<Vec<u64>, AllocError> {
    let mut words = Vec::new(alloc);
    for place in 0..16384u32 {
        words.push(scripted_word(256, factors, place / 64, place % 64))?;
    }
    Ok(words)
}

#[test]
fn two_threads_share_the_tests(rt: HostRuntime) -> Result<(), Fail> {
    let shape = Shape {
        bits: 2,
        tests: 128,
    };
    let matrix = record_all(&rt, rt.alloc(), shape, 2, &[1], &PlainCloser).expect(&rt, "memory");
    let even = 0x5555_5555_5555_5555;
    let odd = 0xaaaa_aaaa_aaaa_aaaa;
    assert!(rt; matrix.as_words() == [even, even, odd, odd].as_slice());
    Ok(())
}

#[test]
fn eight_threads_record_their_scripts(rt: HostRuntime) -> Result<(), Fail> {
    let shape = Shape {
        bits: 256,
        tests: 4096,
    };
    let factors = [1, 7, 31, 100];
    let expected = scripted_words(rt.alloc(), &factors)?;
    for _round in 0..20 {
        let matrix = record_all(&rt, rt.alloc(), shape, 8, &factors, &PlainCloser);
        let matrix = matrix.expect(&rt, "memory");
        assert!(rt; matrix.as_words() == expected.as_slice());
    }
    Ok(())
}

#[test]
fn a_skipping_closer_leaves_out_its_tests(rt: HostRuntime) -> Result<(), Fail> {
    let alloc = rt.alloc();
    let shape = Shape {
        bits: 2,
        tests: 128,
    };
    let closer = SkippingCloser {
        skipped: vec![in alloc; 0, 3, 127, 127, 128, 500]?,
    };
    let matrix = record_all(&rt, alloc, shape, 2, &[1], &closer).expect(&rt, "memory");
    let expected = [
        0x5555_5555_5555_5554,
        0x5555_5555_5555_5555,
        0xaaaa_aaaa_aaaa_aaa2,
        0x2aaa_aaaa_aaaa_aaaa,
    ];
    assert!(rt; matrix.as_words() == expected.as_slice());
    Ok(())
}

#[test]
fn one_thread_claims_in_order(rt: HostRuntime) -> Result<(), Fail> {
    let (cover, mut pass) = open(rt.alloc(), Shape { bits: 3, tests: 2 }).expect(&rt, "memory");
    let mut worker = fork(&cover, &mut pass);
    let first = claim(&cover, &mut worker).expect(&rt, "test 0");
    hit(&cover, &mut worker, 2, first);
    hit(&cover, &mut worker, 2, first);
    let second = claim(&cover, &mut worker).expect(&rt, "test 1");
    hit(&cover, &mut worker, 0, second);
    let third = claim(&cover, &mut worker);
    join(&cover, &mut pass, worker);
    let matrix = close(cover, pass);
    assert!(rt; first == 0 && second == 1 && third.is_none());
    assert!(rt; matrix.as_words() == [2, 0, 1].as_slice());
    Ok(())
}

#[test]
fn sizes_at_their_ends(rt: HostRuntime) -> Result<(), Fail> {
    let (cover, mut pass) = open(rt.alloc(), Shape { bits: 5, tests: 0 }).expect(&rt, "memory");
    let mut worker = fork(&cover, &mut pass);
    assert!(rt; claim(&cover, &mut worker).is_none());
    join(&cover, &mut pass, worker);
    assert!(rt; close(cover, pass).as_words().is_empty());
    let most = open(
        rt.alloc(),
        Shape {
            bits: 1_048_576,
            tests: 64,
        },
    );
    assert!(rt; most.is_ok());
    for (bits, tests, words) in [
        (1_048_577, 1, 1_048_577),
        (16, 4_194_305, 1_048_592),
        (u32::MAX, u32::MAX, 288_230_376_084_602_880),
    ] {
        let fault = open(rt.alloc(), Shape { bits, tests }).err();
        assert!(rt; fault == Some(OpenFault::TooLarge { words }));
    }
    Ok(())
}
