//! Sources and their decisions.
use crate::reading::{Shown, tell};
use crate::rows::{FLAPS, FLAPS_DECISIONS, LARGE, LargeRow, ROWS, VECTORS};
use std::alloc::{AllocError, Global};

fn is_told(alloc: Global, shown: Shown, source: &str, want: &str) -> Result<bool, AllocError> {
    let mut text = String::new(alloc);
    let told = tell(alloc, shown, &mut text, source);
    let same = text.as_str() == want;
    drop(text);
    told?;
    Ok(same)
}

fn is_right(alloc: Global, shown: Shown, row: &str) -> Result<bool, AllocError> {
    match row.split_once('@') {
        Some((source, want)) => is_told(alloc, shown, source, want),
        None => Ok(row.starts_with('#')),
    }
}

/// Adds a text with so many pieces between two others.
fn repeat(
    source: &mut String,
    front: &str,
    piece: &str,
    count: usize,
    back: &str,
) -> Result<(), AllocError> {
    source.push_str(front)?;
    for _turn in 0..count {
        source.push_str(piece)?;
    }
    source.push_str(back)
}

fn is_told_in(alloc: Global, source: &mut String, row: &LargeRow) -> Result<bool, AllocError> {
    let (front, piece, count, back, want) = *row;
    repeat(source, front, piece, count, back)?;
    is_told(alloc, Shown::Vectors, source.as_str(), want)
}

fn is_large_told(alloc: Global, row: &LargeRow) -> Result<bool, AllocError> {
    let mut source = String::new(alloc);
    let same = is_told_in(alloc, &mut source, row);
    drop(source);
    same
}

/// The first of these rows that is not right.
fn wrong_row<'x>(
    alloc: Global,
    shown: Shown,
    rows: &'x str,
) -> Result<Option<&'x str>, AllocError> {
    for row in rows.lines() {
        if !is_right(alloc, shown, row)? {
            return Ok(Some(row));
        }
    }
    Ok(None)
}

/// What is wanted of the first large decision of which something else is told.
fn wrong_large(alloc: Global) -> Result<Option<&'static str>, AllocError> {
    for row in &LARGE {
        if !is_large_told(alloc, row)? {
            return Ok(Some(row.4));
        }
    }
    Ok(None)
}

#[test]
fn decisions_of_sources(rt: HostRuntime) -> Result<(), AllocError> {
    let alloc = rt.alloc();
    assert_eq!(rt; wrong_row(alloc, Shown::Decisions, ROWS)?, None);
    assert!(rt; is_told(alloc, Shown::Decisions, FLAPS, FLAPS_DECISIONS)?);
    Ok(())
}

#[test]
fn vectors_of_sources(rt: HostRuntime) -> Result<(), AllocError> {
    let alloc = rt.alloc();
    assert_eq!(rt; wrong_row(alloc, Shown::Vectors, VECTORS)?, None);
    assert_eq!(rt; wrong_large(alloc)?, None);
    Ok(())
}
