//! Sources and their mutants.
use crate::mutants::MUTANTS;
use crate::reading::tell;
use crate::rows::ROWS;
use crate::show::Asked;
use std::alloc::{AllocError, Global};

/// Whether a text is another one with something else in place of the first `old` in it.
fn is_changed(text: &str, plain: &str, old: &str, new: &str) -> bool {
    let Some((before, after)) = plain.split_once(old) else {
        return false;
    };
    let Some(rest) = text.strip_prefix(before) else {
        return false;
    };
    rest.strip_prefix(new) == Some(after)
}

/// Whether these lines are the program of a row and its mutants.
fn are_programs(told: &str, want: &str) -> bool {
    let mut parts = want.split('@');
    let plain = parts.next().unwrap_or("");
    let mut lines = told.lines();
    if lines.next() != Some(plain) {
        return false;
    }
    for line in lines {
        let old = parts.next().unwrap_or("");
        let new = parts.next().unwrap_or("");
        if !is_changed(line, plain, old, new) {
            return false;
        }
    }
    parts.next().is_none()
}

fn agrees(told: &str, asked: Asked, want: &str) -> bool {
    match asked {
        Asked::Changes => told == want,
        Asked::Programs => are_programs(told, want),
    }
}

fn is_told(alloc: Global, asked: Asked, source: &str, want: &str) -> Result<bool, AllocError> {
    let mut text = String::new(alloc);
    let told = tell(alloc, &mut text, asked, source);
    let same = agrees(text.as_str(), asked, want);
    drop(text);
    told?;
    Ok(same)
}

fn is_right(alloc: Global, asked: Asked, row: &str) -> Result<bool, AllocError> {
    match row.split_once('@') {
        Some((source, want)) => is_told(alloc, asked, source, want),
        None => Ok(row.starts_with('#')),
    }
}

/// The first of these rows that is not right.
fn wrong_row<'x>(
    alloc: Global,
    asked: Asked,
    rows: &'x str,
) -> Result<Option<&'x str>, AllocError> {
    for row in rows.lines() {
        if !is_right(alloc, asked, row)? {
            return Ok(Some(row));
        }
    }
    Ok(None)
}

#[test]
fn changes_of_sources(rt: HostRuntime) -> Result<(), AllocError> {
    let alloc = rt.alloc();
    assert_eq!(rt; wrong_row(alloc, Asked::Changes, ROWS)?, None);
    Ok(())
}

#[test]
fn programs_of_mutants(rt: HostRuntime) -> Result<(), AllocError> {
    let alloc = rt.alloc();
    assert_eq!(rt; wrong_row(alloc, Asked::Programs, MUTANTS)?, None);
    Ok(())
}
