//! As many entries as a file may have, and one more.
use crate::outcome::outcome;
use mc_oblige::{Obligation, ObligationId};
use mc_span::Span;
use std::alloc::{AllocError, Global};
use std::process::Abort;
use std::test::Fail;

/// So many statements without text.
fn statements(alloc: Global, count: u32) -> Result<Vec<Obligation>, AllocError> {
    let mut all = Vec::new(alloc);
    for k in 0..count {
        all.push(Obligation {
            id: ObligationId::Statement(k),
            span: Span { start: 0, end: 0 },
        })?;
    }
    Ok(all)
}

/// The file that justifies so many statements, the last one first.
fn file_of(alloc: Global, count: u32) -> Result<String, AllocError> {
    let mut text = String::from_str(alloc, "[")?;
    let mut comma = "";
    for k in 0..count {
        let number = count - k;
        let entry = format!(in alloc;
            "{comma}{{\"id\":\"S{number}\",\"quote\":\"\",\"reason\":\"r\"}}"
        )?;
        text.push_str(entry.as_str())?;
        comma = ",";
    }
    text.push_str("]")?;
    Ok(text)
}

/// What comes of the file.
fn outcome_of(rt: &impl Abort, alloc: Global, count: u32) -> Result<Vec<u8>, AllocError> {
    let obligations = statements(alloc, count)?;
    assert!(rt; obligations.len() <= 5000);
    let file = file_of(alloc, count)?;
    outcome(alloc, &obligations, b"", file.as_bytes())
}

/// The statements, the last one first.
fn all_of(alloc: Global, count: u32) -> Result<String, AllocError> {
    let mut text = String::new(alloc);
    for k in 0..count {
        let number = count - k - 1;
        let one = format!(in alloc; "{number} r;")?;
        text.push_str(one.as_str())?;
    }
    Ok(text)
}

#[test]
fn many_entries(rt: HostRuntime) -> Result<(), Fail> {
    let alloc = rt.alloc();
    let most = outcome_of(&rt, alloc, 4096)?;
    let all = all_of(alloc, 4096)?;
    assert!(rt; most.as_slice() == all.as_bytes());
    let more = outcome_of(&rt, alloc, 4097)?;
    assert!(rt; more.as_slice() == b"justification: limit".as_slice());
    Ok(())
}
