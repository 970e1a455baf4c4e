//! What a run has to come to.

/// A source, the records of tests of it, how each of them ends, its fuel, and how much of it each
/// leaves and the bits that each hits, where these are told.
#[derive(Clone, Copy)]
pub(crate) struct Row<'t> {
    pub endings: &'t str,
    pub fuel: u32,
    pub left: Option<u32>,
    pub records: &'t str,
    pub source: &'t str,
    pub hits: Option<&'t str>,
}

/// The row of a text `ENDINGS FUEL LEFT@RECORDS@SOURCE` or `ENDINGS FUEL LEFT@RECORDS@SOURCE@HITS`,
/// with a comma between each two endings.
pub(crate) fn row_of(text: &str) -> Option<Row<'_>> {
    let (head, rest) = text.split_once('@')?;
    let (records, last) = rest.split_once('@')?;
    let (endings, amounts) = head.split_once(' ')?;
    let (fuel, left) = amounts.split_once(' ')?;
    let (source, hits) = match last.split_once('@') {
        Some((source, hits)) => (source, Some(hits)),
        None => (last, None),
    };
    Some(Row {
        endings,
        fuel: fuel.parse::<u32>().ok()?,
        left: left.parse::<u32>().ok(),
        records,
        source,
        hits,
    })
}
