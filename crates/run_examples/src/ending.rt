//! Runs, and what they end with.
use std::alloc::Global;
use std::str::from_utf8;
use std::test::Fail;

/// What a run ends with: its code, what it answers and what it writes to the stream of errors.
pub type Ended<'a> = (u8, &'a [u8], &'a [u8]);

/// A failure with what was wanted and what came, and with what was asked on which input, where the two differ.
pub fn same_ending(
    alloc: Global,
    asked: (&str, &[u8]),
    wanted: Ended<'_>,
    got: Ended<'_>,
) -> Result<(), Fail> {
    if wanted.0 == got.0 && wanted.1 == got.1 && wanted.2 == got.2 {
        return Ok(());
    }
    Err(Fail::new(format!(in alloc;
        "{} on {}: wanted {}: {}{}, got {}: {}{}",
        asked.0,
        shown(&asked.1[..asked.1.len().min(400)]),
        wanted.0,
        shown(wanted.1),
        shown(wanted.2),
        got.0,
        shown(got.1),
        shown(got.2)
    )?))
}

/// The text of the bytes.
pub fn shown(bytes: &[u8]) -> &str {
    from_utf8(bytes).unwrap_or("bytes that are no text")
}

/// The words of a command, without the blanks between them.
pub fn split(alloc: Global, words: &str) -> Result<Vec<String>, Fail> {
    let mut list = Vec::new(alloc);
    for word in words.split(' ') {
        list.push(String::from_str(alloc, word)?)?;
    }
    Ok(list)
}
