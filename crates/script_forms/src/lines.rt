//! The lines of a script.

/// Whether the line has an event: a byte that is no blank, before a comment.
pub(crate) fn has_event(line: &[u8]) -> bool {
    match line
        .iter()
        .find(|byte| !matches!(**byte, b' ' | b'\t' | b'\r'))
    {
        Some(byte) => *byte != b'#',
        None => false,
    }
}

/// The number of the line with the event at the place, counted from 1.
pub(crate) fn line_number(script: &[u8], place: usize) -> u64 {
    let mut events = 0_usize;
    let mut lines = 0_u64;
    for line in script.split(|byte| *byte == b'\n') {
        lines = lines.saturating_add(1);
        if has_event(line) {
            if events == place {
                return lines;
            }
            events = events.saturating_add(1);
        }
    }
    lines
}
