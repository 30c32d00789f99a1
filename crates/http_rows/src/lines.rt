// What rows are written in.

use std::alloc::{AllocError, Global};

/// The columns of a row, with such a separator between two; those that there aren't are empty.
pub(crate) fn columns(row: &str, separator: char) -> [&str; 5] {
    let mut columns = [""; 5];
    for (index, part) in row.split(separator).enumerate() {
        if let Some(column) = columns.get_mut(index) {
            *column = part;
        }
    }
    columns
}

// Puts the bytes of a string at the end: `~` is CR LF, `^` a lone LF, `@` NUL.
fn push_string(bytes: &mut Vec<u8>, text: &str) -> Result<(), AllocError> {
    for byte in text.as_bytes() {
        match *byte {
            b'~' => bytes.extend_from_slice(b"\r\n")?,
            b'^' => bytes.extend_from_slice(b"\n")?,
            b'@' => bytes.extend_from_slice(b"\0")?,
            other => bytes.extend_from_slice(&[other])?,
        }
    }
    Ok(())
}

// Puts a string at the end as often as it says: `3*ab` is `ababab`.
fn push_repeated(bytes: &mut Vec<u8>, text: &str) -> Result<(), AllocError> {
    let (count, text) = text.split_once('*').unwrap_or(("0", ""));
    for _ in 0..count.parse().unwrap_or(0u32) {
        push_string(bytes, text)?;
    }
    Ok(())
}

/// The bytes of a column, which are never freed: what is repeated is between two `$`.
pub(crate) fn expand(alloc: Global, column: &str) -> Option<&'static [u8]> {
    let mut bytes = Vec::new(alloc);
    for (index, part) in column.split('$').enumerate() {
        let pushed = match index % 2 {
            0 => push_string(&mut bytes, part),
            _ => push_repeated(&mut bytes, part),
        };
        pushed.ok()?;
    }
    Some(bytes.leak())
}
