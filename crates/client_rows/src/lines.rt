// What rows are written in.

use std::alloc::{AllocError, Global};

// Puts the bytes of a string at the end: `~` is CR LF.
fn push_string(bytes: &mut Vec<u8>, text: &str) -> Result<(), AllocError> {
    for (index, line) in text.split('~').enumerate() {
        if index > 0 {
            bytes.extend_from_slice(b"\r\n")?;
        }
        bytes.extend_from_slice(line.as_bytes())?;
    }
    Ok(())
}

// Puts a string at the end as often as it says: `3*ab` is `ababab`.
fn push_repeated(bytes: &mut Vec<u8>, text: &str) -> Result<(), AllocError> {
    let (count, text) = text.split_once('*').unwrap_or(("0", ""));
    for _ in 0..count.parse().unwrap_or(0u32) {
        push_string(bytes, text)?;
    }
    Ok(())
}

// Puts the bytes of a column at the end: what is repeated is between two `%`.
fn push_column(bytes: &mut Vec<u8>, column: &str) -> Result<(), AllocError> {
    for (index, part) in column.split('%').enumerate() {
        match index % 2 {
            0 => push_string(bytes, part)?,
            _ => push_repeated(bytes, part)?,
        }
    }
    Ok(())
}

/// The bytes of two columns, which are never freed; `None` if memory ran out.
pub(crate) fn expand(alloc: Global, first: &str, second: &str) -> Option<&'static [u8]> {
    let mut bytes = Vec::new(alloc);
    push_column(&mut bytes, first).ok()?;
    push_column(&mut bytes, second).ok()?;
    Some(bytes.leak())
}
