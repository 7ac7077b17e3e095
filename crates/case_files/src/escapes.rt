// Bytes as they are written in files of cases.
use crate::CaseError;
use kb_geometry::append;
use std::alloc::AllocError;

const DIGITS: [u8; 16] = *b"0123456789ABCDEF";

// A text that stands many times has at most so many bytes in all.
const MOST_REPEATED: usize = 1 << 26;

/// Appends the bytes that these lines are written for, each with its line feed, as the README tells.
pub fn append_decoded(out: &mut Vec<u8>, lines: &[&str]) -> Result<(), CaseError> {
    for line in lines {
        append_line(out, line)?;
    }
    Ok(())
}

// Appends the bytes of one line, with its line feed unless a `%` at its end takes that away.
fn append_line(out: &mut Vec<u8>, line: &str) -> Result<(), CaseError> {
    match line.strip_suffix("%") {
        Some(whole) => append_text(out, whole),
        None => {
            append_text(out, line)?;
            Ok(out.push(b'\n')?)
        }
    }
}

/// Appends the bytes of a text of one line.
pub(crate) fn append_text(out: &mut Vec<u8>, text: &str) -> Result<(), CaseError> {
    let mut pieces = text.split("%(");
    if let Some(first) = pieces.next() {
        append_plain(out, first)?;
    }
    for piece in pieces {
        let (repeated, plain) = piece
            .split_once("%)")
            .ok_or(CaseError::Bad("%( without %)"))?;
        append_repeated(out, repeated)?;
        append_plain(out, plain)?;
    }
    Ok(())
}

// Appends `N TEXT`, the text N times.
fn append_repeated(out: &mut Vec<u8>, repeated: &str) -> Result<(), CaseError> {
    let (number, text) = repeated
        .split_once(" ")
        .ok_or(CaseError::Bad("%( without a number and a text"))?;
    let times = number
        .parse::<u32>()
        .map_err(|_| CaseError::Bad("%( without a number"))?;
    let mut bytes = Vec::new(*out.allocator());
    append_plain(&mut bytes, text)?;
    if (times as usize).saturating_mul(bytes.len()) > MOST_REPEATED {
        return Err(CaseError::Bad("%( of too many bytes"));
    }
    for _ in 0..times {
        append(out, &bytes)?;
    }
    Ok(())
}

// Appends a text in which `%` stands with two digits or a full stop behind it.
fn append_plain(out: &mut Vec<u8>, text: &str) -> Result<(), CaseError> {
    let mut pieces = text.split("%");
    if let Some(first) = pieces.next() {
        append(out, first.as_bytes())?;
    }
    for piece in pieces {
        let rest = match piece.as_bytes() {
            [b'.', rest @ ..] => rest,
            [high, low, rest @ ..] => {
                out.push(byte_of(*high, *low)?)?;
                rest
            }
            _ => return Err(CaseError::Bad("% without two digits")),
        };
        append(out, rest)?;
    }
    Ok(())
}

// The byte of two hexadecimal digits.
fn byte_of(high: u8, low: u8) -> Result<u8, CaseError> {
    match (digit_of(high), digit_of(low)) {
        (Some(high), Some(low)) => Ok((high << 4) | low),
        _ => Err(CaseError::Bad("% without two digits")),
    }
}

fn digit_of(byte: u8) -> Option<u8> {
    match byte {
        b'0'..=b'9' => Some(byte - b'0'),
        b'A'..=b'F' => Some(byte - b'A' + 10),
        b'a'..=b'f' => Some(byte - b'a' + 10),
        _ => None,
    }
}

/// Appends bytes as a file of cases writes them, each line behind two spaces.
pub fn append_shown(out: &mut Vec<u8>, bytes: &[u8]) -> Result<(), AllocError> {
    let mut is_new_line = true;
    for byte in bytes {
        if is_new_line {
            out.extend_from_slice(b"  ")?;
        }
        is_new_line = *byte == b'\n';
        match *byte {
            b'\n' | b' '..=b'$' | b'&'..=b'~' => out.push(*byte)?,
            _ => append_escaped(out, *byte)?,
        }
    }
    if !is_new_line {
        out.extend_from_slice(b"%\n")?;
    }
    Ok(())
}

fn append_escaped(out: &mut Vec<u8>, byte: u8) -> Result<(), AllocError> {
    let digits = [
        b'%',
        DIGITS[(byte >> 4) as usize],
        DIGITS[(byte & 15) as usize],
    ];
    out.extend_from_slice(&digits)?;
    Ok(())
}
