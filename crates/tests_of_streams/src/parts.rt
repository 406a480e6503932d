use std::alloc::{AllocError, Global};

/// Puts a fragment of one byte behind bytes, so many times, none of which is the last one of a record.
fn put_fragments(bytes: &mut Vec<u8>, count: u16) -> Result<(), AllocError> {
    for _ in 0..count {
        bytes.extend_from_slice(&[0, 0, 0, 1, b'x'])?;
    }
    Ok(())
}

/// Puts the byte `x` behind bytes, so many times.
fn put_many(bytes: &mut Vec<u8>, count: u16) -> Result<(), AllocError> {
    let all = bytes.len().saturating_add(usize::from(count));
    bytes.resize(all, b'x')?;
    Ok(())
}

/// The count that digits say; none that a row needs where they say none.
fn count_of(digits: &str) -> u16 {
    digits.parse::<u16>().unwrap_or(u16::MAX)
}

/// Puts what a word says behind bytes: `'` begins a text, `*` a number of bytes `x`, and `+` a number of fragments of
/// one byte `x`; any other word is a head in hexadecimal digits.
fn put(bytes: &mut Vec<u8>, word: &str) -> Result<(), AllocError> {
    if let Some(text) = word.strip_prefix('\'') {
        bytes.extend_from_slice(text.as_bytes())?;
        return Ok(());
    }
    if let Some(count) = word.strip_prefix('*') {
        return put_many(bytes, count_of(count));
    }
    if let Some(count) = word.strip_prefix('+') {
        return put_fragments(bytes, count_of(count));
    }
    let head = u32::from_str_radix(word, 16).unwrap_or(0xdead_beef);
    bytes.extend_from_slice(&head.to_be_bytes())?;
    Ok(())
}

/// The bytes that words say, one after another.
pub(crate) fn bytes_of(alloc: Global, words: &str) -> Result<Vec<u8>, AllocError> {
    let mut bytes = Vec::new(alloc);
    for word in words.split(' ') {
        put(&mut bytes, word)?;
    }
    Ok(bytes)
}
