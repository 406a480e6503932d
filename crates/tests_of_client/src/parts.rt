use std::alloc::{AllocError, Global};

/// Puts `count` zeros behind bytes.
fn put_zeros(bytes: &mut Vec<u8>, count: usize) -> Result<(), AllocError> {
    let all = bytes.len().saturating_add(count);
    bytes.resize(all, 0)?;
    Ok(())
}

/// Puts a text behind bytes: its length, its bytes, and zeros up to a whole unit.
fn put_text(bytes: &mut Vec<u8>, text: &[u8]) -> Result<(), AllocError> {
    let len = u32::try_from(text.len()).unwrap_or(u32::MAX);
    bytes.extend_from_slice(&len.to_be_bytes())?;
    bytes.extend_from_slice(text)?;
    put_zeros(bytes, 3 - text.len().wrapping_sub(1) % 4)
}

/// Puts what a word says behind bytes: a number is a unit, `'` begins a text, and `*` a number of zeros. A word that
/// says none of this is a unit that no row needs.
fn put(bytes: &mut Vec<u8>, word: &str) -> Result<(), AllocError> {
    if let Some(text) = word.strip_prefix('\'') {
        return put_text(bytes, text.as_bytes());
    }
    if let Some(count) = word.strip_prefix('*') {
        return put_zeros(bytes, usize::from(count.parse::<u16>().unwrap_or(u16::MAX)));
    }
    let unit = word.parse::<u32>().unwrap_or(0xdead_beef);
    bytes.extend_from_slice(&unit.to_be_bytes())?;
    Ok(())
}

/// The bytes that words say, one after another.
pub(crate) fn bytes_of(alloc: Global, words: &str) -> Result<Vec<u8>, AllocError> {
    let mut bytes = Vec::new(alloc);
    for word in words.split(' ') {
        put(&mut bytes, word)?;
    }
    Ok(bytes)
}
