use crate::error::{Result, SampleError};

/// Appends numbers of two bytes each, the low byte first.
pub(crate) fn push_u16(bytes: &mut Vec<u8>, values: &[u16]) -> Result<()> {
    for value in values {
        bytes.extend_from_slice(&value.to_le_bytes())?;
    }
    Ok(())
}

/// Appends numbers of four bytes each, the low byte first.
///
/// # Errors
/// `OutOfMemory`.
pub fn push_u32(bytes: &mut Vec<u8>, values: &[u32]) -> Result<()> {
    for value in values {
        bytes.extend_from_slice(&value.to_le_bytes())?;
    }
    Ok(())
}

/// Appends a text and the zero byte that ends it.
pub(crate) fn push_text(bytes: &mut Vec<u8>, text: &[u8]) -> Result<()> {
    bytes.extend_from_slice(text)?;
    bytes.push(0)?;
    Ok(())
}

/// Appends zero bytes up to the next multiple of `unit`, which is none of 0.
pub(crate) fn pad_to(bytes: &mut Vec<u8>, unit: usize) -> Result<()> {
    if unit == 0 {
        return Err(SampleError::DoesNotFit);
    }
    let whole = bytes.len().checked_next_multiple_of(unit);
    bytes.resize(whole.ok_or(SampleError::DoesNotFit)?, 0)?;
    Ok(())
}

/// Writes the number of bytes from `start` on, as the number at `at`.
pub(crate) fn write_size(bytes: &mut Vec<u8>, at: usize, start: usize) -> Result<()> {
    let size = u32::try_from(bytes.len().saturating_sub(start))?;
    overwrite(bytes.as_mut_slice(), at, &size.to_le_bytes())
}

/// Writes `part` over the bytes that begin at `at`.
///
/// # Errors
/// `DoesNotFit` where `part` would end past the bytes; nothing is written then.
pub fn overwrite(bytes: &mut [u8], at: usize, part: &[u8]) -> Result<()> {
    if at > bytes.len() || part.len() > bytes.len() - at {
        return Err(SampleError::DoesNotFit);
    }
    bytes[at..at + part.len()].copy_from_slice(part);
    Ok(())
}
