use std::alloc::{AllocError, Global};
use std::iter;

// Appends the line numbered `i`: its lowest bits say which fields it has.
fn push_line(bytes: &mut Vec<u8>, i: u64) -> Result<(), AllocError> {
    bytes.push((i & 15) as u8)?;
    if i & 1 != 0 {
        bytes.push((i / 16 % 3) as u8)?;
    }
    if i & 2 != 0 {
        bytes.extend_from_slice(&((i / 64 % 4294967296) as u32).to_le_bytes())?;
    }
    if i & 4 != 0 {
        bytes.extend_from_slice(&(i / 3).to_le_bytes())?;
    }
    if i & 8 != 0 {
        let n = (i / 16 % 60) as u8;
        bytes.push(n)?;
        bytes.extend(iter::repeat_n(b'a', usize::from(n)))?;
    }
    Ok(())
}

// At least `size` bytes of mixed lines, and how many lines they are.
pub fn mixed(heap: Global, size: usize) -> Result<(Vec<u8>, usize), AllocError> {
    let mut bytes = Vec::with_capacity(heap, size.saturating_add(128))?;
    let mut count = 0;
    for i in 0..size {
        if bytes.len() >= size {
            break;
        }
        push_line(&mut bytes, i as u64)?;
        count = i + 1;
    }
    Ok((bytes, count))
}
