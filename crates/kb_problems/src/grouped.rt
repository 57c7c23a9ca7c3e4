//! Numbers as sentences have them.
use kb_base::NoMemory;
use std::alloc::Global;

/// A number with a comma before each three digits, as in `1,000`.
pub(crate) fn grouped(alloc: Global, number: usize) -> Result<String, NoMemory> {
    let digits = format!(in alloc; "{number}")?;
    let mut text = String::new(alloc);
    let mut left = digits.len();
    for digit in digits.chars() {
        if left % 3 == 0 && !text.is_empty() {
            text.push(',')?;
        }
        text.push(digit)?;
        left = left.saturating_sub(1);
    }
    Ok(text)
}
