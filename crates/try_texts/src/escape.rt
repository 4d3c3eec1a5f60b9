// Texts as a list writes them: each byte as itself, or as `\x` and two hexadecimal digits.
ghost use Rattle.std.specs.Prelude.{◌<◌, ◌≤◌, length, IfSome, IfOk, vec_len};

use std::alloc::{AllocError, Global};

// The value of a hexadecimal digit.
fn digit(b: u8) -> Option<u8>
    ensures { IfSome result (λ d. d < 16) }
{
    match b {
        b'0'..=b'9' => Some(b - b'0'),
        b'a'..=b'f' => Some(b - b'a' + 10),
        _ => None,
    }
}

// The byte that two hexadecimal digits write.
fn byte(high: u8, low: u8) -> Option<u8> {
    let high = digit(high)?;
    let low = digit(low)?;
    Some(high * 16 + low)
}

// The bytes of a written text, at most as many as it is written with; none where it has a backslash that begins no
// escape.
pub fn unescape(heap: Global, text: &[u8]) -> Result<Option<Vec<u8>>, AllocError>
    ensures { IfOk result (λ o. IfSome o (λ v. vec_len v ≤ length text.now)) }
{
    let mut bytes = Vec::new(heap);
    let mut rest = text;
    loop {
        match rest {
            [] => return Ok(Some(bytes)),
            [b'\\', b'x', high, low, after @ ..] => {
                let Some(b) = byte(*high, *low) else {
                    return Ok(None);
                };
                bytes.push(b)?;
                rest = after;
            }
            [b'\\', ..] => return Ok(None),
            [b, after @ ..] => {
                bytes.push(*b)?;
                rest = after;
            }
        }
    }
}
