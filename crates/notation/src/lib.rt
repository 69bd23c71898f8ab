// Bytes as a table writes them: in square brackets by two hexadecimal digits each, and elsewhere as themselves.
#![tactic(auto)]

ghost use Rattle.std.specs.Prelude.{◌≡◌, ◌+◌, ◌*◌, ◌<◌, IfOk};
ghost use Rattle.notation.specs.Notation.{digit, decoded};

use std::alloc::{AllocError, Global};

// The value of a hexadecimal digit; any other character counts as 0. std's `to_digit` takes small letters too.
fn digit(character: u8) -> u8
    ensures value { result ≡ digit character }
    ensures small { result < 16 }
{
    match character {
        b'0'..=b'9' => character - b'0',
        b'A'..=b'F' => character - b'A' + 10,
        _ => 0,
    }
}

// The byte of two digits.
fn pair(first: u8, second: u8) -> u8
    ensures { result ≡ 16 * digit first + digit second }
{
    16 * digit(first) + digit(second)
}

// The bytes that a text stands for, up to a `#`.
pub fn decode(heap: Global, text: &[u8]) -> Result<Vec<u8>, AllocError>
    ensures { IfOk result (λ v. v.items ≡ decoded text.now) }
{
    let mut bytes = Vec::new(heap);
    // Two states, since a digit may wait for its second through a closing bracket.
    let mut inside = false;
    let mut high = None;
    for character in text {
        match (inside, *character) {
            (false, b'#') => break,
            (false, b'[') => inside = true,
            (false, plain) => bytes.push(plain)?,
            (true, b']') => inside = false,
            (true, b' ') => {}
            (true, second) => match high {
                None => high = Some(second),
                Some(first) => {
                    bytes.push(pair(first, second))?;
                    high = None;
                }
            },
        }
    }
    Ok(bytes)
}

#[cfg(test)]
mod tests {
    use super::*;
    use std::test::Fail;

    // Characters, digits on both sides of 9, a blank between them, and a remark.
    #[test]
    fn decodes_a_text(rt: HostRuntime) -> Result<(), Fail> {
        let bytes = decode(rt.alloc(), b"[02]sAN Run [01 AF]9[03]# [04]")?;
        assert_eq!(rt; bytes.as_slice(), b"\x02sAN Run \x01\xaf9\x03".as_slice());
        Ok(())
    }
}
