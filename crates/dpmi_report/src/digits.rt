// Numbers in hexadecimal digits, added to a line.
ghost use Rattle.std.specs.Prelude.{◌≡◌, ◌≤◌, ◌<◌, ◌+◌, ◌++◌, ◌∷◌, [], length};
ghost use Rattle.hex.specs.Hex.{encode_lower};
ghost use Rattle.dpmi_report.specs.Digits.{hex_digit, hex_byte, hex_word, hex_doubleword};

use dpmi_io::{Line, add};

// A hexadecimal digit.
fn digit(n: u8) -> u8
    requires { n < 16 }
    ensures { result ≡ hex_digit n }
{
    b"0123456789abcdef"[n as usize]
}

/// Adds a number below 16 in one hexadecimal digit. Source: own.
pub fn add_hex_digit(line: &mut Line, n: u8)
    requires small { n < 16 }
    requires room { length line.old.items + 1 ≤ 256 }
    ensures added { line.new.items ≡ line.old.items ++ hex_digit n ∷ [] }
    ensures len { length line.new.items ≡ length line.old.items + 1 }
{
    add(line, &[digit(n)]);
}

/// Adds a byte in two hexadecimal digits. Source: own.
pub fn add_hex_byte(line: &mut Line, n: u8)
    requires { length line.old.items + 2 ≤ 256 }
    ensures added { line.new.items ≡ line.old.items ++ hex_byte n }
    ensures len { length line.new.items ≡ length line.old.items + 2 }
{
    let mut digits = [0; 2];
    let _ = hex::encode_to_slice([n], &mut digits);
    add(line, &digits);
}

/// Adds a word in four hexadecimal digits. Source: own.
pub fn add_hex_word(line: &mut Line, n: u16)
    requires { length line.old.items + 4 ≤ 256 }
    ensures added { line.new.items ≡ line.old.items ++ hex_word n }
    ensures len { length line.new.items ≡ length line.old.items + 4 }
{
    let mut digits = [0; 4];
    let _ = hex::encode_to_slice(n.to_be_bytes(), &mut digits);
    add(line, &digits);
}

/// Adds a doubleword in eight hexadecimal digits. Source: own.
pub fn add_hex_doubleword(line: &mut Line, n: u32)
    requires { length line.old.items + 8 ≤ 256 }
    ensures added { line.new.items ≡ line.old.items ++ hex_doubleword n }
    ensures len { length line.new.items ≡ length line.old.items + 8 }
{
    let mut digits = [0; 8];
    let _ = hex::encode_to_slice(n.to_be_bytes(), &mut digits);
    add(line, &digits);
}

/// Adds a digest in 64 hexadecimal digits. Source: own.
pub fn add_digest(line: &mut Line, digest: &[u8; 32])
    requires { length line.old.items + 64 ≤ 256 }
    ensures added { line.new.items ≡ line.old.items ++ encode_lower digest.now }
    ensures len { length line.new.items ≡ length line.old.items + 64 }
{
    let mut digits = [0; 64];
    match hex::encode_to_slice(digest.as_slice(), digits.as_mut_slice()) {
        Ok(()) => add(line, &digits),
        Err(_) => {}
    }
}
