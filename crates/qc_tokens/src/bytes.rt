//! What single bytes do, and runs of bytes.
ghost use Rattle.std.specs.Prelude.{◌≡◌, ◌≤◌, ◌==◌, not, length};
ghost use Rattle.std.specs.List.{prefix_len};
ghost use Rattle.std.specs.Char.{is_ascii_digit as is_digit};
ghost use Rattle.qc_model.specs.Names.{is_first_byte as is_first, is_word_byte as is_later};
ghost use Rattle.qc_tokens.specs.Tokens.{is_blank as is_blank_byte, is_sign as is_sign_byte, begins_with};

pub(crate) fn is_blank(byte: u8) -> bool
    ensures { result ≡ is_blank_byte byte }
{
    byte == b' ' || byte == b'\t' || byte == b'\r' || byte == b'\n'
}

/// Whether the byte is a sign by itself.
pub(crate) fn is_sign(byte: u8) -> bool
    ensures { result ≡ is_sign_byte byte }
{
    match byte {
        b';' | b':' | b',' | b'(' | b')' | b'[' | b']' | b'{' | b'}' | b'=' => true,
        _ => false,
    }
}

/// Whether a word can begin with it.
pub(crate) fn is_first_byte(byte: u8) -> bool
    ensures { result ≡ is_first byte }
{
    byte.is_ascii_alphabetic() || byte == b'_'
}

fn is_word_byte(byte: u8) -> bool
    ensures { result ≡ is_later byte }
{
    is_first_byte(byte) || byte.is_ascii_digit()
}

/// Whether a digit comes first.
pub(crate) fn begins_with_digit(bytes: &[u8]) -> bool
    ensures { result ≡ begins_with is_digit bytes.now }
{
    match bytes.split_first() {
        Some((first, _)) => first.is_ascii_digit(),
        None => false,
    }
}

/// Whether a dot comes first.
pub(crate) fn begins_with_dot(bytes: &[u8]) -> bool
    ensures { result ≡ begins_with (λ b. b == 46) bytes.now }
{
    match bytes.split_first() {
        Some((first, _)) => *first == b'.',
        None => false,
    }
}

/// How many letters, digits and underscores come first.
pub(crate) fn count_word_bytes(bytes: &[u8]) -> usize
    ensures count { result ≡ prefix_len is_later bytes.now }
    ensures within { result ≤ length bytes.now }
{
    for (i, byte) in bytes.iter().enumerate() {
        if !is_word_byte(*byte) {
            return i;
        }
    }
    bytes.len()
}

/// How many bytes come before the first line feed, or all of them.
pub(crate) fn count_in_line(bytes: &[u8]) -> usize
    ensures count { result ≡ prefix_len (λ b. not (b == 10)) bytes.now }
    ensures within { result ≤ length bytes.now }
{
    for (i, byte) in bytes.iter().enumerate() {
        if *byte == b'\n' {
            return i;
        }
    }
    bytes.len()
}
