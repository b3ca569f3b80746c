//! The sets of bytes that the lexicon speaks of.
ghost use Rattle.std.specs.Prelude.{◌≡◌};
ghost use Rattle.lex_core.specs.Bytes.{is_line_end, is_white_space, is_text_byte, is_digit, is_hex_digit, is_binary_digit, is_letter, is_symbol_mark, is_symbol_byte, is_word_byte};

#[tactic(auto, unfolding(crate::specs::Bytes::is_line_end))]
pub fn is_line_end(b: u8) -> bool
    ensures { result ≡ is_line_end b }
{
    b == b'\n' || b == b'\r'
}

#[tactic(auto, unfolding(crate::specs::Bytes::is_white_space))]
pub fn is_white_space(b: u8) -> bool
    ensures { result ≡ is_white_space b }
{
    b == b'\t' || b == b'\n' || b == b'\r' || b == b' '
}

#[tactic(auto, unfolding(crate::specs::Bytes::is_text_byte, crate::specs::Bytes::is_white_space, crate::specs::Bytes::is_printable))]
pub fn is_text_byte(b: u8) -> bool
    ensures { result ≡ is_text_byte b }
{
    is_white_space(b) || (32 <= b && b <= 126) || 128 <= b
}

#[tactic(auto, unfolding(crate::specs::Bytes::is_digit))]
pub fn is_digit(b: u8) -> bool
    ensures { result ≡ is_digit b }
{
    b'0' <= b && b <= b'9'
}

#[tactic(auto, unfolding(crate::specs::Bytes::is_hex_digit))]
pub fn is_hex_digit(b: u8) -> bool
    ensures { result ≡ is_hex_digit b }
{
    is_digit(b) || (b'A' <= b && b <= b'F') || (b'a' <= b && b <= b'f')
}

#[tactic(auto, unfolding(crate::specs::Bytes::is_binary_digit))]
pub fn is_binary_digit(b: u8) -> bool
    ensures { result ≡ is_binary_digit b }
{
    b == b'0' || b == b'1'
}

#[tactic(auto, unfolding(crate::specs::Bytes::is_letter))]
pub fn is_letter(b: u8) -> bool
    ensures { result ≡ is_letter b }
{
    (b'A' <= b && b <= b'Z') || (b'a' <= b && b <= b'z')
}

#[tactic(auto, unfolding(crate::specs::Bytes::is_symbol_mark))]
pub fn is_symbol_mark(b: u8) -> bool
    ensures { result ≡ is_symbol_mark b }
{
    match b {
        b'+' | b'-' | b'/' | b'*' | b'=' | b'%' | b'?' | b'!' | b'.' => true,
        b'$' | b'_' | b'~' | b'&' | b'^' | b'<' | b'>' | b'@' => true,
        _ => false,
    }
}

#[tactic(auto, unfolding(crate::specs::Bytes::is_symbol_byte))]
pub fn is_symbol_byte(b: u8) -> bool
    ensures { result ≡ is_symbol_byte b }
{
    is_digit(b) || is_letter(b) || is_symbol_mark(b)
}

#[tactic(auto, unfolding(crate::specs::Bytes::is_word_byte))]
pub fn is_word_byte(b: u8) -> bool
    ensures { result ≡ is_word_byte b }
{
    is_symbol_byte(b) || b == b':' || b == b'#'
}
