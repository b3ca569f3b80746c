//! The value of a numeral.
ghost use Rattle.std.specs.Prelude.{◌≡◌, ◌<◌, ◌^◌, ◌↔◌, ◌≤◌, IfSome, IsNone};
ghost use Rattle.typer.specs.Numerals.{numeral_value as value_of};

/// The value of a numeral (SMT-LIB 2.6, section 3.1); none exactly where it is above 4,294,967,295.
pub fn numeral_value(text: &[u8]) -> Option<u32>
    ensures value { IfSome result (λ n. n ≡ value_of text.now) }
    ensures too_large { IsNone result ↔ (2 ^ 32 ≤ value_of text.now) }
{
    let mut value: u64 = 0;
    for byte in text {
        value = value * 10 + u64::from(byte.saturating_sub(b'0'));
        if value > u64::from(u32::MAX) {
            return None;
        }
    }
    Some(value as u32)
}
