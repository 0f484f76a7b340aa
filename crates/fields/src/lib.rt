// The fields of a line: where a byte ends one, and the weight that one spells. A weight stands in a log line and, twice,
// in the first line of a report's input; its form, set out in specs/Weight, is strict, so that each weight has one
// spelling.
#![tactic(auto)]

ghost use Rattle.std.specs.Prelude.{◌≡◌, ◌+◌, ◌-◌, ◌<◌, ◌≤◌, ◌==◌, length, position, Some, None, IfSome, if◌then◌else◌};
ghost use Rattle.std.specs.Option.{option_map};
ghost use Rattle.fields.specs.Split.{split};
ghost use Rattle.fields.specs.Weight.{is_digit, value_of, weight_of};

const MOST_DIGITS: usize = 10;

// Where a byte first stands.
pub fn index_of(bytes: &[u8], byte: u8) -> Option<usize>
    ensures { result ≡ position (λ other. other == byte) bytes.now }
{
    bytes.iter().position(|other| *other == byte)
}

// The bytes before the first such byte, and those behind it.
#[tactic(auto, using(crate::proofs::Splitting::split_is, std::proofs::lemmas::Grind::common_steps))]
pub fn split_at_byte(bytes: &[u8], byte: u8) -> Option<(&[u8], &[u8])>
    ensures parts { option_map (λ p. (p.0.now, p.1.now)) result ≡ split byte bytes.now }
    ensures lengths { IfSome result (λ p. length p.0.now + (1 + length p.1.now) ≡ length bytes.now) }
{
    let at = index_of(bytes, byte)?;
    Some((&bytes[..at], &bytes[at + 1..]))
}

// The value of a digit; none for a byte that is no digit.
fn digit_value(byte: u8) -> Option<u64>
    ensures { result ≡ (if is_digit byte then Some (byte - 48) else None) }
{
    match byte {
        b'0'..=b'9' => Some(u64::from(byte - b'0')),
        _ => None,
    }
}

// The number that the bytes spell, or none where one of them is no digit or the number is too large. Digit by digit: for the
// library's `parse` the bytes have to be shown to be a text first, and by it a short line of a log took nearly twice as long to
// read.
fn spell(digits: &[u8]) -> Option<u32>
    requires { (0 < length digits.now) × (length digits.now ≤ 10) }
    ensures { result ≡ value_of digits.now }
{
    let mut value: u64 = 0;
    for byte in digits {
        value = 10 * value + digit_value(*byte)?;
    }
    u32::try_from(value).ok()
}

// The weight that the bytes spell, or none where they have another form or spell too large a number.
pub fn read_weight(digits: &[u8]) -> Option<u32>
    ensures { result ≡ weight_of digits.now }
{
    match digits {
        [] | [b'0', _, ..] => None,
        _ if digits.len() > MOST_DIGITS => None,
        _ => spell(digits),
    }
}
