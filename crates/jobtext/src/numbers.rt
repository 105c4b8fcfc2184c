// Numbers in decimal digits.
ghost use Rattle.std.specs.Prelude.{◌≡◌, ◌<◌, ◌≤◌, true, false, length, MatchOption, slice_index};
ghost use Rattle.jobtext.specs.Numbers.{Writes, NoNumber, WritesForm};

// Whether a field begins with a 0 that is not all of it.
fn leads_with_zero(field: &[u8]) -> bool
    ensures does { result ≡ true → (slice_index field.now 0 ≡ 48) × (1 < length field.now) }
    ensures not { result ≡ false → slice_index field.now 0 ≡ 48 → length field.now ≤ 1 }
{
    field.len() > 1 && field[0] == b'0'
}

// The number that a field writes. It has one to ten digits, is at most 4,294,967,295, and begins with 0 only if it is 0.
pub fn number(field: &[u8]) -> Option<u32>
    ensures value { MatchOption result (NoNumber field.now) (λ n. Writes field.now n) }
    ensures form { WritesForm }
{
    if field.is_empty() || field.len() > 10 || leads_with_zero(field) {
        return None;
    }
    let mut value = 0u64;
    for byte in field {
        if !byte.is_ascii_digit() {
            return None;
        }
        value = value * 10 + u64::from(*byte - b'0');
    }
    u32::try_from(value).ok()
}
