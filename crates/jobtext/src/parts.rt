// Parts of bytes between separators, and the fields of a line.
ghost use Rattle.std.specs.Prelude.{◌≡◌, ℕ, ◌+◌, ◌<◌, ◌≤◌, [], ◌∷◌, ◌++◌, length, MatchOption, ◌≢◌, slice_index, slice_index_or};
ghost use Rattle.jobtext.specs.Parts.{parts, line_fields};

// The first part, and what stands after the separator that ends it.
pub(crate) fn cut(bytes: &[u8], separator: u8) -> (&[u8], Option<&[u8]>)
    ensures { MatchOption result.1 ((result.0.now ≡ bytes.now) × (parts separator bytes.now ≡ result.0.now ∷ [])) (λ rest. (bytes.now ≡ result.0.now ++ separator ∷ rest.now) × (parts separator bytes.now ≡ result.0.now ∷ parts separator rest.now)) }
{
    match bytes.iter().position(|byte| *byte == separator) {
        Some(i) => (&bytes[..i], Some(&bytes[i + 1..])),
        None => (bytes, None),
    }
}

// How many fields a line has: one more than commas.
pub fn field_count(line: &[u8]) -> usize
    ensures { result ≡ length (line_fields line.now) }
{
    let mut commas = 0;
    for byte in line {
        if *byte == b',' {
            commas += 1;
        }
    }
    commas + 1
}

// The field of a line at an index, counted from 0.
pub fn field(line: &[u8], index: usize) -> Option<&[u8]>
    ensures { MatchOption result (length (line_fields line.now) ≤ index) (λ part. (index < length (line_fields line.now)) × (part.now ≡ slice_index_or (line_fields line.now) index [])) }
{
    line.split(|byte| *byte == b',').nth(index)
}
