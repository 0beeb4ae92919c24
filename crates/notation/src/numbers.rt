//! Numbers and the parts of house labels, as they are written.
ghost use Rattle.std.specs.Prelude.{◌≡◌, ℕ, ◌^◌, ◌<◌, ◌⊎◌, ◌∷◌, ◌++◌, length, decimal, Decides, MatchOption, ◌≢◌, slice_index};
ghost use Rattle.labels.specs.declared.houses.Parts.{Parts as PartsOf};
ghost use Rattle.labels.specs.Parts.{notation};
ghost use Rattle.notation.specs.Notation.{Small};

use labels::Parts;

/// Does a `+` stand in front, or a zero that is not alone?
fn has_prefix(text: &str) -> bool
    ensures { Decides result ((slice_index text.now 0 ≡ 43) ⊎ ((1 < length text.now) × (slice_index text.now 0 ≡ 48))) }
{
    text.starts_with('+') || text.len() > 1 && text.starts_with('0')
}

/// The number below 2^64 that is written so in decimal, with no sign and no zero in front.
pub fn read_number(text: &str) -> Option<u64>
    ensures { MatchOption result ((n : ℕ) → n < 2 ^ 64 → text.now ≢ decimal n) (λ n. (n < 2 ^ 64) × (text.now ≡ decimal n)) }
{
    if has_prefix(text) {
        return None;
    }
    text.parse().ok()
}

/// A number that has 16 bits.
// Kept: `FromStr` for a number is std's, and reads texts that no label has.
fn read_part(text: &str) -> Option<u16>
    ensures { MatchOption result ((n : ℕ) → n < 65536 → text.now ≢ decimal n) (λ n. (n < 65536) × (text.now ≡ decimal n)) }
{
    u16::try_from(read_number(text)?).ok()
}

/// The parts that are written so, as `a,b;c,d`.
// Kept: tried as `FromStr for Parts`, which is refused here, where neither the trait nor the type is this crate's. In `labels`, which
// has the type, it would need `read_number`, and `labels` uses no other crate.
pub fn read_parts(text: &str) -> Option<Parts>
    ensures { MatchOption result ((p : PartsOf) → Small p → text.now ≢ notation p) (λ p. Small p × (text.now ≡ notation p)) }
{
    let (secrecy, trust) = text.split_once(';')?;
    let (secrecy, secrecy_categories) = read_two(secrecy)?;
    let (trust, trust_categories) = read_two(trust)?;
    Some(Parts {
        secrecy,
        secrecy_categories,
        trust,
        trust_categories,
    })
}

/// The two numbers that are written so, as `a,b`.
// Kept: a pair is std's type, so `FromStr` for it cannot be written here.
fn read_two(text: &str) -> Option<(u16, u16)>
    ensures { MatchOption result ((m n : ℕ) → m < 65536 → n < 65536 → text.now ≢ decimal m ++ (44 ∷ decimal n)) (λ p. (p.0 < 65536) × (p.1 < 65536) × (text.now ≡ decimal p.0 ++ (44 ∷ decimal p.1))) }
{
    let (level, categories) = text.split_once(',')?;
    Some((read_part(level)?, read_part(categories)?))
}
