//! The label schemes in use by their names, and labels as they are written for each.
ghost use Rattle.std.specs.Prelude.{◌≡◌, ℕ, MatchOption, MatchResult, ◌≢◌};
ghost use Rattle.notation.specs.Notation.{Names, called_scheme};

use crate::numbers::{read_number, read_parts};
use std::str::FromStr;

/// A label scheme in use.
#[derive(Clone, Copy)]
pub enum SchemeName {
    House,
    Old,
}

/// No label scheme is called so.
#[derive(Clone, Copy)]
pub struct UnknownScheme;

impl FromStr for SchemeName {
    type Err = UnknownScheme;

    ghost from_str_gives = { λ text r. MatchResult r (λ k. text ≡ called_scheme k) (λ _. (k : _) → text ≢ called_scheme k) };

    fn from_str(text: &str) -> Result<SchemeName, UnknownScheme> {
        match text {
            "house" => Ok(SchemeName::House),
            "old" => Ok(SchemeName::Old),
            _ => Err(UnknownScheme),
        }
    }
}

/// The number that is named so: in decimal, or for the house label by its parts.
pub fn read_label(scheme: SchemeName, word: &str) -> Option<u64>
    ensures { MatchOption result ((n : ℕ) → Names scheme word.now n → ⊥) (Names scheme word.now) }
{
    // Kept: an early return, as `or_else` was tried and its proof didn't close.
    if let Some(n) = read_number(word) {
        return Some(n);
    }
    // Kept: two schemes, a closed set; only one has parts.
    match scheme {
        SchemeName::House => read_parts(word).map(u64::from),
        SchemeName::Old => None,
    }
}
