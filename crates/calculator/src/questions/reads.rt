//! Reads questions.
ghost use Rattle.std.specs.Prelude.{◌≡◌, ℕ, List, drop, MatchOption, MatchResult, ◌≢◌};
ghost use Rattle.calculator.specs.declared.questions.Fault.TheVariants.{Text as TextFault, Ask as AskFault, Scheme as SchemeFault, Second as SecondFault};
ghost use Rattle.notation.specs.Notation.{Names};
ghost use Rattle.calculator.specs.Questions.{called_ask, word, Asked, Rest, Understood};
ghost use Rattle.notation.specs.Texts.{left};

use super::{Ask, Fault, Query, Question};
use notation::{SchemeName, UnknownScheme, Words, read_label};
use std::str::{FromStr, Utf8Error};

impl FromStr for Ask {
    type Err = Fault;

    ghost from_str_gives = { λ text r. MatchResult r (λ q. text ≡ called_ask q) (λ f. (f ≡ AskFault) × ((q : _) → text ≢ called_ask q)) };

    fn from_str(text: &str) -> Result<Ask, Fault> {
        match text {
            "label" => Ok(Ask::Label),
            "flows" => Ok(Ask::Flows),
            "holds" => Ok(Ask::Holds),
            "number" => Ok(Ask::Number),
            "parts" => Ok(Ask::Parts),
            _ => Err(Fault::Ask),
        }
    }
}

impl From<UnknownScheme> for Fault {
    ghost from_gives = { λ _ f. f ≡ SchemeFault };

    fn from(_unknown: UnknownScheme) -> Fault {
        Fault::Scheme
    }
}

impl From<Utf8Error> for Fault {
    ghost from_gives = { λ _ f. f ≡ TextFault };

    fn from(_error: Utf8Error) -> Fault {
        Fault::Text
    }
}

/// What is asked by words, of which the first is yet to be read.
fn read_words(words: &mut Words) -> Result<Question, Fault>
    ensures { Asked (left words.old) result }
{
    let ask: Ask = words.next().ok_or(Fault::Ask)?.parse()?;
    let scheme: SchemeName = words.next().ok_or(Fault::Scheme)?.parse()?;
    let a = next_label(words, scheme).ok_or(Fault::First)?;
    read_rest(words, ask, scheme, a)
}

/// What follows the first label: nothing, or a second one.
fn read_rest(words: &mut Words, ask: Ask, scheme: SchemeName, a: u64) -> Result<Question, Fault>
    ensures { (ws : List (List ℕ)) → left words.old ≡ drop 3 ws → Rest ws ask scheme a result }
{
    // Kept: five questions, a closed set, of which two take a second label.
    let query = match ask {
        Ask::Label => Query::Label(a),
        Ask::Flows => Query::Flows(a, read_second(words, scheme)?),
        Ask::Holds => Query::Holds(a, read_second(words, scheme)?),
        Ask::Number => Query::Number(a),
        Ask::Parts => Query::Parts(a),
    };
    if words.at_end() {
        Ok(Question { scheme, query })
    } else {
        Err(Fault::Extra)
    }
}

/// The second label of a question.
fn read_second(words: &mut Words, scheme: SchemeName) -> Result<u64, Fault>
    ensures rest { left words.new ≡ drop 1 (left words.old) }
    ensures label { MatchResult result (Names scheme (word (left words.old) 0)) (λ f. (f ≡ SecondFault) × ((n : ℕ) → Names scheme (word (left words.old) 0) n → ⊥)) }
{
    next_label(words, scheme).ok_or(Fault::Second)
}

/// The label that the next word names, if there is one.
fn next_label(words: &mut Words, scheme: SchemeName) -> Option<u64>
    ensures rest { left words.new ≡ drop 1 (left words.old) }
    ensures label { MatchOption result ((n : ℕ) → Names scheme (word (left words.old) 0) n → ⊥) (Names scheme (word (left words.old) 0)) }
{
    read_label(scheme, words.next()?)
}

/// What a line asks, or the first thing in it that is not understood.
pub fn read_question(line: &[u8]) -> Result<Question, Fault>
    ensures { Understood line.now result }
{
    let text = std::str::from_utf8(line)?;
    read_words(&mut Words::new(text))
}
