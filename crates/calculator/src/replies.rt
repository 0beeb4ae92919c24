//! Replies to questions, to lines and to whole texts.
ghost use Rattle.std.specs.Prelude.{◌≡◌, ℕ, List, IfOk, Some as Text, string_bytes};
ghost use Rattle.calculator.specs.Replies.{reply_to, reply_text, fault_text, Replied, Replies};
ghost use Rattle.notation.specs.Notation.{meaning_of};
ghost use Rattle.notation.specs.Texts.{Lines as AreLines};

use crate::questions::reads::read_question;
use crate::questions::{Fault, Query, Question};
use labels::{Parts, Scheme, house_label, old_label};
use notation::SchemeName;
use std::alloc::{AllocError, Global};
use std::fmt;

#[derive(Clone, Copy)]
pub enum Reply {
    Truth(bool),
    Number(u64),
    Parts(Parts),
}

impl fmt::Display for Reply {
    ghost output = { λ r. Text (reply_text r) };

    fn fmt<W: fmt::Write>(&self, f: &mut fmt::Formatter<W>) -> fmt::Result {
        match self {
            Reply::Truth(true) => f.write_str("yes"),
            Reply::Truth(false) => f.write_str("no"),
            Reply::Number(n) => write!(f, "{n}"),
            Reply::Parts(p) => write!(f, "{p}"),
        }
    }
}

impl Fault {
    /// What is not understood, in words.
    // Kept: `Display` stands below and prints it; the words alone are lent, and take no memory.
    pub fn reason(&self) -> &'static str
        ensures { result.now ≡ fault_text self.now }
    {
        match self {
            Fault::Text => "this is no text in UTF-8",
            Fault::Ask => "no such question: ask label, flows, holds, number or parts",
            Fault::Scheme => "no such label scheme: name house or old",
            Fault::First =>
                "the first label is not understood: write a number, or for house a,b;c,d",
            Fault::Second =>
                "the second label is not understood: write a number, or for house a,b;c,d",
            Fault::Extra => "more words than the question takes",
        }
    }
}

impl fmt::Display for Fault {
    ghost output = { λ e. Text (fault_text e) };

    fn fmt<W: fmt::Write>(&self, f: &mut fmt::Formatter<W>) -> fmt::Result {
        f.write_str(self.reason())
    }
}

/// The answer to a question.
pub fn answer(question: Question) -> Reply
    ensures { result ≡ reply_to question }
{
    // Kept: two schemes, a closed set, each with a type of its own.
    match question.scheme {
        SchemeName::House => answer_by(&house_label(), question),
        SchemeName::Old => answer_by(&old_label(), question),
    }
}

/// The answer to a question by a label scheme, the one that the question names.
// Kept: five questions, a closed set, each with its own answer.
fn answer_by<S: Scheme>(scheme: &S, question: Question) -> Reply
    ensures { S.Scheme.meaning scheme.now ≡ meaning_of question.scheme → result ≡ reply_to question }
{
    match (question.query, question.scheme) {
        (Query::Label(a), _) => Reply::Truth(scheme.label(a)),
        (Query::Flows(a, b), _) => Reply::Truth(scheme.flows(a, b)),
        (Query::Holds(p, c), _) => Reply::Truth(scheme.holds(p, c)),
        (Query::Parts(a), SchemeName::House) => Reply::Parts(Parts::from(a)),
        (Query::Number(a), _) | (Query::Parts(a), SchemeName::Old) => Reply::Number(a),
    }
}

/// What is printed for a line: the answer, or what is not understood, with the line's number.
pub fn reply_line(heap: Global, number: u64, line: &[u8]) -> Result<String, AllocError>
    ensures { IfOk result (λ s. Replied number line.now (string_bytes s)) }
{
    match read_question(line) {
        Ok(question) => {
            let reply = answer(question);
            format!(in heap; "{reply}\n")
        }
        Err(fault) => format!(in heap; "line {number}: {fault}\n"),
    }
}

/// What is printed for a text: a reply to each of its lines, in their order.
pub fn reply_all(heap: Global, text: &[u8]) -> Result<String, AllocError>
    ensures { IfOk result (λ s. (lines : List (List ℕ)) × AreLines text.now lines × Replies 0 lines (string_bytes s)) }
{
    let mut out = String::new(heap);
    for (i, line) in text.split_inclusive(|b| *b == b'\n').enumerate() {
        let line = line.strip_suffix(b"\n").unwrap_or(line);
        let reply = reply_line(heap, i as u64 + 1, line)?;
        out.push_str(reply.as_str())?;
    }
    Ok(out)
}
