//! A certificate's text.
ghost use Rattle.std.specs.Prelude.{◌≡◌, ◌≤◌, ◌^◌, [], length, IfOk};
ghost use Rattle.whole_text.specs.TokenTexts.{words_of};
ghost use Rattle.whole_text.specs.Steps.{Gives};
ghost use Rattle.posiform_check.specs.Certificates.{AreOfNodes, IsCertificate};
ghost use Rattle.posiform_check.specs.ReadingSteps.{certificate_of};
ghost use Rattle.posiform_check.specs.Texts.{reading, reading_of_words};

use crate::certificate::Certificate;
use crate::lines::LineList;
use crate::listed::{added, keep_line, line, plus};
use literal_lists::Literal;
use std::alloc::Global;
use whole_text::{Style, TextAnswer, TokenText, Words, cut_words};

/// Puts all lines into a list that is empty, and answers with their bound.
fn read_lines<'a>(
    mut words: Words<'a>,
    nodes: u64,
    lines: &mut LineList,
    literals: &mut Vec<Literal>,
) -> Result<i128, TextAnswer>
    requires short { length words ≤ 2 ^ 24 }
    requires none { lines.old ≡ [] }
    ensures read { Gives (λ bound. certificate_of bound lines.new) result
        (reading_of_words nodes words.entry) }
    ensures kept { IfOk result (λ bound. IsCertificate (certificate_of bound lines.new)) }
    ensures nodes { IfOk result (λ bound. AreOfNodes nodes (certificate_of bound lines.new)) }
{
    let mut bound: i128 = 0;
    let mut next = words.next();
    while let Some(first) = next {
        let (coefficient, after) = line(first, &mut words, nodes, literals)?;
        bound = plus(bound, added(literals, coefficient));
        keep_line(lines, literals, coefficient, first.line)?;
        next = after;
    }
    Ok(bound)
}

/// The certificate of all lines.
fn lines<'a>(alloc: Global, words: Words<'a>, nodes: u64) -> Result<Certificate, TextAnswer>
    requires { length words ≤ 2 ^ 24 }
    ensures read { Gives (λ c. c) result (reading_of_words nodes words.entry) }
    ensures nodes { IfOk result (AreOfNodes nodes) }
{
    let mut lines = LineList::empty(alloc);
    let mut literals = Vec::new(alloc);
    let bound = read_lines(words, nodes, &mut lines, &mut literals)?;
    Ok(Certificate { bound, lines })
}

/// The certificate of a text that was cut into words, for a model of so many nodes, or the first
/// fault of the text.
pub fn read_certificate_tokens(
    alloc: Global,
    text: &TokenText,
    nodes: u32,
) -> Result<Certificate, TextAnswer>
    requires { length text.now.bytes ≤ 2 ^ 24 }
    ensures read { Gives (λ c. c) result (reading_of_words nodes (words_of text.now)) }
    ensures nodes { IfOk result (AreOfNodes nodes) }
{
    lines(alloc, text.words(), u64::from(nodes))
}

/// The certificate of a text, for a model of so many nodes, or the first fault of the text.
#[tactic(auto, unfolding(crate::specs::Texts::reading))]
pub fn read_certificate(alloc: Global, text: &[u8], nodes: u32) -> Result<Certificate, TextAnswer>
    requires { length text.now ≤ 2 ^ 24 }
    ensures read { Gives (λ c. c) result (reading nodes text.now) }
    ensures nodes { IfOk result (AreOfNodes nodes) }
{
    read_certificate_tokens(alloc, &cut_words(alloc, text, Style::Plain)?, nodes)
}
