//! A file that is cut into words as it comes, so that its text isn't held.
ghost use Rattle.std.specs.Prelude.{◌≡◌, ◌+◌, ◌^◌, ◌<◌, ◌≤◌, ◌↔◌, [], Ok, length, IfOk, OnOk, OnErr, IsErrOf, string_bytes};
ghost use Rattle.std.specs.Io.{ReadsAtMost};
ghost use Rattle.std.specs.Io.KnownBytes.{ReadConsumes, IsAtEnd};
ghost use Rattle.edge_io.specs.Counts.{count_after, CountsNothing, HasCause, Rose};
ghost use Rattle.edge_io.specs.Held.{WhereTold, IsFront, IsLonger, find_file};
ghost use Rattle.whole_text.specs.TokenTexts.{words_of};
ghost use Rattle.run_steps.specs.Cut.{AreWordsOf, HasEnded, IsCut, IsSameBegin};

use edge_io::{Files, ReadAnswer, ReadFault, take_piece};
use std::alloc::Global;
use whole_text::{Lexer, Style, TokenText};

/// How many bytes are taken at once, at most; they stand on the stack.
const PIECE: usize = 65_536;

/// Takes the next piece of the begun file, of at most 64 KiB, and none only at its end.
fn take_next<F: Files>(files: &mut F, into: &mut [u8]) -> Result<usize, ReadFault>
    requires some { 0 < length into.old }
    requires small { length into.old ≤ 2 ^ 16 }
    ensures bound { ReadsAtMost result into.new }
    ensures rest { ReadConsumes (F.rest files.old) (F.rest files.new) result into.new }
    ensures at_end { result ≡ Ok 0 → IsAtEnd (F.rest files.new) }
    ensures held { F.held files.new ≡ F.held files.old }

    ensures counted { IfOk result (λ n.
        (F.counts files.new).taken ≡ count_after (F.counts files.old).taken n) }
    ensures none_taken { OnErr result
        ((F.counts files.new).taken ≡ (F.counts files.old).taken) }
    ensures nothing { CountsNothing
        (F.counts files.old).empty_reads (F.counts files.new).empty_reads result }
    ensures cause { HasCause (F.counts files.old).faults (F.counts files.new).faults result }

    ensures begun { (F.counts files.new).begun ≡ (F.counts files.old).begun }
    ensures mark { (F.counts files.new).faults_at_begin ≡ (F.counts files.old).faults_at_begin }
    ensures name { (F.counts files.new).name ≡ (F.counts files.old).name }
{
    take_piece(files, into)
}

/// Takes what is left of the begun file, at most `limit` bytes, and feeds a lexer with it.
fn feed_rest<F: Files>(files: &mut F, lexer: &mut Lexer, limit: usize) -> Result<(), ReadAnswer>
    requires limit { limit < 2 ^ 32 }
    requires none_taken { (F.counts files.old).taken ≡ 0 }
    requires none_empty { (F.counts files.old).empty_reads ≡ 0 }
    requires cut { IsCut (F.held files.old) (F.counts files.old).name 0 (F.rest files.old) lexer.old }
    ensures cut { OnOk result (IsCut (F.held files.old) (F.counts files.old).name
        (F.counts files.new).taken (F.rest files.new) lexer.new) }
    ensures at_end { OnOk result (IsAtEnd (F.rest files.new)) }
    ensures style { lexer.new.style ≡ lexer.old.style }
    ensures end { HasEnded limit (F.counts files.old).faults (F.counts files.new) result }
    ensures longer { IsErrOf result ReadAnswer.TooLong → WhereTold (F.held files.old) (λ held.
        IsLonger held (F.counts files.old).name limit) }
    ensures same { IsSameBegin (F.counts files.old) (F.counts files.new) }
    ensures held { F.held files.new ≡ F.held files.old }
{
    let mut piece = [0u8; PIECE];
    let mut taken = 0;
    loop {
        let room = PIECE.min(limit + 1 - taken);
        let Ok(count) = take_next(files, &mut piece[..room]) else {
            return Err(ReadAnswer::ReadFault);
        };
        if count == 0 {
            return Ok(());
        }
        // The length is known before memory is asked for, so `TooLong` does not depend on memory.
        if taken + count > limit {
            return Err(ReadAnswer::TooLong);
        }
        match lexer.feed(&piece[..count]) {
            Ok(()) => taken += count,
            Err(_) => return Err(ReadAnswer::NoMemory),
        }
    }
}

/// The words of the file that was just begun, which has at most `limit` bytes, cut in a style.
fn cut_begun<F: Files>(
    alloc: Global,
    files: &mut F,
    limit: usize,
    style: Style,
) -> Result<TokenText, ReadAnswer>
    requires limit { limit < 2 ^ 32 }
    requires none_taken { (F.counts files.old).taken ≡ 0 }
    requires none_empty { (F.counts files.old).empty_reads ≡ 0 }
    requires front { IsFront (F.held files.old) (F.counts files.old).name [] (F.rest files.old) }
    ensures words { IfOk result (λ text. WhereTold (F.held files.old) (λ held.
        AreWordsOf (find_file held (F.counts files.old).name) limit style (words_of text))) }
    ensures short { IfOk result (λ text. length text.bytes ≤ limit) }
    ensures end { HasEnded limit (F.counts files.old).faults (F.counts files.new) result }
    ensures longer { IsErrOf result ReadAnswer.TooLong → WhereTold (F.held files.old) (λ held.
        IsLonger held (F.counts files.old).name limit) }
    ensures same { IsSameBegin (F.counts files.old) (F.counts files.new) }
    ensures held { F.held files.new ≡ F.held files.old }
{
    let mut lexer = Lexer::new(alloc, style);
    match feed_rest(files, &mut lexer, limit) {
        Ok(()) => match lexer.finish() {
            Ok(text) => Ok(text),
            Err(_) => Err(ReadAnswer::NoMemory),
        },
        Err(answer) => Err(answer),
    }
}

/// The words of the named file, which has at most `limit` bytes, cut in a style. They take no more
/// bytes than the file.
pub fn read_words<F: Files>(
    alloc: Global,
    files: &mut F,
    name: String,
    limit: usize,
    style: Style,
) -> Result<TokenText, ReadAnswer>
    requires { limit < 2 ^ 32 }
    ensures words { IfOk result (λ text. WhereTold (F.held files.old) (λ held.
        AreWordsOf (find_file held (string_bytes name)) limit style (words_of text))) }
    ensures short { IfOk result (λ text. length text.bytes ≤ limit) }

    // One read gives nothing, and then no more is read.
    ensures to_end { OnOk result ((F.counts files.new).empty_reads ≡ 1) }
    ensures no_end { IsErrOf result ReadAnswer.TooLong → (F.counts files.new).empty_reads ≡ 0 }

    // The file was begun once, under this name and before any read, whatever the answer.
    ensures begun { (F.counts files.new).begun ≡ count_after (F.counts files.old).begun 1 }
    ensures marked { (F.counts files.new).faults_at_begin ≡ (F.counts files.old).faults }
    ensures named { (F.counts files.new).name ≡ string_bytes name }
    ensures held { F.held files.new ≡ F.held files.old }

    ensures no_fall { (F.counts files.old).faults ≤ (F.counts files.new).faults }
    ensures fault { IsErrOf result ReadAnswer.ReadFault →
        Rose (F.counts files.old).faults (F.counts files.new).faults }
    ensures calm { ¬ (IsErrOf result ReadAnswer.ReadFault) →
        (F.counts files.new).faults ≡ (F.counts files.old).faults }
    ensures unheld { WhereTold (F.held files.old) (λ held.
        find_file held (string_bytes name) ≡ None → IsErrOf result ReadAnswer.ReadFault) }

    // One byte beyond the limit tells that a file is too long, and no more is taken.
    ensures at_most { (F.counts files.new).taken ≤ limit + 1 }
    ensures too_long { IsErrOf result ReadAnswer.TooLong
        ↔ ((F.counts files.new).taken ≡ limit + 1) }
    ensures longer { IsErrOf result ReadAnswer.TooLong →
        WhereTold (F.held files.old) (λ held. IsLonger held (string_bytes name) limit) }
{
    match files.begin(name) {
        Ok(()) => cut_begun(alloc, files, limit, style),
        Err(_) => Err(ReadAnswer::ReadFault),
    }
}
