//! The steps of a command that take one file: each gives a value, or the status that refuses.
ghost use Rattle.std.specs.Prelude.{◌≡◌, ◌≤◌, ◌^◌, length, IfOk};
ghost use Rattle.whole_text.specs.TokenTexts.{words_of};
ghost use Rattle.run_steps.specs.Steps.{taking};
ghost use Rattle.run_steps.specs.Cut.{cutting};
ghost use Rattle.run_steps.specs.Takes.{judged, HasTakenOne};

use crate::cut::read_words;
use crate::status::Status;
use command_words::Which;
use edge_io::{Files, ReadAnswer, read_all};
use problem_form::{LimitKind, MOST_BYTES};
use std::alloc::Global;
use whole_text::{Style, TextAnswer, TokenText};

/// Takes a file of this name, and cuts it into words as it comes, in a style.
#[tactic(auto, unfolding(crate::specs::Cut::cutting))]
pub fn take_words<F: Files>(
    alloc: Global,
    name: &str,
    which: Which,
    style: Style,
    files: &mut F,
) -> Result<TokenText, Status>
    ensures took { HasTakenOne F.held F.counts files.old files.new which name.now words_of result
        (λ held. cutting held which name.now style) }
    ensures short { IfOk result (λ text. length text.bytes ≤ 2 ^ 24) }
{
    let Ok(begun) = String::from_str(alloc, name) else {
        return Err(Status::NoMemory);
    };
    match read_words(alloc, files, begun, MOST_BYTES, style) {
        Ok(text) => Ok(text),
        Err(ReadAnswer::ReadFault) => Err(Status::ReadFault(which)),
        Err(ReadAnswer::TooLong) => Err(Status::Limit(which, LimitKind::Bytes, 16_777_217)),
        Err(ReadAnswer::NoMemory) => Err(Status::NoMemory),
    }
}

/// Takes the bytes of a file of this name.
pub fn take_bytes<F: Files>(
    alloc: Global,
    name: &str,
    which: Which,
    files: &mut F,
) -> Result<Vec<u8>, Status>
    ensures took { HasTakenOne F.held F.counts files.old files.new which name.now
        (λ bytes. bytes.items) result (λ held. taking held which name.now) }
    ensures short { IfOk result (λ bytes. length bytes.items ≤ 2 ^ 24) }
{
    let Ok(begun) = String::from_str(alloc, name) else {
        return Err(Status::NoMemory);
    };
    match read_all(alloc, files, begun, MOST_BYTES) {
        Ok(bytes) => Ok(bytes),
        Err(ReadAnswer::ReadFault) => Err(Status::ReadFault(which)),
        Err(ReadAnswer::TooLong) => Err(Status::Limit(which, LimitKind::Bytes, 16_777_217)),
        Err(ReadAnswer::NoMemory) => Err(Status::NoMemory),
    }
}

/// What a text of a file is read into, or the status of its fault.
pub fn read_into<T>(read: Result<T, TextAnswer>, which: Which) -> Result<T, Status>
    ensures { result ≡ judged which read }
{
    match read {
        Ok(value) => Ok(value),
        Err(TextAnswer::Bad(fault)) => Err(Status::BadText(which, fault.kind, fault.line)),
        Err(TextAnswer::NoMemory) => Err(Status::NoMemory),
    }
}
