//! The next bytes of a begun file.
ghost use Rattle.std.specs.Prelude.{◌≡◌, ◌<◌, length, Ok, IfOk, OnErr};
ghost use Rattle.std.specs.Io.{ReadsAtMost};
ghost use Rattle.std.specs.Io.KnownBytes.{ReadConsumes, IsAtEnd};
ghost use Rattle.edge_io.specs.Counts.{count_after, CountsErr, CountsNothing, HasCause};

use crate::Files;

/// A call of `read` failed.
#[derive(Clone, Copy, Debug, PartialEq, Eq)]
pub struct ReadFault;

/// Takes the next bytes of the begun file, at most as many as there is room for, and says how many.
/// It takes none only at the end of the file.
pub fn take_piece<F: Files>(files: &mut F, into: &mut [u8]) -> Result<usize, ReadFault>
    requires { 0 < length into.old }
    ensures bound { ReadsAtMost result into.new }
    ensures rest { ReadConsumes (F.rest files.old) (F.rest files.new) result into.new }
    ensures at_end { result ≡ Ok 0 → IsAtEnd (F.rest files.new) }
    ensures held { F.held files.new ≡ F.held files.old }

    // The bytes that were taken are counted, and so is a read that gives nothing.
    ensures counted { IfOk result (λ n.
        (F.counts files.new).taken ≡ count_after (F.counts files.old).taken n) }
    ensures none_taken { OnErr result
        ((F.counts files.new).taken ≡ (F.counts files.old).taken) }
    ensures nothing { CountsNothing
        (F.counts files.old).empty_reads (F.counts files.new).empty_reads result }

    // A fault comes only where the count of faults rose.
    ensures faults { CountsErr (F.counts files.old).faults (F.counts files.new).faults result }
    ensures cause { HasCause (F.counts files.old).faults (F.counts files.new).faults result }

    // No file was begun.
    ensures begun { (F.counts files.new).begun ≡ (F.counts files.old).begun }
    ensures mark { (F.counts files.new).faults_at_begin ≡ (F.counts files.old).faults_at_begin }
    ensures name { (F.counts files.new).name ≡ (F.counts files.old).name }
{
    match files.read(into) {
        Ok(count) => Ok(count),
        Err(_) => Err(ReadFault),
    }
}
