//! What a store of files and a sink of bytes promise. The content is told where an end knows it:
//! ends in memory do, real ones as far as what they stand on does. The counts are told by each.
ghost use Rattle.std.specs.Prelude.{◌≡◌, ℕ, List, [], IfOk, OnErr, Option, string_bytes};
ghost use Rattle.std.specs.Io.{ReadsAtMost};
ghost use Rattle.std.specs.Io.KnownBytes.{ReadConsumes, WriteAppends, IsAtEnd};
ghost use Rattle.edge_io.specs.Counts.{Counts, count_after, RoseBy, CountsErr, CountsNothing, HasCause};
ghost use Rattle.edge_io.specs.Held.{NamedFiles, Begins};
ghost use Rattle.edge_io.specs.Sinks.{Taken, TakesSome};

/// The only error of a store of files and of a sink.
#[derive(Clone, Copy, Debug, PartialEq, Eq)]
pub struct Failed;

/// Files that are read by name, one at a time. The calls of `begin` and `read` go on after a fault.
pub trait Files {
    /// The files that it holds, where it tells them.
    ghost held: { Self → Option NamedFiles };

    /// The rest of the begun file, where it tells it.
    ghost rest: { Self → Option (List ℕ) };

    /// What it tells of its calls.
    ghost counts: { Self → Counts };

    /// Opens the named file at its start. Also where it fails, it counts as begun under this name.
    fn begin(&mut self, name: String) -> Result<(), Failed>
        ensures held { held self.new ≡ held self.old }
        ensures rest { Begins (held self.old) (string_bytes name) result (rest self.new) }
        ensures faults { CountsErr (counts self.old).faults (counts self.new).faults result }
        ensures cause { HasCause (counts self.old).faults (counts self.new).faults result }
        ensures none_taken { (counts self.new).taken ≡ 0 }
        ensures none_empty { (counts self.new).empty_reads ≡ 0 }
        ensures counted { (counts self.new).begun ≡ count_after (counts self.old).begun 1 }
        ensures marked { (counts self.new).faults_at_begin ≡ (counts self.old).faults }
        ensures named { (counts self.new).name ≡ string_bytes name };

    /// Takes the next bytes of the rest: none only at its end, or where there is no room for them.
    fn read(&mut self, into: &mut [u8]) -> Result<usize, Failed>
        ensures held { held self.new ≡ held self.old }
        ensures bound { ReadsAtMost result into.new }
        ensures rest { ReadConsumes (rest self.old) (rest self.new) result into.new }
        ensures faults { CountsErr (counts self.old).faults (counts self.new).faults result }
        ensures cause { HasCause (counts self.old).faults (counts self.new).faults result }
        ensures counted { IfOk result (λ n.
            (counts self.new).taken ≡ count_after (counts self.old).taken n) }
        ensures none_taken { OnErr result ((counts self.new).taken ≡ (counts self.old).taken) }
        ensures nothing { CountsNothing
            (counts self.old).empty_reads (counts self.new).empty_reads result }
        ensures same_begin { (counts self.new).begun ≡ (counts self.old).begun }
        ensures same_mark { (counts self.new).faults_at_begin ≡ (counts self.old).faults_at_begin }
        ensures same_name { (counts self.new).name ≡ (counts self.old).name };

    /// Before the first `begin` nothing is left to read, and the name is empty.
    ghost at_first: { (files : Self) → (counts files).begun ≡ 0 →
        IsAtEnd (rest files) × ((counts files).name ≡ []) };
}

/// What bytes are written to. A `write` that fails has taken nothing, and later ones may succeed.
pub trait Sink {
    /// What it tells of the bytes so far.
    ghost taken: { Self → Taken };

    /// How often a call has failed.
    ghost faults: { Self → ℕ };

    /// Takes a front of the piece, and says how many bytes it took.
    fn write(&mut self, piece: &[u8]) -> Result<usize, Failed>
        ensures bytes { WriteAppends (taken self.old).bytes (taken self.new).bytes result
            piece.now }
        ensures counted { IfOk result (λ n.
            RoseBy n (taken self.old).count (taken self.new).count) }
        ensures none_counted { OnErr result ((taken self.new).count ≡ (taken self.old).count) }
        ensures bound { TakesSome result piece.now }
        ensures faults { CountsErr (faults self.old) (faults self.new) result }
        ensures cause { HasCause (faults self.old) (faults self.new) result };
}
