//! A run over a file without an end, of which no call fails.
ghost use Rattle.std.specs.Prelude.{[], None, string_bytes};
ghost use Rattle.std.specs.Option.{option_map_or};
ghost use Rattle.edge_io.specs.Held.{after_first};
ghost use Rattle.edge_io.specs.laws.Begun.{after_first-none};

use crate::runs::{owned, sink};
use edge_io::{Failed, Files};
use program_run::run;
use std::alloc::Global;
use std::test::Fail;

#[derive(Drop)]
struct Endless {
    name: Option<String>,
    taken: u64,
    empty_reads: u64,
    begun: u64,
}

impl Files for Endless {
    ghost held = { λ f. None };

    ghost rest = { λ f. None };

    ghost counts = { λ f. record {
      faults = 0;
      begun = f.begun;
      name = after_first f.begun (option_map_or string_bytes f.name []);
      faults_at_begin = 0;
      taken = f.taken;
      empty_reads = f.empty_reads;
    } };

    ghost at_first = { λ f none. (tt, after_first-none f.begun _ none) };

    fn begin(&mut self, name: String) -> Result<(), Failed> {
        self.begun = self.begun.saturating_add(1);
        self.taken = 0;
        self.empty_reads = 0;
        self.name = Some(name);
        Ok(())
    }

    fn read(&mut self, into: &mut [u8]) -> Result<usize, Failed> {
        self.taken = self.taken.saturating_add(into.len() as u64);
        if into.is_empty() {
            self.empty_reads = self.empty_reads.saturating_add(1);
        }
        Ok(into.len())
    }
}

/// Whether a run over it ends at one byte more than is accepted, and says so.
fn is_too_long(alloc: Global) -> Result<bool, Fail> {
    let given = owned(alloc, &["compile", "wcnf", "qubo", "a"])?;
    let mut out = sink(alloc, 1, 1, 0)?;
    let mut err = sink(alloc, 1000, 1000, 0)?;
    let mut files = Endless {
        name: None,
        taken: 0,
        empty_reads: 0,
        begun: 0,
    };
    let status = run(alloc, &given, &mut files, &mut out, &mut err);
    let said = status.number() == 6 && err.bytes() == b"a: limit bytes 16777217\n".as_slice();
    Ok(said && files.begun == 1 && files.taken == 16_777_217 && files.empty_reads == 0)
}

#[test]
fn a_file_without_end_is_too_long(rt: HostRuntime) -> Result<(), Fail> {
    assert!(rt; is_too_long(rt.alloc())?);
    Ok(())
}
