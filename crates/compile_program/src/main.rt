//! The program: words, one file in, one text out.
#![tactic(auto)]

use edge_io::RealSink;
use program_run::{exit_number, given_words};
use std::process::ExitCode;

fn main(rt: HostRuntime) -> ExitCode {
    let mut out = RealSink::new(rt.stdout());
    let mut err = RealSink::new(rt.stderr());
    let words = given_words(&rt);
    ExitCode::from(exit_number(rt, words, &mut out, &mut err))
}
