//! The program: the top call over the real files and streams. There is nothing else to read here.
#![tactic(auto)]

use rd_io::real::{DiskFiles, ErrSink, StdSink, StdSource};
use rd_top::top;
use std::env;
use std::process::ExitCode;

/// Words that aren't text count as no words.
fn main(rt: HostRuntime) -> ExitCode {
    let alloc = rt.alloc();
    let mut words = Vec::new(alloc);
    if let Ok(all) = env::args(&rt) {
        for word in all.skip(1) {
            match words.push(word) {
                Ok(()) => {}
                Err(_) => return ExitCode::from(11),
            }
        }
    }
    let mut input = StdSource::new(rt.stdin());
    let mut out = StdSink::new(rt.stdout());
    let mut err = ErrSink::new(rt.stderr());
    let mut files = DiskFiles::new(rt);
    let status = top(
        alloc,
        words.as_slice(),
        &mut files,
        &mut input,
        &mut out,
        &mut err,
    );
    ExitCode::from(status)
}
