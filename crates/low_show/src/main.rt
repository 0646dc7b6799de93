//! Tells how many chunks the functions of a module come to, pass by pass: for measures of the passes.
//!
//! The one word is a file with a module's text. The status is 0, or 1 where there is no such module
//! or memory is wanting.
#![tactic(auto)]

ghost use Rattle.std.specs.Prelude.{◌≤◌, length, IfSome};
ghost use Rattle.ir_core.specs.Built.{IsBuilt};

use ir_check::check;
use ir_core::module::Module;
use ir_core::valid::Valid;
use ir_lex::lex;
use ir_parse::parse::parse;
use low_core::moves::Body;
use rd_io::Files;
use rd_io::real::DiskFiles;
use rd_num::bytes::bytes_known;
use std::alloc::Global;
use std::env;
use std::process::ExitCode;

/// The most bytes of a text.
const MOST: u64 = 8_388_608;

/// The module of a text, as the grammar builds it.
fn module_of(alloc: Global, text: &[u8]) -> Option<Module>
    requires { length text.now ≤ 8388608 }
    ensures { IfSome result IsBuilt }
{
    bytes_known(text);
    let Ok(tokens) = lex(alloc, text) else {
        return None;
    };
    match parse(alloc, &tokens, text.len() as u64) {
        Ok(module) => Some(module),
        Err(_) => None,
    }
}

/// The valid module of a text.
fn valid_of(alloc: Global, text: &[u8]) -> Option<Valid>
    requires { length text.now ≤ 8388608 }
{
    let whole = module_of(alloc, text)?;
    check(alloc, whole).ok()
}

/// How many chunks there are in all bodies.
fn chunks(bodies: &[Body]) -> u64 {
    let mut count = 0u64;
    for body in bodies {
        count = count.saturating_add(body.chunks.len() as u64);
    }
    count
}

/// The word behind the program's name.
fn file_word(rt: &HostRuntime) -> Option<String> {
    env::args(rt).ok()?.nth(1)
}

fn main(rt: HostRuntime) -> ExitCode {
    let alloc = rt.alloc();
    let Some(name) = file_word(&rt) else {
        return ExitCode::from(1);
    };
    let mut files = DiskFiles::new(rt);
    let Ok(text) = files.read(alloc, name.as_str(), MOST) else {
        return ExitCode::from(1);
    };
    let Some(valid) = valid_of(alloc, text.as_slice()) else {
        return ExitCode::from(1);
    };
    let Ok(low) = phi_lower::lower(alloc, &valid) else {
        return ExitCode::from(1);
    };
    let Ok(lean) = switch_lower::lower(alloc, &low) else {
        return ExitCode::from(1);
    };
    let without_phis = chunks(low.bodies.as_slice());
    let without_switches = chunks(lean.bodies.as_slice());
    match println!(rt; "without phis {without_phis}, without switches {without_switches}") {
        Ok(()) => ExitCode::from(0),
        Err(_) => ExitCode::from(1),
    }
}
