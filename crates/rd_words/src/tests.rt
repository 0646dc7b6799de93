//! Command lines and what they ask for. The words of a line stand between bars.

use crate::{Command, read_words};
use std::alloc::{AllocError, Global};

/// What a command line asks for, in the order in which the command's values are named.
fn told(alloc: Global, line: &str) -> Result<String, AllocError> {
    let mut words = Vec::new(alloc);
    for word in line.split('|') {
        let mut one = String::new(alloc);
        one.push_str(word)?;
        words.push(one)?;
    }
    match read_words(words.as_slice()) {
        Some(
            Command::Compile {
                file,
                slot_seed,
                reg_seed,
            },
        ) => format!(in alloc; "compile {file} {slot_seed} {reg_seed}"),
        Some(
            Command::Build {
                file,
                slot_seed,
                reg_seed,
                layout_seed,
            },
        ) => format!(in alloc; "build {file} {slot_seed} {reg_seed} {layout_seed}"),
        Some(Command::Lay { file, layout_seed }) => format!(in alloc; "lay {file} {layout_seed}"),
        Some(Command::Run { file, steps }) => format!(in alloc; "run {file} {steps}"),
        Some(Command::Show { file, steps }) => format!(in alloc; "show {file} {steps}"),
        Some(Command::Eval { file, steps }) => format!(in alloc; "eval {file} {steps}"),
        Some(Command::Watch { file, script }) => format!(in alloc; "watch {file} {script}"),
        Some(Command::Check { file }) => format!(in alloc; "check {file}"),
        Some(Command::Print { file }) => format!(in alloc; "print {file}"),
        Some(Command::Certify { file }) => format!(in alloc; "certify {file}"),
        Some(Command::Gen { number }) => format!(in alloc; "gen {number}"),
        None => format!(in alloc; "nothing"),
    }
}

#[rattlefmt::skip]
const LINES: [(&str, &str); 63] = [
    ("run|m|--steps|1", "run m 1"),
    ("run|--steps|1|m", "run m 1"),
    ("run|--steps=1|m", "run m 1"),
    ("run|m|--steps=18446744073709551615", "run m 18446744073709551615"),
    ("run|m|--steps=00000000000000000001", "run m 1"),
    ("run|-|--steps|0", "run - 0"),
    ("run||--steps|0", "run  0"),
    ("show|--steps|2|m", "show m 2"),
    ("eval|--steps|2|m", "eval m 2"),
    ("lay|--layout-seed=3|m", "lay m 3"),
    ("compile|m|--reg-seed|2|--slot-seed|1", "compile m 1 2"),
    ("compile|--slot-seed=1|--reg-seed=2|m", "compile m 1 2"),
    ("build|--layout-seed|3|m|--reg-seed=2|--slot-seed|1", "build m 1 2 3"),
    ("watch|m|--script|s", "watch m s"),
    ("watch|--script=-s|m", "watch m -s"),
    ("watch|--script=|m", "watch m "),
    ("watch|--script=a=b|m", "watch m a=b"),
    ("check|m", "check m"),
    ("check|-", "check -"),
    ("check|", "check "),
    ("print|m", "print m"),
    ("certify|m", "certify m"),
    ("", "nothing"),
    ("m", "nothing"),
    ("run", "nothing"),
    ("run|m", "nothing"),
    ("run|--steps|1", "nothing"),
    ("run|m|--steps", "nothing"),
    ("run|m|--steps|", "nothing"),
    ("run|m|--steps=", "nothing"),
    ("run|m|--steps|-1", "nothing"),
    ("run|m|--steps|+1", "nothing"),
    ("run|m|--steps=18446744073709551616", "nothing"),
    ("run|m|--steps=000000000000000000001", "nothing"),
    ("run|-m|--steps|1", "nothing"),
    ("run|--|m|--steps|1", "nothing"),
    ("run|m|n|--steps|1", "nothing"),
    ("run|m|--steps|1|--steps|1", "nothing"),
    ("run|m|--steps|1|--steps=1", "nothing"),
    ("run|m|-steps|1", "nothing"),
    ("run|m|--step|1", "nothing"),
    ("run|m|--layout-seed|1", "nothing"),
    ("watch|m|--script|-s", "nothing"),
    ("watch|m|--script|--|s", "nothing"),
    ("compile|m|--slot-seed|1", "nothing"),
    ("build|m|--slot-seed|1|--reg-seed|2", "nothing"),
    ("check", "nothing"),
    ("check|m|n", "nothing"),
    ("check|m|--steps|1", "nothing"),
    ("check|--|m", "nothing"),
    ("print|-m", "nothing"),
    ("print|m|--script=s", "nothing"),
    ("certify", "nothing"),
    ("certify|m|--layout-seed|1", "nothing"),
    ("gen|--number|1", "gen 1"),
    ("gen|--number=4000", "gen 4000"),
    ("gen|--number=0004000", "gen 4000"),
    ("gen|--number|0", "nothing"),
    ("gen|--number|4001", "nothing"),
    ("gen|--number=", "nothing"),
    ("gen", "nothing"),
    ("gen|m|--number|1", "nothing"),
    ("gen|--number|1|--number|1", "nothing"),
];

#[test]
fn lines_ask_for_this(rt: HostRuntime) -> Result<(), AllocError> {
    for (line, want) in LINES {
        let asked = told(rt.alloc(), line)?;
        assert_eq!(rt; asked.as_str(), want);
    }
    Ok(())
}
