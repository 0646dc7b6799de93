//! Worked objects: the smallest one passes, and small changes fail a rule each.
//!
//! Each row is a file of one function at most, with cuts and entry slots, and what the verifier tells of it. The
//! files are put together here by hand, and read by `obj_file`.

ghost use Rattle.std.specs.Prelude.{◌<◌, length};

use obj_check::check;
use obj_check::fault::{ShapeFault, ShapeSpot};
use obj_file::read::read;
use rd_num::bytes::put_u32_le;
use rd_num::list::List;
use rd_num::width::NoMemory;
use std::alloc::Global;

/// A file of one function without links, or of none where there is no code, and entry slots.
fn file(alloc: Global, code: &[u8], cuts: &[u32], targets: &[u32]) -> Result<List<u8>, NoMemory>
    requires code_is_short { length code.now < 100 }
    requires few_cuts { length cuts.now < 100 }
    requires few_slots { length targets.now < 100 }
{
    let mut out = List::new(alloc);
    out.append(b"RDO1")?;
    out.append(&[2, 0, 0, 0, 0, 0, 0, 0, 0, 0, 0, 0, 0, 0, 0, 0, 0, 0, 0, 0])?;
    out.append(&[u8::from(!code.is_empty()), 0, 0, 0])?;
    out.append(&put_u32_le(targets.len() as u32))?;
    out.append(&[0, 0, 0, 0, 0, 0, 0, 0])?;
    if !code.is_empty() {
        out.append(&[0, 0, 0, 0])?;
        out.append(&put_u32_le(code.len() as u32))?;
        out.append(&[0, 0, 0, 0])?;
        out.append(&put_u32_le(cuts.len() as u32))?;
        out.append(code)?;
        for cut in cuts {
            out.append(&put_u32_le(*cut))?;
        }
    }
    for target in targets {
        out.append(&[0, 0, 0, 0])?;
        out.append(&put_u32_le(*target))?;
        out.append(&[0, 0, 0, 0, 0, 0, 0, 0])?;
    }
    Ok(out)
}

/// What is told of the object of a file; `None` where it is taken.
fn told(alloc: Global, bytes: &[u8]) -> Option<ShapeFault> {
    match read(alloc, bytes) {
        Ok(o) => match check(alloc, o) {
            Ok(_) => None,
            Err(refused) => Some(refused.fault),
        },
        Err(_) => Some(ShapeFault::NoMemory),
    }
}

#[test]
fn tells_the_first_rule_that_fails(rt: HostRuntime) {
    let rows: [(&[u8], &[u32], Option<(u8, ShapeSpot, u32)>); 12] = [
        (&[0x0F, 0x0B], &[0], None),
        (&[], &[0], Some((1, ShapeSpot::Whole, 0))),
        (&[0x0F, 0x0B], &[], Some((1, ShapeSpot::Whole, 0))),
        (
            &[0x0F, 0x0B, 0xE9],
            &[0],
            Some((2, ShapeSpot::Function(0), 2)),
        ),
        (
            &[0x0F, 0x05, 0x0F, 0x0B],
            &[0],
            Some((3, ShapeSpot::Function(0), 0)),
        ),
        (
            &[0x0F, 0x0B, 0xE9, 0xFA, 0xFF, 0xFF, 0xFF],
            &[0],
            Some((4, ShapeSpot::Function(0), 2)),
        ),
        (&[0xE9, 0xFB, 0xFF, 0xFF, 0xFF], &[0], None),
        (
            &[0x90, 0xE8, 0, 0, 0, 0, 0x0F, 0x0B],
            &[0],
            Some((3, ShapeSpot::Function(0), 1)),
        ),
        (&[0x90], &[0], Some((5, ShapeSpot::Function(0), 0))),
        (
            &[0x0F, 0x0B, 0x0F, 0x84, 0xFA, 0xFF, 0xFF, 0xFF],
            &[0],
            Some((5, ShapeSpot::Function(0), 2)),
        ),
        (&[0x0F, 0x0B], &[1], Some((6, ShapeSpot::Slot(0), 0))),
        (&[0x0F, 0x0B], &[0, 0], Some((7, ShapeSpot::Slot(1), 0))),
    ];
    for (code, targets, wanted) in rows {
        let expected = match wanted {
            None => None,
            Some((rule, spot, offset)) => Some(ShapeFault::Rule { rule, spot, offset }),
        };
        assert!(rt; code.len() < 100 && targets.len() < 100);
        match file(rt.alloc(), code, &[], targets) {
            Ok(bytes) => assert_eq!(rt; told(rt.alloc(), bytes.as_slice()), expected),
            Err(_) => panic!(rt; "no memory"),
        }
    }
}

/// A jump over a breakpoint to `ud2`.
const PARTS: [u8; 8] = [0xE9, 1, 0, 0, 0, 0xCC, 0x0F, 0x0B];

#[test]
fn tells_the_first_cut_that_is_wrong(rt: HostRuntime) {
    // the cuts, and which of them is told
    let rows: [(&[u32], Option<u32>); 9] = [
        (&[5, 6], None),
        (&[5], None),
        (&[6], None),
        (&[6, 5], Some(5)),
        (&[6, 6], Some(6)),
        (&[0, 5], Some(0)),
        (&[1], Some(1)),
        (&[7, 0], Some(7)),
        (&[5, 6, 8], Some(8)),
    ];
    for (cuts, wanted) in rows {
        let expected = match wanted {
            None => None,
            Some(offset) => Some(ShapeFault::Rule {
                rule: 9,
                spot: ShapeSpot::Function(0),
                offset,
            }),
        };
        assert!(rt; cuts.len() < 100);
        match file(rt.alloc(), &PARTS, cuts, &[0]) {
            Ok(bytes) => assert_eq!(rt; told(rt.alloc(), bytes.as_slice()), expected),
            Err(_) => panic!(rt; "no memory"),
        }
    }
}

#[test]
fn a_cut_stands_behind_what_nothing_runs_past(rt: HostRuntime) {
    // nop, then int3: an instruction begins at 1, but the one before runs on
    match file(rt.alloc(), &[0x90, 0xCC], &[1], &[0]) {
        Ok(bytes) => assert_eq!(rt;
            told(rt.alloc(), bytes.as_slice()),
            Some(ShapeFault::Rule {
                rule: 9,
                spot: ShapeSpot::Function(0),
                offset: 1,
            })
        ),
        Err(_) => panic!(rt; "no memory"),
    }
}
