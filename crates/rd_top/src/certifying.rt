//! What `certify` tells of an object: whether it is guarded, and if not, the first rule that fails.
//!
//! What each answer says of the object stands in `specs/Certifying.antt`. Takes no memory.

ghost use Rattle.rd_top.specs.Certifying.{Certified};
ghost use Rattle.rd_top.specs.Commands.{Certifies};
ghost use Rattle.rd_top.specs.World.{KeepsFiles};

use crate::answer::Answer;
use crate::file::read_file;
use guard_check::check::check;
use obj_core::checked::Checked;
use rd_io::Files;
use std::alloc::Global;

/// What is told of a well-formed object.
#[tactic(auto, using(crate::proofs::Guarded::guarded_so))]
fn certified(object: Checked) -> Answer
    ensures { Certified object.object result }
{
    match check(object) {
        Ok(guarded) => {
            let _straight = guarded.checked();
            Answer::Guarded
        }
        Err((_, fault)) => Answer::Unguarded(fault),
    }
}

/// `certify`: says whether the object in a file is guarded.
pub fn certify_file<F: Files>(alloc: Global, file: &str, files: &mut F) -> Answer
    ensures means { Certifies file.now (F.told files.old) (F.told files.new) result }
    ensures files { KeepsFiles (F.told files.old) (F.told files.new) result }
{
    let read: Result<Checked, Answer> = read_file(alloc, file, files);
    match read {
        Ok(object) => certified(object),
        Err(answer) => answer,
    }
}
