//! The events of a script, each after its number of instructions and behind the events before it.
//!
//! One machine runs on from event to event: each instruction is taken once, and each reply copies its
//! bytes once. Nobody gets what is printed; its bytes are counted.

ghost use Rattle.std.specs.Prelude.{◌≡◌, ◌^◌, ◌<◌, ◌≤◌, ℕ, List as Row, [], length, None, Some, true, IfOk, IfErr, OnOk};
ghost use Rattle.behavior.specs.System.{iter};
ghost use Rattle.x86_core.specs.Machine.{machine_step};
ghost use Rattle.x86_core.specs.Memory.{read_at};
ghost use Rattle.x86_core.specs.Observation.{readable};
ghost use Rattle.x86_core.specs.Run.{Act, run_over};
ghost use Rattle.xom_machine.specs.Standing.{state_of, streams};
ghost use Rattle.xom_machine.specs.Calls.{Took};
ghost use Rattle.watch_script.specs.Acts.{acts_to, done_by};
ghost use Rattle.watch_script.specs.Events.{after_of, size_of, are_in_order, last_after};
ghost use Rattle.watch_script.specs.Report.{reply_of, reply_in, replies_of};
ghost use Rattle.watch_script.specs.Suiting.{is_suited, are_suited};
ghost use Rattle.watch_script.specs.Watching.{Acted, Halted, WatchedOf, InputCharged};

use crate::event::Event;
use crate::reply::Reply;
use crate::report::Report;
use crate::script::Script;
use rd_io::sure::CountSink;
use rd_io::{RunFault, Source};
use rd_num::copied::copy_list;
use rd_num::list::List;
use rd_num::width::NoMemory;
use std::alloc::Global;
use x86_core::image::Image;
use xom_machine::machine::Machine;
use xom_memory::memory::WriteFault;

/// How many bytes a read asks for at most.
const MOST_READ: usize = 4096;

/// What a read answers as memory stands, by way of a room for so many bytes.
#[tactic(auto, using(crate::proofs::Watches::read_readable))]
fn reply<const N: usize>(
    alloc: Global,
    machine: &Machine,
    at: u64,
    len: u32,
) -> Result<Reply, NoMemory>
    requires some { 1 ≤ len }
    requires room { len ≤ N }
    requires small { N < 2 ^ 63 }
    ensures { let bytes = read_at (readable machine.now.memory) at len in
        IfOk result (λ r. r ≡ reply_of bytes) }
{
    let mut room = [0; N];
    let bytes = &mut room[..len as usize];
    match machine.memory().read_into(at, bytes) {
        Ok(()) => {
            let own = copy_list(alloc, bytes)?;
            Ok(Reply::Bytes(own))
        }
        Err(_) => Ok(Reply::Refused),
    }
}

/// What a write answers. After `NoMemory` nothing has changed.
#[tactic(auto, using(crate::proofs::Replies::written_reply, crate::proofs::Replies::refused_reply, crate::proofs::Replies::refused_state))]
fn write(machine: &mut Machine, after: u64, at: u64, bytes: &[u8]) -> Result<Reply, NoMemory>
    ensures reply { IfOk result (λ r. (left printed : Row ℕ) (taken : ℕ) →
        r ≡ reply_in (Event.Write after at bytes.now) (state_of machine.old left printed taken)) }
    ensures done { OnOk result ((left printed : Row ℕ) (taken : ℕ) →
        state_of machine.new left printed taken ≡
        run_over machine_step (done_by (Event.Write after at bytes.now))
        (state_of machine.old left printed taken)) }
{
    match machine.poke(at, bytes) {
        Ok(()) => Ok(Reply::Written),
        Err(WriteFault::Refused) => Ok(Reply::Refused),
        Err(WriteFault::NoMemory) => Err(NoMemory),
    }
}

/// Reads or writes, and answers the event.
fn answer(alloc: Global, machine: &mut Machine, event: &Event) -> Result<Reply, NoMemory>
    requires some { 1 ≤ size_of event.now }
    requires few { size_of event.now ≤ 4096 }
    ensures reply { IfOk result (λ r. (left printed : Row ℕ) (taken : ℕ) →
        r ≡ reply_in event.now (state_of machine.old left printed taken)) }
    ensures done { OnOk result ((left printed : Row ℕ) (taken : ℕ) →
        state_of machine.new left printed taken ≡
        run_over machine_step (done_by event.now) (state_of machine.old left printed taken)) }
{
    match event {
        Event::Read { at, len, .. } => reply::<MOST_READ>(alloc, machine, *at, *len),
        Event::Write { after, at, bytes } => write(machine, *after, *at, bytes.as_slice()),
    }
}

/// Takes a number of steps.
fn advance<I: Source>(
    machine: &mut Machine,
    input: &mut I,
    sink: &mut CountSink,
    steps: u64,
) -> Result<(), RunFault>
    ensures did { OnOk result (Took steps machine.old machine.new
        (streams (I.told input.old).left None (Some sink.old.count))
        (streams (I.told input.new).left None (Some sink.new.count))) }
    ensures halted { IfErr result (λ e. (xs : Row ℕ) → (I.told input.old).left ≡ Some xs →
        Halted (λ (k : ℕ). iter machine_step k (state_of machine.old xs [] 0)) steps
        (I.told input.new).left e) }
    ensures charged { InputCharged (I.told input.old).faults (I.told input.new).faults result }
{
    match machine.run(input, sink, steps) {
        Ok(_) => Ok(()),
        Err(fault) => Err(fault),
    }
}

/// The replies to all events, in order.
fn replies<I: Source>(
    alloc: Global,
    machine: &mut Machine,
    input: &mut I,
    sink: &mut CountSink,
    events: &[Event],
) -> Result<List<Reply>, RunFault>
    requires { are_in_order 0 events.now ≡ true }
    ensures suited { IfOk result (λ rs. are_suited events.now rs ≡ true) }
    ensures did { OnOk result (Acted (acts_to (last_after 0 events.now) events.now)
        machine.old machine.new
        (streams (I.told input.old).left None (Some sink.old.count))
        (streams (I.told input.new).left None (Some sink.new.count))) }
    ensures replies { IfOk result (λ rs. (xs : Row ℕ) → (I.told input.old).left ≡ Some xs →
        let run = λ (acts : Row Act). run_over machine_step acts (state_of machine.old xs [] 0) in
        rs ≡ replies_of run [] events.now) }
    ensures halted { IfErr result (λ e. (xs : Row ℕ) → (I.told input.old).left ≡ Some xs →
        let start = state_of machine.old xs [] 0 in
        Halted (λ (k : ℕ). run_over machine_step (acts_to k events.now) start)
        (last_after 0 events.now) (I.told input.new).left e) }
    ensures charged { InputCharged (I.told input.old).faults (I.told input.new).faults result }
{
    let mut all = List::new(alloc);
    let mut done = 0;
    for event in events {
        match advance(machine, input, sink, event.after() - done) {
            Ok(()) => {}
            Err(fault) => return Err(fault),
        }
        match answer(alloc, machine, event) {
            Ok(reply) => match all.add(reply) {
                Ok(()) => {}
                Err(_) => return Err(RunFault::NoMemory),
            },
            Err(_) => return Err(RunFault::NoMemory),
        }
        done = event.after();
    }
    Ok(all)
}

/// Runs an image over the input, with nowhere to print to, and answers the events of a script.
///
/// `Input` comes only where the source has failed, at an instruction that takes a byte; the input has
/// then lost what was taken before. `Output` never comes.
pub fn watch<I: Source>(
    alloc: Global,
    image: &Image,
    script: &Script,
    input: &mut I,
) -> Result<Report, RunFault>
    ensures reads { IfOk result (λ report. report.events ≡ script.now.events) }
    ensures answers { WatchedOf image.now script.now.events (I.told input.old).left
        (I.told input.new).left result }
    ensures charged { InputCharged (I.told input.old).faults (I.told input.new).faults result }
{
    let mut machine = match Machine::start(alloc, image) {
        Ok(machine) => machine,
        Err(_) => return Err(RunFault::NoMemory),
    };
    let events = match copy_list(alloc, script.events()) {
        Ok(events) => events,
        Err(_) => return Err(RunFault::NoMemory),
    };
    let mut sink = CountSink::new();
    match replies(alloc, &mut machine, input, &mut sink, script.events()) {
        Ok(replies) => Ok(Report {
            events,
            replies,
            outcome: machine.outcome(),
            printed: sink.count(),
        }),
        Err(fault) => Err(fault),
    }
}
