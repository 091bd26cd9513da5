//! Commands over ports in memory, of which one fails at one of its calls. What was written before is a beginning of the whole,
//! and the exit status and the line say whether a read or a write failed. Besides, `live` and `race` are played over ports that
//! don't fail.
use crate::programs::{LISTED, MEETING, MEETING_RUN, TRACE};
use byte_ports::{MemorySink, MemorySource};
use std::alloc::{AllocError, Global};
use std::test::Fail;
use workbench::{asm_cmd, both_cmd, compare_cmd, debug_cmd, list_cmd, live_cmd, race_cmd, run_cmd};

/// How many calls of a port are made to fail in turn: more than any case makes.
const CALLS: u32 = 60;

/// The image of one thread whose one row is `halt`.
const HALT: &[u8] = b"PBW1\0\0\0\0\x01\0\x01\0\0\0\0\0\0\0\0\0\0\0\0\0";

/// The command that is called.
#[derive(Clone, Copy)]
enum Call {
    Both,
    Asm,
    List,
    Run,
    Debug,
    Compare,
}

/// A command, what its inputs hold, and what it writes if no port fails.
struct Case {
    call: Call,
    file: &'static str,
    other: &'static [u8],
    whole: &'static [u8],
}

static CASES: [Case; 6] = [
    Case {
        call: Call::Both,
        file: MEETING_RUN,
        other: b"",
        whole: TRACE,
    },
    Case {
        call: Call::Asm,
        file: ".thread a main\nmain: halt\n",
        other: b"",
        whole: HALT,
    },
    Case {
        call: Call::List,
        file: MEETING,
        other: b"",
        whole: LISTED,
    },
    Case {
        call: Call::Run,
        file: MEETING,
        other: b"t0 t1 t0*3 t1*2\n",
        whole: TRACE,
    },
    Case {
        call: Call::Debug,
        file: MEETING,
        other: b"k 1\ng t0 t1 t0 t0\nb\nb\nb\ns t1\nq\n",
        whole: b"break 1\nat 2\nback 1\nback 0\nno history\n1 t1 0 wait\n",
    },
    Case {
        call: Call::Compare,
        file: MEETING,
        other: TRACE,
        whole: b"same\n",
    },
];

/// Which port fails.
#[derive(Clone, Copy, PartialEq, Eq)]
enum Port {
    File,
    Other,
    Output,
}

/// The result of a call.
#[derive(Drop)]
struct Came {
    status: u8,
    output: MemorySink,
    errors: MemorySink,
}

/// Returns the call at which this port fails: `call` if it is the failing one, or else `None`.
fn fails(port: Port, failing: Port, call: u32) -> Option<u32> {
    if port == failing { Some(call) } else { None }
}

/// Makes the call of a case. The port `failing` fails at its own call `call`, counted from 0. The port for errors never fails.
fn came_of(alloc: Global, case: &Case, failing: Port, call: u32) -> Result<Came, AllocError> {
    let mut file = MemorySource::new(case.file.as_bytes(), fails(Port::File, failing, call));
    let mut other = MemorySource::new(case.other, fails(Port::Other, failing, call));
    let mut output = MemorySink::new(alloc, 1000, fails(Port::Output, failing, call))?;
    let mut errors = MemorySink::new(alloc, 100, None)?;
    let status = match case.call {
        Call::Both => both_cmd(alloc, &mut file, &mut output, &mut errors),
        Call::Asm => asm_cmd(alloc, &mut file, &mut output, &mut errors),
        Call::List => list_cmd(alloc, &mut file, &mut output, &mut errors),
        Call::Run => run_cmd(alloc, &mut file, &mut other, &mut output, &mut errors),
        Call::Debug => debug_cmd(alloc, &mut file, &mut other, &mut output, &mut errors),
        Call::Compare => compare_cmd(alloc, &mut file, &mut other, &mut output, &mut errors),
    };
    Ok(Came {
        status,
        output,
        errors,
    })
}

/// Returns whether a command wrote all of its output, and has the exit status 0 and no line of an error.
fn is_whole(case: &Case, came: &Came) -> bool {
    came.status == 0 && came.output.bytes() == case.whole && came.errors.bytes().is_empty()
}

/// Returns whether a command has status 5 and the line `write`, or `read` if an input failed, after a beginning of its output.
fn is_cut(case: &Case, came: &Came, failing: Port) -> bool {
    let line: &[u8] = if failing == Port::Output {
        b"write\n"
    } else {
        b"read\n"
    };
    came.status == 5 && case.whole.starts_with(came.output.bytes()) && came.errors.bytes() == line
}

/// Returns whether the command of a case reports that the port `failing` failed, or else writes everything. A command
/// calls each port that it uses at least once, so it has to report a failure of call 0. A later call may never be made.
fn is_right(alloc: Global, case: &Case, failing: Port, call: u32) -> bool {
    let Ok(came) = came_of(alloc, case, failing, call) else {
        return false;
    };
    let is_used = failing != Port::Other || !case.other.is_empty();
    let may_be_whole = call > 0 || !is_used;
    is_cut(case, &came, failing) || (may_be_whole && is_whole(case, &came))
}

/// Checks that each command reports any call of any port that fails, after a beginning of its output.
#[test]
fn a_port_that_fails_at_any_call_is_reported(rt: HostRuntime) {
    for case in &CASES {
        for call in 0..CALLS {
            for failing in &[Port::File, Port::Other, Port::Output] {
                assert!(rt; is_right(rt.alloc(), case, *failing, call), "{call}");
            }
        }
    }
}

/// Checks `live` and `race`. A real thread that waits for a second party is played until it is stuck, long before its limit of
/// 1000 steps. After a race of two threads that meet 1000 times, the phaser is in phase 1000.
#[test]
fn the_commands_of_threads_are_played(rt: HostRuntime) -> Result<(), Fail> {
    let text = b".phaser p 2\n.thread a main\nmain: paaa r0 p\nhalt\n";
    let trace: &[u8] =
        b"1 t0 0 wait\nstate 1 1 stuck\nt0 0 waits 0 regs 0 0 0 0 0 0 0 0 stack out\np0 0 2 1 1\n";
    let mut file = MemorySource::new(text, None);
    let mut output = MemorySink::new(rt.alloc(), 1000, None)?;
    let mut errors = MemorySink::new(rt.alloc(), 100, None)?;
    let status = live_cmd(&rt, rt.alloc(), 1000, &mut file, &mut output, &mut errors);
    assert!(rt; status == 0 && output.bytes() == trace);
    let mut line = MemorySink::new(rt.alloc(), 100, None)?;
    let status = race_cmd(&rt, rt.alloc(), 2, 1000, &mut line, &mut errors);
    assert!(rt; status == 0 && line.bytes() == b"phase 1000 parties 2 unarrived 2\n".as_slice());
    Ok(())
}
