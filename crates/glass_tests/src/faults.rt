//! A run that goes on from a checkpoint and is saved, at which one read, one put or the place fails once, and how
//! often files are fetched.

use crate::called::{Called, MOST, NEVER, RUN, call, holds, store};
use glass_edges::OpenGate;
use std::sync::Wait;
use std::test::Fail;
use std::thread::Threads;

const REPORT: &str = "glass 1 size=4 slots=2 samples=1 rule=heat from=1 to=2
row,1,0,0,192,192,64,1,1
row,1,0,1,-192,-192,64,0,0
end,2
spin,0,0,0,5a5aa5a55a5aa5a5
spin,0,0,1,5a5aa5a55a5aa5a5
spin,0,1,0,ffffffffffffffff
spin,0,1,1,ffffffffffffffff
";

// Goes on from the checkpoint at epoch 1, behind the four calls of the store that made it: the store fails at one
// call, and each output at a put.
fn go_on<R: AllocGlobal + Threads + Wait + Sync>(
    rt: &R,
    failing: u64,
    put: u64,
    err_put: u64,
) -> Result<Called, Fail> {
    let mut shelf = store(rt, RUN, failing)?;
    let first = "run run.toml --until 1 --save c";
    call(rt, first, &mut shelf, &OpenGate, NEVER, NEVER)?;
    let second = "run run.toml --from c --save d";
    call(rt, second, &mut shelf, &OpenGate, put, err_put)
}

// Whether a call ended with this status, this text and this line.
fn ended(called: &Called, status: u8, out: &str, line: &str) -> bool {
    called.status == status
        && called.out.taken() == out.as_bytes()
        && called.err.taken() == line.as_bytes()
}

// Fails where a call of the store that fails does not end the run so, with its line told, or with none told where
// the error output fails at its first put.
fn store_fails<R: AllocGlobal + Threads + Wait + Sync>(
    rt: &R,
    failing: u64,
    status: u8,
    out: &str,
    line: &str,
) -> Result<(), Fail> {
    let told = go_on(rt, failing, NEVER, NEVER)?;
    holds(line, ended(&told, status, out, line))?;
    let untold = go_on(rt, failing, NEVER, 0)?;
    holds(line, ended(&untold, status, out, ""))
}

// Whether the run is done where the output fails at a put, which is past the last one then. Fails where a put that
// failed is not told, or more is printed than a prefix of the report.
fn is_done<R: AllocGlobal + Threads + Wait + Sync>(rt: &R, put: u64) -> Result<bool, Fail> {
    let called = go_on(rt, NEVER, put, NEVER)?;
    if ended(&called, 0, REPORT, "") {
        return Ok(true);
    }
    holds("status 9", called.status == 9)?;
    let told = "glass: writing the report failed\n";
    holds("the line", called.err.taken() == told.as_bytes())?;
    let printed = called.out.taken();
    holds("a prefix", REPORT.as_bytes().starts_with(printed))?;
    Ok(false)
}

// Fails where one put that fails is not told, up to the first number that is past the last put.
fn puts_fail<R: AllocGlobal + Threads + Wait + Sync>(rt: &R) -> Result<(), Fail> {
    for put in 0..64u64 {
        if is_done(rt, put)? {
            return holds("each put", REPORT.len().div_ceil(MOST) as u64 <= put);
        }
    }
    holds("the last put", false)
}

#[test]
fn each_read_and_write_fails_once(rt: HostRuntime) -> Result<(), Fail> {
    store_fails(&rt, 4, 8, "", "glass: reading the run file failed\n")?;
    store_fails(&rt, 5, 8, "", "glass: reading the rule table failed\n")?;
    store_fails(&rt, 6, 8, "", "glass: reading the swap table failed\n")?;
    store_fails(&rt, 7, 8, "", "glass: reading the checkpoint failed\n")?;
    let told = "glass: placing the checkpoint failed\n";
    store_fails(&rt, 8, 10, REPORT, told)?;
    puts_fail(&rt)
}

// Fails where words over a store that fails at one call do not end with a status.
fn has_status<R: AllocGlobal + Threads + Wait + Sync>(
    rt: &R,
    line: &str,
    failing: u64,
    status: u8,
) -> Result<(), Fail> {
    let mut shelf = store(rt, RUN, failing)?;
    let called = call(rt, line, &mut shelf, &OpenGate, NEVER, NEVER)?;
    holds(line, called.status == status)
}

// The call that fails is the first that is not made.
#[test]
fn each_file_is_fetched_once(rt: HostRuntime) -> Result<(), Fail> {
    has_status(&rt, "check run.toml", 3, 0)?;
    has_status(&rt, "run run.toml", 3, 0)?;
    has_status(&rt, "plain 4 1 7 0 0 0 0 0 0 0", 0, 0)?;
    has_status(&rt, "potts 4 1 7 1 plus zero 0 0 0 0 0 0", 0, 0)?;
    has_status(&rt, "check", 0, 2)
}
