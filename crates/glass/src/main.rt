//! The program `glass`: the command line, the standard streams and the exit status.
#![tactic(auto)]

use glass_edges::{FileShelf, OpenGate, StreamSink};
use glass_main::{glass, no_memory};
use std::process::ExitCode;
use std::{env, io};

// More bytes of the stack than a command takes; a run takes 0.6 million, by any number of workers.
const STACK: usize = 786432;

fn main(rt: HostRuntime) -> ExitCode {
    let mut out = StreamSink::of(rt.stdout());
    let mut err = StreamSink::of(rt.stderr());
    let words = match words(&rt) {
        Ok(words) => words,
        Err(error) if error.kind() == io::ErrorKind::OutOfMemory => {
            return ExitCode::from(no_memory(&mut err));
        }
        // Words that are not UTF-8 are no command, and neither are no words.
        Err(_) => Vec::new(rt.alloc()),
    };
    // The count can't be greater: it is asked for so that the stack is really touched.
    if touch_stack(words.as_slice()) > words.len() {
        return ExitCode::from(no_memory(&mut err));
    }
    let mut shelf = FileShelf::of(&rt);
    let status = glass(
        &rt,
        rt.alloc(),
        &words,
        &mut shelf,
        &mut out,
        &mut err,
        &OpenGate,
    );
    ExitCode::from(status)
}

// The words after the program's name.
fn words(rt: &HostRuntime) -> io::Result<Vec<String>> {
    let mut words = Vec::new(rt.alloc());
    for word in env::args(rt)?.skip(1) {
        words.push(word)?;
    }
    Ok(words)
}

// Touches the stack that a command will take, so that it doesn't grow within a run, where a limit on memory could only
// end in a signal; tells how many lengths the words have.
#[inline(never)]
fn touch_stack(words: &[String]) -> usize {
    let mut room = [0u8; STACK];
    for word in words {
        room[word.len() % STACK] = 1;
    }
    room.iter().filter(|&&byte| byte == 1).count()
}
