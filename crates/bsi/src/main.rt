//! `main` alone: it hands its arguments and the standard streams to `bsi_shell`, and ends with the status that this
//! returns.
#![tactic(auto)]

mod progress;

use bsi_shell::{ScriptFault, run_words, write_fault};
use progress::Progress;
use std::io::IsTerminal;
use std::process::ExitCode;
use std::rt::Env;
use std::{env, io};

fn main(rt: HostRuntime) -> ExitCode {
    let (mut output, mut stderr) = (rt.stdout(), rt.stderr());
    match read_words(&rt) {
        Ok(words) => {
            let progress = Progress::new(&rt, stderr.is_terminal());
            let ended = run_words(&rt, words, rt.stdin(), &mut output, &mut stderr, &progress);
            ExitCode::from(ended.status)
        }
        Err(_) => {
            let _ = write_fault(ScriptFault::NoMemory.text(), &mut stderr);
            ExitCode::from(1)
        }
    }
}

/// Reads the words behind the program's name. If one of them is not text, it returns no words, which are not a command.
fn read_words<R: Env + AllocGlobal>(rt: &R) -> io::Result<Vec<String>> {
    match env::args(rt) {
        Ok(words) => Ok(words.skip(1).collect(rt.alloc())?),
        Err(error) if error.kind() == io::ErrorKind::InvalidData => Ok(Vec::new(rt.alloc())),
        Err(error) => Err(error),
    }
}
