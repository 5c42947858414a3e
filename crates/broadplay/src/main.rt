//! Plays text scenes of boxes through a broad phase, from standard input to standard output, makes such scenes to compare
//! structures, machines and versions by, and writes scenes as scenes of version 2.
#![tactic(auto)]

use frame_player::Status;
pub use job_runs::{Job, Structure, Task, broadplay, read_words};
pub use made_scene::drill_scene;
use pair_report::put_refused;
use play_io::{FileSink, FileSource};
use std::env;
use std::process::ExitCode;
use std::rt::Env;

const USAGE: &str =
    "usage: broadplay upgrade, or play or drill SEED BOXES FRAMES, then --with plain, sap, tree or grid, --workers N, --exchanges";

fn main(rt: HostRuntime) -> ExitCode {
    let status = match words_of(&rt) {
        Ok(words) => {
            let mut source = FileSource::new(rt.stdin());
            let mut sink = FileSink::new(rt.stdout());
            let status = broadplay(&rt, rt.alloc(), &words, &mut source, &mut sink);
            tell_refused(&rt, &words, status);
            status
        }
        Err(status) => status,
    };
    tell(&rt, status);
    ExitCode::from(exit_code(status))
}

// The command line without the program's name.
fn words_of(rt: &(impl Env + AllocGlobal)) -> Result<Vec<String>, Status> {
    let Ok(args) = env::args(rt) else {
        return Err(Status::Usage);
    };
    let mut words = Vec::new(rt.alloc());
    for word in args.skip(1) {
        if words.push(word).is_err() {
            return Err(Status::NoMemory);
        }
    }
    Ok(words)
}

// Says on standard error why nothing, or not all, was done. A refused play says so in its report's last line.
fn tell(rt: &impl Eprint, status: Status) {
    let text = match status {
        Status::Done | Status::Refused { .. } => return,
        Status::Usage => USAGE,
        Status::ReadFault => "broadplay: read fault",
        Status::WriteFault => "broadplay: write fault",
        Status::NoMemory => "broadplay: out of memory",
    };
    // There is nowhere left to say that this failed.
    let _ = eprintln!(rt; "{text}");
}

// Says on standard error which line of a scene couldn't be upgraded, as the last line of a report has it. What is written is a scene,
// and has no such line.
fn tell_refused(rt: &(impl Eprint + AllocGlobal), words: &[String], status: Status) {
    let Status::Refused { line, cause } = status else {
        return;
    };
    if !is_upgrade(words) {
        return;
    }
    let mut text = Vec::new(rt.alloc());
    if put_refused(line, cause, &mut text).is_ok() {
        if let Ok(text) = str::from_utf8(&text) {
            let _ = eprint!(rt; "{text}");
        }
    }
}

// Whether a command line that has a meaning is that of an upgrade.
fn is_upgrade(words: &[String]) -> bool {
    match words.first() {
        Some(word) => word.as_str() == "upgrade",
        None => false,
    }
}

fn exit_code(status: Status) -> u8 {
    match status {
        Status::Done => 0,
        Status::Refused { .. } => 1,
        Status::Usage => 2,
        Status::ReadFault => 3,
        Status::WriteFault => 4,
        Status::NoMemory => 5,
    }
}
