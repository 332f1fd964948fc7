//! The program `repack`, over the files and the standard output of the system.
#![tactic(auto)]

use auction_cmd::auction::auction_main;
use commands::status::NO_MEMORY;
use outside_io::real::{RealFolder, RealSink};
use outside_io::sink::Sink;
use solver_gate::gate::EmptyGate;
use std::alloc::AllocError as NoMemory;
use std::env::Env;
use std::process::ExitCode;
use std::{env, io};

fn main(rt: HostRuntime) -> ExitCode {
    let mut out = RealSink::new(&rt);
    let Ok(words) = words_of(&rt) else {
        let _ = out.write(b"out of memory\n");
        return ExitCode::from(NO_MEMORY);
    };
    let mut folder = RealFolder::new(&rt, rt.alloc());
    let finish = auction_main(&rt, rt.alloc(), &words, &mut folder, &mut out, &EmptyGate);
    ExitCode::from(finish.status)
}

// The words of the command line. Where one of them isn't UTF-8 there are none, which is no command.
fn words_of<R: Env + AllocGlobal>(rt: &R) -> Result<Vec<String>, NoMemory> {
    match env::args(rt) {
        Ok(words) => words.collect(rt.alloc()),
        Err(error) if error.kind() == io::ErrorKind::OutOfMemory => Err(NoMemory),
        Err(_) => Ok(Vec::new(rt.alloc())),
    }
}
