//! The caster's program: it runs the command that its words are over standard input, standard
//! output, the file system and the sockets of std. Its status says what came of it.
#![tactic(auto)]

mod shipped;

use caster_net::{Bells, FileStore, Halt, InputLodge, ReaderSource, TcpStreet, WriterSink};
use caster_top::refuse_for_memory;
use shipped::caster_over;
use std::alloc::AllocError;
use std::env;
use std::fs::File;
use std::io::ErrorKind;
use std::process::ExitCode;

// The words after the program's name. Where one of them is no text, no words are given: they are
// then of no form.
fn words(rt: &HostRuntime) -> Result<Vec<String>, AllocError> {
    let mut words = Vec::new(rt.alloc());
    match env::args(rt) {
        Ok(all) => {
            for word in all.skip(1) {
                words.push(word)?;
            }
            Ok(words)
        }
        Err(fault) if fault.kind() == ErrorKind::OutOfMemory => Err(AllocError),
        Err(_) => Ok(words),
    }
}

// Files that take the places of standard input, output and error where the program was started
// without them. Else a socket could be given such a place, and be written the lines of others.
fn stand_ins(rt: &HostRuntime) -> [Option<File>; 3] {
    [
        File::open(rt, "/dev/null").ok(),
        File::open(rt, "/dev/null").ok(),
        File::open(rt, "/dev/null").ok(),
    ]
}

fn main(rt: HostRuntime) -> ExitCode {
    let _stand_ins = stand_ins(&rt);
    let mut store = FileStore::new(&rt);
    let mut input = ReaderSource::new(rt.stdin());
    let mut out = WriterSink::new(rt.stdout());
    let bells = Bells::new(&rt);
    let halt = Halt::new(&rt);
    let mut street = TcpStreet::new(&rt, &bells, &halt);
    let mut lodge = InputLodge::new(&rt, &halt);
    let status = match words(&rt) {
        Ok(words) => caster_over(
            &rt,
            rt.alloc(),
            &words,
            &mut store,
            &mut input,
            &mut out,
            &mut street,
            &mut lodge,
        ),
        Err(AllocError) => refuse_for_memory(&mut out),
    };
    ExitCode::from(status)
}
