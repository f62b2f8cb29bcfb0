//! Reads a byte stream from standard input, cuts it into frames of RTCM 10403.3's transport layer,
//! and ends with the line `frames N junk J read R`: how many frames were given, how many bytes were
//! junk, and how many frames a rover read.
//!
//! The one argument says how: `push` takes the bytes one at a time and `feed` in blocks, and both
//! let each frame go; `ring`, the default, feeds blocks, publishes each frame at a mountpoint that
//! keeps 256 and has one rover read it.
#![tactic(auto)]

ghost use Rattle.std.specs.Prelude.{◌<◌, length};

mod counting;
mod mountpoint;
mod taking;

use counting::{Counts, Way, count_stream};
use mountpoint::Mountpoint;
use std::alloc::Global;
use std::env;
use std::io::{self, Error, Read};
use taking::Nobody;

// What to do with the stream.
enum Job {
    Cut(Way),
    Serve,
}

// What the first argument asks for.
fn read_job(rt: &HostRuntime) -> io::Result<Job> {
    for word in env::args(rt)?.skip(1) {
        match word.as_str() {
            "push" => return Ok(Job::Cut(Way::Push)),
            "feed" => return Ok(Job::Cut(Way::Feed)),
            "ring" => return Ok(Job::Serve),
            _ => return Err(Error::other("bench_cut push | feed | ring")),
        }
    }
    Ok(Job::Serve)
}

// Cuts the stream, and lets its frames go.
fn cut<R: Read>(input: &mut R, piece: &mut [u8], way: Way) -> io::Result<(Counts, u64)>
    requires { 0 < length piece.old }
{
    let counts = count_stream(input, piece, way, &mut Nobody)?;
    Ok((counts, 0))
}

// Cuts the stream, publishes its frames, and has a rover read them.
fn serve<R: Read>(alloc: Global, input: &mut R, piece: &mut [u8]) -> io::Result<(Counts, u64)>
    requires { 0 < length piece.old }
{
    let mut mountpoint = Mountpoint::new(alloc)?;
    let counts = count_stream(input, piece, Way::Feed, &mut mountpoint)?;
    Ok((counts, mountpoint.finish()))
}

fn main(rt: HostRuntime) -> io::Result<()> {
    let mut piece = vec![in rt.alloc(); 0u8; 65536]?;
    let (counts, read) = match read_job(&rt)? {
        Job::Cut(way) => cut(&mut rt.reader(), piece.as_mut_slice(), way)?,
        Job::Serve => serve(rt.alloc(), &mut rt.reader(), piece.as_mut_slice())?,
    };
    println!(rt;
        "frames {} junk {} read {}",
        counts.frames, counts.junk, read
    )?;
    Ok(())
}
