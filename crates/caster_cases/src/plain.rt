//! A call whose outcome is told without memory, for `tests/memory/run`, which refuses its
//! allocations one after the other and reads what is printed here.
use crate::given::{NOTHING, given_of, words_of};
use crate::parts::Case;
use crate::status_of;
use std::alloc::Global;
use std::io;
use std::io::Write;
use std::sync::Wait;
use std::thread::Threads;

/// Runs the first call of the case. The first line says that all is made that the caster is called
/// with. The second one has the status, how often the street failed, and how many of its links did;
/// the text that was written follows.
pub fn tell<R: Print + Threads + Wait + Sync>(
    rt: &R,
    alloc: Global,
    case: &Case<'_>,
) -> io::Result<()> {
    let words = words_of(alloc, case.setting("words").unwrap_or(""))?;
    let mut given = given_of(alloc, case, &NOTHING)?;
    println!(rt; "made")?;
    let status = status_of(rt, alloc, &words, &mut given);
    let (faults, links) = (given.street.faults(), given.street.link_faults());
    println!(rt; "status {status}, faults {faults}, links {links}")?;
    io::writer(rt).write_all(given.out.bytes())
}
