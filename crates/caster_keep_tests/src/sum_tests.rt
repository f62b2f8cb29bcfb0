//! The totals are the sums of the lines of links, whatever the links met.

use crate::fakes::{ROVER, TABLE, serve_both};
use std::str;
use std::test::Fail;
use test_support::FRAMES_AB;

/// Sessions, frames that were sent, and frames that were overrun.
type Sum = (u64, u64, u64);

/// The number that this word is.
fn number(word: Option<&str>) -> Result<u64, Fail> {
    let word = word.ok_or("a number is missing")?;
    Ok(word.parse::<u64>().or(Err("a number is none"))?)
}

/// The sum with what this line adds, where it is the last line of a rover's receipt: its words are
/// a number, `end`, the rover, what it was sent, and what was overrun.
fn with_line(sum: Sum, line: &str) -> Result<Sum, Fail> {
    let mut words = line.split(' ').skip(1);
    if words.next() != Some("end") {
        return Ok(sum);
    }
    let Some(who) = words.next() else {
        return Err("nobody is told".into());
    };
    if !who.starts_with("rover:") {
        return Ok(sum);
    }
    let sent = number(words.next())?;
    let overrun = number(words.next())?;
    Ok((
        sum.0.saturating_add(1),
        sum.1.saturating_add(sent),
        sum.2.saturating_add(overrun),
    ))
}

/// The sum of the receipts of all rovers in this text.
fn receipts_in(text: &str) -> Result<Sum, Fail> {
    let mut sum = (0, 0, 0);
    for line in text.lines() {
        sum = with_line(sum, line)?;
    }
    Ok(sum)
}

/// What the line of this text says that begins with this word and this one.
fn told_of(text: &str, first: &str) -> Result<Sum, Fail> {
    for line in text.lines() {
        if let Some(rest) = line.strip_prefix(first) {
            let mut words = rest.split(' ');
            return Ok((
                number(words.next())?,
                number(words.next())?,
                number(words.next())?,
            ));
        }
    }
    Err("no such line".into())
}

/// What a text says of its rovers: the sum of their receipts, that of their account, and that of
/// all accounts.
fn sums_in(text: &[u8]) -> Result<[Sum; 3], Fail> {
    let text = str::from_utf8(text).or(Err("the text is not UTF-8"))?;
    Ok([
        receipts_in(text)?,
        told_of(text, "account rover1 ")?,
        told_of(text, "total ")?,
    ])
}

// A relay publishes while three rovers come and go, one after the other, and one asks for the
// sourcetable. How many frames each was sent is not known.
#[test]
fn totals_are_the_sums_of_receipts(rt: HostRuntime) -> Result<(), Fail> {
    let rover: &[&[u8]] = &[ROVER, b"", b"", b""];
    let relay: &[&[u8]] = &[b"ICY 200 OK\r\n", FRAMES_AB, b"", FRAMES_AB, b"", FRAMES_AB];
    let worker: &[&[&[u8]]] = &[rover, &[TABLE], rover, rover];
    let ran = serve_both(&rt, rt.alloc(), worker, &[relay])?;
    let [receipts, account, total] = sums_in(ran.text())?;
    assert!(rt; receipts.0 == 3);
    assert!(rt; receipts == account);
    assert!(rt; receipts == total);
    Ok(())
}
