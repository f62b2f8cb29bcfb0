//! The text of totals. What is expected is written by hand from the form of its lines.

ghost use Rattle.std.specs.Prelude.{◌≡◌, ◌≤◌, IfOk, length};

use cast_config::{Config, read_config};
use caster_accounts::Sum;
use session_core::{Closed, MountTotal, MountTotals, Sums};
use session_text::closed_text;
use std::alloc::Global;
use std::test::Fail;

const FILE: &[u8] = b"version = 1
[[mount]]
name = 'ALPHA'
password = 'sesame'
ring = 4
latitude = 481173000
longitude = 115166666
[[mount]]
name = 'BRAVO'
password = 'sesame'
ring = 4
latitude = 482000000
longitude = 115166666
[[group]]
name = 'field'
mounts = ['ALPHA', 'BRAVO']
types = 'all'
[[account]]
user = 'rover1'
password = 'secret'
group = 'field'
cap = 1
";

const TEXT: &[u8] = b"mount ALPHA 3 2
mount BRAVO 18446744073709551615 1
account rover1 7 1 0
total 8 1 340282366920938463463374607431768211455
";

/// The configuration of one mountpoint and no account, whose ring keeps so many frames.
fn bare_config(alloc: Global, capacity: u32) -> Result<Config, Fail>
    requires { (1 ≤ capacity) × (capacity ≤ 4096) }
{
    Ok(Config::bare(alloc, capacity)?)
}

/// How many mountpoints and accounts a configuration has.
fn sizes(config: &Config) -> (usize, usize)
    ensures mounts { result.0 ≡ length config.now.mount }
    ensures accounts { result.1 ≡ length config.now.account }
{
    (
        config.mount.as_slice().len(),
        config.account.as_slice().len(),
    )
}

/// What a caster without accounts came to.
fn smallest(alloc: Global) -> Result<Closed, Fail>
    ensures mounts { IfOk result (λ closed. length closed.mounts ≡ 1) }
    ensures accounts { IfOk result (λ closed. length closed.accounts ≡ 0) }
{
    let total = MountTotal {
        published: 2,
        claims: 1,
    };
    let mut mounts = Vec::new(alloc);
    mounts.push(total)?;
    Ok(Closed {
        mounts: MountTotals::new(mounts),
        accounts: Sums::new(Vec::new(alloc)),
        total: Sum {
            sessions: 1,
            sent: 2,
            overrun: 0,
        },
    })
}

/// The text of the smallest caster's totals, behind a letter.
fn smallest_text(alloc: Global) -> Result<Vec<u8>, Fail> {
    let config = bare_config(alloc, 4)?;
    let closed = smallest(alloc)?;
    if sizes(&config) != (1, 0) {
        return Err(Fail::from("another configuration"));
    }
    let mut text = Vec::from_slice(alloc, b"x")?;
    closed_text(&config, &closed, &mut text)?;
    Ok(text)
}

#[test]
fn the_smallest_caster_has_two_lines(rt: HostRuntime) -> Result<(), Fail> {
    let text = smallest_text(rt.alloc())?;
    assert_eq!(rt; text.as_slice(), b"xmount A 2 1\ntotal 1 2 0\n".as_slice());
    Ok(())
}

/// What the two mountpoints of the file came to.
fn mounts(alloc: Global) -> Result<MountTotals, Fail>
    ensures { IfOk result (λ mounts. length mounts ≡ 2) }
{
    let alpha = MountTotal {
        published: 3,
        claims: 2,
    };
    let bravo = MountTotal {
        published: u64::MAX,
        claims: 1,
    };
    let mut mounts = Vec::new(alloc);
    mounts.push(alpha)?;
    mounts.push(bravo)?;
    Ok(MountTotals::new(mounts))
}

/// What the account of the file came to.
fn accounts(alloc: Global) -> Result<Sums, Fail>
    ensures { IfOk result (λ accounts. length accounts ≡ 1) }
{
    let sum = Sum {
        sessions: 7,
        sent: 1,
        overrun: 0,
    };
    let mut sums = Vec::new(alloc);
    sums.push(sum)?;
    Ok(Sums::new(sums))
}

/// What a caster of the file came to.
fn largest(alloc: Global) -> Result<Closed, Fail>
    ensures mounts { IfOk result (λ closed. length closed.mounts ≡ 2) }
    ensures accounts { IfOk result (λ closed. length closed.accounts ≡ 1) }
{
    Ok(Closed {
        mounts: mounts(alloc)?,
        accounts: accounts(alloc)?,
        total: Sum {
            sessions: 8,
            sent: 1,
            overrun: u128::MAX,
        },
    })
}

/// The text of these totals over this configuration, which has as many mountpoints and accounts.
fn text_over(alloc: Global, config: &Config, closed: &Closed) -> Result<Vec<u8>, Fail>
    requires mounts { length closed.now.mounts ≡ length config.now.mount }
    requires accounts { length closed.now.accounts ≡ length config.now.account }
{
    let mut text = Vec::new(alloc);
    closed_text(config, closed, &mut text)?;
    Ok(text)
}

/// The text of the totals of a caster of the file.
fn largest_text(alloc: Global) -> Result<Vec<u8>, Fail> {
    let config = read_config(alloc, FILE)?;
    if sizes(&config) != (2, 1) {
        return Err(Fail::from("another configuration"));
    }
    text_over(alloc, &config, &largest(alloc)?)
}

#[test]
fn each_mountpoint_and_each_account_has_its_line(rt: HostRuntime) -> Result<(), Fail> {
    assert_eq!(rt; largest_text(rt.alloc())?.as_slice(), TEXT);
    Ok(())
}

const NAMES: &[u8] = b"ABCDEFGHIJKLMNOPQRSTUVWXYZ";

// Each name, with these bytes before it and these behind it.
fn push_each(before: &[u8], behind: &[u8], out: &mut Vec<u8>) -> Result<(), Fail> {
    for name in NAMES {
        out.extend_from_slice(before)?;
        out.push(*name)?;
        out.extend_from_slice(behind)?;
    }
    Ok(())
}

// The file of a configuration with a mountpoint and an account of each name.
fn push_file(out: &mut Vec<u8>) -> Result<(), Fail> {
    let mount = b"'\npassword = ''\nring = 4\nlatitude = 0\nlongitude = 0\n";
    push_each(b"[[mount]]\nname = '", mount, out)?;
    out.extend_from_slice(b"[[group]]\nname = 'field'\nmounts = ['A']\ntypes = 'all'\n")?;
    let account = b"'\npassword = 'secret'\ngroup = 'field'\ncap = 1\n";
    push_each(b"[[account]]\nuser = '", account, out)
}

fn many(alloc: Global) -> Result<Config, Fail> {
    let mut file = Vec::from_slice(alloc, b"version = 1\n")?;
    push_file(&mut file)?;
    Ok(read_config(alloc, &file)?)
}

// What each of 26 mountpoints and as many accounts came to.
fn many_closed(alloc: Global) -> Result<Closed, Fail>
    ensures mounts { IfOk result (λ closed. length closed.mounts ≡ 26) }
    ensures accounts { IfOk result (λ closed. length closed.accounts ≡ 26) }
{
    let total = MountTotal {
        published: 3,
        claims: 2,
    };
    let sum = Sum {
        sessions: 7,
        sent: 1,
        overrun: 5,
    };
    Ok(Closed {
        mounts: MountTotals::new(vec![in alloc; total; 26]?),
        accounts: Sums::new(vec![in alloc; sum; 26]?),
        total: sum,
    })
}

// The text of their totals.
fn many_text(alloc: Global) -> Result<Vec<u8>, Fail> {
    let config = many(alloc)?;
    if sizes(&config) != (26, 26) {
        return Err(Fail::from("another configuration"));
    }
    text_over(alloc, &config, &many_closed(alloc)?)
}

#[test]
fn many_mountpoints_and_accounts_have_their_lines(rt: HostRuntime) -> Result<(), Fail> {
    let mut wanted = Vec::new(rt.alloc());
    push_each(b"mount ", b" 3 2\n", &mut wanted)?;
    push_each(b"account ", b" 7 1 5\n", &mut wanted)?;
    wanted.extend_from_slice(b"total 7 1 5\n")?;
    assert_eq!(rt; many_text(rt.alloc())?.as_slice(), wanted.as_slice());
    Ok(())
}
