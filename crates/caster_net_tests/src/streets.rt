//! A street over sockets, for as long as a test has to do with it.

use caster_net::{Bells, Halt, TcpStreet};
use std::test::Fail;

/// What this gives that is done with a street.
pub(crate) fn with_street<T: Drop, F: FnOnce(&mut TcpStreet<'_>) -> Result<T, Fail>>(
    rt: &HostRuntime,
    run: F,
) -> Result<T, Fail>
    requires { F.IsAlwaysCallable run }
{
    let bells = Bells::new(rt);
    let halt = Halt::new(rt);
    let mut street = TcpStreet::new(rt, &bells, &halt);
    run(&mut street)
}
