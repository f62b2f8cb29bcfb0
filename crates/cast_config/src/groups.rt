//! What a group lists.

ghost use Rattle.std.specs.Prelude.{◌≡◌, Some};

use crate::config::Group;

impl Group {
    ghost use Rattle.cast_config.specs.Served.{lists};

    /// Whether the group lists the mountpoint or near mountpoint of this number: the numbers of
    /// near mountpoints go on after those of the mountpoints.
    pub fn lists(&self, n: u32) -> bool
        ensures { result ≡ lists (Some self.now) n }
    {
        for number in self.mounts.as_slice() {
            if *number == n {
                return true;
            }
        }
        false
    }
}
