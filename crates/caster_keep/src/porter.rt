//! What the caller does that says how things stand.

ghost use Rattle.std.specs.Prelude.{◌≡◌};
ghost use Rattle.caster_keep.specs.Stations.{new_porter};

/// What the porter does: it waits at this console until nothing is wanted any more, and says how
/// things stand each time that this is wanted.
#[derive(Drop)]
pub struct Porter<C> {
    /// Its console.
    pub console: C,
}

impl<C> Porter<C> {
    /// At this console, nothing was said yet.
    pub fn new(console: C) -> Porter<C>
        ensures { result ≡ new_porter console }
    {
        Porter { console }
    }
}
