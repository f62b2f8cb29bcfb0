//! Places of callers at the locks of a caster: they are left, and the locks are closed.
#![tactic(auto)]

mod closing;
mod known;
mod leaving;
mod pass_piles;
mod totals;

pub use closing::close;
pub use known::AllPlaces;
pub use leaving::leave;
pub use pass_piles::PassPiles;
pub use totals::Totals;
