use std::collections::LinkedList;
use type_filter::Filter;

/// What no call on a ring changes. No value of it is ever made: clauses alone speak of it.
#[derive(Debug, Drop)]
pub struct RingShape {
    /// How many frames the ring keeps at most, 1 to 4,096.
    pub capacity: u32,
    /// The filters that a reader may name, each by its place.
    pub filters: LinkedList<Filter>,
}
