ghost use Rattle.std.specs.Prelude.{◌≡◌, ◌<◌, ◌≤◌, length, vec_len, slice_get, Some, IfOk};

use crate::selection::Filter;
use std::alloc::{AllocError, Global};
use std::marker::Model;

/// The filters that a ring offers, 1 to 64. A rover names one by its index.
#[derive(Debug, Drop)]
pub struct Filters {
    list: Vec<Filter>,
}

impl Model for Filters {
    ghost use Rattle.std.specs.Prelude.{List, ◌≤◌, length};
    ghost use Rattle.type_filter.specs.Permitted.{FilterValue};

    ghost Value = { List FilterValue };

    ghost view = { λ filters. filters.list.items };

    ghost invariant = { λ filters. (1 ≤ length filters.list.items)
        × (length filters.list.items ≤ 64) };
}

impl Filters {
    /// These filters, 1 to 64.
    pub fn new(list: Vec<Filter>) -> Filters
        requires some { 1 ≤ vec_len list }
        requires few { vec_len list ≤ 64 }
        ensures { result ≡ list.items }
    {
        Filters { list }
    }

    /// How many filters there are, 1 to 64.
    pub fn len(&self) -> u32
        ensures value { result ≡ length self.now }
        ensures some { 1 ≤ result }
        ensures few { result ≤ 64 }
    {
        self.list.len() as u32
    }

    /// The filter at this index.
    pub fn get(&self, g: u32) -> &Filter
        requires { g < length self.now }
        ensures { slice_get self.now g ≡ Some result.now }
    {
        &self.list[g as usize]
    }

    /// A copy of the filters.
    pub fn copy(&self, alloc: Global) -> Result<Filters, AllocError>
        ensures { IfOk result (λ copy. copy ≡ self.now) }
    {
        let mut list = Vec::new(alloc);
        for filter in &self.list {
            list.push(filter.copy(alloc)?)?;
        }
        Ok(Filters { list })
    }
}

impl PartialEq for Filters {
    ghost use Rattle.std.specs.Cmp.{partial_equiv_from_equiv};
    ghost use Rattle.std.specs.Cmp.Lexicographic.{pointwise, lists_per};
    ghost use Rattle.type_filter.specs.Codes.{same_filter, same_filter_laws};

    ghost eq = { pointwise same_filter };

    ghost laws = { lists_per (partial_equiv_from_equiv same_filter_laws) };

    fn eq(&self, other: &Filters) -> bool {
        self.list.as_slice() == other.list.as_slice()
    }
}

impl Eq for Filters {
    ghost use Rattle.std.specs.Cmp.Lexicographic.{lists_equiv};
    ghost use Rattle.type_filter.specs.Codes.{same_filter_laws};

    ghost laws = { lists_equiv same_filter_laws };
}
