ghost use Rattle.std.specs.Prelude.{◌≡◌, IfOk, IfSome, IfNone, IsTrue, None, Some, position};
ghost use Rattle.std.specs.List.Sorted.{IsStrictlyIncreasing};
ghost use Rattle.type_filter.specs.Permitted.{All, Listed, is_listed, permits};
ghost use Rattle.type_filter.specs.Numbers.{IsNumberList, in_order, is_good_count, is_too_high};

use rtcm_frame::Frame;
use std::alloc::{AllocError, Global};
use std::marker::Model;
use thiserror::Error;

/// The highest message number (RTCM 10403.3, DF002 has twelve bits).
const MAX_NUMBER: u16 = 4095;

/// How many numbers a list may have.
const MAX_LISTED: usize = 64;

/// Why a list of message numbers is no filter.
#[derive(Clone, Copy, Debug, PartialEq, Eq, Error)]
pub enum FilterFault {
    /// There are none, or more than 64: so many.
    #[error("{0} message numbers, not 1 to 64")]
    Count(usize),
    /// The number at this place, counted from 0, is above 4095.
    #[error("the message number at {0} is above 4095")]
    Number(usize),
    /// No memory for the list.
    #[error("out of memory")]
    Memory,
}

/// A filter: all frames, or those of 1 to 64 message numbers from 0 to 4095.
#[derive(Debug, Drop)]
pub struct Filter {
    kind: Kind,
}

#[derive(Debug, Drop)]
enum Kind {
    Every,
    Among(Vec<u16>),
}

// A filter is its list of numbers, where it has one, and nothing beside it.
const _: () = prove!(size_of::<Filter>() == size_of::<Option<Vec<u16>>>());

impl Model for Filter {
    ghost use Rattle.type_filter.specs.Permitted.{FilterValue};
    ghost use Rattle.type_filter.specs.Codes.{filter_code};

    ghost Value = { FilterValue };

    ghost coded = { filter_code };

    ghost use Rattle.type_filter.specs.Kinds.{value_of, IsValid};

    ghost view = { λ filter. value_of filter.kind };

    ghost invariant = { λ filter. IsValid filter.kind };
}

impl Filter {
    ghost use Rattle.type_filter.specs.Faults.{IsAnswer};

    /// The filter that permits every frame.
    pub fn all() -> Filter
        ensures { result ≡ All }
    {
        Filter { kind: Kind::Every }
    }

    /// The filter of these message numbers, 1 to 64 from 0 to 4095, given in any order; repeats are
    /// dropped. Their count is judged first, then each number from the first on.
    pub fn list(alloc: Global, numbers: &[u16]) -> Result<Filter, FilterFault>
        ensures answer { IsAnswer numbers.now result }
        ensures list { IfOk result (λ filter. filter ≡ Listed (in_order numbers.now)) }
    {
        if !has_good_count(numbers) {
            return Err(FilterFault::Count(numbers.len()));
        }
        if let Some(place) = first_too_high(numbers) {
            return Err(FilterFault::Number(place));
        }
        let Ok(kept) = in_order(alloc, numbers) else {
            return Err(FilterFault::Memory);
        };
        Ok(Filter {
            kind: Kind::Among(kept),
        })
    }

    /// The message numbers of its list, in increasing order and each once; `None` where it permits
    /// every frame.
    pub fn numbers(&self) -> Option<&[u16]>
        ensures all { IfNone result (self.now ≡ All) }
        ensures list { IfSome result (λ numbers. self.now ≡ Listed numbers.now) }
        ensures valid { IfSome result (λ numbers. IsNumberList numbers.now) }
    {
        match &self.kind {
            Kind::Every => None,
            Kind::Among(numbers) => Some(numbers.as_slice()),
        }
    }

    /// Whether the frame may pass.
    pub fn permits(&self, frame: &Frame) -> bool
        ensures { result ≡ permits self.now frame.now }
    {
        match &self.kind {
            Kind::Every => true,
            Kind::Among(numbers) => match frame.number() {
                Some(number) => is_among(numbers.as_slice(), number),
                None => false,
            },
        }
    }

    /// A filter that permits the same frames.
    pub fn copy(&self, alloc: Global) -> Result<Filter, AllocError>
        ensures { IfOk result (λ copy. copy ≡ self.now) }
    {
        match &self.kind {
            Kind::Every => Ok(Filter::all()),
            Kind::Among(numbers) => {
                let copy = Vec::from_slice(alloc, numbers.as_slice())?;
                Ok(Filter {
                    kind: Kind::Among(copy),
                })
            }
        }
    }
}

impl PartialEq for Filter {
    ghost use Rattle.std.specs.Cmp.{partial_equiv_from_equiv};
    ghost use Rattle.type_filter.specs.Codes.{same_filter, same_filter_laws};

    ghost eq = { same_filter };

    ghost laws = { partial_equiv_from_equiv same_filter_laws };

    fn eq(&self, other: &Filter) -> bool {
        self.numbers() == other.numbers()
    }
}

impl Eq for Filter {
    ghost use Rattle.type_filter.specs.Codes.{same_filter_laws};

    ghost laws = { same_filter_laws };
}

// The list, which is in order, has the number.
fn is_among(numbers: &[u16], number: u16) -> bool
    requires { IsStrictlyIncreasing numbers.now }
    ensures { result ≡ is_listed numbers.now (Some number) }
{
    numbers.binary_search(&number).is_ok()
}

// There are 1 to 64 numbers.
fn has_good_count(numbers: &[u16]) -> bool
    ensures { result ≡ is_good_count numbers.now }
{
    !numbers.is_empty() && numbers.len() <= MAX_LISTED
}

// The first place of a number above 4095.
fn first_too_high(numbers: &[u16]) -> Option<usize>
    ensures { result ≡ position is_too_high numbers.now }
{
    numbers.iter().position(|number| *number > MAX_NUMBER)
}

// The numbers in increasing order, each once.
fn in_order(alloc: Global, numbers: &[u16]) -> Result<Vec<u16>, AllocError>
    requires count { IsTrue (is_good_count numbers.now) }
    requires low { position is_too_high numbers.now ≡ None }
    ensures list { IfOk result (λ kept. kept.items ≡ in_order numbers.now) }
    ensures valid { IfOk result (λ kept. IsNumberList kept.items) }
{
    let mut kept = Vec::from_slice(alloc, numbers)?;
    kept.sort_unstable();
    kept.dedup();
    Ok(kept)
}
