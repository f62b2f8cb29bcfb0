//! Filters.
use crate::printing::{put, say};
use crate::rings::frame_of;
use std::alloc::{AllocError, Global};
use type_filter::{Filter, Filters};

/// Appends the names of the frames that the filter permits, of `z`, `a` and `b`.
fn say_permitted(out: &mut Vec<u8>, filter: &Filter) -> Result<(), AllocError> {
    for name in ["z", "a", "b"] {
        if let Some(frame) = frame_of(name) {
            if filter.permits(&frame) {
                put(out, name)?;
            }
        }
    }
    put(out, " ")
}

/// The message numbers that commas part.
fn numbers_of(alloc: Global, words: &str) -> Result<Vec<u16>, AllocError> {
    let mut numbers = Vec::new(alloc);
    for word in words.split(',') {
        if let Ok(number) = word.parse::<u16>() {
            numbers.push(number)?;
        }
    }
    Ok(numbers)
}

/// What a filter lists and permits, and whether its copy is the same.
fn say_filter(out: &mut Vec<u8>, filter: &Filter) -> Result<(), AllocError> {
    let copy = filter.copy(*out.allocator())?;
    say(out, &filter.numbers())?;
    say_permitted(out, filter)?;
    say(out, &(copy == *filter))
}

/// The filter of these numbers, or its fault.
pub fn filter(words: &str, out: &mut Vec<u8>) -> Result<(), AllocError> {
    let numbers = numbers_of(*out.allocator(), words)?;
    match Filter::list(*out.allocator(), &numbers) {
        Ok(filter) => say_filter(out, &filter),
        Err(fault) => say(out, &fault),
    }
}

/// What each of these filters permits.
fn say_filters(out: &mut Vec<u8>, filters: &Filters) -> Result<(), AllocError> {
    for number in 0..filters.len() {
        say_permitted(out, filters.get(number))?;
    }
    Ok(())
}

/// What the copies of two filters permit: of a list of the number 1005, and of the one of all.
pub fn two_filters(out: &mut Vec<u8>) -> Result<(), AllocError> {
    let alloc = *out.allocator();
    let Ok(list) = Filter::list(alloc, &[1005]) else {
        return put(out, "no filter");
    };
    let filters = Filters::new(Vec::from_array(alloc, [list, Filter::all()])?);
    say_filters(out, &filters.copy(alloc)?)
}

/// How many filters there are where there are as many as there may be, and whether their copy is
/// the same.
pub fn all_filters(out: &mut Vec<u8>) -> Result<(), AllocError> {
    let mut list = Vec::new(*out.allocator());
    for _ in 0..64 {
        list.push(Filter::all())?;
    }
    if list.len() != 64 {
        return put(out, "another count");
    }
    let filters = Filters::new(list);
    let copy = filters.copy(*out.allocator())?;
    say(out, &(copy.len(), copy == filters))
}
