//! A line in its fields.
ghost use Rattle.std.specs.Prelude.{◌≡◌, ◌+◌, ◌<◌, [], ◌∷◌, ◌++◌, length, position, IfOk, IfSome, IfNone, OnOk};
ghost use Rattle.std.specs.List.{count_by};
ghost use Rattle.sourcetable.specs.Record.{is_separator, is_line_end, fields_text, AreFreeButLast};

use crate::lists::{Field, Fields};
use cast_text::split_first;
use std::alloc::{AllocError, Global};

/// The first place of a CR or LF.
pub fn line_end_place(text: &[u8]) -> Option<usize>
    ensures { result ≡ position is_line_end text.now }
{
    text.iter().position(|b| *b == b'\r' || *b == b'\n')
}

/// Appends a field of these bytes.
pub fn push_field(alloc: Global, fields: &mut Vec<Field>, text: &[u8]) -> Result<(), AllocError>
    ensures { OnOk result (fields.new.items ≡ fields.old.items ++ text.now ∷ []) }
{
    let field = Field::new(Vec::from_slice(alloc, text)?);
    fields.push(field)?;
    Ok(())
}

/// The text in so many fields, at least one, between `;`: the last one takes the rest. None where
/// there are too few.
pub fn split_fields(alloc: Global, count: usize, text: &[u8]) -> Result<Option<Fields>, AllocError>
    requires { 0 < count }
    ensures count { IfOk result (λ found. IfSome found (λ fields. length fields ≡ count)) }
    ensures free { IfOk result (λ found. IfSome found (λ fields. AreFreeButLast fields)) }
    ensures text { IfOk result (λ found.
        IfSome found (λ fields. fields_text fields ≡ 59 ∷ text.now)) }
    ensures few { IfOk result (λ found.
        IfNone found (count_by is_separator text.now + 1 < count)) }
{
    let mut fields = Vec::with_capacity(alloc, count)?;
    let mut rest = text;
    while fields.len() + 1 < count {
        let Some((field, more)) = split_first(b';', rest) else {
            return Ok(None);
        };
        push_field(alloc, &mut fields, field)?;
        rest = more;
    }
    push_field(alloc, &mut fields, rest)?;
    Ok(Some(Fields::new(fields)))
}
