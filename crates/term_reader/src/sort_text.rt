//! The texts of sorts.

ghost use Rattle.std.specs.Prelude.{◌≡◌, ◌++◌, OnOk, codes};
ghost use Rattle.logic_terms.specs.Sorts.{sort as kind_of, kinds_in};
ghost use Rattle.std.specs.Prelude.{map};
ghost use Rattle.term_reader.specs.Sorts.{kind_text, spaced_kinds};

use logic_terms::{Sort, SortList};
use std::alloc::AllocError;

/// Adds sorts, each with a space before it.
#[cycle(sort_text)]
fn push_sorts(text: &mut Vec<u8>, sorts: &SortList) -> Result<(), AllocError>
    ensures { OnOk result (text.new.items ≡ text.old.items ++ spaced_kinds (kinds_in (map kind_of sorts.now))) }
{
    for sort in sorts.as_slice() {
        push_spaced(text, sort)?;
    }
    Ok(())
}

/// Adds a space and a sort.
#[cycle(sort_text)]
fn push_spaced(text: &mut Vec<u8>, sort: &Sort) -> Result<(), AllocError>
    ensures { OnOk result (text.new.items ≡ text.old.items ++ (codes " " ++ kind_text (kind_of sort.now))) }
{
    text.extend_from_slice(b" ")?;
    push_sort(text, sort)
}

/// Adds the text of a sort. The error comes where memory was refused.
#[cycle(sort_text)]
pub fn push_sort(text: &mut Vec<u8>, sort: &Sort) -> Result<(), AllocError>
    ensures { OnOk result (text.new.items ≡ text.old.items ++ kind_text (kind_of sort.now)) }
{
    match sort {
        Sort::Num => text.extend_from_slice(b"N"),
        Sort::Truth => text.extend_from_slice(b"B"),
        Sort::Array(item) => {
            text.extend_from_slice(b"(A")?;
            push_spaced(text, item.get())?;
            text.extend_from_slice(b")")
        }
        Sort::Record(fields) => {
            text.extend_from_slice(b"(R")?;
            push_sorts(text, fields)?;
            text.extend_from_slice(b")")
        }
    }
}
