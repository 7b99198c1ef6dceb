//! Names that a file of the form may declare.

ghost use Rattle.std.specs.Prelude.{◌≡◌, map};
ghost use Rattle.first_form.specs.Names.{are_different, is_among, is_name, is_predefined, same_name};

use ada_values::NameText;

/// The most bytes of a name.
const LONGEST: usize = 100;

/// Names of the package Standard that no file may declare.
const PREDEFINED: [&[u8]; 7] = [
    b"boolean",
    b"integer",
    b"natural",
    b"positive",
    b"long_long_integer",
    b"true",
    b"false",
];

/// Whether two names are one, without regard to case.
pub fn same_name(name: &[u8], other: &[u8]) -> bool
    ensures { result ≡ same_name name.now other.now }
{
    name.eq_ignore_ascii_case(other)
}

/// Whether a word of a table is a name, without regard to case.
fn is_among(mut table: &[&[u8]], name: &[u8]) -> bool
    ensures { result ≡ is_among (map (λ w. w.now) table.entry.now) name.now }
{
    while let [word, rest @ ..] = table {
        if same_name(word, name) {
            return true;
        }
        table = rest;
    }
    false
}

/// Whether a name is predefined, in any case.
#[tactic(auto, unfolding(crate::specs::Names::is_predefined, crate::specs::Names::predefined_names))]
fn is_predefined(name: &[u8]) -> bool
    ensures { result ≡ is_predefined name.now }
{
    is_among(&PREDEFINED, name)
}

/// Whether a file may declare a name.
pub fn is_name(name: &[u8]) -> bool
    ensures { result ≡ is_name name.now }
{
    name.len() <= LONGEST && !is_predefined(name)
}

/// Whether one of the names is this one, without regard to case.
fn is_declared(mut names: &[NameText], name: &[u8]) -> bool
    ensures { result ≡ is_among names.entry.now name.now }
{
    while let [other, rest @ ..] = names {
        if same_name(other.as_bytes(), name) {
            return true;
        }
        names = rest;
    }
    false
}

/// Whether no two of the names are one, without regard to case.
pub fn are_different(mut names: &[NameText]) -> bool
    ensures { result ≡ are_different names.entry.now }
{
    while let [name, rest @ ..] = names {
        if is_declared(rest, name.as_bytes()) {
            return false;
        }
        names = rest;
    }
    true
}
