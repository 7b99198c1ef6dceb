//! Where statements stand.

ghost use Rattle.std.specs.Prelude.{◌≡◌, option_map};
ghost use Rattle.reading_scope.specs.Scopes.{scope_of};
ghost use Rattle.statement_rules.specs.Arounds.{around_of, loop_from};
ghost use Rattle.statement_typing.specs.Statements.{in_pragma, moment_in};

use reading_scope::Scope;
use type_base::Moment;
use typing_rules::Found;

/// A loop: its number in the subprogram, and that of its parameter where it is a `for` loop.
#[derive(Clone, Copy)]
pub struct Loop {
    pub number: u32,
    pub parameter: Option<u32>,
}

/// What a subprogram returns.
#[derive(Drop)]
pub enum Returns {
    /// A procedure's.
    Nothing,
    /// A value of the subtype of this number.
    Value(Found<u32>),
}

/// Where statements stand. Contracts speak of it by `around_of`.
#[derive(Clone, Copy)]
pub struct Around<'a> {
    pub scope: &'a Scope<'a>,
    pub returns: &'a Returns,
    /// The innermost loop around them.
    pub inner: Option<Loop>,
}

/// The moment of a pragma: one in a loop's body may name what an object was on entry to the loop.
pub fn moment_in(inner: Option<Loop>) -> Moment
    ensures { result ≡ moment_in (option_map loop_from inner) }
{
    match inner {
        None => Moment::Elsewhere,
        Some(around) => Moment::InLoop(around.number, around.parameter),
    }
}

impl<'a> Around<'a> {
    /// The scope of a pragma that stands there.
    pub fn in_pragma(&self) -> Scope<'a>
        ensures { scope_of result ≡ in_pragma (around_of self.now) }
    {
        Scope {
            world: self.scope.world,
            file: self.scope.file,
            lines: self.scope.lines,
            links: self.scope.links,
            names: self.scope.names,
            numbers: self.scope.numbers,
            own: self.scope.own,
            moment: moment_in(self.inner),
            parameters: self.scope.parameters,
        }
    }
}
