//! The names that are visible at a place of a program.

ghost use Rattle.std.specs.Prelude.{◌≡◌};
ghost use Rattle.tl_lang.specs.Names.{visible};
ghost use Rattle.tl_kind.specs.Scope.{names};

use tl_lang::{Kind, Name};

/// Visible names with their kinds, the innermost first.
#[derive(Clone, Copy)]
pub(crate) enum Scope<'a> {
    Empty,
    Inner(&'a Name, Kind, &'a Scope<'a>),
}

// The kind of the innermost of the names that is spelled so.
pub(crate) fn kind_of_name(scope: &Scope<'_>, name: &Name) -> Option<Kind>
    ensures { result ≡ visible name.now (names scope.now) }
{
    match scope {
        Scope::Empty => None,
        Scope::Inner(inner, kind, outer) => {
            if name == *inner {
                Some(*kind)
            } else {
                kind_of_name(outer, name)
            }
        }
    }
}
