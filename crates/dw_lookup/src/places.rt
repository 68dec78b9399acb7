//! The lines and the columns of places in source files.

ghost use Rattle.std.specs.Prelude.{◌≡◌};
ghost use Rattle.dw_lookup.specs.Places.{column_at, line_at};

use dw_addresses::Place;

/// The line of a place, 0 if it is not known.
pub fn line_of(place: Option<Place>) -> u64
    ensures { result ≡ line_at place }
{
    match place {
        Some(place) => place.line,
        None => 0,
    }
}

/// The column of a place, 0 if it is not known.
pub fn column_of(place: Option<Place>) -> u64
    ensures { result ≡ column_at place }
{
    match place {
        Some(place) => place.column,
        None => 0,
    }
}
