//! Live ranges: those of the program's code.

ghost use Rattle.std.specs.Prelude.{◌≡◌, count_by};
ghost use Rattle.dw_ranges.specs.Areas.{AreAreas};
ghost use Rattle.dw_ranges.specs.Live.{is_live as live, is_dead, live_ranges};

use crate::areas::area_at;
use crate::range::Range;

/// Whether a range has an address, and all of them are of the code.
pub fn is_live(code: &[Range], range: Range) -> bool
    requires { AreAreas code.now }
    ensures { result ≡ live code.now range }
{
    if range.low >= range.high {
        return false;
    }
    match area_at(code, range.low) {
        Some(k) => range.high <= code[k].high,
        None => false,
    }
}

/// Keeps the live ranges. Returns how many dead ones there were.
pub fn keep_live(code: &[Range], ranges: &mut Vec<Range>) -> usize
    requires { AreAreas code.now }
    ensures kept { ranges.new.items ≡ live_ranges code.now ranges.old.items }
    ensures dead { result ≡ count_by (is_dead code.now) ranges.old.items }
{
    let mut kept = 0;
    let mut dead = 0;
    for k in 0..ranges.len() {
        let range = ranges[k];
        if is_live(code, range) {
            ranges[kept] = range;
            kept += 1;
        } else if range.low < range.high {
            dead += 1;
        }
    }
    ranges.truncate(kept);
    dead
}
