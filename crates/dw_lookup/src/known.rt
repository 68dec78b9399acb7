//! What is known of a sound file, and what it says of addresses.

use dw_addresses::{FileLines, Frame, Place, directory_of_unit, frames_at, function_name};
use dw_image::Image;
use dw_ranges::FileFunctions;
use std::alloc::AllocError;

/// What is known of a sound file, for look-ups by address.
#[derive(Drop)]
pub struct Known<'s, 'a> {
    pub image: &'s Image<'a>,
    pub lines: FileLines<'s>,
    pub functions: FileFunctions,
}

impl<'a> Known<'_, 'a> {
    ghost use Rattle.std.specs.Prelude.{◌≡◌, ◌++◌, [], IfOk, List, OnOk, option_copied};
    ghost use Rattle.std.specs.Option.{is_some, unwrap_or};
    ghost use Rattle.dw_entries.specs.Views.{all_entries};
    ghost use Rattle.dw_ranges.specs.Files.{IsIndex, IsIndexOf};
    ghost use Rattle.dw_ranges.specs.Functions.{Known as KnownUnit};
    ghost use Rattle.dw_addresses.specs.Frames.{AreFramesAt};
    ghost use Rattle.dw_lookup.specs.Places.{directory_in, entries_of, name_at, path_at};

    /// Finds the frames at an address, the innermost first, and its unit. There are none if no unit has the address, or
    /// if the unit has neither a function nor a row for it. Overwrites `functions`, which is there to be used again.
    pub fn frames_at(
        &self,
        address: u64,
        functions: &mut Vec<usize>,
        frames: &mut Vec<Frame>,
    ) -> Result<Option<usize>, AllocError>
        requires { IsIndex self.now.functions }
        ensures { IfOk result (λ unit. (units : List KnownUnit) → IsIndexOf units self.now.functions
            → AreFramesAt self.now.lines (all_entries (entries_of self.now)) units address unit frames.new.items) }
    {
        frames_at(
            &self.lines,
            &self.functions,
            self.image.scanned(),
            address,
            functions,
            frames,
        )
    }

    /// The name of the function that is the entry with a number, if it has one.
    pub fn name_of(&self, function: Option<usize>) -> Option<&'a [u8]>
        ensures { option_copied result ≡ name_at self.now function }
    {
        let entries = self.image.scanned();
        let id = entries.nth(function?)?;
        function_name(entries, self.image.links(), id)
    }

    /// The directory of the compilation that a unit names, empty if it names none.
    pub fn directory_of(&self, unit: usize) -> &'a [u8]
        ensures { result.now ≡ directory_in self.now unit }
    {
        let entries = self.image.scanned();
        if unit >= entries.unit_count() {
            return &[];
        }
        directory_of_unit(entries, self.image.links(), unit).unwrap_or(&[])
    }

    /// Appends the path of the file of a place, and returns whether it is known.
    pub fn push_path(
        &self,
        unit: usize,
        place: Option<Place>,
        path: &mut Vec<u8>,
    ) -> Result<bool, AllocError>
        ensures there { IfOk result (λ there. there ≡ is_some (path_at self.now unit place)) }
        ensures path { OnOk result (path.new.items ≡ path.old.items ++ unwrap_or (path_at self.now unit place) []) }
    {
        let Some(place) = place else {
            return Ok(false);
        };
        let Some(file) = place.file else {
            return Ok(false);
        };
        self.lines
            .push_path(unit, file, self.directory_of(unit), path)
    }

    /// The path of the file of a place, if it is known. Overwrites `path`.
    pub fn path_of<'p>(
        &self,
        unit: usize,
        place: Option<Place>,
        path: &'p mut Vec<u8>,
    ) -> Result<Option<&'p [u8]>, AllocError>
        ensures { IfOk result (λ shown. option_copied shown ≡ path_at self.now unit place) }
    {
        path.clear();
        if self.push_path(unit, place, path)? {
            return Ok(Some(path.as_slice()));
        }
        Ok(None)
    }
}
