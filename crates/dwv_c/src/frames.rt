//! The frames at addresses, as rows and text in three arrays of the caller.

ghost use Rattle.std.specs.Prelude.{◌≡◌, ◌++◌, [], ◌∷◌, ℕ, IfOk, List, OnOk, length, map};
ghost use Rattle.std.specs.Bool.{OnFalse, OnTrue};
ghost use Rattle.dw_ranges.specs.Files.{IsIndex, IsIndexOf};
ghost use Rattle.dw_ranges.specs.Functions.{Known as KnownUnit};
ghost use Rattle.dwv_c.specs.Frames.{AreAt, FillsFrames, HasRoomFor, LocatedFrame, frame_arrays};
ghost use Rattle.dwv_c.specs.Frames.{frame_counts, frame_rows, of_unit, texts_of, with_unit};
ghost use Rattle.dwv_c.specs.FrameState.{HasMore, IsAllOf, gathered_arrays};
ghost use Rattle.dwv_c.specs.Verdicts.{of_image};

use crate::frame_rows::{FrameCounts, FrameRow, Located, frame_row};
use crate::verdict::{SOUND, TOO_SHORT, Verdict, put_over, verdict_of_counts};
use dw_addresses::Frame;
use dw_image::Image;
use dw_lookup::Known;
use dw_units::Counts;
use std::alloc::{AllocError, Global};

/// What is to be written of the frames at addresses.
#[derive(Drop)]
pub struct Gathered {
    pub located: Vec<Located>,
    pub frames: Vec<FrameRow>,
    pub text: Vec<u8>,
}

/// What is used again for one address after another.
#[derive(Drop)]
struct Room {
    functions: Vec<usize>,
    frames: Vec<Frame>,
}

/// Appends the rows and the texts of the frames at an address of a unit.
fn push_frames(
    known: &Known<'_, '_>,
    unit: usize,
    frames: &[Frame],
    rows: &mut Vec<FrameRow>,
    text: &mut Vec<u8>,
) -> Result<(), AllocError>
    ensures rows { OnOk result (rows.new.items
        ≡ rows.old.items ++ frame_rows known.now (length text.old.items) (map (of_unit unit) frames.now)) }
    ensures text { OnOk result (text.new.items
        ≡ text.old.items ++ texts_of known.now (map (of_unit unit) frames.now)) }
{
    for frame in frames {
        let row = frame_row(known, unit, frame, text)?;
        rows.push(row)?;
    }
    Ok(())
}

/// Appends the rows and the texts of the frames at an address, if a unit has it.
fn push_found(
    known: &Known<'_, '_>,
    unit: Option<usize>,
    frames: &[Frame],
    gathered: &mut Gathered,
) -> Result<(), AllocError>
    ensures { OnOk result (HasMore known.now (with_unit unit frames.now) gathered.old gathered.new) }
{
    match unit {
        Some(unit) => push_frames(
            known,
            unit,
            frames,
            &mut gathered.frames,
            &mut gathered.text,
        ),
        None => Ok(()),
    }
}

/// Appends which rows the frames at an address have, and these rows and their texts.
fn push_address(
    known: &Known<'_, '_>,
    address: u64,
    room: &mut Room,
    gathered: &mut Gathered,
) -> Result<(), AllocError>
    requires { IsIndex known.now.functions }
    ensures { OnOk result ((found : List LocatedFrame)
        × (gathered.new.located.items ≡ gathered.old.located.items
        ++ record { first = length gathered.old.frames.items; frames = length found } ∷ [])
        × (gathered.new.frames.items ≡ gathered.old.frames.items
        ++ frame_rows known.now (length gathered.old.text.items) found)
        × (gathered.new.text.items ≡ gathered.old.text.items ++ texts_of known.now found)
        × ((units : List KnownUnit) → IsIndexOf units known.now.functions → AreAt known.now units address found)) }
{
    let unit = known.frames_at(address, &mut room.functions, &mut room.frames)?;
    let first = gathered.frames.len();
    push_found(known, unit, &room.frames, gathered)?;
    let frames = gathered.frames.len() - first;
    gathered.located.push(Located {
        first: first as u64,
        frames: frames as u64,
    })?;
    Ok(())
}

/// Gathers what is to be written of the frames at addresses.
pub fn gather(
    alloc: Global,
    known: &Known<'_, '_>,
    addresses: &[u64],
) -> Result<Gathered, AllocError>
    requires { IsIndex known.now.functions }
    ensures { IfOk result (λ gathered. IsAllOf known.now addresses.now (gathered_arrays gathered)) }
{
    let mut gathered = Gathered {
        located: Vec::new(alloc),
        frames: Vec::new(alloc),
        text: Vec::new(alloc),
    };
    let mut room = Room {
        functions: Vec::new(alloc),
        frames: Vec::new(alloc),
    };
    for address in addresses {
        push_address(known, *address, &mut room, &mut gathered)?;
    }
    Ok(gathered)
}

/// Whether each array has room for what is gathered.
fn is_room(gathered: &Gathered, located: &[Located], frames: &[FrameRow], text: &[u8]) -> bool
    ensures room { OnTrue result
        (HasRoomFor (gathered_arrays gathered.now) (frame_arrays located.now frames.now text.now)) }
    ensures none { OnFalse result
        (¬ HasRoomFor (gathered_arrays gathered.now) (frame_arrays located.now frames.now text.now)) }
{
    gathered.located.len() <= located.len()
        && gathered.frames.len() <= frames.len()
        && gathered.text.len() <= text.len()
}

/// Writes what is gathered if there is room for it.
pub fn put_gathered(
    gathered: &Gathered,
    located: &mut [Located],
    frames: &mut [FrameRow],
    text: &mut [u8],
) -> u32
    ensures { FillsFrames (gathered_arrays gathered.now) (frame_arrays located.old frames.old text.old) result
        (frame_arrays located.new frames.new text.new) }
{
    if !is_room(gathered, located, frames, text) {
        return TOO_SHORT;
    }
    put_over(located, &gathered.located);
    put_over(frames, &gathered.frames);
    put_over(text, &gathered.text);
    SOUND
}

/// Writes how much is gathered, and the verdict.
pub fn put_frame_counts(
    gathered: &Gathered,
    image: &Image<'_>,
    counts: &mut FrameCounts,
    verdict: &mut Verdict,
)
    ensures counts { counts.new ≡ frame_counts (gathered_arrays gathered.now) }
    ensures verdict { verdict.new ≡ of_image image.now }
{
    *counts = FrameCounts {
        frames: gathered.frames.len() as u64,
        text: gathered.text.len() as u64,
    };
    *verdict = verdict_of_counts(Counts::of(image));
}
