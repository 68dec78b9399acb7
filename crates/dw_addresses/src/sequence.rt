//! The sequences of rows (DWARF 5, 6.2.5.3), and which of them has an address.

ghost use Rattle.std.specs.Prelude.{◌≡◌, ◌<◌, ◌≤◌, ◌-◌, ◌+◌, length, IfOk, IsPermutation};
ghost use Rattle.std.specs.List.{AllAdjacentBelow, find};
ghost use Rattle.std.specs.List.Sorted.{IsNonDecreasingBy};
ghost use Rattle.dw_addresses.specs.Addresses.{AreAreas, is_live as live, row_up_to as row_up_to_in};
ghost use Rattle.dw_addresses.specs.Index.{AreLive, IsSequence, IsUpTo, has, reaches_from, rows_of as sequence_rows};

use dw_lines::Row;
use std::alloc::{AllocFailed, Global};

/// A sequence of rows.
#[derive(Clone, Copy, Debug)]
pub(crate) struct Sequence {
    /// The address of the first row.
    pub(crate) low: u64,
    /// The address of the row that ends the sequence, which is the first after it.
    pub(crate) high: u64,
    /// The number of the first row.
    pub(crate) first: usize,
    /// The number of the row that ends the sequence.
    pub(crate) end: usize,
}

/// Whether an area has each address from `low` on and below `high`, and there is one.
fn is_live(code: &[(u64, u64)], low: u64, high: u64) -> bool
    requires { AreAreas code.now }
    ensures { result ≡ live code.now low high }
{
    if low >= high {
        return false;
    }
    let after = code.partition_point(|area| area.0 <= low);
    after > 0 && high <= code[after - 1].1
}

/// The sequences of the code, in the order of the rows.
pub(crate) fn live_sequences(
    alloc: Global,
    rows: &[Row],
    code: &[(u64, u64)],
) -> Result<Vec<Sequence>, AllocFailed<Sequence>>
    requires { AreAreas code.now }
    ensures { IfOk result (λ found. AreLive code.now rows.now found.items) }
{
    let mut found = Vec::new(alloc);
    let mut first = 0;
    for end in 0..rows.len() {
        if rows[end].end_sequence {
            let low = rows[first].address;
            let high = rows[end].address;
            if is_live(code, low, high) {
                found.push(Sequence {
                    low,
                    high,
                    first,
                    end,
                })?;
            }
            first = end + 1;
        }
    }
    Ok(found)
}

/// Puts sequences in the order of their addresses. Of those that start at one address the first rows come first.
pub(crate) fn order(sequences: &mut [Sequence])
    ensures permutation { IsPermutation sequences.old sequences.new }
    ensures sorted { AllAdjacentBelow IsUpTo sequences.new (length sequences.new) }
{
    sequences.sort_unstable_by_key(|sequence| (sequence.low, sequence.first));
}

/// The greatest end of each sequence and those before it.
pub(crate) fn reaches_of(
    alloc: Global,
    sequences: &[Sequence],
) -> Result<Vec<u64>, AllocFailed<u64>>
    ensures { IfOk result (λ reaches. reaches.items ≡ reaches_from 0 sequences.now) }
{
    let mut reaches = Vec::new(alloc);
    let mut reach = 0u64;
    for sequence in sequences {
        reach = reach.max(sequence.high);
        reaches.push(reach)?;
    }
    Ok(reaches)
}

/// The rows of a sequence.
pub(crate) fn rows_of(rows: &[Row], sequence: Sequence) -> &[Row]
    requires { IsSequence rows.now sequence }
    ensures { result.now ≡ sequence_rows rows.now sequence }
{
    &rows[sequence.first..sequence.end + 1]
}

/// The first sequence that has an address.
pub(crate) fn sequence_with(
    sequences: &[Sequence],
    reaches: &[u64],
    address: u64,
) -> Option<Sequence>
    requires sorted { IsNonDecreasingBy (λ s. s.low) sequences.now }
    requires reaches { reaches.now ≡ reaches_from 0 sequences.now }
    ensures { result ≡ find (has address) sequences.now }
{
    let before = reaches.partition_point(|reach| *reach <= address);
    if before < sequences.len() && sequences[before].low <= address {
        return Some(sequences[before]);
    }
    None
}

/// The last row with an address or a smaller one.
pub(crate) fn row_up_to(rows: &[Row], address: u64) -> Option<Row>
    requires { IsNonDecreasingBy (λ r. r.address) rows.now }
    ensures { result ≡ row_up_to_in address rows.now }
{
    let after = rows.partition_point(|row| row.address <= address);
    if after == 0 {
        return None;
    }
    Some(rows[after - 1])
}
