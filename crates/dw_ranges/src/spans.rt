//! The ranges of a unit's functions, and which function has an address.

ghost use Rattle.std.specs.Prelude.{◌≡◌, ◌-◌, ◌^◌, ◌<◌, ◌≤◌, ◌↔◌, length, true, false, All, AllPairs, Any};
ghost use Rattle.std.specs.Prelude.{IsPermutation};
ghost use Rattle.std.specs.Prelude.{IfSome, IfNone, IsTrue, OnOk};
ghost use Rattle.std.specs.List.{AllAdjacentBelow};
ghost use Rattle.std.specs.List.Sorted.{IsPartitionPoint};
ghost use Rattle.dw_ranges.specs.Spans.{Agree, AreOrdered, IsBefore, IsChain, IsFirstMeeting, IsOf, IsSpan, IsUpTo};
ghost use Rattle.dw_ranges.specs.Spans.{starts_up_to};

use std::alloc::AllocFailed;

/// A range of a function.
#[derive(Clone, Copy, Debug, PartialEq, Eq)]
pub struct Span {
    /// 0 for a function that is not inlined; otherwise one more than the number of the entry that it is inlined in.
    pub group: usize,
    /// The first address.
    pub low: u64,
    /// The address after the last one.
    pub high: u64,
    /// The number of the function's entry.
    pub function: usize,
}

/// Puts spans in order: by group, then by low address, then by function, then by high address.
fn sort(spans: &mut [Span])
    ensures permutation { IsPermutation spans.old spans.new }
    ensures sorted { AllAdjacentBelow IsUpTo spans.new (length spans.new) }
{
    spans.sort_unstable_by_key(|span| (span.group, span.low, span.function, span.high));
}

/// Whether a span agrees with the one before it.
fn agrees(earlier: &Span, later: &Span) -> bool
    requires some { later.now.low < later.now.high }
    requires order { IsUpTo earlier.now later.now }
    ensures { IsTrue result ↔ IsBefore earlier.now later.now }
{
    if earlier.group != later.group || earlier.high <= later.low {
        return true;
    }
    earlier.group == 0 && earlier.low == later.low && earlier.high == later.high
}

/// The number of the first span that does not agree with the one before it.
fn first_meeting(spans: &[Span]) -> Option<usize>
    requires each { All IsSpan spans.now }
    requires sorted { AllAdjacentBelow IsUpTo spans.now (length spans.now) }
    ensures none { IfNone result (AreOrdered spans.now) }
    ensures first { IfSome result (IsFirstMeeting spans.now) }
{
    for k in 1..spans.len() {
        if !agrees(&spans[k - 1], &spans[k]) {
            return Some(k);
        }
    }
    None
}

/// Puts the spans of a unit in order. If two do not agree, returns the number of the first one then that does not agree
/// with the one before it.
pub fn order(spans: &mut [Span]) -> Option<usize>
    requires { All IsSpan spans.old }
    ensures permutation { IsPermutation spans.old spans.new }
    ensures ordered { IfNone result (AreOrdered spans.new) }
    ensures agree { IfNone result (AllPairs Agree spans.old) }
    ensures disagree { IfSome result (λ _. ¬ (AllPairs Agree spans.old)) }
    ensures first { IfSome result (IsFirstMeeting spans.new) }
    ensures sorted { AllPairs IsUpTo spans.new }
{
    sort(spans);
    first_meeting(spans)
}

/// Whether a span is of an earlier group, or of this one and starts at an address or below it.
fn is_up_to(span: &Span, group: usize, address: u64) -> bool
    ensures { result ≡ starts_up_to group address span.now }
{
    span.group < group || (span.group == group && span.low <= address)
}

/// How many spans are of an earlier group, or of this one and start at an address or below it.
fn spans_up_to(spans: &[Span], group: usize, address: u64) -> usize
    requires { AreOrdered spans.now }
    ensures within { result ≤ length spans.now }
    ensures up_to { IsPartitionPoint (λ s. starts_up_to group address s ≡ true)
        (λ s. starts_up_to group address s ≡ false) spans.now result }
{
    spans.partition_point(|span| is_up_to(span, group, address))
}

/// The function of a group that has an address: the last one if several have the same range.
pub fn function_at(spans: &[Span], group: usize, address: u64) -> Option<usize>
    requires { AreOrdered spans.now }
    ensures found { IfSome result (λ f. Any (λ s. IsOf group address s × (s.function ≡ f)) spans.now) }
    ensures last { IfSome result (λ f. All (λ s. IsOf group address s → s.function ≤ f) spans.now) }
    ensures none { IfNone result (All (λ s. ¬ (IsOf group address s)) spans.now) }
{
    let after = spans_up_to(spans, group, address);
    if after == 0 {
        return None;
    }
    let span = spans[after - 1];
    if span.group != group || span.high <= address {
        return None;
    }
    Some(span.function)
}

/// The functions that have an address, each inlined in the one before it.
pub fn functions_at(
    spans: &[Span],
    address: u64,
    functions: &mut Vec<usize>,
) -> Result<(), AllocFailed<usize>>
    requires ordered { AreOrdered spans.now }
    requires few { All (λ s. s.function < 2 ^ 64 - 1) spans.now }
    ensures { OnOk result (IsChain spans.now 0 address functions.new.items) }
{
    functions.clear();
    let mut group = 0;
    while let Some(function) = function_at(spans, group, address) {
        functions.push(function)?;
        group = function + 1;
    }
    Ok(())
}
