//! Which functions of a unit have an address, by their ranges, as `dw_ranges` returns them.

ghost use Rattle.std.specs.Prelude.{◌-◌, ◌^◌, ◌<◌, All, IsTrue};
ghost use Rattle.dw_ranges.specs.Spans.{IsSpan};

use dw_ranges::{Span, functions_at, order};
use std::alloc::{AllocError, Global};
use std::test::Fail;

/// A span: its group, its addresses, its function.
fn span(group: usize, low: u64, high: u64, function: usize) -> Span {
    Span {
        group,
        low,
        high,
        function,
    }
}

/// Whether a span has an address, and its function comes after the one that it is inlined in.
fn is_span(span: &Span) -> bool
    ensures { IsTrue result → IsSpan span.now × (span.now.function < 2 ^ 64 - 1) }
{
    span.low < span.high && span.group <= span.function && span.function < usize::MAX
}

/// Whether all are spans.
fn are_spans(spans: &[Span]) -> bool
    ensures each { IsTrue result → All IsSpan spans.now }
    ensures few { IsTrue result → All (λ s. s.function < 2 ^ 64 - 1) spans.now }
{
    for span in spans {
        if !is_span(span) {
            return false;
        }
    }
    true
}

/// A copy of spans.
fn copied(alloc: Global, spans: &[Span]) -> Result<Vec<Span>, AllocError> {
    let mut all = Vec::new(alloc);
    all.extend_from_slice(spans)?;
    Ok(all)
}

/// Puts spans in order, and returns the number of the first one that does not agree with the one before it.
fn order_of(spans: &mut [Span]) -> Result<Option<usize>, Fail> {
    if !are_spans(spans) {
        return Err("a span without address".into());
    }
    Ok(order(spans))
}

/// The functions that have an address.
fn chain_at(alloc: Global, spans: &mut [Span], address: u64) -> Result<Vec<usize>, Fail> {
    if !are_spans(spans) {
        return Err("a span without address".into());
    }
    if let Some(_) = order(spans) {
        return Err("functions that meet".into());
    }
    if !are_spans(spans) {
        return Err("a span without address".into());
    }
    let mut functions = Vec::new(alloc);
    functions_at(spans, address, &mut functions)?;
    Ok(functions)
}

// Functions of one group share no address, but two that are not inlined may have one range.
#[test]
fn functions_that_meet(rt: HostRuntime) -> Result<(), Fail> {
    let rows: [(&[Span], Option<usize>); 7] = [
        (
            &[span(0, 5, 9, 2), span(0, 1, 5, 0), span(1, 2, 4, 1)],
            None,
        ),
        (
            &[span(0, 1, 5, 0), span(0, 1, 5, 1), span(0, 5, 6, 2)],
            None,
        ),
        (
            &[span(0, 1, 5, 0), span(0, 1, 6, 1), span(0, 7, 8, 2)],
            Some(1),
        ),
        (
            &[span(0, 1, 5, 0), span(0, 4, 6, 1), span(0, 7, 8, 2)],
            Some(1),
        ),
        (
            &[span(0, 1, 9, 0), span(1, 2, 4, 1), span(1, 3, 5, 2)],
            Some(2),
        ),
        (
            &[span(0, 1, 9, 0), span(1, 2, 4, 1), span(1, 2, 4, 2)],
            Some(2),
        ),
        (
            &[span(0, 1, 9, 0), span(1, 2, 4, 1), span(2, 2, 4, 2)],
            None,
        ),
    ];
    for (spans, want) in rows {
        let mut all = copied(rt.alloc(), spans)?;
        assert_eq!(rt; order_of(all.as_mut_slice())?, want, "{spans:?}");
    }
    Ok(())
}

// The functions at an address, each inlined in the one before it.
#[test]
fn functions_by_address(rt: HostRuntime) -> Result<(), Fail> {
    let alloc = rt.alloc();
    let spans = [
        span(0, 10, 20, 0),
        span(1, 12, 18, 1),
        span(2, 12, 14, 2),
        span(2, 15, 16, 3),
        span(0, 20, 30, 4),
        span(0, 20, 30, 5),
        span(6, 25, 26, 6),
    ];
    let rows: [(u64, &[usize]); 10] = [
        (9, &[]),
        (10, &[0]),
        (12, &[0, 1, 2]),
        (14, &[0, 1]),
        (15, &[0, 1, 3]),
        (18, &[0]),
        (20, &[5]),
        (25, &[5, 6]),
        (29, &[5]),
        (30, &[]),
    ];
    for (address, want) in rows {
        let mut all = copied(alloc, &spans)?;
        let functions = chain_at(alloc, all.as_mut_slice(), address)?;
        assert_eq!(rt; functions.as_slice(), want, "{address}");
    }
    Ok(())
}
