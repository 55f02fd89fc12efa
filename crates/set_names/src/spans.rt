//! The points at which one variable is set.
ghost use Rattle.std.specs.Prelude.{◌≡◌, ◌<◌, ◌≤◌, ◌+◌, ◌||◌, ℕ, not, nat_lt, true, false, [], None, OnErr, OnOk, length, slice_index_or};
ghost use Rattle.std.specs.List.{list_any};
ghost use Rattle.set_names.specs.Sets.{AreSpans, Ascends, end_of, holds, holds_since, within};

use cv_base::Memory;
use std::alloc::Global;

/// Points in a row: the first one, and the one behind the last.
#[derive(Clone, Copy, Debug, PartialEq, Eq)]
pub struct Span {
    pub first: u32,
    pub behind: u32,
}

/// The spans that end, in order, and the first point of the one that goes on to the exit.
#[derive(Debug, Drop)]
pub struct Spans {
    pub ended: Vec<Span>,
    pub since: Option<u32>,
}

/// No spans. It takes no memory.
pub(crate) fn no_spans(alloc: Global) -> Spans
    ensures ended { result.ended.items ≡ [] }
    ensures since { result.since ≡ None }
{
    Spans {
        ended: Vec::new(alloc),
        since: None,
    }
}

/// Whether the point is in one of the spans.
pub(crate) fn is_in(spans: &Spans, point: u32) -> bool
    requires { Ascends 0 spans.now.ended.items }
    ensures { result ≡ holds point spans.now }
{
    is_in_ended(spans.ended.as_slice(), point) || is_in_last(spans.since, point)
}

fn is_in_last(since: Option<u32>, point: u32) -> bool
    ensures { result ≡ holds_since point since }
{
    match since {
        Some(first) => first <= point,
        None => false,
    }
}

fn is_in_ended(spans: &[Span], point: u32) -> bool
    requires { Ascends 0 spans.now }
    ensures { result ≡ list_any (within point) spans.now }
{
    let count = begun(spans, point);
    count > 0 && point < spans[count - 1].behind
}

/// How many spans begin at the point or before.
fn begun(spans: &[Span], point: u32) -> usize
    requires { Ascends 0 spans.now }
    ensures count { result ≤ length spans.now }
    ensures begun { (i : ℕ) (d : _) → i < result → (slice_index_or spans.now i d).first ≤ point }
    ensures later { (i : ℕ) (d : _) → result ≤ i → i < length spans.now → point < (slice_index_or spans.now i d).first }
{
    let mut low = 0;
    let mut high = spans.len();
    'each: while low < high {
        let middle = low + (high - low) / 2;
        if spans[middle].first <= point {
            low = middle + 1;
        } else {
            high = middle;
        }
    }
    low
}

/// From this point on the variable is set.
pub(crate) fn begin_at(spans: &mut Spans, point: u32)
    requires { AreSpans point spans.old }
    ensures kept { AreSpans point spans.new }
    ensures before { (p : ℕ) → p < point → holds p spans.new ≡ holds p spans.old }
    ensures now { holds point spans.new ≡ true }
{
    if spans.since.is_none() {
        spans.since = Some(point);
    }
}

/// From this point on the variable is no longer set. `Memory` leaves it as it was.
pub(crate) fn end_at(spans: &mut Spans, point: u32) -> Result<(), Memory>
    requires { AreSpans point spans.old }
    ensures kept { AreSpans point spans.new }
    ensures before { (p : ℕ) → p < point → holds p spans.new ≡ holds p spans.old }
    ensures now { OnOk result (holds point spans.new ≡ false) }
    ensures unchanged { OnErr result (holds point spans.new ≡ holds point spans.old) }
{
    let Some(first) = spans.since else {
        return Ok(());
    };
    close(&mut spans.ended, first, point)?;
    spans.since = None;
    Ok(())
}

/// Puts the span behind the others, unless no point is in it.
fn close(ended: &mut Vec<Span>, first: u32, behind: u32) -> Result<(), Memory>
    requires order { Ascends 0 ended.old.items }
    requires apart { end_of 0 ended.old.items ≤ first }
    requires within { first ≤ behind }
    ensures order { Ascends 0 ended.new.items }
    ensures end { end_of 0 ended.new.items ≤ behind }
    ensures closed { OnOk result ((p : ℕ) → p < behind → list_any (within p) ended.new.items ≡ (list_any (within p) ended.old.items || not (nat_lt p first))) }
    ensures unchanged { OnErr result (ended.new.items ≡ ended.old.items) }
{
    if first == behind {
        return Ok(());
    }
    let span = Span { first, behind };
    if ended.push(span).is_err() {
        return Err(Memory);
    }
    Ok(())
}
