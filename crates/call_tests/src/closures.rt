//! Closures worked out by hand.
ghost use Rattle.std.specs.Prelude.{◌≡◌, ℕ, ◌+◌, ◌-◌, ◌/◌, ◌<◌, ◌≤◌, ◌==◌, List, [], ◌∷◌, length, map, filter, if◌then◌else◌, nat_lt, bit_xor, slice_index, ⊤, IfOk, Ok, Err};
ghost use Rattle.cv_fix.specs.Answer.{IsAnswer};
ghost use Rattle.cv_fix.specs.Last.{by_last};

use cv_base::Memory;
use cv_fix::{CloseFault, Closed, RuleStop, Rules, Steps, Twin, close};
use std::alloc::{AllocError, Global};
use std::marker::Brand;
use std::mem::size_of;
use std::test::*;

/// The edges of a graph of numbers. One number is refused.
#[derive(Drop)]
struct Graph {
    edges: Vec<(u32, u32)>,
    refused: u32,
    limit: u64,
}

impl Rules for Graph {
    type Item = u32;

    type Stop = u32;

    ghost ready = { λ graph xs. ⊤ };

    ghost follows = { λ graph. by_last (λ x. if x == graph.refused
        then Err x
        else Ok (map (λ e. e.1) (filter (λ e. e.0 == x) graph.edges.items))) };

    ghost most = { λ graph. graph.limit };

    fn limit(&self) -> u64 {
        self.limit
    }

    fn note(&mut self, _: Global, _: &[u32], _: usize) -> Result<(), Memory> {
        Ok(())
    }

    fn successors(
        &self,
        alloc: Global,
        so_far: &[u32],
        at: usize,
    ) -> Result<Vec<u32>, RuleStop<u32>> {
        self.targets(alloc, so_far[at])
    }
}

impl Graph {
    /// Where the edges of a number end, unless it is refused.
    fn targets(&self, alloc: Global, from: u32) -> Result<Vec<u32>, RuleStop<u32>>
        ensures { IsAnswer result (if from == self.now.refused
            then Err from
            else Ok (map (λ e. e.1) (filter (λ e. e.0 == from) self.now.edges.items))) }
    {
        if from == self.refused {
            return Err(RuleStop::Stop(from));
        }
        match ends(alloc, self.edges.as_slice(), from) {
            Ok(found) => Ok(found),
            Err(_) => Err(RuleStop::Memory),
        }
    }
}

/// Where the edges of a number end.
fn ends(alloc: Global, edges: &[(u32, u32)], from: u32) -> Result<Vec<u32>, AllocError>
    ensures { IfOk result
        (λ found. found.items ≡ map (λ e. e.1) (filter (λ e. e.0 == from) edges.now)) }
{
    edges
        .iter()
        .filter(|e| e.0 == from)
        .map(|e| e.1)
        .collect(alloc)
}

/// The closure of numbers under exclusive or. It keeps the numbers that it was asked about.
#[derive(Drop)]
struct Differences {
    seen: Vec<u32>,
}

impl Rules for Differences {
    type Item = u32;

    type Stop = ();

    ghost ready = { λ rules xs. rules.seen.items ≡ xs };

    ghost follows = { λ rules xs. Ok (map (λ x. bit_xor x (slice_index xs (length xs - 1))) xs) };

    ghost most = { λ rules. 100 };

    fn limit(&self) -> u64 {
        100
    }

    fn note(&mut self, _: Global, so_far: &[u32], at: usize) -> Result<(), Memory> {
        self.seen.push(so_far[at]).map_err(|_| Memory)
    }

    fn successors(
        &self,
        alloc: Global,
        so_far: &[u32],
        at: usize,
    ) -> Result<Vec<u32>, RuleStop<()>> {
        match combined(alloc, self.seen.as_slice(), so_far[at]) {
            Ok(found) => Ok(found),
            Err(Memory) => Err(RuleStop::Memory),
        }
    }
}

/// Each of the numbers combined with `item`.
fn combined(alloc: Global, numbers: &[u32], item: u32) -> Result<Vec<u32>, Memory>
    ensures { IfOk result (λ found. found.items ≡ map (λ x. bit_xor x item) numbers.now) }
{
    numbers
        .iter()
        .map(|x| *x ^ item)
        .collect(alloc)
        .map_err(|_| Memory)
}

/// A number, told four times.
type Told = ((u64, u64), (u64, u64));

fn told(n: u64) -> Told
    ensures { result ≡ ((n, n), (n, n)) }
{
    ((n, n), (n, n))
}

/// The numbers up to a last one. Each gives the next one, and one that is there.
#[derive(Drop)]
struct Line {
    last: u64,
}

impl Rules for Line {
    type Item = Told;

    type Stop = ();

    ghost ready = { λ line xs. ⊤ };

    ghost follows = { λ line. by_last (λ x. let n = x.0.0 in Ok (if nat_lt n line.last
        then ((n + 1, n + 1), (n + 1, n + 1)) ∷ ((n / 2 + 1, n / 2 + 1), (n / 2 + 1, n / 2 + 1)) ∷ []
        else [])) };

    ghost most = { λ line. line.last };

    fn limit(&self) -> u64 {
        self.last
    }

    fn note(&mut self, _: Global, _: &[Told], _: usize) -> Result<(), Memory> {
        Ok(())
    }

    fn successors(
        &self,
        alloc: Global,
        so_far: &[Told],
        at: usize,
    ) -> Result<Vec<Told>, RuleStop<()>> {
        self.next(alloc, so_far[at].0.0)
    }
}

impl Line {
    fn next(&self, alloc: Global, n: u64) -> Result<Vec<Told>, RuleStop<()>>
        ensures { IsAnswer result (Ok (if nat_lt n self.now.last
            then ((n + 1, n + 1), (n + 1, n + 1)) ∷ ((n / 2 + 1, n / 2 + 1), (n / 2 + 1, n / 2 + 1)) ∷ []
            else [])) }
    {
        if n >= self.last {
            return Ok(Vec::new(alloc));
        }
        match vec![in alloc; told(n + 1), told(n / 2 + 1)] {
            Ok(found) => Ok(found),
            Err(_) => Err(RuleStop::Memory),
        }
    }
}

/// What is reached from 1 and 7.
fn reached(alloc: Global, refused: u32, limit: u64) -> Result<Closed<u32>, CloseFault<u32>>
    requires { 2 ≤ limit }
{
    let Ok(edges) = vec![in alloc; (1, 2), (1, 3), (2, 4), (3, 4), (4, 1), (5, 6)] else {
        return Err(CloseFault::Memory);
    };
    let Ok(starts) = vec![in alloc; 1, 7, 1] else {
        return Err(CloseFault::Memory);
    };
    let mut steps: Steps<Brand> = Steps::new();
    close(
        alloc,
        &mut Graph {
            edges,
            refused,
            limit,
        },
        starts,
        &mut steps,
    )
}

#[test]
fn reaches_by_edges(rt: HostRuntime) -> Result<(), Fail> {
    let closed = reached(rt.alloc(), 0, 5)?;
    assert_eq!(rt; closed.items.as_slice(), [1, 7, 2, 3, 4].as_slice());
    let causes = [None, None, Some(0), Some(0), Some(2)];
    assert_eq!(rt; closed.causes.as_slice(), causes.as_slice());
    Ok(())
}

#[test]
fn stops_at_the_first_refusal(rt: HostRuntime) {
    for refused in [1, 7, 3, 4] {
        let answer = reached(rt.alloc(), refused, 5).err();
        assert_eq!(rt; answer, Some(CloseFault::Stop(refused)));
    }
}

#[test]
fn passes_the_limit(rt: HostRuntime) {
    for (limit, at) in [(4, 2), (3, 0), (2, 0)] {
        let answer = reached(rt.alloc(), 0, limit).err();
        assert_eq!(rt; answer, Some(CloseFault::Over { at }));
    }
}

#[test]
fn keeps_an_index(rt: HostRuntime) -> Result<(), Fail> {
    let alloc = rt.alloc();
    let mut rules = Differences {
        seen: Vec::new(alloc),
    };
    let mut steps: Steps<Brand> = Steps::new();
    let starts = vec![in alloc; 1, 2, 4]?;
    let closed = close(alloc, &mut rules, starts, &mut steps)?;
    assert_eq!(rt;
        closed.items.as_slice(),
        [1, 2, 4, 0, 3, 5, 6, 7].as_slice()
    );
    let causes = [
        None,
        None,
        None,
        Some(0),
        Some(1),
        Some(2),
        Some(2),
        Some(4),
    ];
    assert_eq!(rt; closed.causes.as_slice(), causes.as_slice());
    Ok(())
}

#[test]
fn makes_twins(rt: HostRuntime) {
    assert_eq!(rt; 7u32.twin(rt.alloc()), Ok(7));
    assert_eq!(rt; told(7).twin(rt.alloc()), Ok(told(7)));
}

#[test]
fn counts_without_bytes(rt: HostRuntime) {
    assert_eq!(rt; size_of::<Steps<Brand>>(), 0);
}

#[test]
fn goes_far(rt: HostRuntime) -> Result<(), Fail> {
    let alloc = rt.alloc();
    let mut steps: Steps<Brand> = Steps::new();
    let starts = vec![in alloc; told(1)]?;
    let closed = close(alloc, &mut Line { last: 300000 }, starts, &mut steps)?;
    assert_eq!(rt; closed.items.len(), 300000);
    assert_eq!(rt; closed.items.last().copied(), Some(told(300000)));
    assert_eq!(rt; closed.causes.last().copied(), Some(Some(299998)));
    Ok(())
}
