//! Chains of codes, in which a code is found by its bits.

ghost use Rattle.std.specs.Prelude.{◌≡◌, ◌≢◌, ◌+◌, ◌-◌, ◌^◌, ◌<◌, ◌≤◌, List, [], length, get_or, if◌then◌else◌};
ghost use Rattle.std.specs.Prelude.{IfOk, IfSome, IfNone, OnErr};
ghost use Rattle.dw_forms.specs.declared.chains.Link.{Link as LinkData};
ghost use Rattle.dw_forms.specs.Chains.{codes_in, number_in, AreBranches, AreBelow, AreMore, AreFound, IsRun};
ghost use Rattle.dw_forms.specs.Chains.{IsAddedChain, same_bit};

use std::alloc::{AllocError, Global};

/// A code, and the chain after it.
#[derive(Clone, Copy, Debug)]
pub struct Link {
    pub code: u64,
    /// Where its branches begin among those of all links, from the lowest bit of its code on. Each is the first link of
    /// its chain whose code differs from its own in that bit and in no bit below, or 0.
    pub branches: usize,
    /// The chain after it.
    pub rest: u32,
    /// How many codes count up from its own while their links' numbers count down, as far as is known.
    pub run: u32,
    /// For how many bits of its code it has branches.
    pub places: u8,
}

/// Links, which are numbered from 1. A chain has the number of its first link; the chain 0 has none.
pub trait Links {
    /// The links in the order of their numbers.
    ghost links: { Self → List LinkData };

    /// The link of a number.
    fn link(&self, number: u32) -> Link
        requires some { 0 < number }
        requires within { number ≤ length (links self.now) }
        ensures { result ≡ get_or (links self.now) (number - 1) result };
}

impl Links for Vec<Link> {
    ghost links = { λ links. links.items };

    #[inline(always)]
    fn link(&self, number: u32) -> Link {
        self[(number - 1) as usize]
    }
}

/// Chains of codes.
#[derive(Debug, Drop)]
pub struct Chains {
    pub(crate) links: Vec<Link>,
    /// The branches of all links.
    pub(crate) branches: Vec<u32>,
    ghost found: { AreFound branches.items links.items },
}

/// The first number, if this is true, and else the other one.
#[inline(always)]
pub(crate) fn number_or(number: u32, is: bool, other: u32) -> u32
    ensures { result ≡ (if is then number else other) }
{
    if is { number } else { other }
}

/// Whether two codes have the same bit at a place.
#[inline(always)]
fn same_bit(code: u64, other: u64, place: u32) -> bool
    requires { place < 64 }
    ensures { result ≡ same_bit code place other }
{
    (code >> place) % 2 == (other >> place) % 2
}

/// The branch of the link of a number at a place, or 0. A link of its own run is as far off as the bit is worth, and no
/// branch is read.
#[inline(always)]
fn branch_at(number: u32, first: &Link, branches: &[u32], place: u32) -> u32
    requires place { place < 64 }
    requires short { first.now.run ≤ number }
    requires within { first.now.branches + first.now.places ≤ length branches.now }
    ensures near { 2 ^ place < first.now.run → result ≡ number - 2 ^ place }
    ensures kept { first.now.run ≤ 2 ^ place → place < first.now.places
        → result ≡ get_or branches.now (first.now.branches + place) 0 }
    ensures none { first.now.run ≤ 2 ^ place → first.now.places ≤ place → result ≡ 0 }
{
    let far = 1u64 << place;
    if far < u64::from(first.run) {
        number - far as u32
    } else if place < first.places as u32 {
        branches[first.branches + place as usize]
    } else {
        0
    }
}

/// The number of the link of a chain that has this code, or 0. Each turn goes on among the links that have one more bit
/// of the code at least, so there are at most as many as the codes have bits.
#[inline(never)]
pub(crate) fn search<L: Links>(links: &L, branches: &[u32], chain: u32, code: u64) -> u32
    requires chain { chain ≤ length (L.links links.now) }
    requires found { AreFound branches.now (L.links links.now) }
    ensures { result ≡ number_in (codes_in (L.links links.now) chain) code }
{
    let mut number = chain;
    while number != 0 {
        let first = links.link(number);
        let differing = first.code ^ code;
        if differing == 0 {
            return number;
        }
        number = branch_at(number, &first, branches, differing.trailing_zeros());
    }
    0
}

/// Appends the branches of a link with this code before a chain, and returns for how many bits they are. None if the
/// chain has the code already.
pub(crate) fn push_branches<L: Links>(
    links: &L,
    branches: &mut Vec<u32>,
    rest: u32,
    code: u64,
) -> Result<Option<u32>, AllocError>
    requires rest { rest ≤ length (L.links links.now) }
    requires found { AreFound branches.old.items (L.links links.now) }
    ensures found { AreFound branches.new.items (L.links links.now) }
    ensures more { AreMore branches.old.items branches.new.items }
    ensures branches { IfOk result (λ found. IfSome found (λ count. AreBranches branches.new.items
        (length branches.old.items) count code (codes_in (L.links links.now) rest))) }
    ensures below { IfOk result (λ found. IfSome found (λ count. AreBelow branches.new.items
        (length branches.old.items) count (length (L.links links.now) + 1))) }
    ensures few { IfOk result (λ found. IfSome found (λ count. count ≤ 64)) }
    ensures new { IfOk result (λ found. IfSome found (λ _. number_in (codes_in (L.links links.now) rest) code ≡ 0)) }
    ensures twice { IfOk result (λ found. IfNone found (number_in (codes_in (L.links links.now) rest) code ≢ 0)) }
{
    let mut number = rest;
    for place in 0..64 {
        if number == 0 {
            return Ok(Some(place));
        }
        let first = links.link(number);
        let other = branch_at(number, &first, branches, place);
        let same = same_bit(code, first.code, place);
        branches.push(number_or(other, same, number))?;
        number = number_or(number, same, other);
    }
    if number == 0 {
        return Ok(Some(64));
    }
    // Codes that agree in all bits are the same.
    let last = links.link(number);
    if last.code != code {
        unreachable!();
    }
    Ok(None)
}

/// How many codes count up from this one while their links' numbers count down, for the next link.
fn run_before(links: &[Link], branches: &[u32], rest: u32, code: u64) -> u32
    requires rest { rest ≤ length links.now }
    requires few { length links.now < 0xffffffff }
    requires found { AreFound branches.now links.now }
    ensures short { result ≤ length links.now + 1 }
    ensures run { IsRun (codes_in links.now rest) (result - 1) (code + 1) (length links.now) }
{
    if rest != 0 && rest as usize == links.len() {
        let next = &links[(rest - 1) as usize];
        if code < next.code && next.code - code == 1 {
            return next.run + 1;
        }
    }
    1
}

impl Chains {
    /// No chains.
    pub fn new(alloc: Global) -> Chains
        ensures { result.links.items ≡ [] }
    {
        Chains {
            links: Vec::new(alloc),
            branches: Vec::new(alloc),
        }
    }

    /// The number of the link of a chain that has this code, or 0.
    #[inline(always)]
    #[tactic(auto, using(crate::proofs::CodeLaws::none_number, crate::proofs::RunLaws::run_found))]
    pub fn find(&self, chain: u32, code: u64) -> u32
        requires { chain ≤ length self.now.links.items }
        ensures { result ≡ number_in (codes_in self.now.links.items chain) code }
    {
        if chain == 0 {
            return 0;
        }
        let first = &self.links[(chain - 1) as usize];
        let base = first.code;
        if base <= code && code - base < first.run as u64 {
            chain - (code - base) as u32
        } else {
            search(&self.links, &self.branches, chain, code)
        }
    }

    /// Adds a code before a chain, and returns the number of the chain that begins with it. None if the chain has the
    /// code already.
    #[inline(always)]
    pub fn push(&mut self, rest: u32, code: u64) -> Result<Option<u32>, AllocError>
        requires rest { rest ≤ length self.old.links.items }
        requires few { length self.old.links.items < 0xffffffff }
        ensures added { IfOk result (IsAddedChain code rest self.old.links.items self.new.links.items) }
        ensures err { OnErr result (self.new.links.items ≡ self.old.links.items) }
    {
        let number = self.links.len() as u32 + 1;
        let run = run_before(&self.links, &self.branches, rest, code);
        let branches = self.branches.len();
        let Some(places) = push_branches(&self.links, &mut self.branches, rest, code)? else {
            return Ok(None);
        };
        self.links.push(Link {
            code,
            branches,
            rest,
            run,
            places: places as u8,
        })?;
        Ok(Some(number))
    }
}
