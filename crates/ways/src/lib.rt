//! The ways of a pair: one search forward from the source's switch gives every switch its depth, so the distance; one pass back over it
//! gives every mask. A table and two processors are three parameters of the public functions, as they are of the C calls.
#![tactic(auto)]

ghost use Rattle.std.specs.Prelude.{◌≡◌, ◌<◌, get_or};
ghost use Rattle.rules.specs.Answers.{measured};
ghost use Rattle.rules.specs.Sets.{tabulate};
ghost use Rattle.rules.specs.Look.{least_at};
ghost use Rattle.rules.specs.Table.{house, leads, far_of, switches};
ghost use Rattle.rules.specs.RunTable.{stands};
ghost use Rattle.rules.specs.Run.{mask_of};
ghost use Rattle.rules.specs.Promise.{Measured, Masked};
ghost use Rattle.ways.specs.Search.{Searched};
ghost use Rattle.ways.specs.Onward.{ahead, onward_of};
ghost use Rattle.ways.specs.Pairs.{measure_pair, paired, pair_of};
ghost use Rattle.wiring.specs.Entries.{Inside};
ghost use Rattle.ways.specs.Inner.{Listed, Expands, Expanded, Ready, Meets};

mod search;

use rules::{Entry, Refusal};
use search::Search;
use wiring::{Fabric, find, judge};

/// A pair's distance, the switch of its source, and the mask of each switch.
#[derive(Clone, Copy, Debug, PartialEq, Eq)]
pub struct Pair {
    pub distance: u8,
    pub home: usize,
    pub masks: [u8; 64],
}

/// The distance from processor `source` to processor `target`, in switches passed.
pub fn distance(table: &[u16], source: u64, target: u64) -> Result<u8, Refusal>
    ensures { Measured house table.now source target (measured result) }
{
    judge(table)?;
    measure_pair(table, source, target)
}

/// Writes the mask of each switch, a byte for each, over the start of `out`, and gives the distance.
pub fn masks(table: &[u16], source: u64, target: u64, out: &mut [u8]) -> Result<u8, Refusal>
    ensures { Masked house table.now source target out.old (measured result) out.new }
{
    judge(table)?;
    let pair = mask_pair(table, source, target)?;
    let n = table.len() / 8;
    if out.len() < n {
        return Err(Refusal::ShortOutput);
    }
    out[..n].copy_from_slice(&pair.masks[..n]);
    Ok(pair.distance)
}

/// The distance of a pair in a table that has been judged; on any other table it is what measure_pair of specs/Pairs says.
pub fn measure_pair(table: &[u16], source: u64, target: u64) -> Result<u8, Refusal>
    ensures { measured result ≡ measure_pair house table.now source target }
{
    if 512 < table.len() {
        return Err(Refusal::WrongLength);
    }
    Ok(meet(&Fabric { table }, source, target)?.distance)
}

/// The distance, the source's switch and the masks of a pair in a table that has been judged; on any other table what pair_of says.
pub fn mask_pair(table: &[u16], source: u64, target: u64) -> Result<Pair, Refusal>
    ensures { paired result ≡ pair_of house table.now source target }
{
    if 512 < table.len() {
        return Err(Refusal::WrongLength);
    }
    let fabric = Fabric { table };
    let met = meet(&fabric, source, target)?;
    if 8 < met.distance {
        return Err(Refusal::TooFar);
    }
    Ok(Pair {
        distance: met.distance,
        home: met.home,
        masks: all_masks(&fabric, target, &met),
    })
}

/// How the search from the source's switch met the target: the distance, the source's switch and what was found.
#[derive(Clone, Copy, Debug, PartialEq, Eq)]
struct Met {
    distance: u8,
    home: usize,
    found: Search,
}

/// Searches from the switch of the source, and looks for the target in the order found.
fn meet(fabric: &Fabric, source: u64, target: u64) -> Result<Met, Refusal>
    ensures { Meets fabric.now.table.now source target result }
{
    let Some(at) = find(fabric.table, source) else {
        return Err(Refusal::NotAttached);
    };
    if find(fabric.table, target).is_none() {
        return Err(Refusal::NotAttached);
    }
    if source == target {
        return Err(Refusal::SameNode);
    }
    let home = at / 8;
    let found = search_from(fabric, home);
    let Some(i) = arrive(fabric, target, &found) else {
        return Err(Refusal::Unreachable);
    };
    Ok(Met {
        distance: found.depth[found.order[i] as usize],
        home,
        found,
    })
}

/// Breadth first from the switch `home`, along the links.
fn search_from(fabric: &Fabric, home: usize) -> Search
    requires { home < switches fabric.now.table.now }
    ensures { Searched (far_of house fabric.now.table.now) (switches fabric.now.table.now) home result.order result.depth result.reached }
{
    let mut order = [0; 64];
    let mut depth = [0; 64];
    order[0] = home as u8;
    depth[home] = 1;
    let mut search = Search {
        order,
        depth,
        reached: 1,
    };
    let mut next = 0;
    // Stays a `while`: `Queue` of specs/Search is said of the next in the queue, which the rules name, and no range holds its end, which moves.
    while next < search.reached {
        expand(fabric, next, &mut search);
        next += 1;
    }
    search
}

/// Goes on from the next switch of the order along its eight ports.
#[tactic(auto, using(crate::proofs::SearchCode::going_start))]
fn expand(fabric: &Fabric, next: usize, search: &mut Search)
    requires { Expands fabric.now.table.now next search.old }
    ensures { Expanded fabric.now.table.now next search.old search.new }
{
    let s = search.order[next] as usize;
    let deeper = search.depth[s] + 1;
    for p in 0..8 {
        if let Entry::Switch(v) = fabric.entry(s, p) {
            let v = v as usize;
            if search.depth[v] == 0 {
                search.depth[v] = deeper;
                search.order[search.reached] = v as u8;
                search.reached += 1;
            }
        }
    }
}

/// The place in the order of the first switch at which the processor stands.
#[tactic(auto, using(crate::proofs::SearchCode::first_none))]
fn arrive(fabric: &Fabric, target: u64, search: &Search) -> Option<usize>
    requires { Listed (switches fabric.now.table.now) search.now.order search.now.reached }
    ensures { result ≡ least_at search.now.reached (λ i. stands house fabric.now.table.now target (get_or search.now.order i 0)) }
{
    for i in 0..search.reached {
        if stands_at(fabric, target, search.order[i] as usize) {
            return Some(i);
        }
    }
    None
}

/// Whether the processor stands at a port of switch `s`.
#[tactic(auto, using(crate::proofs::SearchCode::stands_here, crate::proofs::SearchCode::stands_nowhere), unfolding(rules::specs::Table::leads))]
fn stands_at(fabric: &Fabric, target: u64, s: usize) -> bool
    requires { s < switches fabric.now.table.now }
    ensures { result ≡ stands house fabric.now.table.now target s }
{
    for p in 0..8 {
        if let Entry::Node(a) = fabric.entry(s, p) {
            if a as u64 == target {
                return true;
            }
        }
    }
    false
}

/// The mask of every switch, from the farthest reached back to the source's: each needs only those one further on.
fn all_masks(fabric: &Fabric, target: u64, met: &Met) -> [u8; 64]
    requires { Ready fabric.now.table.now target met.now.home met.now.found.order met.now.found.depth met.now.found.reached met.now.distance }
    ensures { result ≡ tabulate 64 (mask_of (far_of house fabric.now.table.now) (switches fabric.now.table.now) target met.now.home) }
{
    let mut masks = [0; 64];
    let found = &met.found;
    for i in (0..found.reached).rev() {
        let s = found.order[i] as usize;
        let depth = found.depth[s];
        if depth <= met.distance {
            masks[s] = mask_of(
                fabric,
                target,
                s,
                depth == met.distance,
                &found.depth,
                &masks,
            );
        }
    }
    masks
}

/// The ports of switch `s` that lead to the target, where `s` is the last switch, or to a switch one further on that has a mask. Depths and masks
/// come apart, since the masks alone are handed out; `last` is a fact of the switch, and a closure for it is no plainer. The target goes beside
/// the fabric from `arrive` on: it comes from outside, and a type of the two is no plainer.
#[tactic(auto, using(crate::proofs::MaskCode::grown_with, crate::proofs::MaskCode::grown_without), unfolding(rules::specs::Sets::set_of, crate::specs::Onward::onward_of))]
fn mask_of(
    fabric: &Fabric,
    target: u64,
    s: usize,
    last: bool,
    depth: &[u8; 64],
    masks: &[u8; 64],
) -> u8
    requires { s < switches fabric.now.table.now }
    ensures { result ≡ onward_of (far_of house fabric.now.table.now) s target last depth.now masks.now }
{
    let mut mask = 0;
    for p in 0..8 {
        if leads_on(fabric.entry(s, p), target, s, last, depth, masks) {
            mask |= 1 << p;
        }
    }
    mask
}

/// Whether an entry of switch `s` lies on a shortest way to the target.
#[tactic(auto, unfolding(crate::specs::Onward::ahead, rules::specs::Table::leads))]
fn leads_on(e: Entry, target: u64, s: usize, last: bool, depth: &[u8; 64], masks: &[u8; 64]) -> bool
    requires { Inside e × (s < 64) }
    ensures { result ≡ ahead target last depth.now masks.now (get_or depth.now s 0) (leads e) }
{
    match e {
        Entry::Switch(v) => {
            let v = v as usize;
            depth[v] as u16 == depth[s] as u16 + 1 && masks[v] != 0
        }
        Entry::Node(a) => last && a as u64 == target,
        Entry::Nothing | Entry::Bad => false,
    }
}
