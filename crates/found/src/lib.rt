//! What a header search has found from a set of switches: the wider of two headers, what is kept of a set that was searched, the words written out.
#![tactic(auto)]

ghost use Rattle.std.specs.Prelude.{◌≡◌, ◌-◌, set};
ghost use Rattle.found.specs.Found.{last_found, wider_found, total_found, within_room, recalled_of, written};

/// The widest header found: its words at the end of the eight, the number of lists it permits, 0 where there is none, and the tries.
#[derive(Clone, Copy, Debug, PartialEq, Eq)]
pub struct Found {
    // Always eight, and how many of them are the header's is told beside them: nothing may allocate.
    pub words: [u8; 8],
    // 0 for no header, so the narrowest of all. An Option is no plainer: `wider` would look for None twice, `issue_pair` once where none comes.
    pub count: u32,
    pub tries: u32,
}

/// What was found from the set that was searched last at a stage.
#[derive(Clone, Copy, Debug, PartialEq, Eq)]
pub struct Kept {
    pub set: u64,
    pub found: Found,
}

/// The last stage: all common ports, and none are no header. It adds no try.
pub fn last(ports: u8) -> Found
    ensures { result ≡ last_found ports }
{
    let mut words = [0; 8];
    words[7] = ports;
    Found {
        words,
        count: ports.count_ones(),
        tries: 0,
    }
}

/// The wider of the header kept and that of the word w before the rest, with `left` words in all; of equals the one kept. A count that a search
/// finds is far below 2 to the power 29, so that modulo it nothing is cut, and the product fits.
#[tactic(auto, unfolding(crate::specs::Found::wider_found))]
pub fn wider(kept: Found, rest: Found, w: u8, left: usize) -> Found
    ensures { result ≡ wider_found kept rest w left }
{
    let count = (rest.count % 536870912) * w.count_ones();
    if count <= kept.count {
        return kept;
    }
    Found {
        words: put(rest.words, front(left), w),
        count,
        tries: 0,
    }
}

/// Where the first of `left` words at the end of the eight stands.
fn front(left: usize) -> usize
    ensures { result ≡ 8 - left }
{
    8usize.saturating_sub(left)
}

/// The words with w at an index, if there is such.
fn put(mut words: [u8; 8], at: usize, w: u8) -> [u8; 8]
    ensures { result ≡ set words at w }
{
    if at < 8 {
        words[at] = w;
    }
    words
}

/// What all choices of a set gave: an Err where the tries have passed the budget, which says too what was found until then.
pub fn total(best: Found, tries: u32, budget: u32) -> Result<Found, Found>
    ensures { result ≡ total_found best tries budget }
{
    let all = Found { tries, ..best };
    if tries > budget {
        return Err(all);
    }
    Ok(all)
}

/// What is kept of the set, or None where it has to be searched.
pub fn recalled(kept: Option<Kept>, set: u64) -> Option<Found>
    ensures { result ≡ recalled_of kept set }
{
    let kept = kept?;
    if kept.set != set {
        return None;
    }
    Some(kept.found)
}

/// What was found, as a search within `room` would find it.
pub fn within(found: Found, room: u32) -> Option<Found>
    ensures { result ≡ within_room found room }
{
    if room < found.tries {
        return None;
    }
    Some(found)
}

/// Writes the words, then zeros up to the eighth byte; nothing where there are fewer than eight bytes or more than eight words.
#[tactic(auto, unfolding(crate::specs::Found::written))]
pub fn write(words: &[u8], out: &mut [u8])
    ensures { out.new ≡ written words.now out.old }
{
    let n = words.len();
    if out.len() < 8 || n > 8 {
        return;
    }
    out[..n].copy_from_slice(words);
    out[n..8].fill(0);
}
