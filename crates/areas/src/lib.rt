// Lent areas of words: a word read wherever a caller asks, and words set to 0. How labels stand in an area is in `rows`.
#![tactic(auto)]

pub mod rows;

ghost use Rattle.std.specs.Prelude.{◌≡◌, get_or};
ghost use Rattle.areas.specs.Areas.{zeroed};

// The i-th word; past the end it is 0. Names and pairs of names stand in lists of words.
pub fn word_at(words: &[u64], i: usize) -> u64
    ensures { result ≡ get_or words.now i 0 }
{
    words.get(i).copied().unwrap_or(0)
}

// The first so many words of an area are set to 0, as far as it reaches.
pub fn clear(area: &mut [u64], count: usize)
    ensures { area.new ≡ zeroed count area.old }
{
    let end = count.min(area.len());
    area[..end].fill(0);
}
