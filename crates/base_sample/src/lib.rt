// The CDT table, its high words first, and the base sample of document 01. The scan does not branch on the draw.
#![tactic(auto)]

ghost use Rattle.std.specs.Prelude.{◌≡◌, true, ◌+◌, ◌*◌, ◌^◌, ◌≤◌, ◌<◌, length, get_or, take};
ghost use Rattle.std.proofs.lemmas.List.Edits.{sets};
ghost use Rattle.arithmetic.specs.Words.{value};
ghost use Rattle.read_list.specs.Entries.{places_up};
ghost use Rattle.base_sample.specs.BaseSample.{threshold, words_small, never_falls, is_cdt, base_sample};

use arithmetic::Wide;

// The words of a CDT table.
pub const CDT_WORDS: usize = 20;

// Its thresholds, and the index of the last one.
const THRESHOLDS: usize = 10;

const LAST: usize = THRESHOLDS - 1;

// Whether a lent table of 20 words is a CDT table.
pub fn is_cdt(table: &[u64]) -> bool
    requires { length table.now ≡ 20 }
    ensures { result ≡ is_cdt table.now }
{
    if !words_small(table) {
        return false;
    }
    never_falls(table)
}

// Whether every word of a CDT table is below 2^62.
fn words_small(cdt: &[u64]) -> bool
    requires { length cdt.now ≡ 20 }
    ensures { result ≡ words_small cdt.now }
{
    for word in cdt {
        if arithmetic::TWO_62 <= *word {
            return false;
        }
    }
    true
}

// Whether the thresholds of a CDT table of small words never fall.
fn never_falls(cdt: &[u64]) -> bool
    requires { (length cdt.now ≡ 20) × (words_small cdt.now ≡ true) }
    ensures { result ≡ never_falls (threshold cdt.now) }
{
    for i in 0..LAST {
        let here = threshold_at(cdt, i);
        let next = threshold_at(cdt, i + 1);
        if arithmetic::less(next, here) == 1 {
            return false;
        }
    }
    true
}

// Threshold i of a CDT table.
fn threshold_at(cdt: &[u64], i: usize) -> Wide<62>
    requires { (length cdt.now ≡ 20) × (i < 10) }
    ensures { (result.high ≡ get_or cdt.now i 0) × (result.low ≡ get_or cdt.now (10 + i) 0) }
{
    Wide {
        high: cdt[i],
        low: cdt[THRESHOLDS + i],
    }
}

// A CDT table that is lent: twenty words, each below 2^62.
#[derive(Clone, Copy)]
pub struct Cdt<'a> {
    pub words: &'a [u64],
    ghost twenty: { length words.now ≡ 20 },
    ghost small: { words_small words.now ≡ true },
}

impl Cdt<'_> {
    // The base sample of a draw. All twenty words are read, in order, and listed from the start of a list on: so the high words are held
    // until the low ones come. The rest of the list is unchanged.
    pub fn scan(self, draw: Wide<62>, list: &mut [u32]) -> u64
        requires { (draw.low < 2 ^ 62) × (20 ≤ length list.old) }
        ensures { (result ≡ base_sample self.entry.words.now (value draw))
            × (result ≤ 10)
            × (list.new ≡ sets list.old 0 (places_up 3 0 20)) }
    {
        let high = read_list::listed_words(self.words, read_list::CDT, 0, list);
        self.at_or_below(&high, draw, &mut list[THRESHOLDS..])
    }

    // The number of thresholds at or below a draw, where these are the table's high words; its low words are listed from the start of a
    // list on.
    fn at_or_below(self, high: &[u64; THRESHOLDS], draw: Wide<62>, list: &mut [u32]) -> u64
        requires { (high.now ≡ take 10 self.words.now)
            × (draw.low < 2 ^ 62)
            × (10 ≤ length list.old) }
        ensures { (result ≡ base_sample self.entry.words.now (value draw))
            × (result ≤ 10)
            × (list.new ≡ sets list.old 0 (places_up 3 10 10)) }
    {
        let mut x = THRESHOLDS as u64;
        for i in 0..THRESHOLDS {
            let low = read_list::listed(self.words, read_list::CDT, THRESHOLDS + i, &mut list[i]);
            x -= arithmetic::less(draw, Wide { high: high[i], low });
        }
        x
    }
}
