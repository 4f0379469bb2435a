// The draw of document 01. Accept bits alone steer its loop, and they are public.
#![tactic(auto)]

ghost use Rattle.std.specs.Prelude.{◌≡◌, ◌+◌, ◌*◌, ◌^◌, ◌≤◌, length};
ghost use Rattle.exponential.specs.Exponential.{exp_scaled};
ghost use Rattle.sampler.specs.Draw.{draw_bits, draw_list_length, sampled_by};

use attempt::Tables;

// The entries that a draw lists beside those of its attempts: the degree, and the samples accepted.
pub const OTHER_ENTRIES: usize = 2;

// The counts of a draw: attempts made, samples accepted, entries listed.
#[derive(Clone, Copy)]
pub struct Counts {
    pub attempts: usize,
    pub accepted: usize,
    pub entries: usize,
}

// A draw of 2n samples within a limit of attempts. A sample is always stored at the next place of y, and the place moves on by its accept
// bit. y holds the samples where there are as many as wanted, else it is all zero. Entries are listed from the start of the list on, and
// the rest of the list is unchanged.
pub fn draw(
    degree: usize,
    limit: usize,
    tables: Tables,
    words: &[u64],
    y: &mut [i32],
    list: &mut [u32],
) -> Counts
    requires { (degree ≤ 2 ^ 20)
        × (limit ≤ 2 ^ 20)
        × (4 * limit ≤ length words.now)
        × (length y.old ≡ 2 * degree)
        × (draw_list_length limit ≤ length list.old) }
    ensures { record { counts = result; y = y.new; list = list.new }
        ≡ sampled_by degree tables.entry.cdt.words.now words.now
        (draw_bits (exp_scaled tables.entry.exponential.table.now tables.entry.exponential.reciprocal)
        tables.entry.cdt.words.now words.now limit (2 * degree))
        list.old }
{
    let want = 2 * degree;
    read_list::note(read_list::DRAW, degree, &mut list[0]);
    let mut t: usize = 0;
    let mut k: usize = 0;
    let mut at: usize = 1;
    // The attempts are counted, since the answer has their number: a `for` that is left early would have to count them beside.
    while (t < limit) & (k < want) {
        let accepted = tables.attempt(words, t, y, k, &mut list[at..]);
        k += accepted as usize;
        at += attempt::ENTRIES;
        t += 1;
    }
    read_list::note(read_list::ACCEPTED, k, &mut list[at]);
    let entries = at + 1;
    let counts = Counts {
        attempts: t,
        accepted: k,
        entries,
    };
    if k != want {
        signed::zero_all(y);
    }
    counts
}
