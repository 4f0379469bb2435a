// The product of a challenge with the key, modulo X^n + 1. Branches may depend on the challenge, and none on a key value.
#![tactic(auto)]

ghost use Rattle.std.specs.Prelude.{◌≡◌, true, ◌+◌, ◌*◌, ◌≤◌, ◌<◌, length};
ghost use Rattle.std.proofs.lemmas.List.Edits.{sets};
ghost use Rattle.signed.specs.Vectors.{all_within, square_sum};
ghost use Rattle.read_list.specs.Entries.{entry};
ghost use Rattle.challenge_product.specs.Product.{key_bound, index_of, term_at, output_at, outputs_from, product};
ghost use Rattle.challenge.specs.Challenge.{most_positions, positions_below};
ghost use Rattle.challenge_product.specs.Product.{output_entries, output_entries_from, product_entries};

// The largest size of a key value.
pub const KEY_BOUND: u32 = 7;

// A key and a challenge, by which it is multiplied.
#[derive(Clone, Copy)]
pub struct Factors<'k, 'c> {
    pub key: &'k [i32],
    pub challenge: &'c [u32],
    pub degree: usize,
    ghost low: { degree ≤ 1024 },
    ghost both: { length key.now ≡ 2 * degree },
    ghost small: { all_within key_bound key.now ≡ true },
    ghost few: { length challenge.now ≤ most_positions },
    ghost below: { positions_below degree challenge.now ≡ true },
}

impl Factors<'_, '_> {
    // The challenge product, written to z, half by half. The reads of the key are listed from the start of a list on, and the rest of the
    // list is unchanged. Gives the sum of squares A.
    pub fn product_listed(self, z: &mut [i32], list: &mut [u32]) -> u64
        requires { (length z.old ≡ 2 * self.degree)
            × (2 * self.degree * length self.challenge.now ≤ length list.old) }
        ensures value { result ≡ square_sum (product self.entry.key.now self.entry.degree self.entry.challenge.now) }
        ensures z_after { z.new ≡ product self.entry.key.now self.entry.degree self.entry.challenge.now }
        ensures list_after { list.new ≡ sets list.old 0 (product_entries self.entry.degree self.entry.challenge.now) }
    {
        let first = self.half(0, z, list);
        let at = self.degree * self.challenge.len();
        let second = self.half(self.degree, z, &mut list[at..]);
        first + second
    }

    // The outputs of the half that starts at `base`, written to the same place in z. The reads of the key are listed from the start of a
    // list on, and the rest of the list is unchanged. Gives their sum of squares. It is not inlined: of two copies of its loops in a
    // response, each reads its arguments from the stack at every position.
    #[inline(never)]
    fn half(self, base: usize, z: &mut [i32], list: &mut [u32]) -> u64
        requires { (base ≤ self.degree)
            × (length z.old ≡ 2 * self.degree)
            × (self.degree * length self.challenge.now ≤ length list.old) }
        ensures value { result
            ≡ square_sum (outputs_from self.entry.key.now self.entry.degree base self.entry.challenge.now 0 self.entry.degree) }
        ensures z_after { z.new
            ≡ sets z.old base (outputs_from self.entry.key.now self.entry.degree base self.entry.challenge.now 0 self.entry.degree) }
        ensures list_after { list.new
            ≡ sets list.old 0 (output_entries_from self.entry.degree base self.entry.challenge.now 0 self.entry.degree) }
    {
        let mut squares: u64 = 0;
        for i in 0..self.degree {
            let output = self.output_at(base, i, &mut list[i * self.challenge.len()..]);
            z[base + i] = output;
            squares += signed::square(output);
        }
        squares
    }

    // Output i of the half that starts at `base`. The reads of the key are listed from the start of a list on, and the rest of the list is
    // unchanged.
    fn output_at(self, base: usize, i: usize, list: &mut [u32]) -> i32
        requires { (base ≤ self.degree) × (i < self.degree) × (length self.challenge.now ≤ length list.old) }
        ensures { (result ≡ output_at self.entry.key.now self.entry.degree base i self.entry.challenge.now)
            × (list.new ≡ sets list.old 0 (output_entries self.entry.degree base i self.entry.challenge.now)) }
    {
        let mut sum: i32 = 0;
        for (k, c) in self.challenge.iter().enumerate() {
            let term = self.term_at(base, i, *c as usize, &mut list[k]);
            sum = signed::plus(sum, term);
        }
        sum
    }

    // What the position c adds to output i of the half that starts at `base`. The read of the key is listed.
    fn term_at(self, base: usize, i: usize, c: usize, to: &mut u32) -> i32
        requires { (base ≤ self.degree) × (i < self.degree) × (c < self.degree) }
        ensures { (result ≡ term_at self.entry.key.now self.entry.degree base i c)
            × (to.new ≡ entry 8 (base + index_of self.entry.degree i c)) }
    {
        if c <= i {
            return read_list::listed(self.key, read_list::KEY, base + (i - c), to);
        }
        let place = base + (i + self.degree - c);
        let value = read_list::listed(self.key, read_list::KEY, place, to);
        -value
    }
}
