// The read list: after the checks of a call, one entry for each read of lent words, tables and keys, written where the read is made.
#![tactic(auto)]

ghost use Rattle.std.specs.Prelude.{◌≡◌, ◌+◌, ◌<◌, ◌≤◌, ◌^◌, length, get_or, take, drop};
ghost use Rattle.std.proofs.lemmas.List.Edits.{sets};
ghost use Rattle.read_list.specs.Entries.{entry, places_up, filled_part};

// The kinds of entries, by what their places are: the degree of a draw;
pub const DRAW: u8 = 1;

// the place of a lent word;
pub const WORD: u8 = 2;

// the place of a word of the CDT table;
pub const CDT: u8 = 3;

// the place of an entry of the polynomial table;
pub const POLYNOMIAL: u8 = 4;

// the samples accepted before an attempt;
pub const ACCEPTED_BEFORE: u8 = 5;

// the samples accepted in all;
pub const ACCEPTED: u8 = 6;

// the degree of a response;
pub const RESPONSE: u8 = 7;

// the place of a key value;
pub const KEY: u8 = 8;

// and the bit of a response.
pub const BIT: u8 = 9;

// Writes the entry (kind, place). A kind is a number, and may be any below 2^8, as in `entry`.
pub fn note(kind: u8, place: usize, to: &mut u32)
    requires { place < 2 ^ 24 }
    ensures { to.new ≡ entry kind place }
{
    *to = kind as u32 * 0x100_0000 + place as u32;
}

// What stands at a place of lent memory, with its entry written.
pub fn listed<T: Copy>(lent: &[T], kind: u8, place: usize, to: &mut u32) -> T
    requires { (place < length lent.now) × (place < 2 ^ 24) }
    ensures value { (d : T) → result ≡ get_or lent.now place d }
    ensures entry_after { to.new ≡ entry kind place }
{
    note(kind, place, to);
    lent[place]
}

// What stands at N places of lent words from a place on, with their entries written to the start of a list; the rest of the list is
// unchanged.
pub fn listed_words<const N: usize>(
    lent: &[u64],
    kind: u8,
    place: usize,
    list: &mut [u32],
) -> [u64; N]
    requires { (place + N ≤ length lent.now) × (place + N ≤ 2 ^ 24) × (N ≤ length list.old) }
    ensures words { result ≡ take N (drop place lent.now) }
    ensures list_after { list.new ≡ sets list.old 0 (places_up kind place N) }
{
    let mut words = [0; N];
    for i in 0..N {
        words[i] = listed(lent, kind, place + i, &mut list[i]);
    }
    words
}

// The filled part of a list: the part of the lent list itself, up to the count; over the list's length, the empty part.
pub fn filled<'a>(list: &'a [u32], count: usize) -> &'a [u32]
    ensures part { result.now ≡ filled_part list.now count }
    ensures start { result.ref_ptr ≡ list.entry.ref_ptr }
{
    if list.len() < count {
        return &list[..0];
    }
    &list[..count]
}
