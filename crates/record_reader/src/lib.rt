// Reads the record of a signature. Behind the bytes stand zeros, so that each part is read with no test of the length; one at the end is
// enough. All that it is lent is public, and it may branch on it: it stops at the first value that is none.
#![tactic(auto)]

ghost use Rattle.std.specs.Prelude.{◌≡◌, true, not, ◌||◌, ◌+◌, ◌*◌, ◌≤◌, ◌<◌, ◌^◌, length};
ghost use Rattle.std.proofs.lemmas.List.Edits.{sets};
ghost use Rattle.std.specs.Bool.{then_some};
ghost use Rattle.bits.specs.Bits.{bit_at};
ghost use Rattle.bits.specs.Items.{items_at, behind, each_at, items_of};
ghost use Rattle.challenge.specs.Challenge.{is_challenge};
ghost use Rattle.record.specs.Reading.{with_sign, value_at, next_value, is_value, positions_at, challenge_at, has_challenge, count_if};
ghost use Rattle.record.specs.Reading.{z1_start, fields_of, fields_end, are_fields, is_record};
ghost use Rattle.refused.specs.Refusals.{number};
ghost use Rattle.record_reader.specs.Call.{contents_of, no_contents, have_room, after_read, read_left};
ghost use Rattle.record_reader.specs.Checked.{to_read, answer_of};

use refused::Refusal;

// A value by its sign and size.
fn with_sign(minus: bool, size: u32) -> i32
    requires { size < 2 ^ 16 }
    ensures { result ≡ with_sign minus size }
{
    signed::times_sign(size as i32, signed::sign_of(minus as u64))
}

// The value of z that stands in bytes at a place, and the place behind it, if it may stand in a record. Its longest form is one number, of
// a sign bit, seven low bits and 26 more.
fn value_at(bytes: &[u8], at: usize) -> Option<(i32, usize)>
    requires { at < 2 ^ 20 }
    ensures { result
        ≡ then_some (is_value (bit_at bytes.now) at) (value_at (bit_at bytes.now) at, next_value (bit_at bytes.now) at) }
{
    let form = bits::number_at(bytes, at, 34);
    let minus = form >> 33 == 1;
    let low = ((form >> 26) % 128) as u32;
    let zeros = u64::leading_zeros(form % (1 << 26)) - 38;
    let size = low + 128 * zeros;
    if (record::VALUE_LIMIT < size) | (minus & (size == 0)) {
        return None;
    }
    Some((
        with_sign(minus, size),
        at + record::packed_length(size) as usize,
    ))
}

// The place behind so many values of z, if they stand in bytes from a place on.
fn values_end(bytes: &[u8], at: usize, count: usize) -> Option<usize>
    requires { (at < 2 ^ 18) × (count ≤ 1024) }
    ensures { result
        ≡ then_some (each_at (is_value (bit_at bytes.now)) (next_value (bit_at bytes.now)) at count)
        (behind (next_value (bit_at bytes.now)) at count) }
{
    let mut place = at;
    for _ in 0..count {
        let (_, next) = value_at(bytes, place)?;
        place = next;
    }
    Some(place)
}

// Fills a list with the values of z that stand in bytes from a place on. Gives the place behind them.
fn get_values(bytes: &[u8], at: usize, z: &mut [i32]) -> usize
    requires in_bounds { (at < 2 ^ 18) × (length z.old ≤ 1024) }
    requires right { each_at (is_value (bit_at bytes.now)) (next_value (bit_at bytes.now)) at (length z.old) ≡ true }
    ensures value { result ≡ behind (next_value (bit_at bytes.now)) at (length z.old) }
    ensures z_after { z.new
        ≡ items_at (value_at (bit_at bytes.now)) (next_value (bit_at bytes.now)) at (length z.old) }
{
    let mut place = at;
    for x in z.iter_mut() {
        let (value, next) = value_at(bytes, place).unwrap();
        *x = value;
        place = next;
    }
    place
}

// Fills a list with the positions that stand in bytes from a place on.
fn get_positions(bytes: &[u8], at: usize, challenge: &mut [u32])
    requires { (at < 2 ^ 18) × (length challenge.old ≤ 255) }
    ensures { challenge.new ≡ positions_at (bit_at bytes.now) at (length challenge.old) }
{
    let mut place = at;
    for position in challenge.iter_mut() {
        *position = bits::number_at(bytes, place, 16) as u32;
        place += 16;
    }
}

// Whether what stands in bytes as a challenge is one, at degree n.
fn is_challenge_at(bytes: &[u8], n: usize) -> bool
    ensures { result ≡ is_challenge n (challenge_at (bit_at bytes.now) 24) }
{
    let count = bits::number_at(bytes, 24, 8) as usize;
    if challenge::MOST_POSITIONS < count {
        return false;
    }
    let mut positions = [0u32; challenge::MOST_POSITIONS];
    let positions = &mut positions[..count];
    get_positions(bytes, 32, positions);
    challenge::is_challenge(n, positions)
}

// The same, if its bit stands.
fn challenge_passes(bytes: &[u8], n: usize) -> bool
    ensures { result ≡ (not (has_challenge (bit_at bytes.now))
        || is_challenge n (challenge_at (bit_at bytes.now) 24)) }
{
    !bits::bit_at(bytes, 7) || is_challenge_at(bytes, n)
}

// A count, or 0, which C gets for a field that is not there.
fn count_if(has: bool, count: usize) -> usize
    ensures { result ≡ count_if has count }
{
    if has { count } else { 0 }
}

// Where the values of z start in bytes.
fn z1_start(bytes: &[u8]) -> usize
    ensures { (result ≡ z1_start (bit_at bytes.now)) × (result ≤ 4112) }
{
    if bits::bit_at(bytes, 7) {
        32 + 16 * (bits::number_at(bytes, 24, 8) as usize)
    } else {
        24
    }
}

// Where what stands in bytes as fields ends, if they are fields.
fn fields_end(bytes: &[u8]) -> Option<usize>
    ensures { result ≡ then_some (are_fields (bit_at bytes.now)) (fields_end (bit_at bytes.now)) }
{
    let n = bits::number_at(bytes, 8, 16) as usize;
    if !checks::is_degree(n) {
        return None;
    }
    if !challenge_passes(bytes, n) {
        return None;
    }
    let z2_start = values_end(bytes, z1_start(bytes), count_if(bits::bit_at(bytes, 6), n))?;
    values_end(bytes, z2_start, count_if(bits::bit_at(bytes, 5), n))
}

// Whether bytes are a record.
fn is_record(bytes: &[u8]) -> bool
    ensures { result ≡ is_record bytes.now }
{
    let Some(end) = fields_end(bytes) else {
        return false;
    };
    let others = bits::number_at(bytes, 0, 5);
    let padding = bits::number_at(bytes, end, 8);
    (others == 0) & ((padding == 0) & (bytes.len() == (end + 7) / 8))
}

// What a read answers to C, by value: its refusal, or 0 with n, the bit map and the lengths of the fields.
#[repr(C)]
#[derive(Clone, Copy)]
pub struct Contents {
    pub refusal: u32,
    pub map: u32,
    pub degree: usize,
    pub positions: usize,
    pub z1: usize,
    pub z2: usize,
}

// The answer of a read that is refused.
fn refuse(refusal: Refusal) -> Contents
    ensures { result ≡ no_contents (number refusal) }
{
    Contents {
        refusal: refusal.number(),
        map: 0,
        degree: 0,
        positions: 0,
        z1: 0,
        z2: 0,
    }
}

// The contents of bytes that are a record.
fn contents_of(bytes: &[u8]) -> Contents
    ensures { result ≡ contents_of (fields_of (bit_at bytes.now)) }
{
    let degree = bits::number_at(bytes, 8, 16) as usize;
    let positions = count_if(
        bits::bit_at(bytes, 7),
        bits::number_at(bytes, 24, 8) as usize,
    );
    let z1 = count_if(bits::bit_at(bytes, 6), degree);
    let z2 = count_if(bits::bit_at(bytes, 5), degree);
    let map = bits::number_at(bytes, 5, 3) as u32;
    Contents {
        refusal: 0,
        map,
        degree,
        positions,
        z1,
        z2,
    }
}

// Writes the fields of a record, whose contents are told, to the start of outputs that have room for them.
fn get_fields(
    bytes: &[u8],
    contents: Contents,
    challenge: &mut [u32],
    z1: &mut [i32],
    z2: &mut [i32],
)
    requires right { (are_fields (bit_at bytes.now) ≡ true) × (contents ≡ contents_of (fields_of (bit_at bytes.now))) }
    requires room { have_room contents (length challenge.old) (length z1.old) (length z2.old) ≡ true }
    ensures challenge_after { challenge.new
        ≡ sets challenge.old 0 (items_of (fields_of (bit_at bytes.now)).challenge) }
    ensures z1_after { z1.new ≡ sets z1.old 0 (items_of (fields_of (bit_at bytes.now)).z1) }
    ensures z2_after { z2.new ≡ sets z2.old 0 (items_of (fields_of (bit_at bytes.now)).z2) }
{
    get_positions(bytes, 32, &mut challenge[..contents.positions]);
    let z2_start = get_values(bytes, z1_start(bytes), &mut z1[..contents.z1]);
    get_values(bytes, z2_start, &mut z2[..contents.z2]);
}

// The contents of a record, for each field of which there is room in an output of this length.
fn contents_to_read(
    bytes: &[u8],
    challenge: usize,
    z1: usize,
    z2: usize,
) -> Result<Contents, Refusal>
    ensures { result ≡ to_read bytes.now challenge z1 z2 }
{
    if !is_record(bytes) {
        return Err(Refusal::Record);
    }
    let contents = contents_of(bytes);
    if (challenge < contents.positions) | (z1 < contents.z1) | (z2 < contents.z2) {
        return Err(Refusal::Output);
    }
    Ok(contents)
}

// Reads a record, each of its fields to the start of its output.
fn read_fields(
    bytes: &[u8],
    challenge: &mut [u32],
    z1: &mut [i32],
    z2: &mut [i32],
) -> Result<Contents, Refusal>
    ensures { after_read (answer_of result) challenge.new z1.new z2.new
        ≡ read_left bytes.now challenge.old z1.old z2.old }
{
    let contents = contents_to_read(bytes, challenge.len(), z1.len(), z2.len())?;
    get_fields(bytes, contents, challenge, z1, z2);
    Ok(contents)
}

// Reads a record: each of its fields goes to the start of its output, the rest of which is unchanged.
pub fn read(bytes: &[u8], challenge: &mut [u32], z1: &mut [i32], z2: &mut [i32]) -> Contents
    ensures { after_read result challenge.new z1.new z2.new
        ≡ read_left bytes.now challenge.old z1.old z2.old }
{
    read_fields(bytes, challenge, z1, z2).unwrap_or_else(refuse)
}
