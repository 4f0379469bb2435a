// Writes the record of a signature. All that it is lent is public, and it may branch on it.
#![tactic(auto)]

ghost use Rattle.std.specs.Prelude.{◌≡◌, true, ◌++◌, ◌+◌, ◌*◌, ◌/◌, ◌≤◌, ◌<◌, ◌^◌, nat_abs, length, OnOk, IfOk};
ghost use Rattle.bits.specs.Bits.{digits, put_bits};
ghost use Rattle.bits.specs.Items.{joined, passes, form_if, items_of};
ghost use Rattle.challenge.specs.Challenge.{is_challenge};
ghost use Rattle.record.specs.Record.{value_limit, are_n, are_small, is_field_set};
ghost use Rattle.record.specs.Record.{value_bits, challenge_bits, map_bits, field_bits, record_of};
ghost use Rattle.refused.specs.Refusals.{refusal_of};
ghost use Rattle.record_writer.specs.Call.{told, write_refusal, after_write, write_left};
ghost use Rattle.record_writer.specs.Told.{lent, field_set, written_of};

use refused::Refusal;

// Which fields a record is to have: C has three flags beside three slices.
#[repr(C)]
#[derive(Clone, Copy)]
pub struct Fields {
    pub challenge: bool,
    pub z1: bool,
    pub z2: bool,
}

// What a write answers to C, by value: its refusal, or 0 with the length of the record.
#[repr(C)]
#[derive(Clone, Copy)]
pub struct Written {
    pub refusal: u32,
    pub length: usize,
}

// The fields that are told, each with its values, or none.
#[derive(Clone, Copy)]
struct Told<'a> {
    n: usize,
    challenge: Option<&'a [u32]>,
    z1: Option<&'a [i32]>,
    z2: Option<&'a [i32]>,
}

// How many bits values take. A loop, since a write by `map` and `sum` is slower by 9 percent.
fn values_length(values: &[i32]) -> usize
    requires { (are_small values.now ≡ true) × (length values.now ≤ 1024) }
    ensures { result ≡ length (joined value_bits values.now) }
{
    let mut sum: usize = 0;
    for value in values {
        sum += record::packed_length(value.unsigned_abs()) as usize;
    }
    sum
}

// Puts a value into bytes from a place on: its sign and seven low bits of its size, then zeros and a one. Gives the place behind it.
fn put_value(page: &mut [u8], at: usize, value: i32) -> usize
    requires { (nat_abs value ≤ value_limit) × (at < 2 ^ 20) × (at + length (value_bits value) ≤ 8 * length page.old) }
    ensures { (result ≡ at + length (value_bits value))
        × (page.new ≡ put_bits page.old at (value_bits value)) }
{
    let size = value.unsigned_abs();
    let minus = (value < 0) as u32;
    bits::put_eight(page, at, 128 * minus + size % 128);
    bits::put_one(page, at + 8, (size / 128) as usize);
    at + record::packed_length(size) as usize
}

// Puts values into bytes from a place on. Gives the place behind them.
fn put_values(page: &mut [u8], at: usize, values: &[i32]) -> usize
    requires small { (are_small values.now ≡ true) × (length values.now ≤ 1024) }
    requires in_bounds { (at < 2 ^ 18) × (at + length (joined value_bits values.now) ≤ 8 * length page.old) }
    ensures { (result ≡ at + length (joined value_bits values.now))
        × (page.new ≡ put_bits page.old at (joined value_bits values.now)) }
{
    let mut place = at;
    for value in values {
        place = put_value(page, place, *value);
    }
    place
}

// Puts positions into bytes, two for each, from byte k on.
fn put_positions(page: &mut [u8], k: usize, challenge: &[u32])
    requires { (length challenge.now ≤ 64) × (k < 2 ^ 16) × (k + 2 * length challenge.now ≤ length page.old) }
    ensures { page.new ≡ put_bits page.old (8 * k) (joined (digits 16) challenge.now) }
{
    for (i, position) in challenge.iter().enumerate() {
        bits::put_two_bytes(page, k + 2 * i, *position);
    }
}

// Puts a challenge, if it is told, into bytes from byte 3 on. Gives the place behind it.
fn put_challenge(page: &mut [u8], challenge: Option<&[u32]>) -> usize
    requires few { length (items_of (lent challenge)) ≤ 64 }
    requires in_bounds { 24 + length (form_if challenge_bits (lent challenge)) ≤ 8 * length page.old }
    ensures { (result ≡ 24 + length (form_if challenge_bits (lent challenge.entry)))
        × (page.new ≡ put_bits page.old 24 (form_if challenge_bits (lent challenge.entry))) }
{
    let Some(challenge) = challenge else {
        return 24;
    };
    bits::put_byte(page, 3, challenge.len() as u32);
    put_positions(page, 4, challenge);
    32 + 16 * challenge.len()
}

// Values, if they are told, or none.
fn told_values<'a>(values: Option<&'a [i32]>) -> &'a [i32]
    ensures { result.now ≡ items_of (lent values.entry) }
{
    values.unwrap_or(&[])
}

// Puts the bit map and n into bytes.
fn put_header(page: &mut [u8], told: &Told)
    requires { (told.now.n ≤ 1024) × (24 ≤ 8 * length page.old) }
    ensures { page.new ≡ put_bits page.old 0 (map_bits (field_set told.now) ++ digits 16 told.now.n) }
{
    let challenge = told.challenge.is_some() as u32;
    let z1 = told.z1.is_some() as u32;
    let z2 = told.z2.is_some() as u32;
    bits::put_byte(page, 0, challenge + 2 * z1 + 4 * z2);
    bits::put_two_bytes(page, 1, told.n as u32);
}

// Puts the fields that are told into bytes.
fn put_fields(page: &mut [u8], told: &Told)
    requires field_set { is_field_set (field_set told.now) ≡ true }
    requires in_bounds { length (field_bits (field_set told.now)) ≤ 8 * length page.old }
    ensures { page.new ≡ put_bits page.old 0 (field_bits (field_set told.now)) }
{
    put_header(page, told);
    let z1_place = put_challenge(page, told.challenge);
    let z2_place = put_values(page, z1_place, told_values(told.z1));
    put_values(page, z2_place, told_values(told.z2));
}

// How many bits a challenge takes, if it is told.
#[tactic(auto, using(record::proofs::FieldSets::length_challenge), unfolding(bits::specs::Items::form_if, bits::specs::Items::items_of))]
fn challenge_length(challenge: Option<&[u32]>) -> usize
    requires { length (items_of (lent challenge)) ≤ 64 }
    ensures { (result ≡ length (form_if challenge_bits (lent challenge.entry))) × (result ≤ 1032) }
{
    match challenge {
        Some(challenge) => 8 + 16 * challenge.len(),
        None => 0,
    }
}

// How many bytes the record of the fields that are told has.
fn record_length(told: &Told) -> usize
    requires { is_field_set (field_set told.now) ≡ true }
    ensures { result ≡ length (record_of (field_set told.now)) }
{
    let header = 24 + challenge_length(told.challenge);
    let z1_length = values_length(told_values(told.z1));
    let z2_length = values_length(told_values(told.z2));
    (header + z1_length + z2_length + 7) / 8
}

// Writes the record of the fields that are told over bytes of its length.
fn write_over(page: &mut [u8], told: &Told)
    requires field_set { is_field_set (field_set told.now) ≡ true }
    requires whole { length page.old ≡ length (record_of (field_set told.now)) }
    ensures { page.new ≡ record_of (field_set told.now) }
{
    page.fill(0);
    put_fields(page, told);
}

// Whether values, if they are told, are n.
#[tactic(auto, unfolding(bits::specs::Items::passes))]
fn length_right(n: usize, values: Option<&[i32]>) -> bool
    ensures { result ≡ passes (are_n n) (lent values.entry) }
{
    values.is_none_or(|values| values.len() == n)
}

// Whether a challenge, if it is told, is one.
#[tactic(auto, unfolding(bits::specs::Items::passes))]
fn challenge_right(n: usize, challenge: Option<&[u32]>) -> bool
    ensures { result ≡ passes (is_challenge n) (lent challenge.entry) }
{
    challenge.is_none_or(|challenge| challenge::is_challenge(n, challenge))
}

// Whether values, if they are told, are not too large.
#[tactic(auto, unfolding(bits::specs::Items::passes))]
fn sizes_right(values: Option<&[i32]>) -> bool
    ensures { result ≡ passes are_small (lent values.entry) }
{
    values.is_none_or(|values| signed::all_within(values, record::VALUE_LIMIT))
}

// How many bytes the record has of fields that can be written where there is so much room.
fn length_to_write(told: &Told, room: usize) -> Result<usize, Refusal>
    ensures refusal { refusal_of result ≡ write_refusal (field_set told.now) room }
    ensures served { OnOk result (is_field_set (field_set told.now) ≡ true) }
    ensures length { IfOk result (λ size. (size ≡ length (record_of (field_set told.now))) × (size ≤ room)) }
{
    if !checks::is_degree(told.n) {
        return Err(Refusal::Degree);
    }
    if !(length_right(told.n, told.z1) & length_right(told.n, told.z2)) {
        return Err(Refusal::Lengths);
    }
    if !challenge_right(told.n, told.challenge) {
        return Err(Refusal::Challenge);
    }
    if !(sizes_right(told.z1) & sizes_right(told.z2)) {
        return Err(Refusal::Record);
    }
    let length = record_length(told);
    if room < length {
        return Err(Refusal::Output);
    }
    Ok(length)
}

// Writes the record of the fields that are told to the start of the output. Gives its length.
fn write_told(told: &Told, out: &mut [u8]) -> Result<usize, Refusal>
    ensures { after_write (written_of result) out.new ≡ write_left (field_set told.now) out.old }
{
    let length = length_to_write(told, out.len())?;
    write_over(&mut out[..length], told);
    Ok(length)
}

impl From<Result<usize, Refusal>> for Written {
    ghost from_gives = { λ r w. w ≡ written_of r };

    fn from(length: Result<usize, Refusal>) -> Written {
        match length {
            Ok(length) => Written { refusal: 0, length },
            Err(refusal) => Written {
                refusal: refusal.number(),
                length: 0,
            },
        }
    }
}

// Writes the record of the fields that are told to the start of the output, the rest of which is unchanged. A field that is not told is
// not looked at.
pub fn write(
    n: usize,
    fields: Fields,
    challenge: &[u32],
    z1: &[i32],
    z2: &[i32],
    out: &mut [u8],
) -> Written
    ensures { after_write result out.new
        ≡ write_left (told n fields challenge.now z1.now z2.now) out.old }
{
    let told = Told {
        n,
        challenge: fields.challenge.then_some(challenge),
        z1: fields.z1.then_some(z1),
        z2: fields.z2.then_some(z2),
    };
    Written::from(write_told(&told, out))
}
