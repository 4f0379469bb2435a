// What a C host links. A slice is a pointer and then a length.
#![tactic(auto)]

ghost use Rattle.std.specs.Prelude.{◌≡◌, length};
ghost use Rattle.read_list.specs.Entries.{filled_part};
ghost use Rattle.exponential.specs.Exponential.{exp_or_refusal};
ghost use Rattle.session.specs.Calls.{opened, draw_of, after_draw, draw_left, respond_of, after_respond, respond_left};
ghost use Rattle.key_check.specs.KeyCheck.{key_answer};
ghost use Rattle.record.specs.Lengths.{packed_length};
ghost use Rattle.record_writer.specs.Call.{told, after_write, write_left};
ghost use Rattle.record_reader.specs.Call.{after_read, read_left};
ghost use Rattle.bliss_box.specs.Version.{version};

use key_check::KeyCheck;
use record_reader::Contents;
use record_writer::{Fields, Written};
use session::{Drawn, Opened, Responded, Session};

// The version of these functions and of the structs that they take and give. A host built for another one must not call the rest.
#[unsafe(no_mangle)]
pub extern "C" fn bliss_version() -> u32
    ensures { result ≡ version }
{
    1000
}

// Opens a session of degree n, for noise of a deviation.
#[unsafe(no_mangle)]
pub extern "C" fn bliss_open(n: usize, deviation: u64) -> Opened
    ensures { result ≡ opened n deviation }
{
    Session::open(n, deviation)
}

// Draws 2n samples into y within a limit of attempts. After the checks, the reads of words and tables are listed from the start of the
// list on.
#[unsafe(no_mangle)]
pub extern "C" fn bliss_draw(
    session: Session,
    limit: usize,
    cdt: &[u64],
    polynomial: &[u64],
    words: &[u64],
    y: &mut [i32],
    list: &mut [u32],
) -> Drawn
    ensures { after_draw result y.new list.new
        ≡ draw_left session (draw_of limit cdt.now polynomial.now words.now
        y.old list.old) }
{
    session.draw(limit, cdt, polynomial, words, y, list)
}

// Responds to a challenge: z holds the response where the bit is 1, else it is all zero, and y becomes all zero. After the checks,
// the reads of key, words and table are listed from the start of the list on.
#[unsafe(no_mangle)]
pub extern "C" fn bliss_respond(
    session: Session,
    challenge: &[u32],
    polynomial: &[u64],
    words: &[u64],
    key: &[i32],
    y: &mut [i32],
    z: &mut [i32],
    list: &mut [u32],
) -> Responded
    ensures { after_respond result y.new z.new list.new
        ≡ respond_left session (respond_of challenge.now polynomial.now words.now
        key.now y.old z.old list.old) }
{
    session.respond(challenge, polynomial, words, key, y, z, list)
}

// The length of the filled part of a list, for a count. The part starts where the list starts.
#[unsafe(no_mangle)]
pub extern "C" fn bliss_filled(list: &[u32], count: usize) -> usize
    ensures { result ≡ length (filled_part list.now count) }
{
    read_list::filled(list, count).len()
}

// The exponential by n alone: e(n), or 2^63 + 12 (refusal 12) where n is above 5,534,960.
#[unsafe(no_mangle)]
pub extern "C" fn bliss_exponential(n: u64) -> u64
    ensures { result ≡ exp_or_refusal n }
{
    exponential::exp_or_refusal(n)
}

// The key check: whether no challenge of just so many positions has an A over its limit. Nothing that is lent is written.
#[unsafe(no_mangle)]
pub extern "C" fn bliss_check_key(n: usize, key: &[i32], count: usize) -> KeyCheck
    ensures { result ≡ key_answer n key.now count }
{
    key_check::check_key(n, key, count)
}

// Writes the record of the fields that are told to the start of the output, the rest of which is unchanged. A field that is not told is
// not looked at.
#[unsafe(no_mangle)]
pub extern "C" fn bliss_write_record(
    n: usize,
    fields: Fields,
    challenge: &[u32],
    z1: &[i32],
    z2: &[i32],
    out: &mut [u8],
) -> Written
    ensures { after_write result out.new
        ≡ write_left (told n fields challenge.now z1.now z2.now) out.old }
{
    record_writer::write(n, fields, challenge, z1, z2, out)
}

// Reads a record: each of its fields goes to the start of its output, the rest of which is unchanged.
#[unsafe(no_mangle)]
pub extern "C" fn bliss_read_record(
    bytes: &[u8],
    challenge: &mut [u32],
    z1: &mut [i32],
    z2: &mut [i32],
) -> Contents
    ensures { after_read result challenge.new z1.new z2.new
        ≡ read_left bytes.now challenge.old z1.old z2.old }
{
    record_reader::read(bytes, challenge, z1, z2)
}

// The packed length of a value of this size in a record, in bits; or 0, which is no length, where it is above 3,263.
#[unsafe(no_mangle)]
pub extern "C" fn bliss_packed_length(size: u32) -> usize
    ensures { result ≡ packed_length size }
{
    record::packed_length(size) as usize
}
