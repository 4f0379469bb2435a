// Bits in bytes: each byte's highest bit first, and zeros behind the bytes. Numbers are read and put by whole bytes, and not bit by bit.
#![tactic(auto)]

ghost use Rattle.std.specs.Prelude.{◌≡◌, ℕ, true, false, [], ◌∷◌, ◌++◌, ◌+◌, ◌*◌, ◌/◌, ◌%◌, ◌^◌, ◌≤◌, ◌<◌, length, get_or, set, replicate};
ghost use Rattle.bits.specs.Bits.{digits, number, bit_at, put_bits};

// Bit i of bytes.
pub fn bit_at(bytes: &[u8], i: usize) -> bool
    ensures { result ≡ bit_at bytes.now i }
{
    (byte_at(bytes, i / 8) >> (7 - i % 8)) % 2 == 1
}

// Byte k, and zeros behind the bytes.
fn byte_at(bytes: &[u8], k: usize) -> u8
    ensures { result ≡ get_or bytes.now k 0 }
{
    bytes.get(k).copied().unwrap_or(0)
}

// The first eight bytes, with zeros behind the bytes.
fn padded(bytes: &[u8]) -> [u8; 8]
    ensures { (i : ℕ) → i < 8 → get_or result i 0 ≡ get_or bytes.now i 0 }
{
    let mut eight = [0; 8];
    for (i, byte) in eight.iter_mut().enumerate() {
        *byte = byte_at(bytes, i);
    }
    eight
}

// The number of the first eight bytes, with zeros behind the bytes.
fn first_eight(bytes: &[u8]) -> u64
    ensures { result ≡ number (bit_at bytes.now) 0 64 }
{
    match bytes.first_chunk::<8>() {
        Some(eight) => u64::from_be_bytes(*eight),
        None => u64::from_be_bytes(padded(bytes)),
    }
}

// The number of eight bytes from byte k on, with zeros behind the bytes.
#[tactic(auto, using(std::proofs::lemmas::Grind::common_steps, crate::proofs::Packing::from_byte))]
fn window(bytes: &[u8], k: usize) -> u64
    ensures { result ≡ number (bit_at bytes.now) (8 * k) 64 }
{
    bytes.get(k..).map_or(0, first_eight)
}

// The number whose bits, so many, stand in bytes from a place on.
pub fn number_at(bytes: &[u8], at: usize, width: usize) -> u64
    requires { (at < 2 ^ 32) × (1 ≤ width) × (width ≤ 57) }
    ensures { result ≡ number (bit_at bytes.now) at width }
{
    let behind = 64 - at % 8 - width;
    (window(bytes, at / 8) >> behind) % (1 << width)
}

// Adds a number to byte k, and stays within the byte.
fn add_to_byte(page: &mut [u8], k: usize, x: u32)
    requires { (k < length page.old) × (x < 2 ^ 16) }
    ensures { page.new ≡ set page.old k ((get_or page.old k 0 + x) % 256) }
{
    page[k] = ((page[k] as u32 + x) % 256) as u8;
}

// Puts a byte to byte k, where zeros were.
#[tactic(auto, using(crate::proofs::Putting::add_all))]
pub fn put_byte(page: &mut [u8], k: usize, x: u32)
    requires { k < length page.old }
    ensures { page.new ≡ put_bits page.old (8 * k) (digits 8 x) }
{
    add_to_byte(page, k, x % 256);
}

// Puts two bytes, the high one first, from byte k on. Each is added to what stands there, so `to_be_bytes` would be no plainer.
pub fn put_two_bytes(page: &mut [u8], k: usize, x: u32)
    requires { k + 1 < length page.old }
    ensures { page.new ≡ put_bits page.old (8 * k) (digits 16 x) }
{
    put_byte(page, k, x / 256);
    put_byte(page, k + 1, x);
}

// Puts eight bits from any place on: into two bytes, the second of which may get none.
pub fn put_eight(page: &mut [u8], at: usize, x: u32)
    requires { (x < 256) × (at / 8 + 1 < length page.old) }
    ensures { page.new ≡ put_bits page.old at (digits 8 x) }
{
    let k = at / 8;
    let second = at % 8;
    add_to_byte(page, k, x >> second);
    add_to_byte(page, k + 1, x << (8 - second));
}

// Puts so many zeros and then a one from a place on. The zeros are there.
pub fn put_one(page: &mut [u8], at: usize, zeros: usize)
    requires { (at < 2 ^ 32) × (zeros < 2 ^ 32) × ((at + zeros) / 8 < length page.old) }
    ensures { page.new ≡ put_bits page.old at (replicate zeros false ++ (true ∷ [])) }
{
    let place = at + zeros;
    add_to_byte(page, place / 8, 128 >> (place % 8));
}
