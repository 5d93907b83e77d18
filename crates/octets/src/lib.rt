// Big-endian numbers and runs of bytes in slices: read, write, copy, compare, clear, move.
#![tactic(auto)]

ghost use Rattle.std.specs.Prelude.{◌≡◌, ◌+◌, ◌≤◌, length, replicate};
ghost use Rattle.octets.specs.Numbers.{number, little, bytes};
ghost use Rattle.octets.specs.Runs.{part, put, same, zeros};

// The N bytes from `at`, as an array.
pub fn array<const N: usize>(s: &[u8], at: usize) -> [u8; N]
    requires { at + N ≤ length s.now }
    ensures { result ≡ part at N s.now }
{
    let mut r = [0u8; N];
    r.copy_from_slice(&s[at..at + N]);
    r
}

// The number in the bytes from `at`: each read becomes one load and one byte swap. There is one for each width, as of std's methods: each impl of a trait over
// them would say what the line here says.
pub fn read_u16(s: &[u8], at: usize) -> u16
    requires { at + 2 ≤ length s.now }
    ensures { result ≡ number (part at 2 s.now) }
{
    u16::from_be_bytes(array(s, at))
}

pub fn read_u32(s: &[u8], at: usize) -> u32
    requires { at + 4 ≤ length s.now }
    ensures { result ≡ number (part at 4 s.now) }
{
    u32::from_be_bytes(array(s, at))
}

pub fn read_u64(s: &[u8], at: usize) -> u64
    requires { at + 8 ≤ length s.now }
    ensures { result ≡ number (part at 8 s.now) }
{
    u64::from_be_bytes(array(s, at))
}

// The number in the bytes from `at`, lowest first: a plain load, for bytes that are only compared.
pub fn word_u64(s: &[u8], at: usize) -> u64
    requires { at + 8 ≤ length s.now }
    ensures { result ≡ little (part at 8 s.now) }
{
    u64::from_le_bytes(array(s, at))
}

// Puts the bytes of a number from `at`, highest first: one byte swap and one store. Again one for each width.
pub fn write_u16(s: &mut [u8], at: usize, x: u16)
    requires { at + 2 ≤ length s.old }
    ensures { s.new ≡ put at (bytes 2 x) s.old }
{
    s[at..at + 2].copy_from_slice(&x.to_be_bytes());
}

pub fn write_u32(s: &mut [u8], at: usize, x: u32)
    requires { at + 4 ≤ length s.old }
    ensures { s.new ≡ put at (bytes 4 x) s.old }
{
    s[at..at + 4].copy_from_slice(&x.to_be_bytes());
}

pub fn write_u64(s: &mut [u8], at: usize, x: u64)
    requires { at + 8 ≤ length s.old }
    ensures { s.new ≡ put at (bytes 8 x) s.old }
{
    s[at..at + 8].copy_from_slice(&x.to_be_bytes());
}

// Puts all of src into dst from `at`.
pub fn copy(dst: &mut [u8], at: usize, src: &[u8])
    requires { at + length src.now ≤ length dst.old }
    ensures { dst.new ≡ put at src.now dst.old }
{
    dst[at..at + src.len()].copy_from_slice(src);
}

// The most bytes that are moved at once.
const RUN: usize = 32_768;

// Moves a run of bytes through an array, so that where it lies and where it goes may overlap. The array is the length of the longest run, and the compiler
// makes one `memmove` of the two copies and leaves the array out. (`copy_within` becomes a loop that takes twice to three times as long.)
fn move_run(s: &mut [u8], from: usize, to: usize, n: usize)
    requires { (n ≤ 32768) × ((from + n ≤ length s.old) × (to + n ≤ length s.old)) }
    ensures { s.new ≡ put to (part from n s.old) s.old }
{
    let mut run = [0u8; RUN];
    copy(&mut run, 0, &s[from..from + n]);
    copy(s, to, &run[..n]);
}

// Moves n bytes towards the front, run by run, lowest first, so that those still to be moved are as they were.
pub fn move_down(s: &mut [u8], from: usize, to: usize, n: usize)
    requires { (to ≤ from) × (from + n ≤ length s.old) }
    ensures { s.new ≡ put to (part from n s.old) s.old }
{
    for done in (0..n).step_by(RUN) {
        move_run(s, from + done, to + done, RUN.min(n - done));
    }
}

// The loop becomes one `memset`. (`fill` stores the last byte apart, and takes twice as long for the bytes of a record.)
pub fn clear(s: &mut [u8])
    ensures { s.new ≡ replicate (length s.old) 0 }
{
    for x in s.iter_mut() {
        *x = 0;
    }
}

// Eight bytes at a time. It stops at the first difference, so it is not for secrets. (`a == b` makes a call of what begins alike, and takes twice as long for
// an identifier.)
pub fn equal(a: &[u8], b: &[u8]) -> bool
    ensures { result ≡ same a.now b.now }
{
    if a.len() != b.len() {
        return false;
    }
    let (a_words, a_rest) = a.as_chunks::<8>();
    let (b_words, b_rest) = b.as_chunks::<8>();
    a_words
        .iter()
        .zip(b_words)
        .all(|(x, y)| u64::from_le_bytes(*x) == u64::from_le_bytes(*y))
        && a_rest == b_rest
}

// 64 bytes at a time.
pub fn is_zero(s: &[u8]) -> bool
    ensures { result ≡ zeros s.now }
{
    let (blocks, rest) = s.as_chunks::<64>();
    blocks.iter().all(|block| *block == [0; 64]) && rest.iter().all(|x| *x == 0)
}
