// A message: its whole blocks are absorbed, and its last bytes padded and hashed.
ghost use Rattle.std.specs.Prelude.{◌≡◌, ◌++◌, ◌+◌, ◌*◌, ◌/◌, ◌%◌, ◌^◌, ◌<◌, length};
ghost use Rattle.sha256.specs.Digest.{absorbed, octets_of, padding, digested};

use compression::compress;

// The hash value after the whole blocks of a message.
pub fn absorb(start: [u32; 8], message: &[u8]) -> [u32; 8]
    ensures { result ≡ absorbed (length message.now / 64) start message.now }
{
    message.chunks_exact(64).fold(start, compress)
}

// The words of a hash value as bytes.
fn written(h: [u32; 8]) -> [u8; 32]
    ensures { result ≡ octets_of h }
{
    let mut out = [0u8; 32];
    for (i, word) in h.iter().enumerate() {
        octets::write_u32(&mut out, 4 * i, *word);
    }
    out
}

// Section 5.1.1: the digest of a message of `len` bytes, of which `rest`, less than a block, is still to be absorbed. The padding ends one block
// or two.
fn finish(h: [u32; 8], rest: &[u8], len: usize) -> [u8; 32]
    requires { length rest.now ≡ len % 64 }
    ensures { result ≡ digested h (rest.now ++ padding len) }
{
    let mut last = [0u8; 128];
    let n = rest.len();
    octets::copy(&mut last, 0, rest);
    last[n] = 0x80;
    let end = (n + 72) / 64 * 64;
    octets::write_u64(&mut last, end - 8, (len as u64).wrapping_mul(8));
    written(absorb(h, &last[..end]))
}

// The digest of `before` bytes, whole blocks that h stands for, and the message after them.
pub fn digest(h: [u32; 8], before: usize, message: &[u8]) -> [u8; 32]
    requires { (before % 64 ≡ 0) × (before + length message.now < 2 ^ 64) }
    ensures { result ≡ digested h (message.now ++ padding (before + length message.now)) }
{
    let v = absorb(h, message);
    let at = message.len() / 64 * 64;
    finish(v, &message[at..], before + message.len())
}
