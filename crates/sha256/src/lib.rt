// SHA-256 (FIPS 180-4) and HMAC-SHA-256 (RFC 2104), for messages and keys of every length, and the comparison of two tags. Each result equals
// its definition in specs/, on every input. Nothing is promised of timing, but that comparing two tags reads all of both.
#![tactic(auto)]

ghost use Rattle.std.specs.Prelude.{◌≡◌};
ghost use Rattle.std.specs.Int.Bits.{bit_or, bit_xor};
ghost use Rattle.std.specs.List.{fold, zip};
ghost use Rattle.compression.specs.Compression.{compressed};
ghost use Rattle.sha256.specs.Digest.{sha256_of, initial as initial_of};
ghost use Rattle.sha256.specs.Hmac.{key_block, masked, hmac_of, states_of, tag_by};
ghost use Rattle.sha256.specs.Tag.{same_tag};

mod hashing;

use compression::compress;
pub use hashing::{absorb, digest};

const IPAD: u8 = 0x36;

const OPAD: u8 = 0x5c;

// All that a tag takes of its key: the hash values behind the key's block under ipad and under opad. They are as secret as the key.
#[derive(Clone, Copy)]
pub struct KeyStates {
    pub inner: [u32; 8],
    pub outer: [u32; 8],
}

// FIPS 180-4 section 5.3.3: the initial hash value. With `absorb` and `digest` it serves a message that comes in pieces.
pub fn initial() -> [u32; 8]
    ensures { result ≡ initial_of }
{
    [
        0x6a09e667, 0xbb67ae85, 0x3c6ef372, 0xa54ff53a, 0x510e527f, 0x9b05688c, 0x1f83d9ab,
        0x5be0cd19,
    ]
}

// The SHA-256 digest of a message.
pub fn sha256(message: &[u8]) -> [u8; 32]
    ensures { result ≡ sha256_of message.now }
{
    digest(initial(), 0, message)
}

// The key, or the digest of one longer than a block, filled with zeros to a block.
fn key_block(key: &[u8]) -> [u8; 64]
    ensures { result ≡ key_block key.now }
{
    let mut block = [0u8; 64];
    if 64 < key.len() {
        octets::copy(&mut block, 0, &sha256(key));
    } else {
        octets::copy(&mut block, 0, key);
    }
    block
}

// Not inlined, so that what the copies take of the stack is free again when the block is compressed.
#[inline(never)]
fn mask(block: [u8; 64], pad: u8) -> [u8; 64]
    ensures { result ≡ masked pad block }
{
    block.map(|b| b ^ pad)
}

// The hash value behind a key's block under a mask.
fn behind(block: [u8; 64], pad: u8) -> [u32; 8]
    ensures { result ≡ compressed initial_of (masked pad block) }
{
    compress(initial(), &mask(block, pad))
}

// The states of a key, from which every tag under it goes on.
pub fn key_states(key: &[u8]) -> KeyStates
    ensures { result ≡ states_of key.now }
{
    let block = key_block(key);
    let inner = behind(block, IPAD);
    let outer = behind(block, OPAD);
    KeyStates { inner, outer }
}

// The HMAC-SHA-256 tag of a message under a key, from the key's states.
pub fn tag(states: KeyStates, message: &[u8]) -> [u8; 32]
    ensures { result ≡ tag_by states message.now }
{
    let behind_ipad = states.inner;
    let inner = digest(behind_ipad, 64, message);
    let behind_opad = states.outer;
    digest(behind_opad, 64, &inner)
}

// The HMAC-SHA-256 tag of a message under a key.
pub fn hmac(key: &[u8], message: &[u8]) -> [u8; 32]
    ensures { result ≡ hmac_of key.now message.now }
{
    tag(key_states(key), message)
}

// The bits in which two runs of bytes differ anywhere. Every byte is read, whatever the others are.
fn difference(a: &[u8], b: &[u8]) -> u8
    ensures { result ≡ fold (λ d p. bit_or d (bit_xor p.0 p.1)) 0 (zip a.now b.now) }
{
    a.iter().zip(b).fold(0, |d, (x, y)| d | (x ^ y))
}

// Whether two tags are the same. Every byte is read, whatever the others are.
pub fn same_tag(a: &[u8], b: &[u8]) -> bool
    ensures { result ≡ same_tag a.now b.now }
{
    if a.len() != 32 || b.len() != 32 {
        return false;
    }
    difference(a, b) == 0
}
