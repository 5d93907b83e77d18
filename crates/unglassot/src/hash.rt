// SHA-256 and HMAC-SHA-256 for a host.
ghost use Rattle.std.specs.Prelude.{◌≡◌};
ghost use Rattle.sha256.specs.Digest.{sha256_of};
ghost use Rattle.sha256.specs.Hmac.{hmac_of};
ghost use Rattle.codes.specs.Codes.{minus};
ghost use Rattle.unglassot.specs.Host.{hashed};

use record::Refusal;

// Writes a value of 32 bytes, or answers refusal 2 where the buffer has another length.
fn give(value: [u8; 32], out: &mut [u8]) -> i64
    ensures number { result ≡ minus (hashed value out.old).number }
    ensures buffer { out.new ≡ (hashed value out.old).buffer }
{
    if out.len() != 32 {
        return codes::for_done(Err(Refusal::Length));
    }
    out.copy_from_slice(&value);
    0
}

// The SHA-256 digest of a message into 32 bytes.
pub fn unglassot_sha256(message: &[u8], digest: &mut [u8]) -> i64
    ensures number { result ≡ minus (hashed (sha256_of message.now) digest.old).number }
    ensures buffer { digest.new ≡ (hashed (sha256_of message.now) digest.old).buffer }
{
    give(sha256::sha256(message), digest)
}

// The HMAC-SHA-256 tag of a message under a key into 32 bytes.
pub fn unglassot_hmac(key: &[u8], message: &[u8], tag: &mut [u8]) -> i64
    ensures number { result ≡ minus (hashed (hmac_of key.now message.now) tag.old).number }
    ensures buffer { tag.new ≡ (hashed (hmac_of key.now message.now) tag.old).buffer }
{
    give(sha256::hmac(key, message), tag)
}
