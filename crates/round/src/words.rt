// The addition of FIPS 180-4 section 3.2 and the functions of section 4.1.2 on words. `ch` and `maj` are equal to the standard's and take fewer
// operations; in a row of rounds one's `x ^ y` is the next one's `y ^ z` of `maj`.
ghost use Rattle.std.specs.Prelude.{◌≡◌};
ghost use Rattle.round.specs.Words.{◌⊞◌, ch as chosen, maj as majority, Σ₀, Σ₁, σ₀, σ₁};

// x + y modulo 2^32.
pub fn add(x: u32, y: u32) -> u32
    ensures { result ≡ x ⊞ y }
{
    x.wrapping_add(y)
}

pub fn ch(x: u32, y: u32, z: u32) -> u32
    ensures { result ≡ chosen x y z }
{
    z ^ (x & (y ^ z))
}

pub fn maj(x: u32, y: u32, z: u32) -> u32
    ensures { result ≡ majority x y z }
{
    ((x ^ y) & (y ^ z)) ^ y
}

pub fn big_sigma0(x: u32) -> u32
    ensures { result ≡ Σ₀ x }
{
    x.rotate_right(2) ^ x.rotate_right(13) ^ x.rotate_right(22)
}

pub fn big_sigma1(x: u32) -> u32
    ensures { result ≡ Σ₁ x }
{
    x.rotate_right(6) ^ x.rotate_right(11) ^ x.rotate_right(25)
}

pub fn small_sigma0(x: u32) -> u32
    ensures { result ≡ σ₀ x }
{
    x.rotate_right(7) ^ x.rotate_right(18) ^ (x >> 3)
}

pub fn small_sigma1(x: u32) -> u32
    ensures { result ≡ σ₁ x }
{
    x.rotate_right(17) ^ x.rotate_right(19) ^ (x >> 10)
}
