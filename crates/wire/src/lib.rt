// The wire format of Protocol Buffers, as far as the messages here need it: a varint, a VARINT field and a LEN field, each written from a place on, and the number in
// a varint. It knows nothing of any message.
#![tactic(auto)]

ghost use Rattle.std.specs.Prelude.{◌≡◌, ◌+◌, ◌<◌, ◌≤◌, ◌^◌, length, drop};
ghost use Rattle.wire.specs.Wire.{most_varint, varint, varint_value, varint_field, len_field, Placed};
// The wire types, as the numbers of the format: a tag adds one to a field's number, so that an enum would be no plainer.
const VARINT: u64 = 0;

const LEN: u64 = 2;

// Puts a varint from `at`, and answers the place behind it. The loop goes on while something of the number is left: a `for` over the places would be no plainer,
// since it would need an answer for an end that it never reaches.
#[tactic(auto, using(crate::proofs::Varints::going_start, crate::proofs::Varints::going_more, crate::proofs::Varints::going_room, crate::proofs::Varints::going_length))]
fn write_varint(out: &mut [u8], at: usize, x: u64) -> usize
    requires { at + length (varint x) ≤ length out.old }
    ensures { Placed at (varint x) out.old result out.new }
{
    let mut left = x;
    let mut to = at;
    while left >= 128 {
        out[to] = (left % 128 + 128) as u8;
        left /= 128;
        to += 1;
    }
    out[to] = left as u8;
    to + 1
}

// Puts a VARINT field from `at`, and answers the place behind it. Field numbers are below 2^29.
#[tactic(auto, using(crate::proofs::Varints::length_varint_field))]
pub fn write_varint_field(out: &mut [u8], at: usize, field: u64, x: u64) -> usize
    requires { (field < 2 ^ 29) × (at + length (varint_field field x) ≤ length out.old) }
    ensures { Placed at (varint_field field x) out.old result out.new }
{
    let payload = write_varint(out, at, field * 8 + VARINT);
    write_varint(out, payload, x)
}

// Puts a LEN field from `at`, and answers the place behind it.
#[tactic(auto, using(crate::proofs::Varints::length_len_field))]
pub fn write_len_field(out: &mut [u8], at: usize, field: u64, payload: &[u8]) -> usize
    requires { (field < 2 ^ 29) × (at + length (len_field field payload.now) ≤ length out.old) }
    ensures { Placed at (len_field field payload.now) out.old result out.new }
{
    let size = payload.len();
    let size_at = write_varint(out, at, field * 8 + LEN);
    let payload_at = write_varint(out, size_at, size as u64);
    octets::copy(out, payload_at, payload);
    payload_at + size
}

// The number in the payloads of the bytes from `at` on. Nine bytes have 63 bits of it.
#[tactic(auto, using(crate::proofs::Varints::value_fits, crate::proofs::Varints::value_end))]
pub fn varint_value(s: &[u8], at: usize) -> u64
    requires { (at ≤ length s.now) × (length s.now < at + most_varint) }
    ensures { result ≡ varint_value (drop at s.now) }
{
    let mut x = 0;
    for b in s[at..].iter().rev() {
        x = (*b % 128) as u64 + 128 * x;
    }
    x
}
