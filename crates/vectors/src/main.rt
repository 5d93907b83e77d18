// Prints the outside test vectors: a line for each, with its name and what this repository computes, in lower-case hexadecimal. The file `stdout`
// has the published values: FIPS 180-2 appendix B and FIPS 180-4's examples for SHA-256, RFC 4231 for HMAC-SHA-256, and the two service
// identifiers that the Logos Capability Discovery specification prints. The last lines are answers at both sides of two edges of document 01.
#![tactic(auto)]

use record::Refusal;
use registrar::Family;
use std::fmt;
use std::io::Stdout;

// Bytes, printed as two lower-case hexadecimal digits each.
#[derive(Drop)]
struct Hex<'a>(&'a [u8]);

impl fmt::Display for Hex<'_> {
    fn fmt<W: fmt::Write>(&self, f: &mut fmt::Formatter<W>) -> fmt::Result {
        for byte in self.0 {
            write!(f, "{byte:02x}")?;
        }
        Ok(())
    }
}

// A name and a value.
fn print(out: Stdout, name: &str, value: &[u8]) {
    let hex = Hex(value);
    let _ = println!(out; "{name} {hex}");
}

// FIPS 180-2 appendix B, and the empty message of the standard's examples.
fn sha256_examples(out: Stdout) {
    print(out, "sha256 empty", &sha256::sha256(b""));
    print(out, "sha256 abc", &sha256::sha256(b"abc"));
    print(
        out,
        "sha256 448 bits",
        &sha256::sha256(b"abcdbcdecdefdefgefghfghighijhijkijkljklmklmnlmnomnopnopq"),
    );
    print(
        out,
        "sha256 896 bits",
        &sha256::sha256(
            b"abcdefghbcdefghicdefghijdefghijkefghijklfghijklmghijklmnhijklmnoijklmnopjklmnopqklmnopqrlmnopqrsmnopqrstnopqrstu",
        ),
    );
}

// The hash value after one million times 'a': 125 pieces of 125 blocks, absorbed in place.
fn absorbed_million() -> [u32; 8] {
    let piece = [b'a'; 8000];
    (0..125).fold(sha256::initial(), |h, _| sha256::absorb(h, &piece))
}

// RFC 4231 section 4, test cases 1 to 4.
fn hmac_short_keys(out: Stdout) {
    print(out, "hmac case 1", &sha256::hmac(&[0x0b; 20], b"Hi There"));
    print(
        out,
        "hmac case 2",
        &sha256::hmac(b"Jefe", b"what do ya want for nothing?"),
    );
    print(out, "hmac case 3", &sha256::hmac(&[0xaa; 20], &[0xdd; 50]));
    let key =
        b"\x01\x02\x03\x04\x05\x06\x07\x08\x09\x0a\x0b\x0c\x0d\x0e\x0f\x10\x11\x12\x13\x14\x15\x16\x17\x18\x19";
    print(out, "hmac case 4", &sha256::hmac(key, &[0xcd; 50]));
}

// Test cases 5 to 7: a tag cut to 128 bits, and keys longer than a block.
fn hmac_long_keys(out: Stdout) {
    print(
        out,
        "hmac case 5",
        &sha256::hmac(&[0x0c; 20], b"Test With Truncation")[..16],
    );
    let key = [0xaa; 131];
    print(
        out,
        "hmac case 6",
        &sha256::hmac(
            &key,
            b"Test Using Larger Than Block-Size Key - Hash Key First",
        ),
    );
    print(
        out,
        "hmac case 7",
        &sha256::hmac(
            &key,
            b"This is a test using a larger than block-size key and a larger than block-size data. The key needs to be hashed before being used by the HMAC algorithm.",
        ),
    );
}

// The two service identifiers of the Logos specification, section "Service ID".
fn service_ids(out: Stdout) {
    let mut id = [0u8; 32];
    let _ = registrar::service_id(b"/waku/store/1.0.0", &mut id);
    print(out, "/waku/store/1.0.0", &id);
    let _ = registrar::service_id(b"/libp2p/mix/1.2.0", &mut id);
    print(out, "/libp2p/mix/1.2.0", &id);
}

// A name and an answer: 0, or the number of a refusal.
fn print_answer(out: Stdout, name: &str, answer: Result<(), Refusal>) {
    let number = match answer {
        Ok(()) => 0,
        Err(refusal) => refusal.number(),
    };
    let _ = println!(out; "{name} {number}");
}

// Both sides of the lengths of a cache and of a protocol ID: document 01, "Both sides of each edge" and refusal 12.
fn edges(out: Stdout) {
    let mut cache = [0u8; 180];
    print_answer(
        out,
        "open 180 bytes",
        registrar::open(&mut cache, Family::V4),
    );
    let mut short = [0u8; 179];
    print_answer(
        out,
        "open 179 bytes",
        registrar::open(&mut short, Family::V4),
    );
    let protocol = [b'a'; 256];
    let mut id = [0u8; 32];
    print_answer(
        out,
        "protocol ID of 0 bytes",
        registrar::service_id(&protocol[..0], &mut id),
    );
    print_answer(
        out,
        "protocol ID of 1 byte",
        registrar::service_id(&protocol[..1], &mut id),
    );
    print_answer(
        out,
        "protocol ID of 255 bytes",
        registrar::service_id(&protocol[..255], &mut id),
    );
    print_answer(
        out,
        "protocol ID of 256 bytes",
        registrar::service_id(&protocol, &mut id),
    );
}

fn main(rt: HostRuntime) {
    let out = rt.stdout();
    sha256_examples(out);
    print(
        out,
        "sha256 million a",
        &sha256::digest(absorbed_million(), 1000000, b""),
    );
    hmac_short_keys(out);
    hmac_long_keys(out);
    service_ids(out);
    edges(out);
}
