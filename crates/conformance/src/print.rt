// What a line is made of: text, numbers, and bytes in lower-case hexadecimal.
use std::io::Stdout;
use unglassot::hash;

pub(crate) fn text(out: Stdout, s: &[u8]) {
    let _ = out.write_all(s);
}

// Nothing for no bytes.
pub(crate) fn hex(out: Stdout, s: &[u8]) {
    if !s.is_empty() {
        text(out, b" ");
    }
    for byte in s {
        let _ = print!(out; "{byte:02x}");
    }
}

pub(crate) fn natural(out: Stdout, n: u64) {
    let _ = print!(out; " {n}");
}

// What a call of the library answered.
pub(crate) fn answer(out: Stdout, n: i64) {
    let _ = print!(out; " {n}");
}

// The number that a call is lent, where it is shown.
pub(crate) fn told(out: Stdout, how: u8, n: u64) {
    if how == 1 {
        natural(out, n);
    }
}

// The SHA-256 of what is too long to print.
fn digest(out: Stdout, s: &[u8]) {
    let mut d = [0u8; 32];
    hash::unglassot_sha256(s, &mut d);
    hex(out, &d);
}

// The bytes of a buffer, their digest, a head and the digest, the kinds of a cache's head and first entry, or the kind of a record; with 0 nothing.
pub(crate) fn shown(out: Stdout, how: u8, s: &[u8]) {
    match how {
        1 => hex(out, s),
        2 => digest(out, s),
        3 => headed(out, s),
        4 => kinds(out, s),
        5 => kind(out, s),
        _ => {}
    }
}

fn headed(out: Stdout, s: &[u8]) {
    if s.len() < 29 {
        return;
    }
    hex(out, &s[0..29]);
    digest(out, s);
}

fn kinds(out: Stdout, s: &[u8]) {
    if s.len() < 30 {
        return;
    }
    natural(out, u64::from(s[0]));
    natural(out, u64::from(s[29]));
}

fn kind(out: Stdout, s: &[u8]) {
    if !s.is_empty() {
        natural(out, u64::from(s[0]));
    }
}
