// The calls that read a record into its fields, and the fields as they are afterwards.
use super::calls::FILL;
use super::print;
use std::io::Stdout;
use unglassot::fields;

fn ids(out: Stdout, service: &[u8; 32], peer: &[u8; 32]) {
    print::hex(out, service);
    print::hex(out, peer);
}

fn address(out: Stdout, bytes: &[u8; 4]) {
    print::hex(out, bytes);
}

fn address_v6(out: Stdout, bytes: &[u8; 16]) {
    print::hex(out, bytes);
}

fn others(out: Stdout, port: u16, stamp: u64, signature: &[u8; 64]) {
    print::natural(out, port as u64);
    print::natural(out, stamp);
    print::hex(out, signature);
}

pub(crate) fn read_ad(out: Stdout, ad: &[u8]) {
    let mut service = [FILL; 32];
    let mut peer = [FILL; 32];
    let mut place = [FILL; 4];
    let mut port: u16 = 7;
    let mut stamp: u64 = 9;
    let mut signature = [FILL; 64];
    print::answer(
        out,
        fields::unglassot_read_ad(
            ad,
            &mut service,
            &mut peer,
            &mut place,
            &mut port,
            &mut stamp,
            &mut signature,
        ),
    );
    ids(out, &service, &peer);
    address(out, &place);
    others(out, port, stamp, &signature);
}

pub(crate) fn read_ad_v6(out: Stdout, ad: &[u8]) {
    let mut service = [FILL; 32];
    let mut peer = [FILL; 32];
    let mut place = [FILL; 16];
    let mut port: u16 = 7;
    let mut stamp: u64 = 9;
    let mut signature = [FILL; 64];
    print::answer(
        out,
        fields::unglassot_read_ad_v6(
            ad,
            &mut service,
            &mut peer,
            &mut place,
            &mut port,
            &mut stamp,
            &mut signature,
        ),
    );
    ids(out, &service, &peer);
    address_v6(out, &place);
    others(out, port, stamp, &signature);
}

fn hash(out: Stdout, bytes: &[u8; 32]) {
    print::hex(out, bytes);
}

pub(crate) fn read_ticket(out: Stdout, key: &[u8], ticket: &[u8]) {
    let mut ad_hash = [FILL; 32];
    let mut first: u64 = 7;
    let mut issued: u64 = 8;
    let mut wait: u64 = 9;
    print::answer(
        out,
        fields::unglassot_read_ticket(
            key,
            ticket,
            &mut ad_hash,
            &mut first,
            &mut issued,
            &mut wait,
        ),
    );
    hash(out, &ad_hash);
    print::natural(out, first);
    print::natural(out, issued);
    print::natural(out, wait);
}
