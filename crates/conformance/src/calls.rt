// The calls of the library, each over a request; what it answers, and what its buffers hold afterwards.
use super::request::{A, B, C, D, FIRST, SECOND, THIRD};
use super::{fields, logs, print, request};
use record::Refusal;
use std::io::Stdout;
use unglassot::{calls, hash, messages, small, version};

const OPEN: u8 = 0;

const REGISTER: u8 = 1;

const WITHDRAW: u8 = 2;

const GET_ADS: u8 = 3;

const SERVICE_ID: u8 = 4;

const SHA256: u8 = 5;

const HMAC: u8 = 6;

const READ_MESSAGE: u8 = 7;

const WRITE_MESSAGE: u8 = 8;

const WRITE_AD: u8 = 9;

const WRITE_AD_V6: u8 = 10;

const WRITE_TICKET: u8 = 11;

const WRITE_ASK: u8 = 12;

const WRITE_RETURN: u8 = 13;

const WRITE_LIST: u8 = 14;

const NEWEST: u8 = 15;

const READ_AD: u8 = 16;

const READ_AD_V6: u8 = 17;

const READ_TICKET: u8 = 18;

const SHOW: u8 = 19;

pub const LOG: u8 = 20;

// 21 is the version's, as every number without a name.
const REGISTER_BOUNDED: u8 = 22;

// The small-registrar profile.
const SMALL_OPEN: u8 = 23;

const SMALL_REGISTER: u8 = 24;

const SMALL_WITHDRAW: u8 = 25;

const SMALL_GET_ADS: u8 = 26;

const SMALL_NEWEST: u8 = 27;

const SMALL_REGISTER_BOUNDED: u8 = 28;

// What a cache that is filled anew holds, what stands in a field before it is read, and in the number that a call is lent.
pub const FILL: u8 = 0xa5;

const UNTOLD: u64 = 0xa5;

// The longest buffer that is opened, and a byte more than the longest output.
pub const CACHE: usize = 163_192;

const OUTPUT: usize = 1_551;

// A place more than bounds can have.
const BOUNDS: usize = 57_057;

// A cache of a place more than the profile has.
const SECOND_CACHE: usize = 10_624;

// Prints what the line begins with, and makes the call of a request over the cache.
pub(crate) fn make(out: Stdout, r: &[u8], cache: &mut [u8]) {
    print::text(out, request::part(r, request::LABEL));
    refill(r, cache);
    put(cache, request::part(r, request::CACHE));
    call(out, r, cache);
}

fn refill(r: &[u8], cache: &mut [u8]) {
    if request::byte(r, request::ANEW) == 1 {
        let anew = [FILL; CACHE];
        put(cache, &anew);
    }
}

// No bytes leave the cache as the last call left it.
fn put(cache: &mut [u8], bytes: &[u8]) {
    if bytes.len() <= cache.len() {
        octets::copy(cache, 0, bytes);
    }
}

fn call(out: Stdout, r: &[u8], cache: &mut [u8]) {
    match request::byte(r, request::CALL) {
        NEWEST => newest(out, r, cache),
        READ_AD => fields::read_ad(out, request::part(r, A)),
        READ_AD_V6 => fields::read_ad_v6(out, request::part(r, A)),
        READ_TICKET => fields::read_ticket(out, request::part(r, A), request::part(r, B)),
        SHOW => show_cache(out, r, cache),
        LOG => logs::show(out, r),
        REGISTER_BOUNDED => bounded(out, r, cache),
        SMALL_REGISTER_BOUNDED => bounded(out, r, cache),
        SMALL_NEWEST => small_newest(out, r, cache),
        _ => fill(out, r, cache),
    }
}

// The newest advertisement in the cache and another: the call for a host, then the refusal and the body as the library's own two calls answer them.
fn newest<'a>(out: Stdout, r: &'a [u8], cache: &'a [u8]) {
    let first = &cache[0..request::length(r, request::CACHE_LENT, cache.len())];
    let second = request::part(r, A);
    let service = request::part(r, B);
    let clock = request::number(r, FIRST);
    let mut offset = UNTOLD;
    print::answer(
        out,
        calls::unglassot_newest(first, second, clock, service, &mut offset),
    );
    print::natural(out, offset);
    let refused = number(search::check_newest(first, second, clock, service));
    print::natural(out, u64::from(refused));
    print::hex(out, search::newest(first, second, clock, service));
}

// The same by the profile. The second cache begins with the first part and goes on with zeros; its length is the second number.
fn small_newest<'a>(out: Stdout, r: &'a [u8], cache: &'a [u8]) {
    let mut other = [0u8; SECOND_CACHE];
    put(&mut other, request::part(r, A));
    search_small(out, r, cache, &other);
}

fn search_small<'a>(out: Stdout, r: &'a [u8], cache: &'a [u8], other: &'a [u8]) {
    let first = &cache[0..request::length(r, request::CACHE_LENT, cache.len())];
    let second = &other[0..request::places(r, SECOND, other.len())];
    let service = request::part(r, B);
    let clock = request::number(r, FIRST);
    let mut offset = UNTOLD;
    print::answer(
        out,
        small::unglassot_small_newest(first, second, clock, service, &mut offset),
    );
    print::natural(out, offset);
    let refused = number(search::small_check_newest(first, second, clock, service));
    print::natural(out, u64::from(refused));
    print::hex(out, search::small_newest(first, second, clock, service));
}

// A call that changes the cache or fills an output.
fn fill(out: Stdout, r: &[u8], cache: &mut [u8]) {
    let mut output = [request::byte(r, request::FILL); OUTPUT];
    let mut told = UNTOLD;
    print::answer(out, lend(r, cache, &mut output, &mut told));
    print::text(out, request::part(r, request::BETWEEN));
    print::told(out, request::byte(r, request::TOLD_SHOWN), told);
    show_cache(out, r, cache);
    show_output(out, r, &output);
}

// REGISTER with bounds. They begin with the fourth part and go on with zeros; their length is the third number, and they are shown as the output is.
fn bounded(out: Stdout, r: &[u8], cache: &mut [u8]) {
    let mut bounds = [0u8; BOUNDS];
    put(&mut bounds, request::part(r, D));
    let mut output = [request::byte(r, request::FILL); OUTPUT];
    let mut told = UNTOLD;
    print::answer(
        out,
        lend_bounded(r, cache, &mut bounds, &mut output, &mut told),
    );
    print::told(out, request::byte(r, request::TOLD_SHOWN), told);
    show_cache(out, r, cache);
    show_output(out, r, &output);
    show_bounds(out, r, &bounds);
}

fn lend_bounded(
    r: &[u8],
    cache: &mut [u8],
    bounds: &mut [u8],
    output: &mut [u8],
    told: &mut u64,
) -> i64 {
    let caches = request::length(r, request::CACHE_LENT, cache.len());
    let places = request::places(r, THIRD, bounds.len());
    let outputs = request::length(r, request::OUTPUT_LENT, output.len());
    register_bounded(
        r,
        &mut cache[0..caches],
        &mut bounds[0..places],
        &mut output[0..outputs],
        told,
    )
}

// The full call, or the profile's, which has no window.
fn register_bounded(
    r: &[u8],
    cache: &mut [u8],
    bounds: &mut [u8],
    reply: &mut [u8],
    moves: &mut u64,
) -> i64 {
    let vouched = request::byte(r, request::VOUCHED);
    let one = request::number(r, FIRST);
    let two = request::number(r, SECOND);
    let key = request::part(r, A);
    let ad = request::part(r, B);
    let ticket = request::part(r, C);
    if request::byte(r, request::CALL) == REGISTER_BOUNDED {
        calls::unglassot_register_bounded(
            cache, bounds, key, one, two, ad, vouched, ticket, reply, moves,
        )
    } else {
        small::unglassot_small_register_bounded(
            cache, bounds, key, one, ad, vouched, ticket, reply, moves,
        )
    }
}

fn show_bounds(out: Stdout, r: &[u8], bounds: &[u8]) {
    let n = request::places(r, THIRD, bounds.len());
    print::shown(out, request::byte(r, request::OUTPUT_SHOWN), &bounds[0..n]);
}

fn show_cache(out: Stdout, r: &[u8], cache: &[u8]) {
    let n = request::length(r, request::CACHE_SIZE, cache.len());
    print::shown(out, request::byte(r, request::CACHE_SHOWN), &cache[0..n]);
}

fn show_output(out: Stdout, r: &[u8], output: &[u8]) {
    let n = request::length(r, request::OUTPUT_SIZE, output.len());
    print::shown(out, request::byte(r, request::OUTPUT_SHOWN), &output[0..n]);
}

fn lend(r: &[u8], cache: &mut [u8], output: &mut [u8], told: &mut u64) -> i64 {
    let caches = request::length(r, request::CACHE_LENT, cache.len());
    let outputs = request::length(r, request::OUTPUT_LENT, output.len());
    choose(r, &mut cache[0..caches], &mut output[0..outputs], told)
}

// The parts and the numbers are taken off the request here, and the call is one of a few that need much the same.
fn choose(r: &[u8], cache: &mut [u8], output: &mut [u8], told: &mut u64) -> i64 {
    let call = request::byte(r, request::CALL);
    let vouched = request::byte(r, request::VOUCHED);
    let one = request::number(r, FIRST);
    let two = request::number(r, SECOND);
    let a = request::part(r, A);
    let b = request::part(r, B);
    let c = request::part(r, C);
    match call {
        OPEN..=GET_ADS => on_cache(call, cache, output, told, vouched, one, two, a, b, c),
        SMALL_OPEN..=SMALL_GET_ADS => on_small(call, cache, output, told, vouched, one, a, b, c),
        SERVICE_ID..=WRITE_MESSAGE => on_bytes(call, output, one, a, b),
        WRITE_AD..=WRITE_TICKET => on_fields(r, call, output, one, a, b, c),
        WRITE_ASK..=WRITE_LIST => on_log(call, output, vouched, one, a, b),
        _ => version::unglassot_version(),
    }
}

fn on_cache(
    call: u8,
    cache: &mut [u8],
    output: &mut [u8],
    told: &mut u64,
    vouched: u8,
    one: u64,
    two: u64,
    a: &[u8],
    b: &[u8],
    c: &[u8],
) -> i64 {
    match call {
        OPEN => calls::unglassot_open(cache, one),
        REGISTER => calls::unglassot_register(cache, a, one, two, b, vouched, c, output, told),
        WITHDRAW => calls::unglassot_withdraw(cache, a, b, one, vouched),
        _ => calls::unglassot_get_ads(cache, one, a, output),
    }
}

fn on_small(
    call: u8,
    cache: &mut [u8],
    output: &mut [u8],
    told: &mut u64,
    vouched: u8,
    one: u64,
    a: &[u8],
    b: &[u8],
    c: &[u8],
) -> i64 {
    match call {
        SMALL_OPEN => small::unglassot_small_open(cache, one),
        SMALL_REGISTER => small::unglassot_small_register(
            cache, a, one, b, vouched, c, output, told,
        ),
        SMALL_WITHDRAW => small::unglassot_small_withdraw(cache, a, b, one, vouched),
        _ => small::unglassot_small_get_ads(cache, one, a, output),
    }
}

// Bytes in, an output filled: an identifier, hashes, messages.
fn on_bytes(call: u8, output: &mut [u8], one: u64, a: &[u8], b: &[u8]) -> i64 {
    match call {
        SERVICE_ID => calls::unglassot_service_id(a, output),
        SHA256 => hash::unglassot_sha256(a, output),
        HMAC => hash::unglassot_hmac(a, b, output),
        READ_MESSAGE => messages::unglassot_read_message(a, one, output),
        _ => messages::unglassot_write_message(a, one, output),
    }
}

// A record written of its fields.
fn on_fields(r: &[u8], call: u8, output: &mut [u8], one: u64, a: &[u8], b: &[u8], c: &[u8]) -> i64 {
    let port = request::short(r, request::PORT);
    let two = request::number(r, SECOND);
    let three = request::number(r, THIRD);
    let d = request::part(r, D);
    match call {
        WRITE_AD => unglassot::fields::unglassot_write_ad(output, a, b, c, port, one, d),
        WRITE_AD_V6 => unglassot::fields::unglassot_write_ad_v6(output, a, b, c, port, one, d),
        _ => unglassot::fields::unglassot_write_ticket(a, output, b, one, two, three),
    }
}

// The records of a log. What they refuse for is shown by its number itself.
fn on_log(call: u8, output: &mut [u8], vouched: u8, one: u64, a: &[u8], b: &[u8]) -> i64 {
    let written = match call {
        WRITE_ASK => events::write_ask(output, one, vouched == 1, a),
        WRITE_RETURN => events::write_return(output, one, vouched == 1, a, b),
        _ => events::write_list(output, one, a),
    };
    i64::from(number(written))
}

// A refusal's number, 0 for none.
fn number(answer: Result<(), Refusal>) -> u8 {
    match answer {
        Ok(()) => 0,
        Err(refusal) => refusal.number(),
    }
}
