// REGISTER, with what it promises, and a service's identifier. The other calls that a program makes of a registrar, document 01's desk, stand in crates of their own, and those with a cache are
// named here too: `open`, `get_ads` and `withdraw`. A call of the small-registrar profile stands beside the full one, as `small_register` here.
#![tactic(auto)]

ghost use Rattle.std.specs.Prelude.{◌≡◌};
ghost use Rattle.record.specs.Refusals.{code, reply as answer_of};
ghost use Rattle.cache.specs.Cache.{shape_of, small, Sound};
ghost use Rattle.checks.specs.Request.{request, terms, small_terms};
ghost use Rattle.admission.specs.Registered.{as_registered};
ghost use Rattle.registrar.specs.Registering.{outcome, registered};
ghost use Rattle.registrar.specs.Promises.{Promised};
ghost use Rattle.registrar.specs.Identifier.{identified};

pub use admission::Decision;
pub use cache::Family;
use cache::Shape;
use checks::Terms;
pub use listing::{get_ads, small_get_ads};
use record::{Refusal, layout};
use times::Millis;
pub use upkeep::{open, small_open};
pub use withdrawal::{small_withdraw, withdraw};

// The longest protocol ID, in bytes.
const LONGEST: usize = 255;

// REGISTER at a shape, under terms: what every call goes by that is a REGISTER. What a call is given stays apart: the exported calls hand it in so, two of the
// slices are written, and a struct of them would be made for one call and taken apart in it.
pub fn register_in(
    shape: Shape,
    terms: Terms,
    cache: &mut [u8],
    key: &[u8],
    clock: u64,
    ad: &[u8],
    vouched: bool,
    ticket: &[u8],
    reply: &mut [u8],
) -> Result<Decision, Refusal>
    requires { Sound shape }
    ensures { outcome (as_registered result) cache.new reply.new ≡ registered shape terms (request cache.old key.now clock ad.now vouched ticket.now reply.old) }
{
    let checked = checks::check(shape, terms, cache, key, clock, ad, vouched, ticket, reply)?;
    let wait = admission::wait_for(shape, terms.floor, cache, checked.found);
    let stayed = Millis(clock - checked.first);
    admission::check_space(terms.room, wait, stayed)?;
    Ok(admission::decide(
        shape,
        wait,
        checked.first,
        checked.found.live,
        cache,
        key,
        checked.states,
        clock,
        ad,
        checked.hash,
        reply,
    ))
}

// REGISTER: admits the advertisement, or answers when to come back, with a ticket in the reply, or refuses and leaves everything as it was.
// Without a ticket (length 0) it is a first request. `window` is how many milliseconds after it is due a ticket is taken, from 1 to 60,000; `vouched` says that
// the host found the signature good.
pub fn register(
    cache: &mut [u8],
    key: &[u8],
    window: u64,
    clock: u64,
    ad: &[u8],
    vouched: bool,
    ticket: &[u8],
    reply: &mut [u8],
) -> Result<Decision, Refusal>
    ensures { Promised (shape_of cache.old) (terms window) (request cache.old key.now clock ad.now vouched ticket.now reply.old) (as_registered result) cache.new reply.new }
{
    register_in(
        cache::shape_of(cache),
        Terms::unbounded(window, false),
        cache,
        key,
        clock,
        ad,
        vouched,
        ticket,
        reply,
    )
}

// REGISTER under the small-registrar profile, which stays beside `register` as an exported call does beside an exported call, with a parameter less, both by
// `register_in`: the capacity is at most 64, the usual window is in force, and the advertisement's stamp is judged.
pub fn small_register(
    cache: &mut [u8],
    key: &[u8],
    clock: u64,
    ad: &[u8],
    vouched: bool,
    ticket: &[u8],
    reply: &mut [u8],
) -> Result<Decision, Refusal>
    ensures { Promised (small (shape_of cache.old)) small_terms (request cache.old key.now clock ad.now vouched ticket.now reply.old) (as_registered result) cache.new reply.new }
{
    register_in(
        cache::shape_of(cache).small(),
        Terms::unbounded(settings::USUAL_WINDOW, true),
        cache,
        key,
        clock,
        ad,
        vouched,
        ticket,
        reply,
    )
}

// The service identifier of a protocol ID, into a lent buffer: the digest, or refusal 2 or 12.
pub fn service_id(protocol: &[u8], id: &mut [u8]) -> Result<(), Refusal>
    ensures { answer_of (code result) id.new ≡ identified protocol.now id.old }
{
    if id.len() != layout::IDENTIFIER_SIZE {
        return Err(Refusal::Length);
    }
    if protocol.len() < 1 {
        return Err(Refusal::ProtocolLength);
    }
    if protocol.len() > LONGEST {
        return Err(Refusal::ProtocolLength);
    }
    let digest = sha256::sha256(protocol);
    id.copy_from_slice(&digest);
    Ok(())
}
