// REGISTER with lower bounds of waits, a call beside REGISTER: the caller lends, behind the cache, a buffer in which stands what each service and address was
// told, so that asking again from the start never shortens a wait.
#![tactic(auto)]

ghost use Rattle.std.specs.Prelude.{◌≡◌, ◌+◌, ◌-◌, ◌≤◌};
ghost use Rattle.settings.specs.Settings.{last_clock};
ghost use Rattle.octets.specs.Runs.{part};
ghost use Rattle.record.specs.Layout.{address_size_v6, pair_size, ticket_body, first};
ghost use Rattle.cache.specs.Cache.{max_capacity, shape_of, limited, small, Sound};
ghost use Rattle.entering.specs.Entering.{entered};
ghost use Rattle.checks.specs.Request.{request, unbounded, terms, small_terms};
ghost use Rattle.admission.specs.Registered.{as_registered};
ghost use Rattle.bounded.specs.Bounded.{until_after};
ghost use Rattle.bounded.specs.Looking.{seed_of, Seen, Entering};
ghost use Rattle.bounded.specs.Promises.{PromisedWithin};

use cache::Shape;
use checks::Terms;
use entering::{MOST_PAIR, Standing};
use record::{Refusal, layout};
pub use registrar::Decision;
use times::Millis;

// What a call finds in the bounds: how many records are in use, what it goes by, its ad's pair at the front of an array, and what the bounds say of that pair.
#[derive(Clone, Copy)]
pub struct Looked {
    pub used: usize,
    pub terms: Terms,
    pub pair: [u8; MOST_PAIR],
    pub found: Standing,
}

// The seed of the check that each pair stands once: of the key's digest, never of its own bytes. Of a key of another length the call is refused.
fn seed_of(key: &[u8], used: usize) -> u64
    ensures { result ≡ seed_of used key.now }
{
    if used < 2 {
        return 0;
    }
    if key.len() != settings::KEY_SIZE {
        return 0;
    }
    let digest = sha256::sha256(key);
    octets::read_u64(&digest, 0)
}

// Nothing found: for a call that is refused before it matters.
fn nothing(used: usize, window: u64, judged: bool, formed: bool) -> Looked
    ensures used { result.used ≡ used }
    ensures window { result.terms.window ≡ window }
    ensures judged { result.terms.judged ≡ judged }
    ensures formed { result.terms.formed ≡ formed }
{
    let terms = Terms {
        window,
        judged,
        formed,
        floor: 0,
        room: true,
    };
    let pair = [0u8; MOST_PAIR];
    let found = Standing {
        until: 0,
        place: 0,
        force: 0,
    };
    Looked {
        used,
        terms,
        pair,
        found,
    }
}

// Looks at the bounds for a call: their form, and where that is right and the ad has its length, its pair in them. The pair is made first, since the check of the
// form looks for it on its way. Not inlined, so that the table of the check of the form takes none of the stack when REGISTER goes on.
#[inline(never)]
fn look(
    address: usize,
    bounds: &[u8],
    key: &[u8],
    window: u64,
    judged: bool,
    clock: u64,
    ad: &[u8],
) -> Looked
    requires { address ≤ address_size_v6 }
    ensures { Seen address (unbounded window judged) clock bounds.now ad.now result }
{
    let used = bounds::in_use(address, bounds);
    let pair = entering::pair_of(address, ad);
    let end = layout::IDENTIFIER_SIZE + address;
    let Some(form) = bounds::check(address, bounds, used, seed_of(key, used), &pair[0..end]) else {
        return nothing(used, window, judged, false);
    };
    if ad.len() != layout::AD_FIXED + address {
        return nothing(used, window, judged, true);
    }
    let found = entering::look_up(address, bounds, used, clock, form);
    let floor = found.until.saturating_sub(clock);
    let crowded = entering::is_crowded(address, bounds, found);
    let terms = Terms {
        window,
        judged,
        formed: true,
        floor,
        room: !crowded,
    };
    Looked {
        used,
        terms,
        pair,
        found,
    }
}

// The until that a ticket enters: now plus the smaller of the lifetime and the wait that was used.
fn until_after(clock: u64, used: u64) -> u64
    requires { clock ≤ last_clock }
    ensures { result ≡ until_after clock used }
{
    clock + settings::LIFETIME.min(used)
}

// Enters the until of a ticket that was issued. The wait that was used is what the ticket tells and what was stayed before it.
fn enter_ticket(
    address: usize,
    bounds: &mut [u8],
    seen: Looked,
    clock: u64,
    left: Millis,
    reply: &[u8],
)
    requires { Entering address bounds.old seen clock left reply.now }
    ensures { bounds.new ≡ entered address clock (part 0 (pair_size address) seen.pair) (until_after clock (left.0 + (clock - first (ticket_body reply.now)))) bounds.old }
{
    let stayed = clock - ticket::read_first(reply);
    let until = until_after(clock, left.0 + stayed);
    let used = seen.used;
    let pair = seen.pair;
    let found = seen.found;
    let end = layout::IDENTIFIER_SIZE + address;
    entering::enter(address, bounds, used, &pair[0..end], clock, found, until);
}

// REGISTER with lower bounds at a shape, under a window, with or without a look at the ad's stamp.
fn register_bounded_in(
    shape: Shape,
    window: u64,
    judged: bool,
    cache: &mut [u8],
    bounds: &mut [u8],
    key: &[u8],
    clock: u64,
    ad: &[u8],
    vouched: bool,
    ticket: &[u8],
    reply: &mut [u8],
) -> Result<Decision, Refusal>
    requires { Sound shape }
    ensures { PromisedWithin shape (unbounded window judged) bounds.old (request cache.old key.now clock ad.now vouched ticket.now reply.old) (as_registered result) cache.new bounds.new reply.new }
{
    let address = shape.address;
    let seen = look(address, bounds, key, window, judged, clock, ad);
    let terms = seen.terms;
    let decision = registrar::register_in(
        shape, terms, cache, key, clock, ad, vouched, ticket, reply,
    )?;
    if let Decision::Wait(left, _) = decision {
        enter_ticket(address, bounds, seen, clock, left, reply);
    }
    Ok(decision)
}

// The same with a largest capacity. Both calls come here: the shape is told in one place, and what is compiled for it serves both.
fn register_bounded_within(
    cache: &mut [u8],
    bounds: &mut [u8],
    key: &[u8],
    window: u64,
    clock: u64,
    ad: &[u8],
    vouched: bool,
    ticket: &[u8],
    reply: &mut [u8],
    most: usize,
    judged: bool,
) -> Result<Decision, Refusal>
    requires { most ≤ max_capacity }
    ensures { PromisedWithin (limited most (shape_of cache.old)) (unbounded window judged) bounds.old (request cache.old key.now clock ad.now vouched ticket.now reply.old) (as_registered result) cache.new bounds.new reply.new }
{
    register_bounded_in(
        cache::shape_of(cache).limited(most),
        window,
        judged,
        cache,
        bounds,
        key,
        clock,
        ad,
        vouched,
        ticket,
        reply,
    )
}

// REGISTER with lower bounds: the wait that is used is not below what is left of the pair's bound, and a ticket enters its pair's. CONFIRMED and a refusal leave
// the bounds as they were. The other parameters are REGISTER's.
pub fn register_bounded(
    cache: &mut [u8],
    bounds: &mut [u8],
    key: &[u8],
    window: u64,
    clock: u64,
    ad: &[u8],
    vouched: bool,
    ticket: &[u8],
    reply: &mut [u8],
) -> Result<Decision, Refusal>
    ensures { PromisedWithin (shape_of cache.old) (terms window) bounds.old (request cache.old key.now clock ad.now vouched ticket.now reply.old) (as_registered result) cache.new bounds.new reply.new }
{
    register_bounded_within(
        cache,
        bounds,
        key,
        window,
        clock,
        ad,
        vouched,
        ticket,
        reply,
        settings::MAX_CAPACITY,
        false,
    )
}

// REGISTER with lower bounds under the small-registrar profile: the capacity is at most 64, the usual window is in force, and the advertisement's stamp is judged.
pub fn small_register_bounded(
    cache: &mut [u8],
    bounds: &mut [u8],
    key: &[u8],
    clock: u64,
    ad: &[u8],
    vouched: bool,
    ticket: &[u8],
    reply: &mut [u8],
) -> Result<Decision, Refusal>
    ensures { PromisedWithin (small (shape_of cache.old)) small_terms bounds.old (request cache.old key.now clock ad.now vouched ticket.now reply.old) (as_registered result) cache.new bounds.new reply.new }
{
    register_bounded_within(
        cache,
        bounds,
        key,
        settings::USUAL_WINDOW,
        clock,
        ad,
        vouched,
        ticket,
        reply,
        settings::SMALL_CAPACITY,
        true,
    )
}
