// The records of a log (document 01, "Records", kinds 5 and 7; document 02, order 4, kind 9): the length of each kind, and the record of fields. Offsets and lengths are sums, as
// specs/Records.antt has them.
ghost use Rattle.std.specs.Prelude.{◌≡◌, ◌≤◌, length};
ghost use Rattle.octets.specs.Runs.{put};
ghost use Rattle.record.specs.Refusals.{code, reply};
ghost use Rattle.answers.specs.Records.{record_size, ask_size, ad_body_size, vouched_byte, request_of, ask_written, return_written, list_written};

use record::{Refusal, layout};

// The lengths of an ad, of its body, of an ask and of a return, with IPv4's address.
pub const AD: usize = layout::AD_FIXED + layout::ADDRESS_SIZE;

pub const AD_BODY: usize = layout::BODY_FIXED + layout::ADDRESS_SIZE;

pub const ASK: usize = layout::ASK_FIXED + layout::ADDRESS_SIZE;

pub const RETURN: usize = layout::RETURN_FIXED + layout::ADDRESS_SIZE;

// The length of a record of a kind, or 0 for a kind that no log has: the definitions of a program tell so that it stops.
pub fn size(kind: u8) -> usize
    ensures { result ≡ record_size kind }
{
    if kind == layout::ASK_KIND {
        return ASK;
    }
    if kind == layout::RETURN_KIND {
        return RETURN;
    }
    if kind == layout::LIST_KIND {
        return layout::LIST_SIZE;
    }
    0
}

fn vouched_byte(vouched: bool) -> u8
    ensures { result ≡ vouched_byte vouched }
{
    u8::from(vouched)
}

// Writes an ask, or what a return has before its ticket, to the front of a buffer.
fn fill_request(out: &mut [u8], kind: u8, clock: u64, vouched: bool, body: &[u8])
    requires { (ask_size ≤ length out.old) × (length body.now ≡ ad_body_size) }
    ensures { out.new ≡ put 0 (request_of kind clock vouched body.now) out.old }
{
    let byte = vouched_byte(vouched);
    out[0] = kind;
    octets::write_u64(out, layout::LOG_CLOCK_AT, clock);
    out[layout::VOUCHED_AT] = byte;
    octets::copy(out, layout::ASK_BODY_AT, body);
}

// Writes an ask into a lent buffer, or refuses a wrong length. The body is that of an ad, without its kind.
pub fn write_ask(out: &mut [u8], clock: u64, vouched: bool, body: &[u8]) -> Result<(), Refusal>
    ensures { reply (code result) out.new ≡ ask_written out.old clock vouched body.now }
{
    if out.len() != ASK {
        return Err(Refusal::Length);
    }
    if body.len() != AD_BODY {
        return Err(Refusal::Length);
    }
    fill_request(out, layout::ASK_KIND, clock, vouched, body);
    Ok(())
}

// Writes a return, with a ticket's body behind the ad's.
pub fn write_return(
    out: &mut [u8],
    clock: u64,
    vouched: bool,
    body: &[u8],
    ticket: &[u8],
) -> Result<(), Refusal>
    ensures { reply (code result) out.new ≡ return_written out.old clock vouched body.now ticket.now }
{
    if out.len() != RETURN {
        return Err(Refusal::Length);
    }
    if body.len() != AD_BODY {
        return Err(Refusal::Length);
    }
    if ticket.len() != layout::TICKET_BODY_SIZE {
        return Err(Refusal::Length);
    }
    fill_request(out, layout::RETURN_KIND, clock, vouched, body);
    octets::copy(out, ASK, ticket);
    Ok(())
}

pub fn write_list(out: &mut [u8], clock: u64, service: &[u8]) -> Result<(), Refusal>
    ensures { reply (code result) out.new ≡ list_written out.old clock service.now }
{
    if out.len() != layout::LIST_SIZE {
        return Err(Refusal::Length);
    }
    if service.len() != layout::IDENTIFIER_SIZE {
        return Err(Refusal::Length);
    }
    out[0] = layout::LIST_KIND;
    octets::write_u64(out, layout::LOG_CLOCK_AT, clock);
    octets::copy(out, layout::LIST_SERVICE_AT, service);
    Ok(())
}
