// The Advertisement message of Logos Capability Discovery in Protocol Buffers wire form (specs/Advertisement.antt): made of an ad's fields, and told from other bytes by making it again of
// the fields that stand in it. Not here: the ad's record, and what is answered for a message or an ad that is refused.
#![tactic(auto)]

ghost use Rattle.std.specs.Prelude.{◌≡◌, ◌<◌, ◌≤◌, length};
ghost use Rattle.record.specs.Layout.{address_size};
ghost use Rattle.record.specs.Ads.{ad_fields};
ghost use Rattle.wire.specs.Wire.{Placed};
ghost use Rattle.advertisement.specs.Advertisement.{multiaddr as multiaddr_of, message as message_of_fields, epoch_end, accepted};

use record::layout;

// Source 000's field numbers.
const SERVICE_FIELD: u64 = 1;

const PEER_FIELD: u64 = 2;

const ADDRS_FIELD: u64 = 3;

const SIGNATURE_FIELD: u64 = 4;

const TIMESTAMP_FIELD: u64 = 6;
// The codes of a multiaddr's two parts.
const IP4: u8 = 4;

const TCP: u8 = 6;
// A second in milliseconds, and the clock's whole seconds.
pub const SECOND: u64 = 1_000;

const LAST_SECOND: u64 = settings::LAST_CLOCK / SECOND;
// Where each field stands: a tag, a length and a code are each one byte.
const TAG_SIZE: usize = 1;

const LENGTH_SIZE: usize = 1;

const CODE_SIZE: usize = 1;

pub const SERVICE_AT: usize = TAG_SIZE + LENGTH_SIZE;

pub const SERVICE_END: usize = SERVICE_AT + layout::IDENTIFIER_SIZE;

pub const PEER_AT: usize = SERVICE_END + TAG_SIZE + LENGTH_SIZE;

pub const PEER_END: usize = PEER_AT + layout::IDENTIFIER_SIZE;

pub const ADDRESS_AT: usize = PEER_END + TAG_SIZE + LENGTH_SIZE + CODE_SIZE;

pub const ADDRESS_END: usize = ADDRESS_AT + layout::ADDRESS_SIZE;

pub const PORT_AT: usize = ADDRESS_END + CODE_SIZE;

pub const SIGNATURE_AT: usize = PORT_AT + layout::PORT_SIZE + TAG_SIZE + LENGTH_SIZE;

pub const SIGNATURE_END: usize = SIGNATURE_AT + layout::SIGNATURE_SIZE;

pub const TIMESTAMP_AT: usize = SIGNATURE_END + TAG_SIZE;

// A multiaddr's length, and a message's with the longest timestamp, a varint of five bytes.
const MULTIADDR_SIZE: usize = CODE_SIZE + layout::ADDRESS_SIZE + CODE_SIZE + layout::PORT_SIZE;

pub const MOST_SIZE: usize = TIMESTAMP_AT + 5;

fn multiaddr(address: &[u8], port: u16) -> [u8; MULTIADDR_SIZE]
    requires { length address.now ≡ address_size }
    ensures { result ≡ multiaddr_of address.now port }
{
    let mut r = [0u8; MULTIADDR_SIZE];
    r[0] = IP4;
    octets::copy(&mut r, CODE_SIZE, address);
    r[CODE_SIZE + layout::ADDRESS_SIZE] = TCP;
    octets::write_u16(&mut r, CODE_SIZE + layout::ADDRESS_SIZE + CODE_SIZE, port);
    r
}

// Writes the message of these fields at the front of the buffer, and answers its length. The timestamp is in Unix seconds.
pub fn fill_message(
    out: &mut [u8],
    service: &[u8],
    peer: &[u8],
    address: &[u8],
    port: u16,
    timestamp: u64,
    signature: &[u8],
) -> usize
    requires address_len { length address.now ≡ address_size }
    requires signature_in_bounds { length (message_of_fields (ad_fields service.now peer.now address.now port timestamp signature.now)) ≤ length out.old }
    ensures { Placed 0 (message_of_fields (ad_fields service.now peer.now address.now port timestamp signature.now)) out.old result out.new }
{
    let place = multiaddr(address, port);
    let peer_at = wire::write_len_field(out, 0, SERVICE_FIELD, service);
    let addrs_at = wire::write_len_field(out, peer_at, PEER_FIELD, peer);
    let signature_at = wire::write_len_field(out, addrs_at, ADDRS_FIELD, &place);
    let timestamp_at = wire::write_len_field(out, signature_at, SIGNATURE_FIELD, signature);
    wire::write_varint_field(out, timestamp_at, TIMESTAMP_FIELD, timestamp)
}

// Whether a message is accepted: it is the message of the fields in it, with a port and a second that the clock has.
pub fn is_accepted(message: &[u8], epoch: u64) -> bool
    requires { epoch < epoch_end }
    ensures { result ≡ accepted epoch message.now }
{
    let size = message.len();
    if size <= TIMESTAMP_AT {
        return false;
    }
    if size > MOST_SIZE {
        return false;
    }
    let timestamp = wire::varint_value(message, TIMESTAMP_AT);
    if timestamp < epoch {
        return false;
    }
    if timestamp > epoch + LAST_SECOND {
        return false;
    }
    let port = octets::read_u16(message, PORT_AT);
    if port == 0 {
        return false;
    }
    let mut again = [0u8; MOST_SIZE];
    let n = fill_message(
        &mut again,
        &message[SERVICE_AT..SERVICE_END],
        &message[PEER_AT..PEER_END],
        &message[ADDRESS_AT..ADDRESS_END],
        port,
        timestamp,
        &message[SIGNATURE_AT..SIGNATURE_END],
    );
    if n != size {
        return false;
    }
    octets::equal(&again[..n], &message[..n])
}
