// Advertisements and tickets, read and written field by field for a host.
ghost use Rattle.std.specs.Prelude.{◌≡◌};
ghost use Rattle.record.specs.Layout.{ad_kind, ad_kind_v6, address_size, address_size_v6};
ghost use Rattle.record.specs.Ads.{ad_read, ad_fields, ad_written};
ghost use Rattle.ticket.specs.Tickets.{ticket_read, ticket_fields, ticket_written};
ghost use Rattle.codes.specs.Codes.{minus};
ghost use Rattle.unglassot.specs.Host.{unless};

use record::layout;

// Writes the fields of an advertisement of IPv4 as a record.
#[unsafe(no_mangle)]
pub extern "C" fn unglassot_write_ad(
    out: &mut [u8],
    service: &[u8],
    peer: &[u8],
    address: &[u8],
    port: u16,
    stamp: u64,
    signature: &[u8],
) -> i64
    ensures number { result ≡ minus (ad_written address_size ad_kind out.old (ad_fields service.now peer.now address.now port stamp signature.now)).number }
    ensures buffer { out.new ≡ (ad_written address_size ad_kind out.old (ad_fields service.now peer.now address.now port stamp signature.now)).buffer }
{
    unglassot::fields::unglassot_write_ad(out, service, peer, address, port, stamp, signature)
}

// Reads an advertisement of IPv4 into its fields.
#[unsafe(no_mangle)]
pub extern "C" fn unglassot_read_ad(
    ad: &[u8],
    service: &mut [u8; layout::IDENTIFIER_SIZE],
    peer: &mut [u8; layout::IDENTIFIER_SIZE],
    address: &mut [u8; layout::ADDRESS_SIZE],
    port: &mut u16,
    stamp: &mut u64,
    signature: &mut [u8; layout::SIGNATURE_SIZE],
) -> i64
    ensures number { result ≡ minus (ad_read address_size ad_kind ad.now).refusal }
    ensures service { service.new ≡ unless (ad_read address_size ad_kind ad.now).refusal (ad_read address_size ad_kind ad.now).ad.service service.old }
    ensures peer { peer.new ≡ unless (ad_read address_size ad_kind ad.now).refusal (ad_read address_size ad_kind ad.now).ad.peer peer.old }
    ensures address { address.new ≡ unless (ad_read address_size ad_kind ad.now).refusal (ad_read address_size ad_kind ad.now).ad.address address.old }
    ensures port { port.new ≡ unless (ad_read address_size ad_kind ad.now).refusal (ad_read address_size ad_kind ad.now).ad.port port.old }
    ensures stamp { stamp.new ≡ unless (ad_read address_size ad_kind ad.now).refusal (ad_read address_size ad_kind ad.now).ad.stamp stamp.old }
    ensures signature { signature.new ≡ unless (ad_read address_size ad_kind ad.now).refusal (ad_read address_size ad_kind ad.now).ad.signature signature.old }
{
    unglassot::fields::unglassot_read_ad(ad, service, peer, address, port, stamp, signature)
}

// Writes the fields of an advertisement of IPv6 as a record.
#[unsafe(no_mangle)]
pub extern "C" fn unglassot_write_ad_v6(
    out: &mut [u8],
    service: &[u8],
    peer: &[u8],
    address: &[u8],
    port: u16,
    stamp: u64,
    signature: &[u8],
) -> i64
    ensures number { result ≡ minus (ad_written address_size_v6 ad_kind_v6 out.old (ad_fields service.now peer.now address.now port stamp signature.now)).number }
    ensures buffer { out.new ≡ (ad_written address_size_v6 ad_kind_v6 out.old (ad_fields service.now peer.now address.now port stamp signature.now)).buffer }
{
    unglassot::fields::unglassot_write_ad_v6(out, service, peer, address, port, stamp, signature)
}

// Reads an advertisement of IPv6 into its fields.
#[unsafe(no_mangle)]
pub extern "C" fn unglassot_read_ad_v6(
    ad: &[u8],
    service: &mut [u8; layout::IDENTIFIER_SIZE],
    peer: &mut [u8; layout::IDENTIFIER_SIZE],
    address: &mut [u8; layout::ADDRESS_SIZE_V6],
    port: &mut u16,
    stamp: &mut u64,
    signature: &mut [u8; layout::SIGNATURE_SIZE],
) -> i64
    ensures number { result ≡ minus (ad_read address_size_v6 ad_kind_v6 ad.now).refusal }
    ensures service { service.new ≡ unless (ad_read address_size_v6 ad_kind_v6 ad.now).refusal (ad_read address_size_v6 ad_kind_v6 ad.now).ad.service service.old }
    ensures peer { peer.new ≡ unless (ad_read address_size_v6 ad_kind_v6 ad.now).refusal (ad_read address_size_v6 ad_kind_v6 ad.now).ad.peer peer.old }
    ensures address { address.new ≡ unless (ad_read address_size_v6 ad_kind_v6 ad.now).refusal (ad_read address_size_v6 ad_kind_v6 ad.now).ad.address address.old }
    ensures port { port.new ≡ unless (ad_read address_size_v6 ad_kind_v6 ad.now).refusal (ad_read address_size_v6 ad_kind_v6 ad.now).ad.port port.old }
    ensures stamp { stamp.new ≡ unless (ad_read address_size_v6 ad_kind_v6 ad.now).refusal (ad_read address_size_v6 ad_kind_v6 ad.now).ad.stamp stamp.old }
    ensures signature { signature.new ≡ unless (ad_read address_size_v6 ad_kind_v6 ad.now).refusal (ad_read address_size_v6 ad_kind_v6 ad.now).ad.signature signature.old }
{
    unglassot::fields::unglassot_read_ad_v6(ad, service, peer, address, port, stamp, signature)
}

// Writes a ticket's fields as a record, with its tag under the key: the hash of the advertisement that it belongs to, and three times.
#[unsafe(no_mangle)]
pub extern "C" fn unglassot_write_ticket(
    key: &[u8],
    out: &mut [u8],
    ad_hash: &[u8],
    first: u64,
    issued: u64,
    wait: u64,
) -> i64
    ensures number { result ≡ minus (ticket_written key.now out.old (ticket_fields ad_hash.now first issued wait)).number }
    ensures buffer { out.new ≡ (ticket_written key.now out.old (ticket_fields ad_hash.now first issued wait)).buffer }
{
    unglassot::fields::unglassot_write_ticket(key, out, ad_hash, first, issued, wait)
}

// Reads a ticket into its fields under the key.
#[unsafe(no_mangle)]
pub extern "C" fn unglassot_read_ticket(
    key: &[u8],
    ticket: &[u8],
    ad_hash: &mut [u8; layout::HASH_SIZE],
    first: &mut u64,
    issued: &mut u64,
    wait: &mut u64,
) -> i64
    ensures number { result ≡ minus (ticket_read key.now ticket.now).refusal }
    ensures hash { ad_hash.new ≡ unless (ticket_read key.now ticket.now).refusal (ticket_read key.now ticket.now).ticket.hash ad_hash.old }
    ensures first { first.new ≡ unless (ticket_read key.now ticket.now).refusal (ticket_read key.now ticket.now).ticket.first first.old }
    ensures issued { issued.new ≡ unless (ticket_read key.now ticket.now).refusal (ticket_read key.now ticket.now).ticket.issued issued.old }
    ensures wait { wait.new ≡ unless (ticket_read key.now ticket.now).refusal (ticket_read key.now ticket.now).ticket.wait wait.old }
{
    unglassot::fields::unglassot_read_ticket(key, ticket, ad_hash, first, issued, wait)
}
