// An advertisement's record: kind, service 32, peer 32, address, port 2, stamp 8, signature 64.
ghost use Rattle.std.specs.Prelude.{◌≡◌, [], ◌∷◌, ◌+◌, ◌≤◌, length};
ghost use Rattle.record.specs.Layout.{ad_kind, ad_kind_v6, identifier_size, address_size, address_size_v6, signature_size, ad_size, ad_body};
ghost use Rattle.record.specs.Refusals.{code, refusal, reply};
ghost use Rattle.record.specs.Ads.{ad_fields, ad_in, ad_of, port_row, ad_rows, ad_read, fields_of, as_read, ad_write_rows, ad_written};

use super::{Refusal, layout};

// The fields of an ad whose address has `A` bytes.
#[derive(Clone, Copy)]
pub struct Ad<const A: usize> {
    pub service: [u8; layout::IDENTIFIER_SIZE],
    pub peer: [u8; layout::IDENTIFIER_SIZE],
    pub address: [u8; A],
    pub port: u16,
    pub stamp: u64,
    pub signature: [u8; layout::SIGNATURE_SIZE],
}

// Refuses port 0.
fn check_port(port: u16) -> Result<(), Refusal>
    ensures { code result ≡ refusal (port_row port ∷ []) }
{
    if port == 0 {
        return Err(Refusal::PortZero);
    }
    Ok(())
}

// The ad check: its length, its kind and its port. `a` is the length of the address.
pub fn check_ad(ad: &[u8], a: usize, kind: u8) -> Result<(), Refusal>
    requires { a ≤ address_size_v6 }
    ensures { code result ≡ refusal (ad_rows a kind ad.now) }
{
    if ad.len() != layout::AD_FIXED + a {
        return Err(Refusal::AdLength);
    }
    if ad[0] != kind {
        return Err(Refusal::AdKind);
    }
    check_port(octets::read_u16(ad, layout::PORT_FIXED + a))
}

// The fields of an ad that passed its check.
fn fields<const A: usize>(ad: &[u8]) -> Ad<A>
    requires { (A ≤ address_size_v6) × (length ad.now ≡ ad_size A) }
    ensures { fields_of result ≡ ad_in A (ad_body ad.now) }
{
    let service = octets::array(ad, layout::SERVICE_AT);
    let peer = octets::array(ad, layout::PEER_AT);
    let address = octets::array(ad, layout::ADDRESS_AT);
    let port = octets::read_u16(ad, layout::PORT_FIXED + A);
    let stamp = octets::read_u64(ad, layout::STAMP_FIXED + A);
    let signature = octets::array(ad, layout::SIGNATURE_FIXED + A);
    Ad {
        service,
        peer,
        address,
        port,
        stamp,
        signature,
    }
}

// Reads the fields of an ad of a kind, with an address of `A` bytes.
fn read_ad_as<const A: usize>(ad: &[u8], kind: u8) -> Result<Ad<A>, Refusal>
    requires { A ≤ address_size_v6 }
    ensures { as_read A result ≡ ad_read A kind ad.now }
{
    check_ad(ad, A, kind)?;
    Ok(fields(ad))
}

// Reads the fields of an ad of IPv4.
pub fn read_ad(ad: &[u8]) -> Result<Ad<{ layout::ADDRESS_SIZE }>, Refusal>
    ensures { as_read address_size result ≡ ad_read address_size ad_kind ad.now }
{
    read_ad_as(ad, layout::AD_KIND)
}

// Reads the fields of an ad of IPv6.
pub fn read_ad_v6(ad: &[u8]) -> Result<Ad<{ layout::ADDRESS_SIZE_V6 }>, Refusal>
    ensures { as_read address_size_v6 result ≡ ad_read address_size_v6 ad_kind_v6 ad.now }
{
    read_ad_as(ad, layout::AD_KIND_V6)
}

// Writes an ad of a kind into a buffer of just its length. The address may have any length.
pub fn fill_ad(
    out: &mut [u8],
    kind: u8,
    service: &[u8],
    peer: &[u8],
    address: &[u8],
    port: u16,
    stamp: u64,
    signature: &[u8],
)
    requires { (length service.now ≡ identifier_size) × (length peer.now ≡ identifier_size) × (length signature.now ≡ signature_size) × (length out.old ≡ ad_size (length address.now)) }
    ensures { out.new ≡ ad_of kind (ad_fields service.now peer.now address.now port stamp signature.now) }
{
    let a = address.len();
    out[0] = kind;
    octets::copy(out, layout::SERVICE_AT, service);
    octets::copy(out, layout::PEER_AT, peer);
    octets::copy(out, layout::ADDRESS_AT, address);
    octets::write_u16(out, layout::PORT_FIXED + a, port);
    octets::write_u64(out, layout::STAMP_FIXED + a, stamp);
    octets::copy(out, layout::SIGNATURE_FIXED + a, signature);
}

// The check of fields to be written: the lengths of the buffer and of each field, then the port. `a` is the length of the address.
fn check_fields(
    a: usize,
    out: &[u8],
    service: &[u8],
    peer: &[u8],
    address: &[u8],
    port: u16,
    signature: &[u8],
) -> Result<(), Refusal>
    requires { a ≤ address_size_v6 }
    ensures { code result ≡ refusal (ad_write_rows a out.now service.now peer.now address.now port signature.now) }
{
    if out.len() != layout::AD_FIXED + a {
        return Err(Refusal::Length);
    }
    if service.len() != layout::IDENTIFIER_SIZE {
        return Err(Refusal::Length);
    }
    if peer.len() != layout::IDENTIFIER_SIZE {
        return Err(Refusal::Length);
    }
    if address.len() != a {
        return Err(Refusal::Length);
    }
    if signature.len() != layout::SIGNATURE_SIZE {
        return Err(Refusal::Length);
    }
    check_port(port)
}

// Writes the fields of an ad of a kind, with an address of `a` bytes, into a lent buffer.
fn write_ad_as(
    a: usize,
    kind: u8,
    out: &mut [u8],
    service: &[u8],
    peer: &[u8],
    address: &[u8],
    port: u16,
    stamp: u64,
    signature: &[u8],
) -> Result<(), Refusal>
    requires { a ≤ address_size_v6 }
    ensures { reply (code result) out.new ≡ ad_written a kind out.old (ad_fields service.now peer.now address.now port stamp signature.now) }
{
    check_fields(a, out, service, peer, address, port, signature)?;
    fill_ad(out, kind, service, peer, address, port, stamp, signature);
    Ok(())
}

// Writes the fields of an ad of IPv4 into a lent buffer, or refuses them and leaves it as it was.
pub fn write_ad(
    out: &mut [u8],
    service: &[u8],
    peer: &[u8],
    address: &[u8],
    port: u16,
    stamp: u64,
    signature: &[u8],
) -> Result<(), Refusal>
    ensures { reply (code result) out.new ≡ ad_written address_size ad_kind out.old (ad_fields service.now peer.now address.now port stamp signature.now) }
{
    write_ad_as(
        layout::ADDRESS_SIZE,
        layout::AD_KIND,
        out,
        service,
        peer,
        address,
        port,
        stamp,
        signature,
    )
}

// Writes the fields of an ad of IPv6, as `write_ad` does those of one of IPv4.
pub fn write_ad_v6(
    out: &mut [u8],
    service: &[u8],
    peer: &[u8],
    address: &[u8],
    port: u16,
    stamp: u64,
    signature: &[u8],
) -> Result<(), Refusal>
    ensures { reply (code result) out.new ≡ ad_written address_size_v6 ad_kind_v6 out.old (ad_fields service.now peer.now address.now port stamp signature.now) }
{
    write_ad_as(
        layout::ADDRESS_SIZE_V6,
        layout::AD_KIND_V6,
        out,
        service,
        peer,
        address,
        port,
        stamp,
        signature,
    )
}
