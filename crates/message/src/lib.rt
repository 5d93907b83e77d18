// The Advertisement message of Logos Capability Discovery in Protocol Buffers wire form: read into an ad's record, and written of one.
// Both answer on every input, with a refusal or with what was asked for, and a refusal leaves the lent buffer as it was. Accepted is one form of a
// message only: fields in rising order, each once, shortest varints, no metadata, one address. Neither judges the signature.
#![tactic(auto)]

ghost use Rattle.std.specs.Prelude.{true, ◌≡◌, ◌<◌, ◌≤◌, length};
ghost use Rattle.record.specs.Layout.{address_size, ad_size};
ghost use Rattle.wire.specs.Wire.{Placed};
ghost use Rattle.record.specs.Refusals.{code, reply};
ghost use Rattle.advertisement.specs.Advertisement.{epoch_end, most_size, accepted};
ghost use Rattle.message.specs.Calls.{ad_from, message_read, message_of, has_message, MessageWritten};
ghost use Rattle.message.specs.Written.{as_written};

use advertisement::MOST_SIZE;
use record::{Refusal, layout};

// An epoch, in Unix seconds, is below this: 2^33.
const EPOCH_END: u64 = 8_589_934_592;

// Writes the ad of an accepted message.
fn fill_read(ad: &mut [u8], message: &[u8], epoch: u64)
    requires { (length ad.old ≡ ad_size address_size) × (epoch < epoch_end) × (accepted epoch message.now ≡ true) }
    ensures { ad.new ≡ ad_from epoch message.now }
{
    let stamp = (wire::varint_value(message, advertisement::TIMESTAMP_AT) - epoch)
        * advertisement::SECOND;
    record::ad::fill_ad(
        ad,
        layout::AD_KIND,
        &message[advertisement::SERVICE_AT..advertisement::SERVICE_END],
        &message[advertisement::PEER_AT..advertisement::PEER_END],
        &message[advertisement::ADDRESS_AT..advertisement::ADDRESS_END],
        octets::read_u16(message, advertisement::PORT_AT),
        stamp,
        &message[advertisement::SIGNATURE_AT..advertisement::SIGNATURE_END],
    );
}

// Reads a message into an ad's record.
pub fn read(message: &[u8], epoch: u64, ad: &mut [u8]) -> Result<(), Refusal>
    ensures { reply (code result) ad.new ≡ message_read epoch message.now ad.old }
{
    if ad.len() != layout::AD_FIXED + layout::ADDRESS_SIZE {
        return Err(Refusal::Length);
    }
    if epoch >= EPOCH_END {
        return Err(Refusal::NoMessage);
    }
    if !advertisement::is_accepted(message, epoch) {
        return Err(Refusal::MessageForm);
    }
    fill_read(ad, message, epoch);
    Ok(())
}

// Whether an ad has a message under an epoch: it passes its check, epoch and stamp are in their ranges, and the stamp is a whole second.
fn has_message(ad: &[u8], epoch: u64) -> bool
    ensures { result ≡ has_message epoch ad.now }
{
    if record::ad::check_ad(ad, layout::ADDRESS_SIZE, layout::AD_KIND).is_err() {
        return false;
    }
    if epoch >= EPOCH_END {
        return false;
    }
    let stamp = octets::read_u64(ad, layout::STAMP_FIXED + layout::ADDRESS_SIZE);
    if stamp > settings::LAST_CLOCK {
        return false;
    }
    stamp % advertisement::SECOND == 0
}

// Writes the message of an ad that has one, and answers its length.
fn fill_written(out: &mut [u8], ad: &[u8], epoch: u64) -> usize
    requires { (has_message epoch ad.now ≡ true) × (most_size ≤ length out.old) }
    ensures { Placed 0 (message_of epoch ad.now) out.old result out.new }
{
    let address_at = layout::ADDRESS_AT;
    let address_end = address_at + layout::ADDRESS_SIZE;
    let signature_at = layout::SIGNATURE_FIXED + layout::ADDRESS_SIZE;
    let signature_end = signature_at + layout::SIGNATURE_SIZE;
    let stamp = octets::read_u64(ad, layout::STAMP_FIXED + layout::ADDRESS_SIZE);
    advertisement::fill_message(
        out,
        &ad[layout::SERVICE_AT..layout::PEER_AT],
        &ad[layout::PEER_AT..address_at],
        &ad[address_at..address_end],
        octets::read_u16(ad, layout::PORT_FIXED + layout::ADDRESS_SIZE),
        epoch + stamp / advertisement::SECOND,
        &ad[signature_at..signature_end],
    )
}

// Writes an ad as a message at the front of the buffer, and answers its length. The bytes behind it stay.
pub fn write(ad: &[u8], epoch: u64, out: &mut [u8]) -> Result<usize, Refusal>
    ensures { MessageWritten epoch ad.now out.old (as_written result) out.new }
{
    if !has_message(ad, epoch) {
        return Err(Refusal::NoMessage);
    }
    let mut made = [0u8; MOST_SIZE];
    let n = fill_written(&mut made, ad, epoch);
    if out.len() < n {
        return Err(Refusal::Length);
    }
    octets::copy(out, 0, &made[..n]);
    Ok(n)
}
