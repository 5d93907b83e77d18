// The Advertisement message in Protocol Buffers wire form, read and written for a host.
ghost use Rattle.std.specs.Prelude.{◌≡◌};
ghost use Rattle.message.specs.Calls.{message_read, write_answer, write_buffer};
ghost use Rattle.codes.specs.Codes.{minus, written_number};

// Reads a message into an advertisement's record. The epoch is the registrar's, in Unix seconds.
pub fn unglassot_read_message(message: &[u8], epoch: u64, ad: &mut [u8]) -> i64
    ensures number { result ≡ minus (message_read epoch message.now ad.old).number }
    ensures buffer { ad.new ≡ (message_read epoch message.now ad.old).buffer }
{
    codes::for_done(message::read(message, epoch, ad))
}

// Writes an advertisement's record as a message, and answers its length.
pub fn unglassot_write_message(ad: &[u8], epoch: u64, out: &mut [u8]) -> i64
    ensures number { result ≡ written_number (write_answer epoch ad.now out.old) }
    ensures buffer { out.new ≡ write_buffer epoch ad.now out.old }
{
    codes::for_message(message::write(ad, epoch, out))
}
