// An entry of the cache: kind, accepted 8, then an ad's body. The kinds are the cache's to choose, and an address may have any length.
ghost use Rattle.std.specs.Prelude.{◌≡◌, ◌+◌, ◌≤◌, length};
ghost use Rattle.octets.specs.Runs.{part, put};
ghost use Rattle.record.specs.Layout.{time_size, entry_body_at};
ghost use Rattle.record.specs.Entries.{entry_of, listed};

use super::layout;

// Writes an ad, accepted at a time, into its place in the cache.
pub fn fill_entry(place: &mut [u8], kind: u8, time: u64, ad: &[u8])
    requires { (1 ≤ length ad.now) × (length place.old ≡ length ad.now + time_size) }
    ensures { place.new ≡ entry_of kind time ad.now }
{
    place[0] = kind;
    octets::write_u64(place, layout::ACCEPTED_AT, time);
    octets::copy(place, layout::BODY_AT, &ad[layout::KIND_SIZE..]);
}

// Puts the 64 bytes of an entry that begin at a place into a buffer: all are read before the first is written.
fn put_block(out: &mut [u8], at: usize, entry: &[u8], from: usize)
    requires { (at + 64 ≤ length out.old) × (from + 64 ≤ length entry.now) }
    ensures { out.new ≡ put at (part from 64 entry.now) out.old }
{
    let block = octets::array::<64>(entry, from);
    octets::copy(out, at, &block);
}

// Writes an entry's ad, as a record of a kind, into a buffer of just its length. A body has two blocks of 64 bytes and some of a third: the last block is put at the
// end, over bytes that the second has put already, so that each has a length that is known when this is compiled.
pub fn fill_listed(out: &mut [u8], kind: u8, entry: &[u8])
    requires entry_body_at_in_bounds { (entry_body_at + 128 ≤ length entry.now) × (length entry.now ≤ entry_body_at + 192) }
    requires time_size_len { length out.old + time_size ≡ length entry.now }
    ensures { out.new ≡ listed kind entry.now }
{
    let end = out.len() - 64;
    let last = entry.len() - 64;
    out[0] = kind;
    put_block(out, layout::SERVICE_AT, entry, layout::BODY_AT);
    put_block(out, layout::SERVICE_AT + 64, entry, layout::BODY_AT + 64);
    put_block(out, end, entry, last);
}
