// The numbers that stand between a C host and the registrar's calls: an answer's, a family's, a vouching's and the interface's own. A refusal n is −n; 0 is done
// or confirmed; a positive number is a wait in milliseconds, a count, a length or the version.
#![tactic(auto)]

ghost use Rattle.std.specs.Prelude.{◌≡◌, ◌<◌, ◌^◌, eqb, pos};
ghost use Rattle.record.specs.Refusals.{number_of, code};
ghost use Rattle.listing.specs.Listed.{as_listed};
ghost use Rattle.message.specs.Written.{as_written};
ghost use Rattle.search.specs.Place.{as_place};
ghost use Rattle.admission.specs.Registered.{as_registered};
ghost use Rattle.admission.specs.Deciding.{moves_or};
ghost use Rattle.codes.specs.Codes.{version, minus, family_told, ListedFits, listed_number, WrittenFits, written_number, place_number, offset_or, RegisteredFits, registered_number};

use admission::Decision;
use cache::Family;
use record::Refusal;
use search::Found;

// It rises with every change of a call's shape or of a length, here, in specs/Codes.antt, in the header for C and in the crate for Rust.
const VERSION: i64 = 6;
// The numbers of the families of addresses.
const IPV4: u64 = 4;

const IPV6: u64 = 6;

// The number of the interface.
pub fn version() -> i64
    ensures { result ≡ pos version }
{
    VERSION
}

// The family that a host tells by its number, if it is one's.
#[tactic(auto, unfolding(crate::specs::Codes::family_told))]
pub fn family_told(number: u64) -> Option<Family>
    ensures { result ≡ family_told number }
{
    match number {
        IPV4 => Some(Family::V4),
        IPV6 => Some(Family::V6),
        _ => None,
    }
}

// Whether a host vouches for a signature: yes is 1, and no other byte.
pub fn is_vouched(byte: u8) -> bool
    ensures { result ≡ eqb byte 1 }
{
    byte == 1
}

// −n: refusal n.
pub fn for_refusal(n: u8) -> i64
    ensures { result ≡ minus n }
{
    -i64::from(n)
}

// The same of a refusal by its number in the table.
fn refused(refusal: Refusal) -> i64
    ensures { result ≡ minus (number_of refusal) }
{
    for_refusal(refusal.number())
}

// A wait in milliseconds, a count or a length.
fn positive(n: u64) -> i64
    requires { n < 2 ^ 63 }
    ensures { result ≡ pos n }
{
    n as i64
}

// A call that answers nothing but whether it was refused: 0 where it was not.
pub fn for_done(answer: Result<(), Refusal>) -> i64
    ensures { result ≡ minus (code answer) }
{
    match answer {
        Ok(()) => 0,
        Err(refusal) => refused(refusal),
    }
}

// GET_ADS: how many were listed.
pub fn for_listing(answer: Result<usize, Refusal>) -> i64
    requires { ListedFits (as_listed answer) }
    ensures { result ≡ listed_number (as_listed answer) }
{
    match answer {
        Ok(listed) => positive(listed as u64),
        Err(refusal) => refused(refusal),
    }
}

// A message written: its length.
pub fn for_message(answer: Result<usize, Refusal>) -> i64
    requires { WrittenFits (as_written answer) }
    ensures { result ≡ written_number (as_written answer) }
{
    match answer {
        Ok(length) => positive(length as u64),
        Err(unwritten) => refused(unwritten),
    }
}

// The number of an answer, and what the number becomes that a host lends beside it.
#[derive(Clone, Copy)]
pub struct Answer(pub i64, pub u64);

// The newest in two caches: 1 or 2 for the cache that holds it, 0 for neither. Beside it is where the body begins in that cache, or the old offset.
pub fn for_place(answer: Result<Option<Found>, Refusal>, offset: u64) -> Answer
    ensures number { result.0 ≡ place_number (as_place answer) }
    ensures beside { result.1 ≡ offset_or offset (as_place answer) }
{
    match answer {
        Ok(Some(Found::First(at))) => Answer(1, at as u64),
        Ok(Some(Found::Second(at))) => Answer(2, at as u64),
        Ok(None) => Answer(0, offset),
        Err(refusal) => Answer(refused(refusal), offset),
    }
}

// REGISTER: 0 for CONFIRMED, and WAIT's milliseconds. Beside it is how many held entries changed their place, or the old moves.
pub fn for_registration(answer: Result<Decision, Refusal>, moves: u64) -> Answer
    requires { RegisteredFits (as_registered answer) }
    ensures number { result.0 ≡ registered_number (as_registered answer) }
    ensures beside { result.1 ≡ moves_or moves (as_registered answer) }
{
    match answer {
        Ok(Decision::Confirmed(moved)) => Answer(0, moved as u64),
        Ok(Decision::Wait(wait, moved)) => Answer(positive(wait.0), moved as u64),
        Err(refusal) => Answer(refused(refusal), moves),
    }
}
