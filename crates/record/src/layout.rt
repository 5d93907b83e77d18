// The table of every record (document 01, "Records"; document 02, orders 1, 4, 8, 10, 11 and 12), as specs/Layout.antt has it: kinds and lengths of fields, and every place and length of a
// record as a sum of them.
pub const AD_KIND: u8 = 1;

pub const TICKET_KIND: u8 = 8;

pub const ENTRY_KIND: u8 = 3;

pub const WITHDRAWN_KIND: u8 = 13;

pub const HEAD_KIND: u8 = 14;

pub const AD_KIND_V6: u8 = 10;

pub const ENTRY_KIND_V6: u8 = 11;

pub const WITHDRAWN_KIND_V6: u8 = 16;

pub const HEAD_KIND_V6: u8 = 12;

pub const ASK_KIND: u8 = 5;

pub const RETURN_KIND: u8 = 9;

pub const LIST_KIND: u8 = 7;

pub const VISIT_KIND: u8 = 20;

pub const REVISIT_KIND: u8 = 21;

pub const SIMULATED_KIND: u8 = 15;

pub const BOUND_KIND: u8 = 17;
// The fields and their lengths in bytes. An identifier is a service or a peer, a time any number of milliseconds, a count C or a number of entries, a
// counter a number modulo 2^64.
pub const KIND_SIZE: usize = 1;

pub const IDENTIFIER_SIZE: usize = 32;

pub const ADDRESS_SIZE: usize = 4;

pub const ADDRESS_SIZE_V6: usize = 16;

pub const PORT_SIZE: usize = 2;

pub const STAMP_SIZE: usize = 8;

pub const SIGNATURE_SIZE: usize = 64;

pub const TIME_SIZE: usize = 8;

pub const HASH_SIZE: usize = 32;

pub const TAG_SIZE: usize = 32;

pub const COUNT_SIZE: usize = 2;

pub const COUNTER_SIZE: usize = 8;

pub const VOUCHED_SIZE: usize = 1;

pub const ADVERTISER_SIZE: usize = 1;

pub const SIMILARITY_SIZE: usize = 1;

pub const DOUBLE_SIZE: usize = 8;

// Where the kind stands in every record.
pub const KIND_AT: usize = 0;

// An ad: kind, service, peer, address, port, stamp, signature. A name that ends in FIXED is a length or a place without the address, whose own length is added.
pub const SERVICE_AT: usize = KIND_SIZE;

pub const PEER_AT: usize = SERVICE_AT + IDENTIFIER_SIZE;

pub const ADDRESS_AT: usize = PEER_AT + IDENTIFIER_SIZE;

pub const PORT_FIXED: usize = ADDRESS_AT;

pub const STAMP_FIXED: usize = PORT_FIXED + PORT_SIZE;

pub const SIGNATURE_FIXED: usize = STAMP_FIXED + STAMP_SIZE;

pub const AD_FIXED: usize = SIGNATURE_FIXED + SIGNATURE_SIZE;

// An ad's body.
pub const BODY_FIXED: usize = AD_FIXED - KIND_SIZE;

// A ticket: kind, the hash of the ad that it belongs to, first, issued, wait, tag. The tag is over what stands before it.
pub const HASH_AT: usize = KIND_SIZE;

pub const FIRST_AT: usize = HASH_AT + HASH_SIZE;

pub const ISSUED_AT: usize = FIRST_AT + TIME_SIZE;

pub const WAIT_AT: usize = ISSUED_AT + TIME_SIZE;

pub const TAGGED_SIZE: usize = WAIT_AT + TIME_SIZE;

pub const TICKET_SIZE: usize = TAGGED_SIZE + TAG_SIZE;

pub const TICKET_BODY_SIZE: usize = TICKET_SIZE - KIND_SIZE;

// An entry, withdrawn or not: kind, accepted, an ad's body.
pub const ACCEPTED_AT: usize = KIND_SIZE;

pub const BODY_AT: usize = ACCEPTED_AT + TIME_SIZE;

pub const ENTRY_SERVICE_AT: usize = BODY_AT;

pub const ENTRY_PEER_AT: usize = ENTRY_SERVICE_AT + IDENTIFIER_SIZE;

pub const ENTRY_ADDRESS_AT: usize = ENTRY_PEER_AT + IDENTIFIER_SIZE;

pub const ENTRY_STAMP_FIXED: usize = ENTRY_ADDRESS_AT + PORT_SIZE;

pub const ENTRY_FIXED: usize = BODY_AT + BODY_FIXED;

// The head of the cache: kind, C, count, last clock, how many were confirmed and how many expired since it was opened.
pub const CAPACITY_AT: usize = KIND_SIZE;

pub const COUNT_AT: usize = CAPACITY_AT + COUNT_SIZE;

pub const CLOCK_AT: usize = COUNT_AT + COUNT_SIZE;

pub const CONFIRMED_AT: usize = CLOCK_AT + TIME_SIZE;

pub const EXPIRED_AT: usize = CONFIRMED_AT + COUNTER_SIZE;

pub const HEAD_SIZE: usize = EXPIRED_AT + COUNTER_SIZE;

// The records of a log. An ask: kind, clock, vouched, an ad's body; a return: the same, then a ticket's body; a list: kind, clock, service.
pub const LOG_CLOCK_AT: usize = KIND_SIZE;

pub const VOUCHED_AT: usize = LOG_CLOCK_AT + TIME_SIZE;

pub const ASK_BODY_AT: usize = VOUCHED_AT + VOUCHED_SIZE;

pub const ASK_FIXED: usize = ASK_BODY_AT + BODY_FIXED;

pub const RETURN_FIXED: usize = ASK_FIXED + TICKET_BODY_SIZE;

pub const LIST_SERVICE_AT: usize = LOG_CLOCK_AT + TIME_SIZE;

pub const LIST_SIZE: usize = LIST_SERVICE_AT + IDENTIFIER_SIZE;

// The records of a recorded day, of both kinds: kind, the advertiser's number, clock, vouched, an ad's body.
pub const ADVERTISER_AT: usize = KIND_SIZE;

pub const VISIT_CLOCK_AT: usize = ADVERTISER_AT + ADVERTISER_SIZE;

pub const VISIT_VOUCHED_AT: usize = VISIT_CLOCK_AT + TIME_SIZE;

pub const VISIT_BODY_AT: usize = VISIT_VOUCHED_AT + VOUCHED_SIZE;

pub const VISIT_FIXED: usize = VISIT_BODY_AT + BODY_FIXED;

// A simulator's wait: kind, C, c, s, p, the wait as the 64 bits of a double.
pub const SIMULATED_CAPACITY_AT: usize = KIND_SIZE;

pub const SIMULATED_OCCUPANCY_AT: usize = SIMULATED_CAPACITY_AT + COUNT_SIZE;

pub const SIMULATED_SERVING_AT: usize = SIMULATED_OCCUPANCY_AT + COUNT_SIZE;

pub const SIMULATED_SIMILARITY_AT: usize = SIMULATED_SERVING_AT + COUNT_SIZE;

pub const SIMULATED_WAIT_AT: usize = SIMULATED_SIMILARITY_AT + SIMILARITY_SIZE;

pub const SIMULATED_SIZE: usize = SIMULATED_WAIT_AT + DOUBLE_SIZE;

// A lower bound: kind, service, address, until. Service and address are read as one run of bytes, the pair.
pub const PAIR_AT: usize = KIND_SIZE;

pub const UNTIL_FIXED: usize = PAIR_AT + IDENTIFIER_SIZE;

pub const BOUND_FIXED: usize = UNTIL_FIXED + TIME_SIZE;
