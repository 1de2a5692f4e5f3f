//! Serial number arithmetic (RFC 4960 section 1.6, RFC 1982 section 3.2): SSNs and TSNs compared within half their
//! range, over any number of turns of it.
#![tactic(auto)]

mod serial;

pub use serial::{
    sna16gt, sna16gte, sna16lt, sna16lte, sna32gt, sna32gte, sna32lt, sna32lte,
    ssn_order_is_of_offsets, tsn_order_is_of_offsets,
};
