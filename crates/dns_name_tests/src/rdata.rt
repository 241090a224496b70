//! Tests of `dns_rdata`: octets of several kinds, some without room.
mod builder;
mod kinds;
