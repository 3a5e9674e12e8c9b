#![tactic(auto)]

// Leaves as exported functions: those that Annex A's vectors and the benchmark run by themselves. It is no part of
// the receiver's own boundary. A module `of_NAME` has the functions of the crate NAME. Each function asks what its leaf asks, gives
// what its leaf gives, and calls it once; the walk down a key chain alone is total. A chain and a tag are given as numbers, those that the leaf
// does not read as 0; a result that is an array goes into a lent array. A region is lent as a slice of its length, as C lends it.
mod of_chain;
mod of_kroot;
mod of_navdata;
mod of_pkr;
mod of_public_keys;
mod of_tag_codes;
mod of_times;
