//! The bytes of a file, as definitions: its header, its records, and the partitions in them.
//! All of it is in `specs/` and `proofs/`.
#![tactic(auto)]
