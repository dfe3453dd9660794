#![tactic(auto)]
// The vector file: what a vector is, the check of the file, the first unused ones of a private identity, and their mark.
pub mod choice;
pub mod file;
pub mod mark;
pub mod vector;

// The one authentication scheme that is served.
pub const SCHEME: [u8; 16] = *b"Digest-AKAv1-MD5";
