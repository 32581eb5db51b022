//! The words that every definition is made of: items counted from 1, pieces of a text, numbers, hexadecimal digits,
//! base64 and moments. It has no code: `specs/Words.antt` is all of it.
#![tactic(auto)]
