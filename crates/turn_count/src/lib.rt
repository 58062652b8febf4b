// How many turns a picture takes, from its size and its slice map alone.
#![tactic(auto)]

pub mod count; // the call
mod late; // how late the macroblocks of a row are
