// What a picture keeps of its macroblocks beside their samples: its size, who is whose neighbour, which are done, and how far it is.
#![tactic(auto)]

pub mod done; // which macroblocks are done
pub mod neighbours; // 6.4.9: neighbouring macroblocks
pub mod progress; // the progress record, starting and accepting
pub mod size; // sizes and places
pub mod slice_map; // a size with a slice map that fits it
