// The face: the functions of hinurapay.h, each that of a flat room under the header's name. The room `hinurapay_c` exports them to C.
#![tactic(auto)]

pub mod keeping;
pub mod lending;
pub mod pieces;
pub mod reading;
pub mod waiting;
pub mod writing;
