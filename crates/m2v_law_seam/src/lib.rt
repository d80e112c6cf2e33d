//! A stream without a fault out of any bytes: what of them is kept, what is left out, and what holds of it.
#![tactic(auto)]

mod laws;

pub use laws::{
    law_all_there, law_all_told, law_answer, law_by_units, law_fault_told, law_frames_told,
    law_left_out, law_mend_decodes, law_mend_same, law_mend_twice, law_pictures_kept, law_reads_on,
    law_seam, law_worked_mends,
};
