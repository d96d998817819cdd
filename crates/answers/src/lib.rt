// The answers of the text protocol: the text of what is replied, in a lent buffer.
// No public function has a `requires`. By functions of a Writer and not by `Display`, for the reason that stands there.
#![tactic(auto, using(text::proofs::Behind::written_in_turn))]

mod maps;
mod write;

pub use maps::{write_frame, write_loaded, write_name, write_record};
pub use write::{
    write_common_time, write_done, write_float_answer, write_float_word, write_lookup,
    write_number_word, write_pose, write_posed, write_refusal,
};
