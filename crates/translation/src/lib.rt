//! Calls of real-mode procedures from protected mode: those that a client asks for (INT 31h functions 0300h to 0302h), interrupts that
//! are reflected, and the return from both.
//! It promises that each leaves the world that its definition names, or is refused and changes AX alone, or gives its exit and changes
//! nothing. It uses the stack of records and the machine of `guest_space`.
//! Bodies are free. The call structure is the DPMI text's, and `callbacks` uses it too; the registers that are handed over
//! (`specs/HandOver`) are in `host_run`'s law of nested calls.
#![tactic(auto)]

mod calling;
mod client_words;
mod laws;
mod real_stack;
mod reflecting;
mod returning;
mod structure;

pub use calling::begin;
pub use laws::{
    a_call_hands_over_its_structure_and_its_words, a_reflection_hands_over_the_general_registers,
    a_return_hands_over_the_results, a_stack_word_can_be_written_by_the_rules_of_real_mode,
    every_call_is_sound, every_call_is_stacked, every_call_keeps_the_rest,
    the_bytes_of_a_real_segment_are_apart,
};
pub use reflecting::reflect;
pub use returning::end;
pub use structure::{CallStructure, STRUCTURE_SIZE, index_results, other_results, read_structure};
