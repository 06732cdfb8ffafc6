// The stages of a limb call: what is checked before a result is measured, and how a result is stored.
#![tactic(auto, unfolding(crate::specs::Inner::field_of, crate::specs::Inner::rotation_of, crate::specs::Inner::new_bit_of, outcomes::specs::Outcome::map_done, outcomes::specs::Outcome::guard, outcomes::specs::Outcome::guard_at, outcomes::specs::Refusal::outcome_of, outcomes::specs::Refusal::code_of, crate::specs::Stages::operand, crate::specs::Stages::is_operand, crate::specs::Stages::is_field, crate::specs::Stages::is_new_bit))]

pub mod answer;
pub mod check;
pub mod field;
pub mod numbers;
pub mod run;
pub mod shift;

// What a C caller is told of a call that writes an integer: a refusal number, 0 for done, and how many limbs it has written.
#[repr(C)]
#[derive(Drop)]
pub struct Written {
    pub refusal: u64,
    pub length: u64,
}
