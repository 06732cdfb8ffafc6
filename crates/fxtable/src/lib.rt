// What a fixnum call is: the widths, the operations' codes with the arguments that each takes, and the answer.
#![tactic(auto)]

pub mod answer;
pub mod call;
pub mod domains;
pub mod table;
pub mod width;
