// Writing out the run of a sealed sheet on a two-valued recording; and calls on a sheet, one after another, with all that
// holds of them.
#![tactic(auto)]

pub mod answer;
mod bits;
mod by_form;
pub mod call;
pub mod form;
pub mod history;
pub mod printing;
pub mod refusal;
mod rows;
pub mod step;
pub mod writing;
