// A machine that prints itself.
use machine::place::Machine;

pub mod display;

// A struct of its own: `Machine` is another crate's, so `Display` cannot be written for it here.
/// The four tables of a machine, to be printed.
#[derive(Clone, Copy)]
pub struct Printed<'a> {
    pub machine: &'a Machine,
}
