// Translation.
use crate::making::sheet_of;
use crate::sums::of_machine;
use machine::place::Machine;
use machine::translator::translate;

/// Translates lines; 0 where one is refused.
#[unsafe(no_mangle)]
pub extern "C" fn figures_translate(lines: &[u8], rounds: u32) -> u64 {
    let Some(sheet) = sheet_of(lines) else {
        return 0;
    };
    let mut machine = Machine::new();
    for _ in 0..rounds {
        translate(&sheet, &mut machine);
    }
    of_machine(&machine)
}
