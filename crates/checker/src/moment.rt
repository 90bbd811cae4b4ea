// What variables and gates are at one row: bit j of `row` is variable j, and values[k] is gate k.
#[derive(Clone, Copy)]
pub(crate) struct Moment {
    pub row: u64,
    pub values: [bool; 192],
}
