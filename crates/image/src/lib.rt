// What is said of the table's image, 532 bytes on sector 4960: form A of document 01, form B of document 02,
// request 6. Types alone: specs/ says what an image is, and `codec` has the code.
#![tactic(auto)]

use table::Table;

// Names why bytes are no image: they have neither form, form B's sum is wrong, or another field of it is.
#[derive(Clone, Copy)]
pub enum Fault {
    Form,
    Sum,
    Field,
}

// Holds what an image holds: a table, the causes of its spare entries, and the run number.
#[derive(Clone, Copy)]
pub struct Image {
    pub table: Table,
    pub causes: [u16; 32],
    pub run: u32,
}

// Holds where an image has its lists: how many entries, the place of the first spare entry, how many
// bytes a spare entry has, and the place of the first bad entry.
#[derive(Clone, Copy)]
pub struct Layout {
    pub nspares: usize,
    pub nbads: usize,
    pub spares: usize,
    pub width: usize,
    pub bads: usize,
}
