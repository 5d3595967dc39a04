// The work over lent bytes: one module for the cells and the stores, one for the reading.
pub mod placing;
pub mod table;
