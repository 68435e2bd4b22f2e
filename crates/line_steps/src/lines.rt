//! The steps of every game along the rows and columns of a grid.

pub(crate) mod by_givens;
pub(crate) mod changed;
pub(crate) mod denied_given;
pub(crate) mod latin;
pub(crate) mod line_pass;
pub(crate) mod line_passes;
pub(crate) mod settling;
pub(crate) mod single_sets;
pub(crate) mod striking;
pub(crate) mod views;
pub(crate) mod waiting;
