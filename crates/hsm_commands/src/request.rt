//! A message whose fields were read and whose LMK set is loaded, with what it is followed by.
ghost use Rattle.std.specs.Prelude.{◌<◌, length};

use hsm_rows::{Fields, Module, Rules};

// The module, what the row asks beyond its forms, and what was read.
#[derive(Clone, Copy)]
pub(crate) struct Request<'a, 'm> {
    pub(crate) module: &'a Module,
    pub(crate) rules: &'static Rules,
    pub(crate) fields: &'a Fields<'m>,
    ghost loaded: { fields.now.set < length «module».now.lmks.items },
}
