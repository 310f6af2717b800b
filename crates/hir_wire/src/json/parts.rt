//! A list that is read item by item.
ghost use Rattle.std.specs.Prelude.{◌≡◌, ◌≢◌, [], OnOk, IfErr};
ghost use Rattle.hir_wire.specs.Inner.Parts.{read_so_far, extended};
ghost use Rattle.hir_wire.specs.Reading.{made};

use crate::read_error::ReadError;
use std::alloc::Global;

/// What was read of a list so far: its values, or the gravest error.
#[derive(Drop)]
pub struct Parts<T> {
    values: Vec<T>,
    error: Option<ReadError>,
}

impl<T: Drop> Parts<T> {
    pub fn new(alloc: Global) -> Parts<T>
        ensures value { read_so_far result ≡ Ok [] }
    {
        Parts {
            values: Vec::new(alloc),
            error: None,
        }
    }

    /// Adds one more reading. Out of memory ends the list at once.
    pub fn add(&mut self, reading: Result<T, ReadError>) -> Result<(), ReadError>
        ensures ok { OnOk result (read_so_far self.new ≡ extended (read_so_far self.old) reading) }
        ensures memory { OnOk result (reading ≢ Err ReadError.Memory) }
        ensures err { IfErr result (λ e. e ≡ ReadError.Memory) }
    {
        match reading {
            Ok(value) => {
                if self.error.is_none() {
                    self.values.push(value)?;
                }
            }
            Err(ReadError::Memory) => return Err(ReadError::Memory),
            Err(error) => {
                self.error = Some(match self.error {
                    None => error,
                    Some(first) => first.graver(error),
                });
            }
        }
        Ok(())
    }

    /// All values, or the gravest error.
    pub fn finish(self) -> Result<Vec<T>, ReadError>
        ensures value { read_so_far self ≡ made (λ v. v.items) result }
    {
        match self.error {
            None => Ok(self.values),
            Some(error) => Err(error),
        }
    }
}
