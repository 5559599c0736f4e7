//! The disk that keeps nothing and never fails.
ghost use Rattle.disk_outside.specs.Disk.{untold};

use crate::disk::{Disk, DiskRefusal, Failed};
use fx_num::Text;
use std::alloc::Global;

/// A disk that never fails. It takes every write and keeps none of them, each file reads as empty, and so it tells
/// nothing: it is for work that saves nothing, and for what is said of work in which no device fails.
#[derive(Drop)]
pub struct SureDisk;

impl Disk for SureDisk {
    ghost told = { ⊥ };

    ghost view = { λ _. untold 0 };

    ghost orderly = { λ _ told. absurd told };

    fn read(&mut self, alloc: Global, _name: &Text) -> Result<Text, DiskRefusal> {
        Ok(Text::new(alloc))
    }

    fn write_at(&mut self, _name: &Text, _at: u64, _bytes: &[u8]) -> Result<(), Failed> {
        Ok(())
    }

    fn cut(&mut self, _name: &Text, _length: u64) -> Result<(), Failed> {
        Ok(())
    }

    fn sync(&mut self, _name: &Text) -> Result<(), Failed> {
        Ok(())
    }
}
