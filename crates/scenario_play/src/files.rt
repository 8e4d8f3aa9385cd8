// Where a pool's file is read from.
ghost use Rattle.std.specs.Prelude.{◌≡◌, ℕ, List, ⊤, Err, IfOk, vec_items};
ghost use Rattle.scenario_play.specs.declared.files.NoFile.{NoFile as Missing};

use std::alloc::Global;

// A file cannot be had.
#[derive(Clone, Copy, Debug, PartialEq, Eq)]
pub struct NoFile;

pub trait Files {
    // Which bytes a file may have, by its path: of a disk any.
    ghost holds: { Self → List ℕ → List ℕ → Type 0 } = { λ _ _ _. ⊤ };

    // All bytes of a file.
    fn read(&self, heap: Global, path: &str) -> Result<Vec<u8>, NoFile>
        ensures { IfOk result (λ v. holds self.now path.now (vec_items v)) };
}

// A scenario that is given as bytes has no files.
#[derive(Clone, Copy)]
pub struct NoFiles;

impl Files for NoFiles {
    ghost holds = { λ _ _ _. ⊥ };

    fn read(&self, _heap: Global, _path: &str) -> Result<Vec<u8>, NoFile> {
        Err(NoFile)
    }
}
