//! What holds of folders that pass.

ghost use Rattle.fjall_base.specs.Disk.{Image};
ghost use Rattle.fjall_base.specs.Store.{Store};
ghost use Rattle.fjall_recovery.specs.Folders.{ImageStandsFor};
ghost use Rattle.fjall_inspect.specs.Checks.{Passes};

/// A folder that stands for a store passes.
pub fn sound_folders_pass()
    ensures { (image : Image) (store : Store) → ImageStandsFor image store → Passes image }
{}
