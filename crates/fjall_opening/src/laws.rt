//! What holds of folders that a crash left.

ghost use Rattle.std.specs.Prelude.{◌≡◌, [], Option};
ghost use Rattle.fjall_base.specs.Disk.{DiskState, Name, standing};
ghost use Rattle.fjall_recovery.specs.Folders.{IsUnfinished, Contents};
ghost use Rattle.fjall_repair.specs.Making.{ComesBackUnfinished};
ghost use Rattle.fjall_recovery.specs.Held.{IsFolder};
ghost use Rattle.fjall_opening.specs.Opened.{ComesBack};

/// Where a crash brings nothing back, as on a disk that a crash left, nothing but what is unfinished comes back.
pub fn settled_folders_come_back_unfinished()
    ensures { (state : DiskState) → ((name : Name) → (state name).older ≡ []) → IsUnfinished (standing state) → ComesBackUnfinished state }
{}

/// Where a crash brings nothing back, as on a disk that a crash left, nothing comes back but what stands.
pub fn settled_folders_come_back()
    ensures { (state : DiskState) (folder : Option Contents) → ((name : Name) → (state name).older ≡ []) → IsFolder (standing state) folder
        → ComesBack state folder }
{}
