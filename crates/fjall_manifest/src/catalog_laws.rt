//! What holds of catalogs.

ghost use Rattle.std.specs.Prelude.{◌≡◌, Bool, true, List};
ghost use Rattle.fjall_base.specs.Disk.{DiskState, Image, IsImage, Name, Survives};
ghost use Rattle.fjall_files.specs.Regions.{IsImageIn, is_under};
ghost use Rattle.fjall_manifest.specs.Records.{Fields, IsRecord};
ghost use Rattle.fjall_files.specs.Names.{keyspace_folder};
ghost use Rattle.fjall_meta.specs.Keyspaces.{Keyspaces};
ghost use Rattle.fjall_manifest.specs.declared.catalog.Catalog.{Catalog};
ghost use Rattle.fjall_manifest.specs.Catalog.{Says, CatalogRests, fields};
ghost use Rattle.fjall_manifest.specs.Homes.{is_counted};

/// Whatever a crash leaves of a catalog that rests says it.
pub fn crashes_say_the_catalog()
    ensures { (state : DiskState) (image : Image) (records : List Fields) (last : Catalog) (s : Keyspaces) → CatalogRests state records last s
        → IsImage state image → Says image records last s }
{}

/// So does whatever a crash leaves in a region of the names that has those that the catalog rests on.
pub fn regions_say_the_catalog()
    ensures { (region : Name → Bool) (state : DiskState) (image : Image) (records : List Fields) (last : Catalog) (s : Keyspaces)
        → ((q : Name) → is_counted 0 q ≡ true → region q ≡ true)
        → CatalogRests state records last s → IsImageIn Survives region state image → Says image records last s }
{}

/// Two images that agree in the folder of tree 0 say the same.
pub fn says_alike()
    ensures { (image other : Image) (records : List Fields) (last : Catalog) (s : Keyspaces)
        → ((q : Name) → is_under (keyspace_folder 0) q ≡ true → other q ≡ image q) → Says image records last s → Says other records last s }
{}

/// An image says one thing.
pub fn one_catalog()
    ensures { (image : Image) (records others : List Fields) (last other : Catalog) (s t : Keyspaces) → Says image records last s
        → Says image others other t → (records ≡ others) × (last ≡ other) × (s ≡ t) }
{}

/// The last record of a catalog that rests is a record.
pub fn last_is_a_catalog()
    ensures { (state : DiskState) (records : List Fields) (last : Catalog) (s : Keyspaces) → CatalogRests state records last s → IsRecord (fields last) }
{}
