//! What the program says of itself.

/// What wrong arguments are answered.
pub const USAGE: &str = "usage: fjall-tool COMMAND ..; fjall-tool help lists the commands";

/// What the program is.
pub const VERSION: &str = "fjall-tool of Pothvilai, after fjall 3.1.13";

/// The commands.
pub const HELP: &str = "fjall-tool COMMAND .. looks at the database of a folder, and changes it.

Looking, beside other readers, without a change of any byte:
  check FOLDER                     ok, or a line for each fault, with file and offset; then what an opening would cut and remove
  stat FOLDER [NAME] [--json]      keyspaces, tables, journals and numbers

Reading:
  keyspaces FOLDER                 the names of the keyspaces
  get FOLDER NAME KEY              the value of a key; status 1 where it has none
  scan FOLDER [NAME] [OPTION ..]   pairs for people, a tab between key and value, of all keyspaces where there is no NAME
  dump FOLDER [NAME] [OPTION ..]   pairs in lines that load reads

  Options: --from KEY, --to KEY (both within), --prefix KEY, --limit N, --reverse, --format lines|json|text

Changing:
  put FOLDER NAME KEY VALUE        gives a key a value, and syncs it
  del FOLDER NAME KEY              removes a key
  load FOLDER [NAME]               pairs of standard input, a line each, as they come, into NAME or behind lines `keyspace NAME`
  ingest FOLDER NAME               the same as one command, whose keys ascend
  merge FOLDER NAME                merges all tables of a keyspace

Others: calls FOLDER, help, version

KEY and VALUE are text, or behind 0x hexadecimal digits. A line of load and ingest is K V, both in lower-case hexadecimal
digits, - for none, ~ for V where the key is removed. put, load and ingest make a folder and a keyspace that are missing.
Status 0, or 1 where something is refused or wrong, or 2 for wrong arguments.";
