//! Lines that are no calls: of openings, of the disk and of its records. Each ends the list of calls before it.

use crate::answer::count;
use crate::session::{SHUT, Session};
use fjall_recorder::{Parsed, number, size};

/// Whether a line is none of a call.
pub fn is_own(words: &[&str]) -> bool {
    match words {
        ["count", "kept"] | ["remove", _] => true,
        ["len", name] => number(name).is_err(),
        [word, ..] => is_own_word(word),
        [] => false,
    }
}

fn is_own_word(word: &str) -> bool {
    match word {
        "open" | "close" | "drop" | "reopen" | "crash" | "next" | "show" | "live" => true,
        "record" | "moments" | "stop" | "forget" | "ways" | "names_at" | "image" => true,
        "file" | "list" | "has" | "digest" | "hold" | "held" => true,
        "new" | "lose" | "fail" | "faults" | "put" | "cut" | "damage" | "folder" | "entries" =>
            true,
        _ => false,
    }
}

impl Session {
    /// What such a line is answered.
    pub(crate) fn own(&mut self, words: &[&str]) -> Parsed<String> {
        let told = match words {
            ["count", "kept"] => match &*self.core {
                Some(core) => return Ok(count(self.alloc, core.kept_commits())?),
                None => SHUT,
            },
            ["show"] => return self.show(),
            ["next" | "live"] => "ok",
            ["open"] => opened(self.open()?),
            ["close"] => if self.close()? { "ok" } else { SHUT },
            ["drop"] => {
                self.leave();
                "ok"
            }
            ["reopen"] => {
                // the opening alone is told
                let _ = self.close();
                opened(self.open()?)
            }
            ["crash", keep] => {
                self.lose(size(keep)?)?;
                opened(self.open()?)
            }
            _ => return self.of_record(words),
        };
        Ok(String::from_str(self.alloc, told)?)
    }
}

// How an opening is told of a database that was shut before or not.
fn opened(was_shut: bool) -> &'static str {
    if was_shut { "ok" } else { "open" }
}
