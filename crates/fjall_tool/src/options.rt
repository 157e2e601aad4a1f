//! The options of commands that print pairs.

/// How pairs are printed.
#[derive(Clone, Copy, PartialEq)]
pub enum Format {
    /// `K V`, hexadecimal digits, as `load` reads them.
    Lines,
    /// An object of JSON a line, hexadecimal digits too.
    Json,
    /// A key and its value for people, with a tab between.
    Text,
}

/// Which pairs are printed, and how.
#[derive(Clone, Copy)]
pub struct Options<'a> {
    pub from: Option<&'a str>,
    pub to: Option<&'a str>,
    pub prefix: Option<&'a str>,
    pub limit: usize,
    pub is_reversed: bool,
    pub format: Format,
}

impl<'a> Options<'a> {
    // Takes the value of an option. Where there is no such option, or it has no such value, that is none.
    fn with_value(mut self, option: &str, value: &'a str) -> Option<Options<'a>> {
        match (option, value) {
            ("--from", key) => self.from = Some(key),
            ("--to", key) => self.to = Some(key),
            ("--prefix", prefix) => self.prefix = Some(prefix),
            ("--limit", count) => self.limit = count.parse().ok()?,
            ("--format", "lines") => self.format = Format::Lines,
            ("--format", "json") => self.format = Format::Json,
            ("--format", "text") => self.format = Format::Text,
            _ => return None,
        }
        Some(self)
    }

    /// The options that these words give, over those of a format; none where they are wrong.
    pub fn read(format: Format, words: &'a [String]) -> Option<Options<'a>> {
        let mut options = Options {
            from: None,
            to: None,
            prefix: None,
            limit: usize::MAX,
            is_reversed: false,
            format,
        };
        let mut awaited = None;
        for word in words {
            match awaited.take() {
                Some(option) => options = options.with_value(option, word)?,
                None if word.as_str() == "--reverse" => options.is_reversed = true,
                None => awaited = Some(word.as_str()),
            }
        }
        if awaited.is_some() {
            return None;
        }
        Some(options)
    }
}
