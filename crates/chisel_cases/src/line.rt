//! The lines of a list of cases.

/// A line of a list of cases.
#[derive(Clone, Copy, Debug)]
pub(crate) enum Line<'t> {
    /// Nothing, or `#` and a remark.
    Comment,
    /// `case TITLE`: from here on no fetch and no put fails.
    Case(&'t str),
    /// `file NAME`: a file begins, in place of an earlier one of the name, and stays for all later runs.
    File(&'t str),
    /// `| TEXT`: the file goes on with the text and a line feed.
    Whole(&'t str),
    /// `> TEXT`: the file goes on with the text alone.
    Part(&'t str),
    /// `times COUNT TEXT`: the file goes on with the text so many times.
    Times(u32, &'t str),
    /// `byte NUMBER`: the file goes on with one byte.
    Byte(u8),
    /// `gone NAME`: there is no such file any more.
    Gone(&'t str),
    /// `fetch NUMBER`: the fetch of this number fails, counted from 1.
    Fetch(u64),
    /// `put NUMBER BYTES`: the put of this number fails after so many bytes, counted from 1.
    Put(u64, usize),
    /// `run WORD ..`: the program runs on these words, with one blank between two.
    Run(&'t str),
}

impl<'t> Line<'t> {
    /// The line that a text is, or none where it is in no form.
    pub(crate) fn read(text: &'t str) -> Option<Line<'t>> {
        if text.is_empty() || text.starts_with('#') {
            return Some(Line::Comment);
        }
        let (word, rest) = text.split_once(' ').unwrap_or((text, ""));
        match word {
            "case" => Some(Line::Case(rest)),
            "file" => Some(Line::File(rest)),
            "|" => Some(Line::Whole(rest)),
            ">" => Some(Line::Part(rest)),
            "times" => {
                let (count, text) = rest.split_once(' ')?;
                Some(Line::Times(count.parse::<u32>().ok()?, text))
            }
            "byte" => Some(Line::Byte(rest.parse::<u8>().ok()?)),
            "gone" => Some(Line::Gone(rest)),
            "fetch" => Some(Line::Fetch(rest.parse::<u64>().ok()?)),
            "put" => {
                let (number, taken) = rest.split_once(' ')?;
                let number = number.parse::<u64>().ok()?;
                Some(Line::Put(number, taken.parse::<usize>().ok()?))
            }
            "run" => Some(Line::Run(rest)),
            _ => None,
        }
    }
}
