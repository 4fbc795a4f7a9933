//! A walk over the text of a document, token by token, that notes how far the way to a place leads.
ghost use Rattle.std.specs.Prelude.{◌<◌};

use crate::steps::Step;
use cl_time::NoMemory;
use std::alloc::Global;
use toml_parser::bytes::is_bare;
use toml_parser::text::{first, skip, skip_blank, skip_ws};
use toml_parser::{ErrorKind, ParseError, RECURSION_LIMIT, quoted, starts_string, unquoted};

/// One more than the most steps that can be left behind an item.
const MOST_LEFT: usize = 6;

/// An array or an inline table that isn't closed yet.
#[derive(Clone, Copy)]
struct Open<'a> {
    /// The steps from here to the place, `None` where it lies elsewhere.
    left: Option<&'a [Step<'a>]>,
    /// The number of the next item, `None` in a table.
    item: Option<u32>,
}

#[derive(Drop)]
struct Walk<'a> {
    /// The text that is still to be walked.
    rest: &'a str,
    /// The text from where the way to the place leads furthest so far.
    found: &'a str,
    /// How many steps are left there.
    found_left: usize,
    /// All steps to the place.
    steps: &'a [Step<'a>],
    /// The steps from the table of the last header, `None` where the place lies elsewhere.
    table: Option<&'a [Step<'a>]>,
    /// The arrays and inline tables around, the innermost last.
    open: Vec<Open<'a>>,
    /// How many tables the headers have begun in each array on the way, by the number of steps that
    /// are left behind an item of it.
    begun: [u32; MOST_LEFT],
}

/// Returns the text behind a byte, where it begins with this byte.
fn behind(text: &str, byte: u8) -> Result<&str, ParseError>
    requires some { 0 < byte }
    requires ascii { byte < 128 }
{
    if first(text) == byte {
        Ok(skip(text, 1))
    } else {
        Err(ParseError::at(ErrorKind::Content, text))
    }
}

/// Reads a part of a key that isn't quoted.
fn bare_part(alloc: Global, text: &str) -> Result<(String, &str), ParseError> {
    let length = text.bytes().take_while(|byte| is_bare(*byte)).count();
    match text.split_at_checked(length) {
        Some((word, rest)) if length > 0 => Ok((String::from_str(alloc, word)?, rest)),
        _ => Err(ParseError::at(ErrorKind::Key, text)),
    }
}

/// Reads a part of a key.
fn key_part(alloc: Global, text: &str) -> Result<(String, &str), ParseError> {
    if starts_string(text) {
        quoted(alloc, text)
    } else {
        bare_part(alloc, text)
    }
}

/// Returns the text behind a string, a number, a date or a word.
fn behind_scalar(alloc: Global, text: &str) -> Result<&str, ParseError> {
    if starts_string(text) {
        Ok(quoted(alloc, text)?.1)
    } else {
        Ok(unquoted(alloc, text)?.1)
    }
}

/// Goes from a table to the member at a key, where this leads on.
fn to_member<'a>(left: Option<&'a [Step<'a>]>, word: &str) -> Option<&'a [Step<'a>]> {
    let (step, others) = left?.split_first()?;
    match *step {
        Step::Member(wanted) if wanted == word => Some(others),
        _ => None,
    }
}

/// Goes from an array to the item with a number, where this leads on.
fn to_item<'a>(left: Option<&'a [Step<'a>]>, number: u32) -> Option<&'a [Step<'a>]> {
    let (step, others) = left?.split_first()?;
    match *step {
        Step::Item(wanted) if wanted == number => Some(others),
        _ => None,
    }
}

/// Whether the next step goes from an array to an item.
fn is_at_array(left: &[Step<'_>]) -> bool {
    matches!(left.first(), Some(Step::Item(_)))
}

impl<'a> Walk<'a> {
    /// Notes how far a way leads that has come to `here`.
    fn note(&mut self, left: Option<&'a [Step<'a>]>, here: &'a str) {
        if let Some(left) = left {
            if left.len() < self.found_left {
                self.found_left = left.len();
                self.found = here;
            }
        }
    }

    /// Counts one more table of an array, and returns its number.
    fn begin_table(&mut self, left: &[Step<'_>]) -> u32 {
        match self.begun.get_mut(left.len().saturating_sub(1)) {
            Some(count) => {
                let number = *count;
                *count = number.saturating_add(1);
                number
            }
            None => 0,
        }
    }

    /// Goes from an array on to the last table that headers have begun in it.
    fn to_last(&self, left: Option<&'a [Step<'a>]>) -> Option<&'a [Step<'a>]> {
        let steps = left?;
        if !is_at_array(steps) {
            return left;
        }
        let count = *self.begun.get(steps.len().saturating_sub(1))?;
        to_item(left, count.checked_sub(1)?)
    }

    /// Goes from an array on to the next table in it, which a header begins.
    fn to_next(&mut self, left: Option<&'a [Step<'a>]>) -> Option<&'a [Step<'a>]> {
        let steps = left?;
        if is_at_array(steps) {
            let number = self.begin_table(steps);
            to_item(left, number)
        } else {
            None
        }
    }

    /// Walks a key that may have dots, and returns the steps left behind it and the text behind it.
    fn walk_key(
        &mut self,
        alloc: Global,
        table: Option<&'a [Step<'a>]>,
        key: &'a str,
    ) -> Result<(Option<&'a [Step<'a>]>, &'a str), ParseError> {
        let mut left = table;
        let mut part = key;
        for _part in 0..RECURSION_LIMIT {
            let (word, after) = key_part(alloc, part)?;
            left = to_member(left, word.as_str());
            self.note(left, part);
            let after = skip_ws(after);
            if first(after) != b'.' {
                return Ok((left, after));
            }
            left = self.to_last(left);
            part = skip_ws(skip(after, 1));
        }
        Err(ParseError::at(ErrorKind::Recursion, key))
    }

    /// Walks the header of the next table in an array, whose key is `key`.
    fn walk_array_header(
        &mut self,
        alloc: Global,
        header: &'a str,
        key: &'a str,
    ) -> Result<(), ParseError> {
        let (left, rest) = self.walk_key(alloc, Some(self.steps), skip_ws(key))?;
        let table = self.to_next(left);
        self.note(table, header);
        self.table = table;
        self.rest = behind(behind(rest, b']')?, b']')?;
        Ok(())
    }

    /// Walks a header in brackets.
    fn walk_header(&mut self, alloc: Global, header: &'a str) -> Result<(), ParseError> {
        let key = behind(header, b'[')?;
        if first(key) == b'[' {
            return self.walk_array_header(alloc, header, skip(key, 1));
        }
        let (left, rest) = self.walk_key(alloc, Some(self.steps), skip_ws(key))?;
        self.table = left;
        self.rest = behind(rest, b']')?;
        Ok(())
    }

    /// Walks a value, or into an array or a table.
    fn walk_value(
        &mut self,
        alloc: Global,
        left: Option<&'a [Step<'a>]>,
        value: &'a str,
    ) -> Result<(), ParseError> {
        match first(value) {
            b'[' => {
                self.open.push(Open {
                    left,
                    item: Some(0),
                })?;
                self.rest = skip(value, 1);
            }
            b'{' => {
                self.open.push(Open { left, item: None })?;
                self.rest = skip(value, 1);
            }
            _ => self.rest = behind_scalar(alloc, value)?,
        }
        Ok(())
    }

    /// Walks a key and its value.
    fn walk_pair(
        &mut self,
        alloc: Global,
        table: Option<&'a [Step<'a>]>,
        key: &'a str,
    ) -> Result<(), ParseError> {
        let (left, rest) = self.walk_key(alloc, table, key)?;
        let value = skip_ws(behind(rest, b'=')?);
        self.walk_value(alloc, left, value)
    }

    /// Walks an item of the innermost array.
    fn walk_item(
        &mut self,
        alloc: Global,
        array: Option<&'a [Step<'a>]>,
        number: u32,
        item: &'a str,
    ) -> Result<(), ParseError> {
        if let Some(open) = self.open.last_mut() {
            open.item = Some(number.saturating_add(1));
        }
        let left = to_item(array, number);
        self.note(left, item);
        self.walk_value(alloc, left, item)
    }

    /// Walks a comma, a closing bracket, an item or a pair of the innermost array or table.
    fn walk_inside(
        &mut self,
        alloc: Global,
        around: Open<'a>,
        start: &'a str,
    ) -> Result<(), ParseError> {
        match first(start) {
            b',' => {
                self.rest = skip(start, 1);
                Ok(())
            }
            b']' | b'}' => {
                self.open.pop();
                self.rest = skip(start, 1);
                Ok(())
            }
            _ => match around.item {
                Some(number) => self.walk_item(alloc, around.left, number, start),
                None => self.walk_pair(alloc, around.left, start),
            },
        }
    }

    /// Walks on by a header, a pair, an item or a sign. Fails at the end of the text, too.
    fn walk_on(&mut self, alloc: Global) -> Result<(), ParseError> {
        let start = skip_blank(self.rest, true);
        match self.open.last() {
            Some(around) => {
                let around = *around;
                self.walk_inside(alloc, around, start)
            }
            None => {
                if first(start) == b'[' {
                    self.walk_header(alloc, start)
                } else {
                    self.walk_pair(alloc, self.table, start)
                }
            }
        }
    }

    /// Walks on as long as the text goes, by at most so many tokens.
    fn walk_through(&mut self, alloc: Global, most: usize) -> Result<(), NoMemory> {
        for _token in 0..most {
            match self.walk_on(alloc) {
                Ok(()) => {}
                Err(ParseError::OutOfMemory) => return Err(NoMemory),
                Err(_) => return Ok(()),
            }
        }
        Ok(())
    }
}

/// Walks the text of a document from its front, and returns the offset of the place to which the
/// steps lead, or of that to which the most of them do.
///
/// Fails with `NoMemory` where there is no memory for a key or for the arrays around.
pub(crate) fn walk_to<'a>(
    alloc: Global,
    document: &'a str,
    front: usize,
    steps: &'a [Step<'a>],
) -> Result<usize, NoMemory> {
    let text = document.get(front..).unwrap_or("");
    let mut walk = Walk {
        rest: text,
        found: text,
        found_left: steps.len(),
        steps,
        table: Some(steps),
        open: Vec::new(alloc),
        begun: [0; MOST_LEFT],
    };
    walk.walk_through(alloc, text.len())?;
    Ok(document.len().saturating_sub(walk.found.len()))
}
