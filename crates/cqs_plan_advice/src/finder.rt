//! The place of a key or an item in the text of a document.

use crate::tokens::{Token, token_at};
use std::alloc::{AllocError, Global};
use std::str;

/// One step of the way from the root of a document to a place in it.
#[derive(Clone, Copy)]
pub enum Segment<'a> {
    Key(&'a str),
    Item(usize),
}

/// One step of the way to where the finder is: a key, by its bytes in the document, or an item.
#[derive(Clone, Copy)]
enum Level {
    Key { start: usize, end: usize },
    Item(usize),
}

/// What is read next.
#[derive(Clone, Copy)]
enum Mode {
    /// The next line.
    Line,
    /// The keys of a header.
    Header,
    /// The keys before a `=`.
    Key,
    Value,
    /// What comes after a value.
    After,
}

/// An array or an inline table that is open: how many levels there are outside it, and which item
/// of the array is read.
#[derive(Clone, Copy)]
struct Frame {
    outside: usize,
    item: Option<usize>,
}

/// Goes through a document, token by token, and keeps the first place that leads farthest on the
/// way that is wanted.
#[derive(Drop)]
struct Finder<'a> {
    document: &'a [u8],
    wanted: &'a [Segment<'a>],
    mode: Mode,
    levels: Vec<Level>,
    frames: Vec<Frame>,
    /// How many levels the header of the present lines has.
    header: usize,
    /// Where the present key or header begins.
    start: usize,
    /// How many headers `[[job]]` there were.
    jobs: usize,
    is_item: bool,
    found: Option<usize>,
    depth: usize,
}

/// Where the key or the item stands to which this way leads, or the last on the way that is there:
/// the number of its first byte.
pub fn find(
    alloc: Global,
    document: &[u8],
    wanted: &[Segment<'_>],
) -> Result<Option<usize>, AllocError> {
    let mut finder = Finder {
        document,
        wanted,
        mode: Mode::Line,
        levels: Vec::new(alloc),
        frames: Vec::new(alloc),
        header: 0,
        start: 0,
        jobs: 0,
        is_item: false,
        found: None,
        depth: 0,
    };
    let mut next = 0;
    for (at, byte) in document.iter().enumerate() {
        if at >= next {
            let (token, end) = token_at(document, at, *byte);
            finder.see(token, at, end)?;
            next = end;
        }
    }
    Ok(finder.found)
}

impl Finder<'_> {
    fn see(&mut self, token: Token, start: usize, end: usize) -> Result<(), AllocError> {
        if matches!(token, Token::Blank) {
            return Ok(());
        }
        match self.mode {
            Mode::Line => self.see_line(token, start, end),
            Mode::Header => self.see_header(token, start, end),
            Mode::Key => self.see_key(token, start, end),
            Mode::Value => self.see_value(token, start),
            Mode::After => self.see_after(token),
        }
    }

    fn see_line(&mut self, token: Token, start: usize, end: usize) -> Result<(), AllocError> {
        match token {
            Token::Sign(b'[') => {
                self.mode = Mode::Header;
                self.levels.truncate(0);
                self.start = start;
                self.is_item = false;
                Ok(())
            }
            Token::Word | Token::Text => {
                self.mode = Mode::Key;
                self.see_key(token, start, end)
            }
            Token::Sign(_) | Token::LineEnd | Token::Blank => Ok(()),
        }
    }

    fn see_header(&mut self, token: Token, start: usize, end: usize) -> Result<(), AllocError> {
        match token {
            Token::Word | Token::Text => {
                self.levels.push(Level::Key { start, end })?;
                self.see_job(start, end)?;
            }
            Token::Sign(b'[') => self.is_item = true,
            Token::Sign(b']') => {
                self.header = self.levels.len();
                self.note(self.start);
            }
            Token::LineEnd => self.mode = Mode::Line,
            Token::Sign(_) | Token::Blank => {}
        }
        Ok(())
    }

    /// The header `[[job]]` begins the next job, and other headers of `job` go on with the last.
    fn see_job(&mut self, start: usize, end: usize) -> Result<(), AllocError> {
        if self.levels.len() != 1 || !is_key(self.document, start, end, "job") {
            return Ok(());
        }
        if self.is_item {
            self.jobs = self.jobs.saturating_add(1);
        }
        if self.jobs > 0 {
            self.levels.push(Level::Item(self.jobs - 1))?;
        }
        Ok(())
    }

    fn see_key(&mut self, token: Token, start: usize, end: usize) -> Result<(), AllocError> {
        match token {
            Token::Word | Token::Text => {
                if self.levels.len() <= self.outside() {
                    self.start = start;
                }
                self.levels.push(Level::Key { start, end })?;
            }
            Token::Sign(b'=') => {
                self.note(self.start);
                self.mode = Mode::Value;
            }
            Token::Sign(b'}') => self.close(),
            Token::Sign(_) | Token::LineEnd | Token::Blank => {}
        }
        Ok(())
    }

    fn see_value(&mut self, token: Token, start: usize) -> Result<(), AllocError> {
        if matches!(token, Token::Word | Token::Text | Token::Sign(b'[' | b'{')) {
            self.note(start);
        }
        match token {
            Token::Word | Token::Text => self.mode = Mode::After,
            Token::Sign(b'[') => {
                let outside = self.levels.len();
                self.open(Frame {
                    outside,
                    item: Some(0),
                })?;
            }
            Token::Sign(b'{') => {
                let outside = self.levels.len();
                self.open(Frame {
                    outside,
                    item: None,
                })?;
            }
            Token::Sign(b']') => self.close(),
            Token::Sign(_) | Token::LineEnd | Token::Blank => {}
        }
        Ok(())
    }

    fn see_after(&mut self, token: Token) -> Result<(), AllocError> {
        match token {
            Token::Sign(b',') => self.go_on(),
            Token::Sign(b']') | Token::Sign(b'}') => {
                self.close();
                Ok(())
            }
            Token::LineEnd if self.frames.is_empty() => {
                self.levels.truncate(self.header);
                self.mode = Mode::Line;
                Ok(())
            }
            Token::Sign(_) | Token::Word | Token::Text | Token::LineEnd | Token::Blank => Ok(()),
        }
    }

    /// How many levels there are outside the key that is read.
    fn outside(&self) -> usize {
        match self.frames.last() {
            Some(frame) => frame.outside,
            None => self.header,
        }
    }

    /// Begins an item of an array, or a key of an inline table.
    fn open(&mut self, frame: Frame) -> Result<(), AllocError> {
        self.frames.push(frame)?;
        match frame.item {
            Some(item) => {
                self.levels.push(Level::Item(item))?;
                self.mode = Mode::Value;
            }
            None => self.mode = Mode::Key,
        }
        Ok(())
    }

    /// After a comma.
    fn go_on(&mut self) -> Result<(), AllocError> {
        match self.frames.pop() {
            Some(frame) => {
                self.levels.truncate(frame.outside);
                self.open(Frame {
                    outside: frame.outside,
                    item: frame.item.map(|item| item.saturating_add(1)),
                })
            }
            None => Ok(()),
        }
    }

    /// After the end of an array or an inline table.
    fn close(&mut self) {
        if let Some(frame) = self.frames.pop() {
            self.levels.truncate(frame.outside);
        }
        self.mode = Mode::After;
    }

    /// Keeps a place, where the way to it is farther on the way that is wanted than any before.
    fn note(&mut self, at: usize) {
        let depth = self.levels.len().min(self.wanted.len());
        if depth > self.depth && self.is_on_the_way() {
            self.depth = depth;
            self.found = Some(at);
        }
    }

    fn is_on_the_way(&self) -> bool {
        let document = self.document;
        self.levels
            .iter()
            .zip(self.wanted)
            .all(|(level, segment)| is_same(document, *level, *segment))
    }
}

fn is_same(document: &[u8], level: Level, segment: Segment<'_>) -> bool {
    match (level, segment) {
        (Level::Key { start, end }, Segment::Key(key)) => is_key(document, start, end, key),
        (Level::Item(one), Segment::Item(other)) => one == other,
        (Level::Key { .. }, Segment::Item(_)) | (Level::Item(_), Segment::Key(_)) => false,
    }
}

/// Whether these bytes of a document write the key, with or without quotes, and behind a byte
/// order mark, which may stand before the first.
fn is_key(document: &[u8], start: usize, end: usize, key: &str) -> bool {
    let Some(written) = document.get(start..end) else {
        return false;
    };
    match str::from_utf8(written) {
        Ok(written) => {
            let written = written.trim_start_matches('\u{feff}');
            written.trim_matches('"').trim_matches('\'') == key
        }
        Err(_) => false,
    }
}
