//! The tokens of a document.

/// What a token is.
#[derive(Clone, Copy)]
pub enum Token {
    /// A sign by itself, as `[`, `=` or `,`.
    Sign(u8),
    /// A bare key, or a number, or a word such as `true`.
    Word,
    /// A string, with its quotes.
    Text,
    LineEnd,
    /// Blanks, or a comment.
    Blank,
}

/// The token that begins at a byte of a document, and where it ends.
pub fn token_at(document: &[u8], at: usize, byte: u8) -> (Token, usize) {
    let next = at.saturating_add(1);
    match byte {
        b'\n' => (Token::LineEnd, next),
        b' ' | b'\t' | b'\r' => (Token::Blank, next),
        b'#' => (Token::Blank, comment_end(document, at)),
        b'"' | b'\'' => (Token::Text, text_end(document, at, byte)),
        b'[' | b']' | b'{' | b'}' | b',' | b'=' | b'.' => (Token::Sign(byte), next),
        _ => (Token::Word, word_end(document, at)),
    }
}

fn comment_end(document: &[u8], at: usize) -> usize {
    let length = document
        .iter()
        .skip(at)
        .take_while(|byte| **byte != b'\n')
        .count();
    at.saturating_add(length)
}

fn word_end(document: &[u8], at: usize) -> usize {
    let length = document
        .iter()
        .skip(at)
        .take_while(|byte| is_in_word(**byte))
        .count();
    at.saturating_add(length)
}

fn is_in_word(byte: u8) -> bool {
    !matches!(
        byte,
        b'\n' | b' ' | b'\t' | b'\r' | b'#' | b'[' | b']' | b'{' | b'}' | b',' | b'=' | b'.'
    )
}

/// Where a string ends that begins at a byte with this quote: after the quote that closes it, or
/// after the last of three or more, where it begins with three.
fn text_end(document: &[u8], at: usize, quote: u8) -> usize {
    let opening = document
        .iter()
        .skip(at)
        .take(3)
        .take_while(|byte| **byte == quote)
        .count();
    let quotes = if opening == 3 { 3 } else { 1 };
    let mut closing = 0usize;
    let mut is_escaped = false;
    let mut end = at.saturating_add(quotes);
    for byte in document.iter().skip(at.saturating_add(quotes)) {
        if closing >= quotes && (quotes == 1 || *byte != quote) {
            return end;
        }
        end = end.saturating_add(1);
        if is_escaped {
            is_escaped = false;
            closing = 0;
        } else if *byte == quote {
            closing = closing.saturating_add(1);
        } else {
            closing = 0;
            is_escaped = *byte == b'\\' && quote == b'"';
        }
    }
    end
}
