// SPDX-License-Identifier: MIT
//! The delimiters (2.2).

/// A delimiter.
#[derive(Clone, Copy, Debug, PartialEq, Eq)]
pub enum Sign {
    Ampersand,
    Tick,
    LeftParenthesis,
    RightParenthesis,
    LeftBracket,
    RightBracket,
    Star,
    Plus,
    Comma,
    Minus,
    Dot,
    Slash,
    Colon,
    Semicolon,
    Less,
    Equal,
    Greater,
    Bar,
    At,
    Arrow,
    DoubleDot,
    DoubleStar,
    Becomes,
    Unequal,
    AtLeast,
    AtMost,
    LeftLabel,
    RightLabel,
    Anything,
}

impl Sign {
    /// The text of the delimiter.
    pub fn text(self) -> &'static str {
        match self {
            Sign::Ampersand => "&",
            Sign::Tick => "'",
            Sign::LeftParenthesis => "(",
            Sign::RightParenthesis => ")",
            Sign::LeftBracket => "[",
            Sign::RightBracket => "]",
            Sign::Star => "*",
            Sign::Plus => "+",
            Sign::Comma => ",",
            Sign::Minus => "-",
            Sign::Dot => ".",
            Sign::Slash => "/",
            Sign::Colon => ":",
            Sign::Semicolon => ";",
            Sign::Less => "<",
            Sign::Equal => "=",
            Sign::Greater => ">",
            Sign::Bar => "|",
            Sign::At => "@",
            Sign::Arrow => "=>",
            Sign::DoubleDot => "..",
            Sign::DoubleStar => "**",
            Sign::Becomes => ":=",
            Sign::Unequal => "/=",
            Sign::AtLeast => ">=",
            Sign::AtMost => "<=",
            Sign::LeftLabel => "<<",
            Sign::RightLabel => ">>",
            Sign::Anything => "<>",
        }
    }
}

/// The delimiter of two characters that these are.
pub fn double_sign(first: u8, second: u8) -> Option<Sign> {
    match (first, second) {
        (b'=', b'>') => Some(Sign::Arrow),
        (b'.', b'.') => Some(Sign::DoubleDot),
        (b'*', b'*') => Some(Sign::DoubleStar),
        (b':', b'=') => Some(Sign::Becomes),
        (b'/', b'=') => Some(Sign::Unequal),
        (b'>', b'=') => Some(Sign::AtLeast),
        (b'<', b'=') => Some(Sign::AtMost),
        (b'<', b'<') => Some(Sign::LeftLabel),
        (b'>', b'>') => Some(Sign::RightLabel),
        (b'<', b'>') => Some(Sign::Anything),
        _ => None,
    }
}

/// The delimiter of one character that this is.
pub fn single_sign(byte: u8) -> Option<Sign> {
    match byte {
        b'&' => Some(Sign::Ampersand),
        b'\'' => Some(Sign::Tick),
        b'(' => Some(Sign::LeftParenthesis),
        b')' => Some(Sign::RightParenthesis),
        b'[' => Some(Sign::LeftBracket),
        b']' => Some(Sign::RightBracket),
        b'*' => Some(Sign::Star),
        b'+' => Some(Sign::Plus),
        b',' => Some(Sign::Comma),
        b'-' => Some(Sign::Minus),
        b'.' => Some(Sign::Dot),
        b'/' => Some(Sign::Slash),
        b':' => Some(Sign::Colon),
        b';' => Some(Sign::Semicolon),
        b'<' => Some(Sign::Less),
        b'=' => Some(Sign::Equal),
        b'>' => Some(Sign::Greater),
        b'|' => Some(Sign::Bar),
        b'@' => Some(Sign::At),
        _ => None,
    }
}
