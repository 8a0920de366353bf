// SPDX-License-Identifier: MIT
//! Exceptions and their messages (11.3).

ghost use Rattle.std.specs.Prelude.{◌<◌, IfSome};

use crate::lowering::Lowering;
use po_ada_tree::Stop;
use po_ada_tree::tree::{Expression, Form};
use po_ada_types::Meaning;
use po_program::MESSAGES;

impl<'a> Lowering<'a> {
    /// The number of an exception, without a message.
    pub fn exception(&mut self, expression: &'a Expression) -> Result<u32, Stop> {
        let name = match &expression.form {
            Form::Name(name) => *name,
            Form::Selected(_, name) => name.number,
            _ => return Err(
                self.known.refuse(expression.place, "expected the name of an exception (11.3)"),
            ),
        };
        match self.known.look_up(name) {
            Some(Meaning::Exception(number)) => Ok(number),
            Some(_) => Err(
                self.known.refuse_name(
                    expression.place,
                    "expected an exception, and ",
                    name,
                    " is none (11.3)",
                ),
            ),
            None => Err(self.known.unknown(expression.place, name)),
        }
    }

    /// The number of an exception with a string as its message.
    pub fn with_message(&mut self, exception: u32, message: &'a Expression) -> Result<u32, Stop> {
        let Form::Text(from, to) = message.form else {
            return Err(
                self.known.refuse(
                    message.place,
                    "the message of an exception is a string here (11.3)",
                ),
            );
        };
        let text = self.bytes.get(from..to).unwrap_or(&[]);
        if let Some(number) = decimal(text) {
            return Ok(exception.saturating_add(1).saturating_add(number));
        }
        let position = self.add_message(text)?;
        Ok(
            exception
                .saturating_add(MESSAGES / 2)
                .saturating_add(position),
        )
    }

    /// Adds a string to the table of messages, and returns its position.
    fn add_message(&mut self, text: &[u8]) -> Result<u32, Stop> {
        let position = u32::try_from(self.messages.len()).unwrap_or(0);
        let mut copy = String::new(self.known.alloc);
        for byte in text {
            copy.push(char::from(*byte))?;
        }
        self.messages.push(copy)?;
        Ok(position.min(MESSAGES / 2 - 1))
    }
}

/// The number that these bytes are, if they are its digits, and it is small enough for a message.
fn decimal(text: &[u8]) -> Option<u32>
    ensures { IfSome result (λ number. number < 8388607) }
{
    let is_padded = text.len() > 1 && text.first() == Some(&b'0');
    if text.is_empty() || text.len() > 7 || is_padded {
        return None;
    }
    let mut number = 0u32;
    for byte in text {
        if !byte.is_ascii_digit() {
            return None;
        }
        number = number
            .checked_mul(10)?
            .checked_add(u32::from(*byte).saturating_sub(48))?;
    }
    if number < MESSAGES / 2 - 1 {
        Some(number)
    } else {
        None
    }
}
