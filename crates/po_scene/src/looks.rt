// SPDX-License-Identifier: MIT
//! What can be read off a scene by the position of a line, so that a command can be told in the scene's own words.

use crate::scene::{Action, Command, Scene, SceneObject};

impl SceneObject {
    /// Returns the object's name, or that it is the object, if it is the only one and has none.
    pub fn shown_name(&self) -> &str {
        if self.name.is_empty() {
            "the object"
        } else {
            self.name.as_str()
        }
    }
}

impl Scene {
    /// Returns the words of the line with this position, or no text.
    pub fn words_at(&self, line: usize) -> &str {
        match self.lines.get(line) {
            Some(line) => line.as_str(),
            None => "",
        }
    }

    /// Returns the command with this line, if there is one. One that is repeated stands for all that have its line.
    pub fn command_at(&self, line: usize) -> Option<&Command> {
        for caller in self.callers.iter() {
            for command in caller.commands.iter() {
                if command.line == line {
                    return Some(command);
                }
            }
        }
        None
    }

    /// Returns the name of the caller with this line, or no text.
    pub fn caller_at(&self, line: usize) -> &str {
        for caller in self.callers.iter() {
            for command in caller.commands.iter() {
                if command.line == line {
                    return caller.name.as_str();
                }
            }
        }
        ""
    }

    /// Returns the object of the operation with this line, if there is one.
    pub fn object_at(&self, line: usize) -> Option<&SceneObject> {
        match self.command_at(line)?.action {
            Action::Operate { object, .. } => self.objects.get(usize::from(object)),
            _ => None,
        }
    }
}
