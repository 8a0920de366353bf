// SPDX-License-Identifier: MIT
//! What a scene says.

ghost use Rattle.std.specs.Prelude.{◌≤◌, vec_len};

use crate::fault::refused;
use po_ada_language::{Operation, Stop, no_object};
use po_ada_names::ObjectNames;
use po_ada_unit::{AdaUnit, Values};
use po_queues::Order;
use std::alloc::Global;

/// A scene has at most this many objects.
pub const MOST_OBJECTS: usize = 16;

/// A scene has at most this many callers.
pub const MOST_CALLERS: usize = 64;

/// A caller makes at most this many commands.
pub const MOST_COMMANDS: usize = 1_000;

/// The fault of a scene with too many objects.
const TOO_MANY_OBJECTS: &str = "a scene has at most 16 objects";

/// The fault of a caller with too many commands.
const TOO_MANY_COMMANDS: &str = "a caller makes at most 1,000 commands";

/// A protected object of a scene.
#[derive(Drop)]
pub struct SceneObject {
    /// The name by which commands call it; no text if it is the only one and has none.
    pub name: String,
    /// The words after `unit` or after the name: those by which a script makes the same object.
    pub words: String,
    /// The object as it begins.
    pub unit: AdaUnit,
    /// The names of its text.
    pub names: ObjectNames,
    /// Which entry is served first if several are open.
    pub order: Order,
    /// How many calls a queue can have.
    pub max_queue: Option<u64>,
}

/// What a caller does.
#[derive(Clone, Copy, Debug, PartialEq, Eq)]
pub enum Action {
    /// Carries out this operation on the object with this position.
    Operate {
        object: u16,
        operation: Operation<Values>,
    },
    /// Tries to cancel the waiting call of the caller with this position (9.5.3).
    Abort(u16),
    /// Raises the clock of all objects to this time, unless it is already later.
    Tick(u64),
}

/// A command of a caller.
#[derive(Clone, Copy, Debug)]
pub struct Command {
    pub action: Action,
    /// The position of its line among those of the scene.
    pub line: usize,
}

/// A caller: a task that makes one command after the other (9.5.3). While a call of its waits, it makes none.
#[derive(Debug, Drop)]
pub struct Caller {
    pub name: String,
    /// Its commands, in their order.
    pub commands: Vec<Command>,
    ghost few: { vec_len commands ≤ 1_000 },
}

impl Caller {
    /// Returns a caller without commands.
    pub(crate) fn new(alloc: Global, name: String) -> Caller {
        Caller {
            name,
            commands: Vec::new(alloc),
        }
    }

    /// Adds a command. Fails if there are 1,000.
    pub(crate) fn add(&mut self, alloc: Global, command: Command) -> Result<(), Stop> {
        if self.commands.len() >= MOST_COMMANDS {
            return Err(refused(alloc, TOO_MANY_COMMANDS));
        }
        self.commands.push(command)?;
        Ok(())
    }

    /// Has the commands from this position on come this many times. Fails if there are more than 1,000 then.
    pub(crate) fn repeat(&mut self, alloc: Global, from: usize, times: u64) -> Result<(), Stop> {
        let repeated = match self.commands.get(from..) {
            Some(commands) => commands.to_vec(alloc)?,
            None => return Ok(()),
        };
        if repeated.is_empty() {
            return Ok(());
        }
        for _ in 1..times {
            for command in repeated.iter() {
                self.add(alloc, *command)?;
            }
        }
        Ok(())
    }
}

/// Protected objects, and callers of their operations.
#[derive(Drop)]
pub struct Scene {
    pub objects: Vec<SceneObject>,
    pub callers: Vec<Caller>,
    /// The lines of the commands, as a script has them if there is one object.
    pub lines: Vec<String>,
    ghost few_objects: { vec_len objects ≤ 16 },
    ghost few_callers: { vec_len callers ≤ 64 },
}

impl Scene {
    /// Adds an object. Fails if there are 16.
    pub(crate) fn add_object(&mut self, alloc: Global, object: SceneObject) -> Result<(), Stop> {
        if self.objects.len() >= MOST_OBJECTS {
            return Err(no_object(alloc, TOO_MANY_OBJECTS));
        }
        self.objects.push(object)?;
        Ok(())
    }
}
