// SPDX-License-Identifier: MIT
//! How far a scene is: its objects, and how many commands each caller has made.

ghost use Rattle.std.specs.Prelude.{◌≡◌, ◌↔◌, ◌⊎◌, ◌+◌, ◌++◌, IsTrue, length, map, flat_map, slice_index, slice_set, slice_get, option_map, IfOk, IfErr, OnOk};
ghost use Rattle.po_ada_unit.specs.Object.{ada_meaning};
ghost use Rattle.po_explore.specs.Commands.{value_cells, after_operation, after_asking, after_abort};
ghost use Rattle.po_explore.specs.News.{told_at, asking_news, abort_news, tick_news, action_news, step_news};
ghost use Rattle.po_explore.specs.Scenes.{views_of, stage_of, changed, after_command, acted, next_of as next_command, latest_at, number_in, IsBeginning, CantBegin, IsOver, IsStuck, command_at as the_command, waits as is_waiting};

use crate::news::News;
use crate::object::Object;
use po_ada_language::{Operation, Stop};
use po_ada_unit::Values;
use po_scene::{Action, Command, Scene, SceneObject};
use std::alloc::{AllocError, Global};

/// How far a scene is.
#[derive(Drop)]
pub(crate) struct Stage {
    /// The objects of the scene, in its order.
    pub(crate) objects: Vec<Object>,
    /// By caller: how many commands it has made.
    pub(crate) made: Vec<u32>,
}

/// Returns how many callers there are.
pub(crate) fn caller_count(scene: &Scene) -> u16
    ensures { result ≡ length scene.now.callers.items }
{
    scene.callers.len() as u16
}

/// Returns how many objects there are.
pub(crate) fn object_count(scene: &Scene) -> u16
    ensures { result ≡ length scene.now.objects.items }
{
    scene.objects.len() as u16
}

/// Returns the command of the caller with this position among its commands.
pub(crate) fn command_at(scene: &Scene, caller: u16, position: u32) -> Option<Command>
    ensures { result ≡ the_command scene.now caller position }
{
    let commands = &scene.callers.get(usize::from(caller))?.commands;
    commands.get(position as usize).copied()
}

impl Stage {
    /// Returns how the scene begins, on new objects.
    pub(crate) fn new(alloc: Global, scene: &Scene) -> Result<Stage, Stop>
        ensures begins { IfOk result (λ stage. IsBeginning scene.now (stage_of stage)) }
        ensures fails { IfErr result (λ stop. (stop ≡ Stop.OutOfMemory) ⊎ CantBegin scene.now) }
    {
        let mut objects = Vec::with_capacity(alloc, scene.objects.len())?;
        for named in scene.objects.iter() {
            objects.push(Object::new(alloc, named, caller_count(scene))?)?;
        }
        Ok(Stage {
            objects,
            made: Vec::from_elem(alloc, 0u32, scene.callers.len())?,
        })
    }

    /// Returns the object with this position, if there is one.
    pub(crate) fn object(&self, position: u16) -> Option<&Object>
        ensures { option_map (λ o. o.now.core.object) result ≡ slice_get (views_of self.now) position }
    {
        self.objects.get(usize::from(position))
    }

    /// Returns how many commands the caller has made.
    pub(crate) fn made(&self, caller: u16) -> u32
        ensures { result ≡ slice_index self.now.made.items caller }
    {
        match self.made.get(usize::from(caller)) {
            Some(made) => *made,
            None => 0,
        }
    }

    /// Returns whether a call of the caller waits.
    pub(crate) fn waits(&self, caller: u16) -> bool
        ensures { result ≡ is_waiting (views_of self.now) caller }
    {
        for object in self.objects.iter() {
            if object.has_call_of(caller) {
                return true;
            }
        }
        false
    }

    /// Returns the number of the caller's waiting call, if one waits.
    pub(crate) fn waiting_number(&self, caller: u16) -> Option<u64>
        ensures { result ≡ number_in (views_of self.now) caller }
    {
        for object in self.objects.iter() {
            let number = object.waiting_number(caller);
            if number.is_some() {
                return number;
            }
        }
        None
    }

    /// Returns the next command of the caller, unless its call waits or it has made all.
    pub(crate) fn next_of(&self, scene: &Scene, caller: u16) -> Option<Command>
        ensures { result ≡ next_command scene.now (stage_of self.now) caller }
    {
        if self.waits(caller) {
            return None;
        }
        command_at(scene, caller, self.made(caller))
    }

    /// Returns the latest command of the caller, if it has made one.
    pub(crate) fn latest_of(&self, scene: &Scene, caller: u16) -> Option<Command>
        ensures { result ≡ latest_at scene.now caller (slice_index self.now.made.items caller) }
    {
        let latest = self.made(caller).checked_sub(1)?;
        command_at(scene, caller, latest)
    }

    /// Returns the line of the latest command of the caller, if it has made one.
    pub(crate) fn line_of(&self, scene: &Scene, caller: u16) -> Option<usize>
        ensures { result ≡ option_map (λ c. c.line) (latest_at scene.now caller (slice_index self.now.made.items caller)) }
    {
        Some(self.latest_of(scene, caller)?.line)
    }

    /// Returns whether no caller can make a command.
    pub(crate) fn is_over(&self, scene: &Scene) -> bool
        ensures { IsTrue result ↔ IsOver scene.now (stage_of self.now) }
    {
        for caller in 0..caller_count(scene) {
            if self.next_of(scene, caller).is_some() {
                return false;
            }
        }
        true
    }

    /// Returns whether no caller can make a command, and some wait.
    pub(crate) fn is_stuck(&self, scene: &Scene) -> bool
        ensures { IsTrue result ↔ IsStuck scene.now (stage_of self.now) }
    {
        for caller in 0..caller_count(scene) {
            if self.waits(caller) {
                return self.is_over(scene);
            }
        }
        false
    }

    /// Notes that the caller makes its next command.
    fn advance(&mut self, caller: u16) -> Result<(), AllocError>
        ensures made { OnOk result (self.new.made.items ≡ slice_set self.old.made.items caller (slice_index self.old.made.items caller + 1)) }
        ensures objects { self.new.objects ≡ self.old.objects }
    {
        if let Some(made) = self.made.get_mut(usize::from(caller)) {
            let Some(more) = made.checked_add(1) else {
                return Err(AllocError);
            };
            *made = more;
        }
        Ok(())
    }

    /// Carries out an operation of a caller on the object with this position and these names, and adds what that brings about.
    fn operate_at(
        &mut self,
        named: &SceneObject,
        position: usize,
        caller: u16,
        operation: Operation<Values>,
        news: &mut Vec<News>,
    ) -> Result<(), AllocError>
        ensures views { OnOk result (views_of self.new ≡ changed (λ view. after_asking ada_meaning value_cells named.now.names.entries.items view caller operation) position (views_of self.old)) }
        ensures told { OnOk result (news.new.items ≡ news.old.items
            ++ told_at (λ view. asking_news named.now.names.entries.items view caller operation) (slice_get (views_of self.old) position)) }
        ensures made { self.new.made ≡ self.old.made }
    {
        match self.objects.get_mut(position) {
            Some(object) => object.operate(&named.names, caller, operation, news),
            None => Ok(()),
        }
    }

    /// Carries out an operation of a caller on an object, and adds what that brings about.
    fn operate(
        &mut self,
        scene: &Scene,
        object: u16,
        caller: u16,
        operation: Operation<Values>,
        news: &mut Vec<News>,
    ) -> Result<(), AllocError>
        ensures views { OnOk result (views_of self.new ≡ acted scene.now.objects.items (views_of self.old) caller (Action.Operate object operation)) }
        ensures told { OnOk result (news.new.items ≡ news.old.items ++ action_news scene.now.objects.items (views_of self.old) caller (Action.Operate object operation)) }
        ensures made { self.new.made ≡ self.old.made }
    {
        let position = usize::from(object);
        match scene.objects.get(position) {
            Some(named) => self.operate_at(named, position, caller, operation, news),
            None => Ok(()),
        }
    }

    /// Tries to cancel the call of a caller on the object with this position, and adds what that brings about.
    fn abort_at(
        &mut self,
        position: usize,
        caller: u16,
        news: &mut Vec<News>,
    ) -> Result<(), AllocError>
        ensures views { OnOk result (views_of self.new ≡ changed (λ view. after_abort ada_meaning view caller) position (views_of self.old)) }
        ensures told { OnOk result (news.new.items ≡ news.old.items ++ told_at (abort_news caller) (slice_get (views_of self.old) position)) }
        ensures made { self.new.made ≡ self.old.made }
    {
        match self.objects.get_mut(position) {
            Some(object) => object.abort(caller, news),
            None => Ok(()),
        }
    }

    /// Raises the clock of the object with this position, and adds what that brings about.
    fn tick_at(
        &mut self,
        position: usize,
        time: u64,
        news: &mut Vec<News>,
    ) -> Result<(), AllocError>
        ensures views { OnOk result (views_of self.new ≡ changed (λ view. after_operation ada_meaning view 0 (Operation.Tick time)) position (views_of self.old)) }
        ensures told { OnOk result (news.new.items ≡ news.old.items ++ told_at (tick_news time) (slice_get (views_of self.old) position)) }
        ensures made { self.new.made ≡ self.old.made }
    {
        match self.objects.get_mut(position) {
            Some(object) => object.tick(time, news),
            None => Ok(()),
        }
    }

    /// Tries to cancel the call of a caller, and adds what that brings about.
    fn abort(&mut self, caller: u16, news: &mut Vec<News>) -> Result<(), AllocError>
        ensures views { OnOk result (views_of self.new ≡ map (λ view. after_abort ada_meaning view caller) (views_of self.old)) }
        ensures told { OnOk result (news.new.items ≡ news.old.items ++ flat_map (abort_news caller) (views_of self.old)) }
        ensures made { self.new.made ≡ self.old.made }
    {
        for position in 0..self.objects.len() {
            self.abort_at(position, caller, news)?;
        }
        Ok(())
    }

    /// Raises the clocks of all objects, and adds what that brings about.
    fn tick(&mut self, time: u64, news: &mut Vec<News>) -> Result<(), AllocError>
        // Whose tick it is changes nothing.
        ensures views { OnOk result (views_of self.new ≡ map (λ view. after_operation ada_meaning view 0 (Operation.Tick time)) (views_of self.old)) }
        ensures told { OnOk result (news.new.items ≡ news.old.items ++ flat_map (tick_news time) (views_of self.old)) }
        ensures made { self.new.made ≡ self.old.made }
    {
        for position in 0..self.objects.len() {
            self.tick_at(position, time, news)?;
        }
        Ok(())
    }

    /// Carries out what the caller asks for, and adds what that brings about.
    fn act(
        &mut self,
        scene: &Scene,
        caller: u16,
        action: Action,
        news: &mut Vec<News>,
    ) -> Result<(), AllocError>
        ensures views { OnOk result (views_of self.new ≡ acted scene.now.objects.items (views_of self.old) caller action) }
        ensures told { OnOk result (news.new.items ≡ news.old.items ++ action_news scene.now.objects.items (views_of self.old) caller action) }
        ensures made { self.new.made ≡ self.old.made }
    {
        match action {
            Action::Operate { object, operation } => {
                self.operate(scene, object, caller, operation, news)
            }
            Action::Abort(other) => self.abort(other, news),
            Action::Tick(time) => self.tick(time, news),
        }
    }

    /// Has the caller make its next command, if it can, and adds what that brings about.
    pub(crate) fn step(
        &mut self,
        scene: &Scene,
        caller: u16,
        news: &mut Vec<News>,
    ) -> Result<(), AllocError>
        ensures stage { OnOk result (stage_of self.new ≡ after_command scene.now (stage_of self.old) caller) }
        ensures told { OnOk result (news.new.items ≡ news.old.items ++ step_news scene.now (stage_of self.old) caller) }
    {
        match self.next_of(scene, caller) {
            Some(command) => {
                self.advance(caller)?;
                self.act(scene, caller, command.action, news)
            }
            None => Ok(()),
        }
    }
}
