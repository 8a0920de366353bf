// SPDX-License-Identifier: MIT
//! An object that threads share, from its opening to its closing.

use crate::shared::Shared;
use crate::team::Team;
use crate::threads::{Work, single, start};
use po_core::{End, Refusal, Volume};
use std::alloc::{AllocError, Global};
use std::io::{self, Print};
use std::sync::{Arc, Wait};
use std::thread::{JoinHandle, Threads};
use std::time::Clock;

/// A shared object; the passes that no thread has, with those that came back last at the end; the threads that have the other
/// passes; what these share besides the object; and the volumes that were cut off from the history, in order.
#[derive(Drop)]
pub(crate) struct Stage<P: Drop, O: Drop> {
    pub(crate) object: Arc<O>,
    pub(crate) team: Arc<Team>,
    pub(crate) passes: Vec<P>,
    pub(crate) volumes: Vec<Volume<u64>>,
    threads: Vec<JoinHandle<P>>,
}

/// The object with its passes and volumes, after no thread has it any more.
#[derive(Drop)]
pub(crate) struct Left<P: Drop, O: Drop> {
    pub(crate) object: O,
    pub(crate) passes: Vec<P>,
    pub(crate) volumes: Vec<Volume<u64>>,
}

impl<P: Drop, O: Drop> Stage<P, O> {
    /// Returns an object with its passes, for threads of which `together` start together.
    pub(crate) fn new(
        alloc: Global,
        object: O,
        passes: Vec<P>,
        together: usize,
    ) -> Result<Stage<P, O>, AllocError> {
        Ok(Stage {
            object: Arc::new(alloc, object)?,
            team: Arc::new(alloc, Team::new(together))?,
            passes,
            volumes: Vec::new(alloc),
            threads: Vec::new(alloc),
        })
    }

    /// Returns what is left, or `None` if a thread still has the object.
    pub(crate) fn leave(self) -> Option<Left<P, O>> {
        let Stage {
            object,
            team,
            passes,
            volumes,
            threads,
        } = self;
        drop(threads);
        drop(team);
        let object = Arc::try_unwrap(object).ok()?;
        Some(Left {
            object,
            passes,
            volumes,
        })
    }

    /// Waits for the end of the latest thread, if there is one, and takes its pass back.
    pub(crate) fn join<R: Threads>(&mut self, rt: &R) -> Result<(), AllocError> {
        if let Some(thread) = self.threads.pop() {
            self.passes.push(thread.join(rt))?;
        }
        Ok(())
    }

    /// Waits for the ends of all threads, and takes their passes back.
    pub(crate) fn join_all<R: Threads>(&mut self, rt: &R) -> Result<(), AllocError> {
        for _ in 0..self.threads.len() {
            self.join(rt)?;
        }
        Ok(())
    }

    /// Prints how many calls had their answers: `calls`, or fewer if no more are seen to come. Returns whether all had.
    pub(crate) fn print_answered<R: Clock + Print>(
        &self,
        rt: &R,
        name: &str,
        calls: u64,
    ) -> io::Result<bool> {
        let all = self.team.sees_answered(rt, calls);
        println!(rt; "{name} {}", self.team.answered())?;
        Ok(all)
    }

    /// Does the same, and if all had, takes the passes of all threads back.
    pub(crate) fn gather<R: Threads + Clock + Print>(
        &mut self,
        rt: &R,
        name: &str,
        calls: u64,
    ) -> io::Result<()> {
        if self.print_answered(rt, name, calls)? {
            self.join_all(rt)?;
        }
        Ok(())
    }
}

impl<P: Drop, O: Shared<P> + Drop> Stage<P, O> {
    /// Calls a single entry with the pass that has been here longest, if there is one.
    pub(crate) fn call<R: Wait>(
        &mut self,
        rt: &R,
        entry: u16,
        value: u64,
    ) -> Option<Result<End<u64>, Refusal>> {
        let pass = self.passes.first_mut()?;
        self.object.enter(rt, pass, single(entry), value)
    }

    /// Runs a procedure with the pass that has been here longest, if there is one.
    pub(crate) fn run<R: Wait>(
        &mut self,
        rt: &R,
        op: u16,
        value: u64,
    ) -> Option<Result<Result<u64, u32>, Refusal>> {
        let pass = self.passes.first_mut()?;
        self.object.run_procedure(rt, pass, op, value)
    }

    /// Once `calls` calls in all have their answers, takes back the pass of the latest thread, and prints what it keeps of its
    /// calls. Returns whether they had.
    pub(crate) fn come_back<R: Threads + Clock + Print>(
        &mut self,
        rt: &R,
        name: &str,
        calls: u64,
    ) -> io::Result<bool> {
        if !self.team.sees_answered(rt, calls) {
            println!(rt; "{name} isn't answered as it should be")?;
            return Ok(false);
        }
        self.join(rt)?;
        if let Some(pass) = self.passes.last() {
            O::print_pass(rt, name, pass)?;
        }
        Ok(true)
    }
}

impl<P: Send + Drop + 'static, O: Shared<P> + Send + Sync + Drop + 'static> Stage<P, O> {
    /// Starts a thread that does the work with the pass that has been here longest, if there is one.
    pub(crate) fn start<R: Threads + Wait + Copy + Send + 'static>(
        &mut self,
        rt: R,
        work: Work,
    ) -> Result<(), AllocError> {
        if self.passes.is_empty() {
            return Ok(());
        }
        let team = Arc::try_clone(&self.team)?;
        let object = Arc::try_clone(&self.object)?;
        let pass = self.passes.remove(0);
        let thread = start(rt, object, team, pass, work)?;
        self.threads.push(thread)?;
        Ok(())
    }

    /// Starts `threads` threads that do the work.
    pub(crate) fn start_all<R: Threads + Wait + Copy + Send + 'static>(
        &mut self,
        rt: R,
        threads: u64,
        work: Work,
    ) -> Result<(), AllocError> {
        for _ in 0..threads {
            self.start(rt, work)?;
        }
        Ok(())
    }
}
