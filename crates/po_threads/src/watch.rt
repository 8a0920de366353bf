// SPDX-License-Identifier: MIT
//! What a ticker shares with its thread.

use std::io;
use std::sync::Wait;
use std::sync::atomic::{AtomicBool, Ordering};
use std::thread::Parker;
use std::time::{Clock, Duration, Instant};

/// When a ticker was started, how long its thread sleeps between two ticks, and whether it is to stop.
#[derive(Drop)]
pub(crate) struct Watch {
    started: Instant,
    period: Duration,
    stopped: AtomicBool,
    parker: Parker,
}

impl Watch {
    /// Returns a watch that starts now. Fails if the time can't be read.
    pub(crate) fn new<R: Clock>(rt: &R, period: Duration) -> io::Result<Watch> {
        Ok(Watch {
            started: Instant::now(rt)?,
            period,
            stopped: AtomicBool::new(false),
            parker: Parker::new(),
        })
    }

    /// Returns how many milliseconds have gone by since the watch was started. Fails if the time can't be read.
    pub(crate) fn millis<R: Clock>(&self, rt: &R) -> io::Result<u64> {
        let elapsed = self.started.elapsed(rt)?;
        let millis = elapsed.as_secs().saturating_mul(1_000);
        Ok(millis.saturating_add(u64::from(elapsed.subsec_millis())))
    }

    /// Returns whether the thread is to stop.
    pub(crate) fn is_stopped(&self) -> bool {
        self.stopped.load(Ordering::SeqCst)
    }

    /// Lets the thread sleep for a period, or until it is to stop.
    pub(crate) fn sleep<R: Wait>(&self, rt: &R) {
        self.parker.park_timeout(rt, self.period);
    }

    /// Tells the thread to stop, and wakes it.
    pub(crate) fn stop(&self) {
        self.stopped.store(true, Ordering::SeqCst);
        self.parker.unpark();
    }
}
